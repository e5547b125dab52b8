//! What holds of every drawing that is made from a plan of a level, each as the contract of a function that does nothing: what is
//! drawn stands where the laws of pieces of routes ask for it, routes keep the rules, and they can be joined from traces.
#![tactic(auto)]

mod joins;
mod lawful;
mod laws;
mod routes;
mod stage;
mod standing;

pub use joins::{legs_are_there, points_are_near, steps_alternate, traces_join};
pub use lawful::routes_are_lawful;
pub use laws::{examples, links_cross_as_in_rows};
pub use routes::routes_are_kept;
pub use stage::{routes_are_square, routes_keep_clear, routes_share_docks};
pub use standing::{
    chained_level_is_ready, children_keep_apart, columns_stand, ends_stand, lines_stand,
    nets_stand, outlines_are_drawn, ports_are_kept, the_stage_stands, units_stand,
};
