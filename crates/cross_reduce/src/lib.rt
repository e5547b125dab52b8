//! Orders of the rows of a layered drawing with few crossings.
//!
//! The rows are swept by the barycentre rule of Sugiyama, Tagawa and Toda 1981, forward and backward; a
//! search goes on from there, by sweeps from other starts, by simulated annealing and by moves of whole
//! edges; and in the end neighbours are exchanged as long as an exchange lowers the crossings. Crossings are counted by tail key,
//! with a vector kernel over the head keys; an exchange is judged by the links of the two neighbours alone.
//! The search works on a list of its own and keeps what it counted of pairs of units. Of what it finds the
//! rows are ordered anew and the crossings counted anew, so it can't do worse than leave them as they were.
//!
//! Units can also be held: in each row the held units stand in the order of their keys, and the free ones go where few links
//! cross.
#![tactic(auto)]

mod annealing;
mod budget;
mod chains;
mod counting;
mod crossing_units;
mod depth_first;
mod exchanging;
mod fans;
mod flat;
mod held;
mod held_search;
mod held_starts;
mod holding;
mod joints;
mod lots;
mod neighbours;
mod ordering;
mod pairs;
mod place_costs;
mod reducing;
mod reinserting;
mod reordering;
mod searching;
mod settling;
mod shortening;
mod sifting;
mod starts;
mod sweeping;
mod tallying;
mod windows;

pub use counting::crossings;
pub use held::reduce_held;
pub use reducing::{reduce, reduce_with_effort};
