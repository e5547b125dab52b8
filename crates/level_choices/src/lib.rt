//! The choices of a level: a table, by which options are read, and the functions with which the phases ask. Between reading and the
//! phase that obeys a choice, all crates pass the choices on as they are.
#![tactic(auto)]

mod choices;

pub use choices::{
    Choice, Form, RowOrder, all_choices, effort_of, elk_name, form_of, full_name, number_of,
    order_of, short_name, straightness_of,
};
