//! What bodies of routines need.
#![tactic(auto)]

mod bodies;
mod need_order;

pub use bodies::{needs_of_body, needs_with_all_calls, set_columns};
