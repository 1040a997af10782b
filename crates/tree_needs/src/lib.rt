//! What queries, conditions and bodies need.
#![tactic(auto)]

mod mention;
mod mentioning;
mod needs;

pub use needs::{needs_of_expr, needs_of_query};
