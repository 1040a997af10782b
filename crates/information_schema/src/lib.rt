//! SELECT from the views of the Information Schema: the answer depends on the query and on what its session may see.
#![tactic(auto)]

mod answers;
mod laws;
mod numbers;
mod refusals;
mod selection;
mod views;

pub use answers::{InfoError, Rows, answer};
pub use laws::answers_alike;
