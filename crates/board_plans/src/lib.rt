//! The plan of an edit over a board: which numbers go out, which keys come in, and which links are made.
#![tactic(auto)]

mod arrivals;
mod ends;
mod leaving;
mod plan;
mod spent;

pub use arrivals::Arrival;
pub use plan::{Plan, plan_of};
