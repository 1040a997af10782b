//! Names in CREATE TABLE: such that must stand, such that must be free, and names for its constraints.
#![tactic(auto)]

mod given;
mod named;
mod numbers;
mod refusals;

pub use given::test_target;
pub use named::{NamedConstraint, given_names, name_constraints};
pub use refusals::{test_new_constraints, test_repeated};
