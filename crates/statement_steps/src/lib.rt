//! Statements that make, alter or drop an object of a schema: the tests that each of them makes, in their order, and its edit.
#![tactic(auto)]

mod making;
mod needs;
mod repeated;
mod resolving;

pub use making::{Making, edit_of};
pub use needs::test_needs;
pub use repeated::test_names_differ;
pub use resolving::by_names;
