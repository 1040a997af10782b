//! Types and keys of the columns and constraints of a table, and what constraints make, whether CREATE TABLE makes them or ALTER TABLE adds
//! them.
#![tactic(auto)]

mod checks;
mod made;
mod putting;
mod types;

pub use made::constraints_made;
pub use putting::put_all;
pub use types::test_types;
