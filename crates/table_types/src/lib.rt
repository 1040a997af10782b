//! Types of columns and foreign keys, whether CREATE TABLE makes them or ALTER TABLE adds them.
#![tactic(auto)]

mod classes;
mod foreign;
mod types;

pub use foreign::foreign_made;
pub use types::{has_any_misfit, is_foreign_misfit, test_places};
