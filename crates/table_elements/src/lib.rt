//! The columns and constraints of a table, whether CREATE TABLE makes them or ALTER TABLE adds them: names that must stand, and what the
//! conditions of checks come to.
#![tactic(auto)]

mod conditions;
mod found;
mod names;

pub use found::found_in_parts;
pub use names::{is_domain, test_domain};
