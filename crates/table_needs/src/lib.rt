//! The privileges that columns and constraints of a table need, whether CREATE TABLE makes it or ALTER TABLE adds to it.
#![tactic(auto)]

mod needs;

pub use needs::needs_of;
