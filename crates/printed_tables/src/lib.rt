//! The Definition Schema as it is written.
#![tactic(auto)]

mod definition;
mod tables;

pub use definition::{Unwritten, write_definition};
pub use tables::write_tables;
