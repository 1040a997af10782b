//! Rows as they are written.
#![tactic(auto)]

mod write;

pub use write::{write_number, write_rows};
