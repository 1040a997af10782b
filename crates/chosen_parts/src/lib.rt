//! Items that pass a test, looked for in parts of a catalogue alone.
#![tactic(auto)]

mod choosing;
mod searching;
mod stretches;
mod tables;

pub use choosing::chosen_in;
pub use searching::has_in;
pub use tables::parts_of_table;
