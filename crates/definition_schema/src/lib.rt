//! The Definition Schema: its tables of a catalogue, and its constraints.
#![tactic(auto)]

mod laws;
mod rows;

pub use laws::all_constraints_hold;
pub use rows::{DefRows, DefTable, tables};
