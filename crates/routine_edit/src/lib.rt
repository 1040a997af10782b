//! CREATE FUNCTION and CREATE PROCEDURE, as the edits that they make of a catalogue.
#![tactic(auto)]

mod making;
mod names;
mod repeated;
mod routines;

pub use routines::{create_function, create_procedure};
