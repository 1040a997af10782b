//! ALTER TABLE: ADD of a column and of a constraint, and beside it all actions on what stands, as the edits that they make of a catalogue.
#![tactic(auto)]

mod added;
mod adding;
mod altering;
mod columns;
mod new_parts;
mod ranges;
mod refusing;
mod rights;

pub use altering::alter_table;
pub use table_creation::create_table;
