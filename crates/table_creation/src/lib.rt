//! CREATE TABLE, as the edit that it makes of a catalogue.
#![tactic(auto)]

mod constraints;
mod creating;
mod items;
mod new_table;

pub use creating::create_table;
