//! The rights that the system could grant for the objects of a catalogue.
#![tactic(auto)]

mod system;

pub use system::system_items;
