//! CREATE ASSERTION, as the edit that it makes of a catalogue.
#![tactic(auto)]

mod assertions;
mod making;

pub use assertions::create_assertion;
