//! CREATE SCHEMA, as the edit that it makes of a catalogue.
#![tactic(auto)]

mod schemas;

pub use schemas::create_schema;
