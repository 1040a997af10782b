//! Conditions of constraints that are resolved by a catalogue, with what they need.
#![tactic(auto)]

mod conditions;

pub use conditions::{needs_of_cond, resolve_cond};
