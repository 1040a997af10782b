//! Bodies of routines that are resolved by a catalogue, with what they need.
#![tactic(auto)]

mod body_names;
mod body_types;
mod resolve;
mod scopes;

pub use body_needs::{needs_of_body, set_columns};
pub use resolve::{ResolvedBody, resolve_body};
pub use scopes::{body_scope, copy_signature};
