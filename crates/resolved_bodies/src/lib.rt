//! What resolves of a body is resolved: a law over the definitions of names, types and pieces alone.
#![tactic(auto)]

mod laws;

pub use laws::bodies_are_resolved;
