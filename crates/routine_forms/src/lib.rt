//! What the grammar gives of the routines that it reads.
#![tactic(auto)]

mod laws;

pub use laws::{functions_have_their_forms, procedures_have_their_forms};
