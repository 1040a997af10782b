//! What the grammar gives of the statements that it reads.
#![tactic(auto)]

mod laws;

pub use laws::{expressions_are_formed, queries_are_formed, tables_have_their_forms};
