//! Conditions of constraints on a table: which of its columns they use by themselves, and what a domain's becomes for a column.
#![tactic(auto)]

mod columns;
mod laws;
mod references;

pub use columns::own_columns;
pub use laws::replaced_conditions_are_resolved;
