//! Conditions of domains as conditions of columns: the column in each place of VALUE.
#![tactic(auto)]

mod making;
mod replacing;

pub use replacing::replace_value;
