//! The grammar of expressions and queries: the words to the tree that they spell.
#![tactic(auto)]

mod expressions;
mod grammar;
mod laws;
mod operands;
mod queries;

pub use grammar::{expr, query};
pub use laws::{brackets_are_counted, expressions_are_read_exactly, queries_are_read_exactly};
