//! Plain views: one SELECT on one table or view, each item a column of it, none twice.
#![tactic(auto)]

mod plain;
mod simple;

pub use plain::{PlainBase, plain_base};
