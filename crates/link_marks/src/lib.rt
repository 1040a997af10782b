//! What rests on given numbers of an index, directly or by way of others.
#![tactic(auto)]

mod marks;

pub use marks::reached;
