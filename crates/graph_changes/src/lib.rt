//! Changes of an index: many numbers out, many keys in, many links.
#![tactic(auto)]

mod ends;
mod laws;
mod many;

pub use ends::{End, change_by_ends};
pub use laws::a_change_can_be_undone;
pub use many::change;
