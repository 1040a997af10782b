//! Of an edit on a board the suspects: the items that it touches, and the rights that the system could grant.
#![tactic(auto)]

mod laws;
mod possible;
mod putting;
mod suspects;
mod touched;
mod whole;

pub use laws::suspects_are_touched_or_possible_for_the_part;
pub use suspects::{Suspected, suspects_of};
pub use touched::{TouchedItems, touched_items};
pub use whole::suspects_by_all;
