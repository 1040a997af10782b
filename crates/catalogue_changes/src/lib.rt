//! What an edit's outcome changes in a catalogue, in place.
#![tactic(auto)]

mod change;
mod effects;
mod parts;
mod width;

pub use change::{Change, change_of, count_after, make};
pub use effects::{Effects, least_further};
pub use width::columns_beyond_after;
