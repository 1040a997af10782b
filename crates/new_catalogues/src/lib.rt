//! What an edit makes of a catalogue: the new one, and what the edit takes beyond its target.
#![tactic(auto)]

mod edits;
mod taken;
mod width;

pub use edits::new_catalogue;
pub use taken::{further, has};
pub use width::columns_beyond;
