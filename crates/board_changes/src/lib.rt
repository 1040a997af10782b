//! A plan of an edit, made ready with all its memory, then carried out on a board, and taken back, without memory.
#![tactic(auto)]

mod leaving;
mod readiness;
mod running;

pub use readiness::{Ran, Ready, make_ready};
pub use running::{run, take_back};
