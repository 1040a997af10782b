//! The part of an edited catalogue over which rounds are made: the suspects of the edit, and what they ask for.
#![tactic(auto)]

mod asking;
mod beginning;
mod growing;
mod helpers;
mod rounds;
mod schemas;
mod speakers;
mod telling;
mod under;

pub use helpers::is_helper;
pub use rounds::{Asked, ask_more, part_of};
pub use under::items_under;
