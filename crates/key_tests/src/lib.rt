//! Tests on the keys of a board: which are helpers' and which of these are topics'; and the keys of ghosts.
#![tactic(auto)]

mod auths;
mod ghosts;
mod helpers;

pub use auths::{is_named, is_public, is_system};
pub use ghosts::{ghost_key, ghost_of, is_by_system};
pub use helpers::{is_helper, is_topic};
