//! What stands of the part of an edited catalogue over which an edit's suspects are judged.
#![tactic(auto)]

mod laws;
mod rescue;

pub use laws::{a_board_tells_what_is_no_suspect, what_is_rescued_is_found};
pub use rescue::{found_of, rescued};
