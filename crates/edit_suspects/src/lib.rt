//! What an edit touches on the board of its catalogue, and that this is a spread of suspicion.
#![tactic(auto)]

mod laws;
mod seeds;
mod touching;

pub use laws::{
    touched_numbers_make_a_spread, what_is_a_suspect_is_added_or_fresh_or_marked,
    what_is_known_is_a_suspect_where_it_is_marked,
};
pub use touching::touched;
