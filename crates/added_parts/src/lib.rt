//! Whether all that an edit adds names and needs only what stands: by the items of the catalogue and the added ones alone.
#![tactic(auto)]

mod adding;
mod extended;
mod laws;

pub use adding::all_stand;
pub use laws::what_stands_is_not_missing;
