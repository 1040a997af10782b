//! Marks that are closed under what rests on them spread over a board as suspicion does over topics.
#![tactic(auto)]

mod laws;

pub use laws::marks_spread_over_topics;
