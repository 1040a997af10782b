//! The cascade of an edit on the board of its catalogue.
#![tactic(auto)]

mod board;
mod cascade;
mod effects;
mod judging;
mod laws;
mod preparing;

pub use board::Board;
pub use cascade::{Cascade, Taken, Tried};
pub use laws::{
    a_run_can_still_be_taken_back, fresh_rights_can_be_listed,
    suspects_are_apart_from_what_is_kept, touched_numbers_are_nodes, what_a_cascade_finds_stands,
    what_is_prepared_can_be_planned, what_the_system_could_grant_can_be_listed,
};
