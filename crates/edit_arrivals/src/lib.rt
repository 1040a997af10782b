//! What comes onto a board with an edit: the keys of its suspects, with what each is linked with.
#![tactic(auto)]

mod arriving;
mod keys;
mod laws;

pub use arriving::arrivals;
pub use laws::{
    arrivals_by_a_part_are_those_of_the_new_catalogue, what_was_found_has_its_suspects_listed,
};
