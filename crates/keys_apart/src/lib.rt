//! The keys of a board are told apart by the order of items.
#![tactic(auto)]

mod laws;

pub use laws::keys_of_a_board_are_apart;
