//! What becomes of a graph of keys and links as keys go out, come in, and are linked, many in turn.
#![tactic(auto)]

mod laws;

pub use laws::{
    keys_can_be_inserted_in_turn, nodes_can_be_removed_in_turn, what_inserting_all_adds,
    what_linking_all_adds, what_removing_all_leaves,
};
