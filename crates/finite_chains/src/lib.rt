//! Finite chains of support, over any type of items and any relation of support.
//!
//! An item *survives* in a list where some finite chain of the list has it: a list in which each item is
//! supported by those that came before it. A cycle of items that support nothing but one another is in no
//! chain. Here is what follows from this alone: how survivors are found, that survivors taken again are
//! themselves, and when a change may be done by looking at the items that it concerns.
#![tactic(auto)]

mod laws;

pub use laws::{
    Change, Support, a_change_keeps_what_it_does_not_concern, a_circle_falls,
    growing_chains_find_survivors, links_count_alike_from_either_end,
    members_settle_a_list_in_order, rescue_finds_survivors, rounds_find_survivors,
    survivors_of_survivors,
};
