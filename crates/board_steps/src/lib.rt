//! A plan makes of the board of a catalogue that of the new one, and taken back it leaves the old one.
#![tactic(auto)]

mod laws;

pub use laws::{
    a_board_holds_its_catalogue, a_plan_can_be_carried_out, a_plan_makes_the_new_board,
    a_plan_taken_back_leaves_the_old_board, an_empty_graph_is_a_board, no_catalogue_has_a_helper,
    room_changes_no_board_and_no_plan,
};
