//! Laws of the cost of a cascade on a board: that its look-ups, part by part, are few against what the edit touches.
#![tactic(auto)]

mod laws;

pub use laws::{
    links_of_a_right_that_is_paid_for_are_few, links_of_an_item_are_few, rights_for_a_part_are_few,
    rights_for_a_part_are_within_the_bound, topics_that_a_right_by_the_system_asks_for_are_few,
    topics_that_an_old_item_asks_for_are_few, what_a_part_has_concerns_its_suspects,
    what_an_edit_takes_is_within_the_bound, what_goes_and_comes_is_within_the_bound,
    what_is_asked_for_takes_few_look_ups, what_is_touched_can_be_told_from_topics,
    what_is_touched_is_reached_within_the_bound, what_is_touched_on_a_board_is_touched,
    what_is_touched_takes_few_look_ups, what_suspects_ask_for_is_within_the_bound,
    what_suspects_ask_for_takes_few_look_ups,
};
