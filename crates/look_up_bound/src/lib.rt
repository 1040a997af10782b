//! Laws of the cost of a cascade: how many topics an item asks for, and how many look-ups that takes, against what is
//! relevant to the item.
#![tactic(auto)]

mod laws;

pub use laws::{
    a_column_pays_for_rights_on_it, a_routine_pays_for_rights_on_it, a_view_pays_for_rights_on_it,
    a_view_that_pays_needs_something, items_under_topics_asked_for_are_few,
    look_ups_are_within_the_bound, look_ups_of_a_suspect_are_few,
    look_ups_with_rights_are_within_the_bound, rights_that_are_paid_for_are_few,
    topics_asked_for_are_few, topics_depended_on_are_few, topics_of_a_right_by_the_system_are_few,
    topics_of_a_right_that_is_paid_for_are_few, topics_that_a_table_asks_for_are_few,
    what_is_asked_for_stands, what_is_depended_on_stands, what_is_touched_is_suspect_or_paid_for,
    what_stands_under_a_topic_asked_for_is_relevant,
};
