//! The engine: one statement of a session is one step of the book that keeps the catalogue, the sessions' connections and the journal.
#![tactic(auto)]

mod book;
mod environment;
mod journal;
mod laws;
mod machine;
mod outcome;
mod reading;
mod reply;
mod session;
mod sessions;

pub use book::Book;
pub use catalogue_edits::Warning;
pub use information_schema::Rows;
pub use journal::Entry;
pub use laws::{
    a_history_settles_its_replies, a_history_settles_its_state, a_legal_history_finds_room,
    a_refusal_changes_nothing, a_session_changes_alone,
    a_setting_is_that_of_the_current_connection, a_step_is_settled, connected_users_stand,
    connections_have_their_own_names, reached_states_are_good, taken_roles_are_those_that_stand,
    the_journal_is_the_history, users_and_limits_have_one_opening, users_are_those_of_the_opening,
};
pub use machine::Origin;
pub use reply::Reply;
