//! Statements that edit a catalogue: what each makes of it, what it warns of, and why it is refused.
#![tactic(auto)]

mod calls;
mod laws;
mod places;
mod plan;
mod revisions;
mod store;
mod warning;

pub use calls::{edit_statement, edit_statement as edit_alter, edit_statement as edit_create};
pub use laws::{a_refusal_is_settled, a_revision_is_settled, edits_are_sound, edits_leave_users};
pub use plan::{Plan, plan_of};
pub use revisions::{is_edit, revise};
pub use store::Store;
pub use warning::Warning;
