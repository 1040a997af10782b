//! GRANT and REVOKE of privileges, as the edits that they make of a catalogue.
#![tactic(auto)]

mod grants;
mod named;
mod revokes;
mod rights;
mod statements;
mod taking;
mod targets;

pub use grants::Granting;
pub use role_edit::edit_role;
pub use statements::{edit_grant, edit_revoke, grant, revoke};
