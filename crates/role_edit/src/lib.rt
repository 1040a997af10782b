//! Statements on roles: CREATE ROLE, GRANT and REVOKE of roles, as the edits that they make of a catalogue.
#![tactic(auto)]

mod creations;
mod grants;
mod lists;
mod names;
mod revokes;
mod statements;

pub use creations::create_role;
pub use grants::grant_roles;
pub use revokes::revoke_roles;
pub use statements::edit_role;
