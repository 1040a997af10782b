//! Statements that drop: DROP of an object and DROP ROLE, as the edits that they make of a catalogue.
#![tactic(auto)]

mod drops;
mod objects;
mod parts;
mod roles;

pub use drops::edit_drop;
pub use new_catalogues::further;
pub use objects::{belongings, drop_object, test_dropped};
pub use roles::drop_role;
