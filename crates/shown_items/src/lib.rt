//! The rows of schema tables, of what is shown of a catalogue to a session, or of all of it.
#![tactic(auto)]

mod candidates;
mod columns;
mod grants;
mod items;
mod looks;
mod names;
mod objects;
mod own;
mod putting;
mod questions;
mod reads;
mod rights;
mod rows;
mod session;
mod sight;

pub use names::fixed_name;
pub use rows::table_rows;
pub use session::{Session, Viewer};
