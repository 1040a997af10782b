//! Domains: CREATE DOMAIN and ALTER DOMAIN, as the edits that they make of a catalogue.
#![tactic(auto)]

mod added_check;
mod adding;
mod altering;
mod checks;
mod creating;
mod defaults;
mod dropping;
mod names;
mod new_domain;

pub use altering::alter_domain;
pub use creating::create_domain;
