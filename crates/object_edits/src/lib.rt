//! Statements that make views, as the edits that they make of a catalogue.
#![tactic(auto)]

mod laws;
mod made;
mod views;

pub use laws::created_views_are_sound;
pub use views::create_view;
