//! What plain views need.
#![tactic(auto)]

mod laws;

pub use laws::{a_plain_view_needs_its_base, a_plain_view_needs_the_columns_that_it_shows};
