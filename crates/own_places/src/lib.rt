//! Where each authorization has rights or owns.
#![tactic(auto)]

mod places;

pub use places::OwnPlaces;
