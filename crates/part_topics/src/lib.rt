//! What was found of a part tells the topics of its suspects in the new catalogue.
#![tactic(auto)]

mod laws;

pub use laws::{suspects_depend_alike, suspects_in_the_part_depend_alike};
