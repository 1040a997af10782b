//! The script of a sample: statements that users make of a seed, with tables, views, grants, revokes and drops.
#![tactic(auto)]

mod draws;
mod laws;
mod round;
mod sample;
mod script;
mod statements;

pub use laws::the_first_numbers_of_seed_one;
pub use sample::sample_texts;
pub use script::Script;
