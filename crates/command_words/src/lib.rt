//! The words of the command line.
#![tactic(auto)]

mod arguments;
mod given;
mod laws;

pub use given::{Given, given_by};
pub use laws::{numbers_may_have_a_sign, some_words_are_refused, users_stand_anywhere};
