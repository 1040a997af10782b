//! The grammar of statements: the words of a text to the tree that they spell.
#![tactic(auto)]

mod alter;
mod creation;
mod information;
mod laws;
mod profile;
mod rights;
mod statements;

pub use laws::brackets_are_counted;
pub use sql_phrases::GrammarError;
pub use statements::{statement, unambiguous};
