//! The texts of statements in a stream of SQL, and the words of a text.
#![tactic(auto)]

mod kind;
mod laws;
mod reading;
mod scan;
mod splitter;
mod tokens;
mod word;

pub use kind::{kind_of, text_of};
pub use laws::{
    each_stream_has_one_division, pieces_compose, spelled_words_are_read,
    texts_are_those_of_the_parts, tokens_spell_their_words,
};
pub use reading::{WordsError, words};
pub use splitter::{Fed, MOST_BYTES, Splitter};
pub use sql_spelling::{
    Kind, is_name, is_reserved, is_reserved_word, reserved_words_are_no_names, same_kind,
};
pub use word::{Symbol, Word};
