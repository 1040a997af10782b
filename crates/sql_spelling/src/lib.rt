//! How names are spelled: the keywords and which of them are reserved, and the printed text of names, types and defaults.
#![tactic(auto)]

mod keywords;
mod kind;
mod laws;
mod names;

pub use kind::{Kind, is_name, is_reserved, is_reserved_word, keyword, same_kind};
pub use laws::reserved_words_are_no_names;
pub use names::{
    is_bare, print_name, put_alias, put_default, put_literal, put_minus, put_name, put_object,
    put_object_name, put_reference, put_special, put_table, put_type,
};
