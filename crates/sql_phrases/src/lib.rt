//! What all rules of the grammar share: the words that are left, names, lists, data types and defaults.
#![tactic(auto)]

mod error;
mod names;
mod reader;
mod types;

pub use error::GrammarError;
pub use names::{columns, identifier, identifiers, literal_name, object_name, sees_name};
pub use reader::Reader;
pub use types::{default, special_by, sql_type};
