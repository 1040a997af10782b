//! Texts, names and what is named by them: objects, paths, references, data types and defaults; and values with many owners.
#![tactic(auto)]

mod column;
mod copies;
mod name;
mod object;
mod path;
mod sameness;
mod shared;
mod sort;
mod text;

pub use column::{ObjectName, Reference, TableReference};
pub use copies::{EqualCopy, copy_optional_name};
pub use name::Name;
pub use object::Object;
pub use path::Path;
pub use sameness::Same;
pub use shared::Shared;
pub use sort::{Default, Param, Special, SqlType};
pub use sqlite_items::{Boxed, Items};
pub use text::Text;
