//! What a statement sees of the table that it makes or alters.

use cat_items::{Key, Shared};
use sql_tree::{Items, Object, Param};

/// The table that a statement makes or alters, with the columns that it then has, each with its type, and the keys that REFERENCES may
/// mean.
#[derive(Drop)]
pub struct Work {
    pub table: Object,
    pub columns: Items<Param>,
    pub keys: Items<Shared<Key>>,
}
