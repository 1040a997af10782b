//! A table that is to be made.

use cat_items::{Item, Need};
use sql_tree::{Items, Object};
use table_parts::Part;

/// A table with its columns and constraints, in reading order.
#[derive(Drop)]
pub struct NewTable {
    pub table: Object,
    pub parts: Items<Part>,
}

/// The constraints that are made, and the privileges that the table needs.
#[derive(Drop)]
pub struct MadeConstraints {
    pub items: Items<Item>,
    pub needs: Items<Need>,
}
