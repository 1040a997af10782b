//! Rows of the Definition Schema and the Information Schema.

use sql_tree::{Items, Text};

/// A value of a row.
#[derive(PartialEq, Eq, Drop)]
pub enum Cell {
    Null,
    Number(u64),
    Words(Text),
}

/// A row: its values, in the order of the columns.
pub type Row = Items<Cell>;
