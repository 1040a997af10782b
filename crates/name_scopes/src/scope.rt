//! What surrounds an expression or a query.

use sql_tree::{Items, Name, Object, Param, SqlType};

/// The table that a constraint, an UPDATE or a DELETE is on: the names and the types of its columns.
#[derive(Drop)]
pub struct OwnTable {
    pub table: Object,
    pub names: Items<Name>,
    pub sorts: Items<SqlType>,
}

/// A routine's parameters, and the type that it returns if it is a function.
#[derive(Drop)]
pub struct Signature {
    pub routine: Object,
    pub params: Items<Param>,
    pub returns: Option<SqlType>,
}

/// What surrounds an expression or a query: the current schema, the table that it is on, the parameters, the type of
/// VALUE, the routine that is being made, and whether a view may be named.
#[derive(Drop)]
pub struct Scope {
    pub schema: Name,
    pub own: Option<OwnTable>,
    pub params: Items<Param>,
    pub value: Option<SqlType>,
    pub itself: Option<Signature>,
    pub views: bool,
}
