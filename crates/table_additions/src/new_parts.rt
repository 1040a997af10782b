//! A column with its constraints, or a constraint, that is added to a table.

use cat_items::{Item, Need};
use sql_tree::{Items, Object};
use table_parts::Part;
use table_work::Work;
use view_deps::ResolvedExpr;

/// What is added to the table of this name.
#[derive(Drop)]
pub struct NewParts {
    pub table: Object,
    pub parts: Items<Part>,
}

/// What the statement sees of its table, and what its conditions came to.
#[derive(Drop)]
pub struct FoundParts {
    pub work: Work,
    pub found: Items<Option<ResolvedExpr>>,
}

/// The constraints that are made, and what is needed.
#[derive(Drop)]
pub struct MadeParts {
    pub items: Items<Item>,
    pub needs: Items<Need>,
}
