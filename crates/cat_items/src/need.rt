//! Authorization identifiers, and what is needed of them.

use sql_tree::{Action, Name, Path};

/// Whom a right is from, or for: the system, everyone, or a user or role, in this order.
#[derive(PartialEq, Eq, PartialOrd, Ord, Hash, Drop)]
pub enum Auth {
    System,
    Public,
    Named(Name),
}

/// A privilege that something needs, or that is granted: an action on an object, on one of its columns, or
/// ADMIN on a role. Ordered by action, path and column, of which none comes first.
#[derive(PartialEq, Eq, PartialOrd, Ord, Hash, Drop)]
pub struct Need {
    pub action: Action,
    pub on: Path,
    pub column: Option<Name>,
}
