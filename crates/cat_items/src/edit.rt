//! Who a statement is run for, what it changes, and why it is refused.

ghost use Rattle.std.specs.Prelude.{◌≡◌};
ghost use Rattle.cat_items.specs.declared.edit.EditError.TheVariants.{Memory};

use crate::item::Item;
use crate::need::Need;
use sql_tree::{Items, Name, Path};
use std::alloc::AllocError;

/// For whom a statement is run: the user, the role that is set, if any, and the default schema.
#[derive(Drop)]
pub struct Who {
    pub user: Name,
    pub role: Option<Name>,
    pub schema: Name,
}

/// What a statement does to a catalogue by itself: the items that it destroys, those that it puts back with
/// other fields, and those that it adds or puts in the place of the first two. Each list is in order.
#[derive(Drop)]
pub struct Edit {
    pub target: Items<Item>,
    pub changed: Items<Item>,
    pub added: Items<Item>,
}

/// Why a statement is refused, by numbers 00 to 19 in the order of these variants.
#[derive(Drop)]
pub enum Refusal {
    /// A piece of the text is no token; the offset counts bytes from the text's start.
    BadToken { offset: usize },
    /// The text has no tree, or its kind isn't built.
    Syntax,
    /// The text begins as a statement that the profile leaves out.
    NotInProfile,
    /// The session has no such connection, or none is current.
    NotConnected,
    /// The session has a connection of the name of the new one.
    ConnectionInUse,
    /// CONNECT names no user.
    UnknownUser,
    /// What must stand doesn't: an authorization or a schema as one name, an object as two, a column as three.
    UnknownName { path: Path },
    /// Neither the user nor an enabled role owns the schema.
    NotOwner { schema: Name },
    /// The least need that isn't met.
    NoPrivilege { need: Need },
    /// The least further item. `by_rights`: the statement is REVOKE or DROP ROLE.
    StillNeeded { item: Item, by_rights: bool },
    /// What is made has a name that is taken, as one name or, of an object, two.
    NameExists { path: Path },
    /// Role grants would lead from a role back to itself.
    RoleCycle,
    /// No role that the user reaches is named. `current`: CURRENT_ROLE where there is none.
    InvalidRole { current: bool },
    /// Types don't fit.
    TypeMismatch,
    /// The target of a foreign key has no such key.
    NoSuchKey,
    /// The column is the only one of its table.
    OnlyColumn,
    /// What may come once comes twice: a name alone, or the table with a second PRIMARY KEY.
    Repeated { path: Path },
    /// The name is reserved for the system.
    NameReserved,
    /// A reference fits two columns, or a qualifier two tables.
    Ambiguous { name: Name },
    /// How many items the new catalogue would have, or columns a table or view of it, or the greatest place of a column.
    CatalogFull { count: u64 },
}

/// Why there is no edit: the statement is refused, or memory is wanting.
#[derive(Drop)]
pub enum EditError {
    Refused(Refusal),
    Memory,
}

impl From<AllocError> for EditError {
    ghost from_gives = { λ _ error. error ≡ Memory };

    fn from(_error: AllocError) -> EditError {
        EditError::Memory
    }
}
