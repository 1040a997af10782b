//! Descriptors.

use crate::need::{Auth, Need};
use sql_names::Shared;
use sql_tree::{Body, Default, Expr, Items, Matching, Name, Object, Param, Query, Rule, SqlType};

/// A schema.
#[derive(Drop)]
#[derive_where(PartialEq, Eq, PartialOrd, Ord, Hash)]
pub struct Schema {
    pub name: Name,
    /// A user or a role.
    #[derive_where(skip)]
    pub owner: Name,
}

/// A view. `needs` are those of its query, sorted; `base` and `base_columns` are those of a plain view.
#[derive(Drop)]
#[derive_where(PartialEq, Eq, PartialOrd, Ord, Hash)]
pub struct View {
    pub view: Object,
    #[derive_where(skip)]
    pub query: Query,
    #[derive_where(skip)]
    pub needs: Items<Need>,
    #[derive_where(skip)]
    pub base: Option<Object>,
    #[derive_where(skip)]
    pub base_columns: Items<Name>,
}

/// A column of a table or a view. Places begin with 1, and have gaps after a drop.
#[derive(Drop)]
#[derive_where(PartialEq, Eq, PartialOrd, Ord, Hash)]
pub struct Column {
    pub table: Object,
    pub place: u32,
    #[derive_where(skip)]
    pub name: Name,
    #[derive_where(skip)]
    pub sort: SqlType,
    #[derive_where(skip)]
    pub domain: Option<Object>,
    #[derive_where(skip)]
    pub default: Option<Default>,
    #[derive_where(skip)]
    pub not_null: bool,
}

/// A domain.
#[derive(Drop)]
#[derive_where(PartialEq, Eq, PartialOrd, Ord, Hash)]
pub struct Domain {
    pub domain: Object,
    #[derive_where(skip)]
    pub sort: SqlType,
    #[derive_where(skip)]
    pub default: Option<Default>,
}

/// A check constraint of a domain.
#[derive(Drop)]
#[derive_where(PartialEq, Eq, PartialOrd, Ord, Hash)]
pub struct DomainCheck {
    pub name: Object,
    #[derive_where(skip)]
    pub domain: Object,
    #[derive_where(skip)]
    pub cond: Expr,
    #[derive_where(skip)]
    pub needs: Items<Need>,
}

/// A PRIMARY KEY or UNIQUE constraint, with its columns as they are written.
#[derive(Drop)]
#[derive_where(PartialEq, Eq, PartialOrd, Ord, Hash)]
pub struct Key {
    pub name: Object,
    #[derive_where(skip)]
    pub table: Object,
    #[derive_where(skip)]
    pub primary: bool,
    #[derive_where(skip)]
    pub columns: Items<Name>,
}

/// A referential constraint, with the key of the target that it is bound to.
#[derive(Drop)]
#[derive_where(PartialEq, Eq, PartialOrd, Ord, Hash)]
pub struct Foreign {
    pub name: Object,
    #[derive_where(skip)]
    pub table: Object,
    #[derive_where(skip)]
    pub columns: Items<Name>,
    #[derive_where(skip)]
    pub key: Object,
    #[derive_where(skip)]
    pub target: Object,
    #[derive_where(skip)]
    pub target_columns: Items<Name>,
    #[derive_where(skip)]
    pub matching: Matching,
    #[derive_where(skip)]
    pub on_update: Rule,
    #[derive_where(skip)]
    pub on_delete: Rule,
}

/// A check constraint of a table. `columns` are the table's own columns that its condition uses, by bytes.
#[derive(Drop)]
#[derive_where(PartialEq, Eq, PartialOrd, Ord, Hash)]
pub struct Check {
    pub name: Object,
    #[derive_where(skip)]
    pub table: Object,
    #[derive_where(skip)]
    pub columns: Items<Name>,
    #[derive_where(skip)]
    pub cond: Expr,
    #[derive_where(skip)]
    pub needs: Items<Need>,
}

/// An assertion.
#[derive(Drop)]
#[derive_where(PartialEq, Eq, PartialOrd, Ord, Hash)]
pub struct Assertion {
    pub name: Object,
    #[derive_where(skip)]
    pub cond: Expr,
    #[derive_where(skip)]
    pub needs: Items<Need>,
}

/// A function, which has a type that it returns, or a procedure, which has none.
#[derive(Drop)]
#[derive_where(PartialEq, Eq, PartialOrd, Ord, Hash)]
pub struct Routine {
    pub routine: Object,
    #[derive_where(skip)]
    pub params: Items<Param>,
    #[derive_where(skip)]
    pub returns: Option<SqlType>,
    #[derive_where(skip)]
    pub body: Body,
    #[derive_where(skip)]
    pub needs: Items<Need>,
}

/// A role authorization descriptor: a role that was granted.
#[derive(PartialEq, Eq, PartialOrd, Ord, Hash, Drop)]
pub struct RoleGrant {
    pub role: Name,
    pub grantor: Auth,
    pub grantee: Name,
}

/// A privilege descriptor: a right that was granted.
#[derive(PartialEq, Eq, PartialOrd, Ord, Hash, Drop)]
pub struct Right {
    pub need: Need,
    pub grantor: Auth,
    pub grantee: Auth,
}

/// A descriptor of a catalogue. Items are ordered, compared and hashed by their kind, in the order of these
/// variants, and then by their key fields, which come first in each kind. An item has 16 bytes.
///
/// So these stand together in a catalogue: the objects of one kind in a schema
/// ([`objects_of`](crate::objects_of)), the columns of a table in the order of their places
/// ([`columns_of`](crate::columns_of)), all role authorizations
/// ([`role_authorizations`](crate::role_authorizations)), those of a role and its admin options
/// ([`role_grants_of`](crate::role_grants_of), [`admin_options_of`](crate::admin_options_of)), and the rights of
/// an action on an object, first those on the whole object and then those on each column, so those of one need
/// ([`held_of`](crate::held_of), [`grantable_of`](crate::grantable_of)). These don't: the constraints of a
/// table, what is based on a domain, and what one grantor granted or one grantee has.
#[derive(PartialEq, Eq, PartialOrd, Ord, Hash, Drop)]
pub enum Item {
    User(Name),
    Role(Name),
    Schema(Shared<Schema>),
    /// A base table.
    Table(Shared<Object>),
    View(Shared<View>),
    Column(Shared<Column>),
    Domain(Shared<Domain>),
    DomainCheck(Shared<DomainCheck>),
    Key(Shared<Key>),
    Foreign(Shared<Foreign>),
    Check(Shared<Check>),
    Assertion(Shared<Assertion>),
    Routine(Shared<Routine>),
    RoleAuth(Shared<RoleGrant>),
    /// WITH ADMIN OPTION.
    RoleAdmin(Shared<RoleGrant>),
    Held(Shared<Right>),
    /// WITH GRANT OPTION.
    Grantable(Shared<Right>),
}

const _: () = prove!(size_of::<Item>() == 16);
