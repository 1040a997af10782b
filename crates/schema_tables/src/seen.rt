//! Descriptors as they are shown. What stays hidden isn't in them.

use cat_items::{Assertion, Check, DomainCheck, Foreign, Key, Need, Right, RoleGrant, Schema};
use sql_tree::{Body, Default, Items, Name, Object, Param, Query, SqlType};

/// A view. `query` is `None` where it is hidden.
#[derive(Clone, Copy)]
pub struct SeenView<'a> {
    pub view: &'a Object,
    pub query: Option<&'a Query>,
    pub plain: bool,
}

/// A column, with its ordinal position. `default` is `None` where there is none, or where it is hidden.
#[derive(Clone, Copy)]
pub struct SeenColumn<'a> {
    pub table: &'a Object,
    pub name: &'a Name,
    pub position: u64,
    pub default: Option<&'a Default>,
    pub not_null: bool,
    pub sort: SqlType,
    pub domain: Option<&'a Object>,
}

/// A domain. `default` is `None` where there is none, or where it is hidden.
#[derive(Clone, Copy)]
pub struct SeenDomain<'a> {
    pub domain: &'a Object,
    pub sort: SqlType,
    pub default: Option<&'a Default>,
}

/// A routine. `body` is `None` where it is hidden.
#[derive(Clone, Copy)]
pub struct SeenRoutine<'a> {
    pub routine: &'a Object,
    pub params: &'a Items<Param>,
    pub returns: Option<SqlType>,
    pub body: Option<&'a Body>,
}

/// What a view or a routine needs.
#[derive(Clone, Copy)]
pub struct SeenNeeds<'a> {
    pub object: &'a Object,
    pub needs: &'a Items<Need>,
}

/// A descriptor, or a part of one, as it is shown.
#[derive(Clone, Copy)]
pub enum Seen<'a> {
    User(&'a Name),
    Role(&'a Name),
    EnabledRole(&'a Name),
    RoleAuth(&'a RoleGrant),
    RoleAdmin(&'a RoleGrant),
    Schema(&'a Schema),
    Table(&'a Object),
    View(SeenView<'a>),
    Column(SeenColumn<'a>),
    Domain(SeenDomain<'a>),
    DomainCheck(&'a DomainCheck),
    Key(&'a Key),
    Foreign(&'a Foreign),
    Check(&'a Check),
    Assertion(&'a Assertion),
    Routine(SeenRoutine<'a>),
    ViewNeeds(SeenNeeds<'a>),
    RoutineNeeds(SeenNeeds<'a>),
    Held(&'a Right),
    Grantable(&'a Right),
}

/// What else is shown beside a descriptor. Of a role authorization, `same` says that an admin option of the same fields
/// is, and `option` that one of its role for its grantee is. Of a privilege, `option` says that its grant option is, and
/// `role` that its grantor or its grantee is an enabled role. Of a column, `option` says that its domain is.
#[derive(Clone, Copy)]
pub struct Beside {
    pub same: bool,
    pub option: bool,
    pub role: bool,
}
