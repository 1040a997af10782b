//! Privileges, and to whom and by whom they are granted.

use sql_names::{Items, Name, ObjectName};

/// What a right allows, by its number. Only rights have ADMIN; no privilege of a statement names it.
#[derive(Clone, Copy, PartialEq, Eq, PartialOrd, Ord, Hash)]
pub enum Action {
    Select = 1,
    Insert = 2,
    Update = 3,
    Delete = 4,
    References = 5,
    Usage = 6,
    Execute = 7,
    Admin = 8,
}

/// ALL PRIVILEGES, or one or more.
#[derive(Drop)]
pub enum Privileges {
    All,
    Listed(Items<Privilege>),
}

/// An action. `columns` is empty where no list is written; DELETE, USAGE and EXECUTE have none.
#[derive(Drop)]
pub struct Privilege {
    pub action: Action,
    pub columns: Items<Name>,
}

/// What a privilege is on. TABLE may be left out.
#[derive(Drop)]
pub struct Target {
    pub kind: TargetKind,
    pub object: ObjectName,
}

/// The kind of object that a privilege is on.
#[derive(Clone, Copy, PartialEq, Eq)]
pub enum TargetKind {
    Table,
    Domain,
    Function,
    Procedure,
    Routine,
}

/// To whom a privilege is granted.
#[derive(Drop)]
pub enum Grantee {
    Public,
    Named(Name),
}

/// Who grants: CURRENT_USER or CURRENT_ROLE.
#[derive(Clone, Copy, PartialEq, Eq)]
pub enum Grantor {
    CurrentUser,
    CurrentRole,
}
