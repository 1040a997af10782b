//! Equal copies.

ghost use Rattle.std.specs.Prelude.{◌≡◌, IfOk};

use crate::item::{Column, Domain, Item, Right, RoleGrant};
use crate::need::{Auth, Need};
use sql_tree::{Default, Name, Object};
use std::alloc::AllocError;

/// A part that has equal copies.
trait EqualCopy: Drop {
    fn equal_copy(&self) -> Result<Self, AllocError>
        ensures { IfOk result (λ copy. copy ≡ self.now) };
}

impl EqualCopy for Name {
    fn equal_copy(&self) -> Result<Name, AllocError> {
        self.copy()
    }
}

impl EqualCopy for Object {
    fn equal_copy(&self) -> Result<Object, AllocError> {
        self.copy()
    }
}

impl EqualCopy for Default {
    fn equal_copy(&self) -> Result<Default, AllocError> {
        self.copy()
    }
}

fn copy_optional<T: EqualCopy>(part: &Option<T>) -> Result<Option<T>, AllocError>
    ensures { IfOk result (λ copy. copy ≡ part.now) }
{
    match part {
        None => Ok(None),
        Some(part) => Ok(Some(part.equal_copy()?)),
    }
}

impl Auth {
    /// An equal value, which shares the name. It takes no memory; `Err` is the end of a count of owners.
    pub fn copy(&self) -> Result<Auth, AllocError>
        ensures { IfOk result (λ copy. copy ≡ self.now) }
    {
        match self {
            Auth::System => Ok(Auth::System),
            Auth::Public => Ok(Auth::Public),
            Auth::Named(name) => Ok(Auth::Named(name.copy()?)),
        }
    }
}

impl Need {
    /// An equal value, which shares the names. It takes no memory; `Err` is the end of a count of owners.
    pub fn copy(&self) -> Result<Need, AllocError>
        ensures { IfOk result (λ copy. copy ≡ self.now) }
    {
        Ok(Need {
            action: self.action,
            on: self.on.copy()?,
            column: copy_optional(&self.column)?,
        })
    }
}

impl RoleGrant {
    /// An equal value, which shares the names. It takes no memory; `Err` is the end of a count of owners.
    pub fn copy(&self) -> Result<RoleGrant, AllocError>
        ensures { IfOk result (λ copy. copy ≡ self.now) }
    {
        Ok(RoleGrant {
            role: self.role.copy()?,
            grantor: self.grantor.copy()?,
            grantee: self.grantee.copy()?,
        })
    }
}

impl Right {
    /// An equal value, which shares the names. It takes no memory; `Err` is the end of a count of owners.
    pub fn copy(&self) -> Result<Right, AllocError>
        ensures { IfOk result (λ copy. copy ≡ self.now) }
    {
        Ok(Right {
            need: self.need.copy()?,
            grantor: self.grantor.copy()?,
            grantee: self.grantee.copy()?,
        })
    }
}

impl Column {
    /// An equal value, as the start of a column with other fields. `Err` is want of memory.
    pub fn copy(&self) -> Result<Column, AllocError>
        ensures { IfOk result (λ copy. copy ≡ self.now) }
    {
        Ok(Column {
            table: self.table.copy()?,
            place: self.place,
            name: self.name.copy()?,
            sort: self.sort,
            domain: copy_optional(&self.domain)?,
            default: copy_optional(&self.default)?,
            not_null: self.not_null,
        })
    }
}

impl Domain {
    /// An equal value, as the start of a domain with another default. `Err` is want of memory.
    pub fn copy(&self) -> Result<Domain, AllocError>
        ensures { IfOk result (λ copy. copy ≡ self.now) }
    {
        Ok(Domain {
            domain: self.domain.copy()?,
            sort: self.sort,
            default: copy_optional(&self.default)?,
        })
    }
}

impl Item {
    /// An equal item, which shares its fields. It takes no memory; `Err` is the end of a count of owners.
    pub fn copy(&self) -> Result<Item, AllocError>
        ensures { IfOk result (λ copy. copy ≡ self.now) }
    {
        match self {
            Item::User(name) => Ok(Item::User(name.copy()?)),
            Item::Role(name) => Ok(Item::Role(name.copy()?)),
            Item::Schema(schema) => Ok(Item::Schema(schema.share()?)),
            Item::Table(table) => Ok(Item::Table(table.share()?)),
            Item::View(view) => Ok(Item::View(view.share()?)),
            Item::Column(column) => Ok(Item::Column(column.share()?)),
            Item::Domain(domain) => Ok(Item::Domain(domain.share()?)),
            Item::DomainCheck(check) => Ok(Item::DomainCheck(check.share()?)),
            Item::Key(key) => Ok(Item::Key(key.share()?)),
            Item::Foreign(key) => Ok(Item::Foreign(key.share()?)),
            Item::Check(check) => Ok(Item::Check(check.share()?)),
            Item::Assertion(assertion) => Ok(Item::Assertion(assertion.share()?)),
            Item::Routine(routine) => Ok(Item::Routine(routine.share()?)),
            Item::RoleAuth(grant) => Ok(Item::RoleAuth(grant.share()?)),
            Item::RoleAdmin(grant) => Ok(Item::RoleAdmin(grant.share()?)),
            Item::Held(right) => Ok(Item::Held(right.share()?)),
            Item::Grantable(right) => Ok(Item::Grantable(right.share()?)),
        }
    }
}
