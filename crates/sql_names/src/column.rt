//! Names as they are written, and what they refer to.

ghost use Rattle.std.specs.Prelude.{◌≡◌, ◌↔◌, IfOk, IsTrue};

use crate::copies::{EqualCopy, copy_optional_name};
use crate::name::Name;
use crate::object::Object;
use crate::sameness::Same;
use std::alloc::{AllocError, Global};

/// An object as it is written. In a resolved tree it is `Qualified`.
#[derive(Drop)]
pub enum ObjectName {
    /// `name`, which means the session's schema.
    Unqualified(Name),
    /// `schema.name`
    Qualified(Object),
}

/// A reference to a column or a parameter: the first two forms are written, the last three resolved.
#[derive(Drop)]
pub enum Reference {
    /// `name`
    Unqualified(Name),
    /// `qualifier.name`
    Qualified {
        qualifier: Name,
        name: Name,
    },
    /// A column of a FROM: `up` counts scopes outward and `at` is the table's place there, both from 0.
    Cell {
        up: usize,
        at: usize,
        qualifier: Name,
        name: Name,
    },
    /// A column of the table that a constraint, an UPDATE or a DELETE is on.
    Own {
        table: Object,
        name: Name,
    },
    /// A parameter of a routine.
    Param {
        name: Name,
    },
}

/// A table of a FROM, `table [[AS] name]`. In a resolved tree it has the name by which it is known.
#[derive(Drop)]
pub struct TableReference {
    pub table: ObjectName,
    pub correlation: Option<Name>,
}

impl ObjectName {
    /// An equal value.
    pub fn copy(&self) -> Result<ObjectName, AllocError>
        ensures { IfOk result (λ copy. copy ≡ self.now) }
    {
        match self {
            ObjectName::Unqualified(part) => Ok(ObjectName::Unqualified(part.copy()?)),
            ObjectName::Qualified(part) => Ok(ObjectName::Qualified(part.copy()?)),
        }
    }
}

impl Reference {
    /// An equal value.
    pub fn copy(&self) -> Result<Reference, AllocError>
        ensures { IfOk result (λ copy. copy ≡ self.now) }
    {
        match self {
            Reference::Unqualified(part) => Ok(Reference::Unqualified(part.copy()?)),
            Reference::Qualified { qualifier, name } => Ok(Reference::Qualified {
                qualifier: qualifier.copy()?,
                name: name.copy()?,
            }),
            Reference::Cell {
                up,
                at,
                qualifier,
                name,
            } => Ok(Reference::Cell {
                up: *up,
                at: *at,
                qualifier: qualifier.copy()?,
                name: name.copy()?,
            }),
            Reference::Own { table, name } => Ok(Reference::Own {
                table: table.copy()?,
                name: name.copy()?,
            }),
            Reference::Param { name } => Ok(Reference::Param { name: name.copy()? }),
        }
    }
}

impl EqualCopy for Reference {
    fn equal_copy(&self, _alloc: Global) -> Result<Reference, AllocError> {
        self.copy()
    }
}

impl TableReference {
    /// An equal value.
    pub fn copy(&self) -> Result<TableReference, AllocError>
        ensures { IfOk result (λ copy. copy ≡ self.now) }
    {
        Ok(TableReference {
            table: self.table.copy()?,
            correlation: copy_optional_name(&self.correlation)?,
        })
    }
}

impl ObjectName {
    /// Whether the two are equal in all parts.
    pub fn same(&self, other: &ObjectName) -> bool
        ensures { IsTrue result ↔ (self.now ≡ other.now) }
    {
        match (self, other) {
            (ObjectName::Unqualified(a), ObjectName::Unqualified(b)) => a.same(b),
            (ObjectName::Qualified(a), ObjectName::Qualified(b)) => a.same(b),
            _ => false,
        }
    }
}

impl Reference {
    /// Whether the two are equal in all parts.
    pub fn same(&self, other: &Reference) -> bool
        ensures { IsTrue result ↔ (self.now ≡ other.now) }
    {
        match (self, other) {
            (Reference::Unqualified(a), Reference::Unqualified(b)) => a.same(b),
            (
                Reference::Qualified { qualifier, name },
                Reference::Qualified {
                    qualifier: other_qualifier,
                    name: other_name,
                },
            ) => { qualifier.same(other_qualifier) && name.same(other_name) }
            (
                Reference::Cell {
                    up,
                    at,
                    qualifier,
                    name,
                },
                Reference::Cell {
                    up: other_up,
                    at: other_at,
                    qualifier: other_qualifier,
                    name: other_name,
                },
            ) => {
                up == other_up
                    && at == other_at
                    && qualifier.same(other_qualifier)
                    && name.same(other_name)
            }
            (
                Reference::Own { table, name },
                Reference::Own {
                    table: other_table,
                    name: other_name,
                },
            ) => { table.same(other_table) && name.same(other_name) }
            (Reference::Param { name }, Reference::Param { name: other_name }) => {
                name.same(other_name)
            }
            _ => false,
        }
    }
}

impl Same for Reference {
    fn same_as(&self, other: &Reference) -> bool {
        self.same(other)
    }
}

impl TableReference {
    /// Whether the two are equal in all parts.
    pub fn same(&self, other: &TableReference) -> bool
        ensures { IsTrue result ↔ (self.now ≡ other.now) }
    {
        self.table.same(&other.table) && self.correlation.same_as(&other.correlation)
    }
}
