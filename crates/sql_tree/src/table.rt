//! Tables, their columns and constraints.

ghost use Rattle.std.specs.Prelude.{◌≡◌, IfOk};

use crate::expr::Expr;
use sql_names::{Default, EqualCopy, Items, Name, ObjectName, SqlType, copy_optional_name};
use std::alloc::{AllocError, Global};

/// How null values of a foreign key are treated; SIMPLE where MATCH isn't written.
#[derive(Clone, Copy, PartialEq, Eq)]
pub enum Matching {
    Simple,
    Full,
    Partial,
}

/// The referential action after ON DELETE or ON UPDATE; NO ACTION where it isn't written.
#[derive(Clone, Copy, PartialEq, Eq)]
pub enum Rule {
    NoAction,
    Cascade,
    SetNull,
    SetDefault,
    Restrict,
}

/// An element of CREATE TABLE.
#[derive(Drop)]
pub enum TableElement {
    Column(ColumnDefinition),
    Constraint(TableConstraint),
}

/// A column, with its options in the order in which they are written: at most one of them is a DEFAULT.
#[derive(Drop)]
pub struct ColumnDefinition {
    pub column: Name,
    pub sort: ColumnType,
    pub options: Items<ColumnOption>,
}

/// What a column is based on.
#[derive(Drop)]
pub enum ColumnType {
    Type(SqlType),
    Domain(ObjectName),
}

/// What may stand after a column's type.
#[derive(Drop)]
pub enum ColumnOption {
    Default(Default),
    NotNull,
    Constraint {
        name: Option<Name>,
        constraint: ColumnConstraint,
    },
}

/// A constraint on one column.
#[derive(Drop)]
pub enum ColumnConstraint {
    PrimaryKey,
    Unique,
    References(References),
    Check(Expr),
}

/// A constraint of a table, and its name where it is written.
#[derive(Drop)]
pub struct TableConstraint {
    pub name: Option<Name>,
    pub kind: TableConstraintKind,
}

/// What a constraint of a table says. Each list of columns has one or more.
#[derive(Drop)]
pub enum TableConstraintKind {
    PrimaryKey(Items<Name>),
    Unique(Items<Name>),
    ForeignKey {
        columns: Items<Name>,
        references: References,
    },
    Check(Expr),
}

/// `REFERENCES table ..`. `columns` is empty where no list is written.
#[derive(Drop)]
pub struct References {
    pub table: ObjectName,
    pub columns: Items<Name>,
    pub matching: Matching,
    pub on_delete: Rule,
    pub on_update: Rule,
}

/// A domain's check, and its name where it is written.
#[derive(Drop)]
pub struct DomainCheck {
    pub name: Option<Name>,
    pub condition: Expr,
}

impl ColumnDefinition {
    /// An equal value.
    pub fn copy(&self, alloc: Global) -> Result<ColumnDefinition, AllocError>
        ensures { IfOk result (λ copy. copy ≡ self.now) }
    {
        Ok(ColumnDefinition {
            column: self.column.copy()?,
            sort: self.sort.copy()?,
            options: self.options.equal_copy(alloc)?,
        })
    }
}

impl ColumnType {
    /// An equal value.
    pub fn copy(&self) -> Result<ColumnType, AllocError>
        ensures { IfOk result (λ copy. copy ≡ self.now) }
    {
        match self {
            ColumnType::Type(part) => Ok(ColumnType::Type(*part)),
            ColumnType::Domain(part) => Ok(ColumnType::Domain(part.copy()?)),
        }
    }
}

impl ColumnOption {
    /// An equal value.
    pub fn copy(&self, alloc: Global) -> Result<ColumnOption, AllocError>
        ensures { IfOk result (λ copy. copy ≡ self.now) }
    {
        match self {
            ColumnOption::Default(part) => Ok(ColumnOption::Default(part.copy()?)),
            ColumnOption::NotNull => Ok(ColumnOption::NotNull),
            ColumnOption::Constraint { name, constraint } => Ok(ColumnOption::Constraint {
                name: copy_optional_name(name)?,
                constraint: constraint.copy(alloc)?,
            }),
        }
    }
}

impl EqualCopy for ColumnOption {
    fn equal_copy(&self, alloc: Global) -> Result<ColumnOption, AllocError> {
        self.copy(alloc)
    }
}

impl ColumnConstraint {
    /// An equal value.
    pub fn copy(&self, alloc: Global) -> Result<ColumnConstraint, AllocError>
        ensures { IfOk result (λ copy. copy ≡ self.now) }
    {
        match self {
            ColumnConstraint::PrimaryKey => Ok(ColumnConstraint::PrimaryKey),
            ColumnConstraint::Unique => Ok(ColumnConstraint::Unique),
            ColumnConstraint::References(part) => Ok(ColumnConstraint::References(part.copy(
                alloc,
            )?)),
            ColumnConstraint::Check(part) => Ok(ColumnConstraint::Check(part.copy(alloc)?)),
        }
    }
}

impl TableConstraint {
    /// An equal value.
    pub fn copy(&self, alloc: Global) -> Result<TableConstraint, AllocError>
        ensures { IfOk result (λ copy. copy ≡ self.now) }
    {
        Ok(TableConstraint {
            name: copy_optional_name(&self.name)?,
            kind: self.kind.copy(alloc)?,
        })
    }
}

impl TableConstraintKind {
    /// An equal value.
    pub fn copy(&self, alloc: Global) -> Result<TableConstraintKind, AllocError>
        ensures { IfOk result (λ copy. copy ≡ self.now) }
    {
        match self {
            TableConstraintKind::PrimaryKey(part) => Ok(TableConstraintKind::PrimaryKey(
                part.equal_copy(alloc)?,
            )),
            TableConstraintKind::Unique(part) => Ok(TableConstraintKind::Unique(part.equal_copy(
                alloc,
            )?)),
            TableConstraintKind::ForeignKey {
                columns,
                references,
            } => Ok(TableConstraintKind::ForeignKey {
                columns: columns.equal_copy(alloc)?,
                references: references.copy(alloc)?,
            }),
            TableConstraintKind::Check(part) => Ok(TableConstraintKind::Check(part.copy(alloc)?)),
        }
    }
}

impl References {
    /// An equal value.
    pub fn copy(&self, alloc: Global) -> Result<References, AllocError>
        ensures { IfOk result (λ copy. copy ≡ self.now) }
    {
        Ok(References {
            table: self.table.copy()?,
            columns: self.columns.equal_copy(alloc)?,
            matching: self.matching,
            on_delete: self.on_delete,
            on_update: self.on_update,
        })
    }
}

impl DomainCheck {
    /// An equal value.
    pub fn copy(&self, alloc: Global) -> Result<DomainCheck, AllocError>
        ensures { IfOk result (λ copy. copy ≡ self.now) }
    {
        Ok(DomainCheck {
            name: copy_optional_name(&self.name)?,
            condition: self.condition.copy(alloc)?,
        })
    }
}
