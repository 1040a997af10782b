//! Bodies of routines.

ghost use Rattle.std.specs.Prelude.{◌≡◌, ◌↔◌, IsTrue};

use crate::expr::{Expr, Query};
use sql_names::{Items, Name, ObjectName, Same};

/// Whose rights a routine runs with: its owner's or its caller's.
#[derive(Clone, Copy, PartialEq, Eq)]
pub enum Security {
    Definer,
    Invoker,
}

/// What a routine does.
#[derive(Drop)]
pub enum Body {
    /// `RETURN expression`, of a function.
    Return {
        security: Security,
        expr: Expr,
    },
    /// `BEGIN ATOMIC act; .. END`, of a procedure: one or more acts.
    Atomic {
        security: Security,
        acts: Items<Act>,
    },
}

/// A statement in a procedure's body.
#[derive(Drop)]
pub enum Act {
    /// `columns` is empty where no list is written. In a resolved tree it has the columns.
    Insert {
        table: ObjectName,
        columns: Items<Name>,
        source: InsertSource,
    },
    Update {
        table: ObjectName,
        assignments: Items<Assignment>,
        filter: Option<Expr>,
    },
    Delete {
        table: ObjectName,
        filter: Option<Expr>,
    },
    Call {
        routine: ObjectName,
        arguments: Items<Expr>,
    },
}

/// What an INSERT puts in.
#[derive(Drop)]
pub enum InsertSource {
    /// One or more.
    Values(Items<AssignedValue>),
    Query(Query),
}

/// `column = value` after SET.
#[derive(Drop)]
pub struct Assignment {
    pub column: Name,
    pub value: AssignedValue,
}

/// A value that a column is given.
#[derive(Drop)]
pub enum AssignedValue {
    Null,
    Default,
    Expr(Expr),
}

impl Body {
    /// Whether the two are equal in all parts.
    pub fn same(&self, other: &Body) -> bool
        ensures { IsTrue result ↔ (self.now ≡ other.now) }
    {
        match (self, other) {
            (
                Body::Return { security, expr },
                Body::Return {
                    security: other_security,
                    expr: other_expr,
                },
            ) => { security == other_security && expr.same(other_expr) }
            (
                Body::Atomic { security, acts },
                Body::Atomic {
                    security: other_security,
                    acts: other_acts,
                },
            ) => { security == other_security && acts.same_as(other_acts) }
            _ => false,
        }
    }
}

impl Act {
    /// Whether the two are equal in all parts.
    pub fn same(&self, other: &Act) -> bool
        ensures { IsTrue result ↔ (self.now ≡ other.now) }
    {
        match (self, other) {
            (
                Act::Insert {
                    table,
                    columns,
                    source,
                },
                Act::Insert {
                    table: other_table,
                    columns: other_columns,
                    source: other_source,
                },
            ) => {
                table.same(other_table)
                    && columns.same_as(other_columns)
                    && source.same(other_source)
            }
            (
                Act::Update {
                    table,
                    assignments,
                    filter,
                },
                Act::Update {
                    table: other_table,
                    assignments: other_assignments,
                    filter: other_filter,
                },
            ) => {
                table.same(other_table)
                    && assignments.same_as(other_assignments)
                    && filter.same_as(other_filter)
            }
            (
                Act::Delete { table, filter },
                Act::Delete {
                    table: other_table,
                    filter: other_filter,
                },
            ) => { table.same(other_table) && filter.same_as(other_filter) }
            (
                Act::Call { routine, arguments },
                Act::Call {
                    routine: other_routine,
                    arguments: other_arguments,
                },
            ) => { routine.same(other_routine) && arguments.same_as(other_arguments) }
            _ => false,
        }
    }
}

impl Same for Act {
    fn same_as(&self, other: &Act) -> bool {
        self.same(other)
    }
}

impl InsertSource {
    /// Whether the two are equal in all parts.
    pub fn same(&self, other: &InsertSource) -> bool
        ensures { IsTrue result ↔ (self.now ≡ other.now) }
    {
        match (self, other) {
            (InsertSource::Values(a), InsertSource::Values(b)) => a.same_as(b),
            (InsertSource::Query(a), InsertSource::Query(b)) => a.same(b),
            _ => false,
        }
    }
}

impl Assignment {
    /// Whether the two are equal in all parts.
    pub fn same(&self, other: &Assignment) -> bool
        ensures { IsTrue result ↔ (self.now ≡ other.now) }
    {
        self.column.same(&other.column) && self.value.same(&other.value)
    }
}

impl Same for Assignment {
    fn same_as(&self, other: &Assignment) -> bool {
        self.same(other)
    }
}

impl AssignedValue {
    /// Whether the two are equal in all parts.
    pub fn same(&self, other: &AssignedValue) -> bool
        ensures { IsTrue result ↔ (self.now ≡ other.now) }
    {
        match (self, other) {
            (AssignedValue::Null, AssignedValue::Null) => true,
            (AssignedValue::Default, AssignedValue::Default) => true,
            (AssignedValue::Expr(a), AssignedValue::Expr(b)) => a.same(b),
            _ => false,
        }
    }
}

impl Same for AssignedValue {
    fn same_as(&self, other: &AssignedValue) -> bool {
        self.same(other)
    }
}
