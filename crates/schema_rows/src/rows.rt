//! The rows of shown descriptors.

ghost use Rattle.std.specs.Prelude.{◌≡◌, ◌++◌, OnOk};
ghost use Rattle.schema_tables.specs.Seen as shown;
ghost use Rattle.schema_tables.specs.TableRows as spec;

use crate::columns::column_rows;
use crate::constraints::{
    assertion_rows, domain_check_rows, foreign_rows, key_rows, table_check_rows,
};
use crate::objects::{domain_rows, routine_rows, schema_rows, table_rows, view_rows};
use crate::rights::right_rows;
use crate::roles::{enabled_role_rows, role_auth_rows, role_rows, user_rows};
use crate::usages::{uses_columns, uses_tables};
use cat_items::Row;
use schema_tables::{Beside, SchemaTable, Seen, SeenNeeds};
use std::alloc::{AllocError, Global};

fn view_needs_rows(
    alloc: Global,
    out: &mut Vec<Row>,
    view: SeenNeeds<'_>,
    table: SchemaTable,
) -> Result<(), AllocError>
    ensures { OnOk result (out.new.items ≡ out.old.items ++ spec.view_needs_rows (shown.needs_of view.entry) table) }
{
    match table {
        SchemaTable::ViewTableUsage => uses_tables(alloc, out, view.object, view.needs.as_slice()),
        SchemaTable::ViewColumnUsage => uses_columns(
            alloc,
            out,
            view.object,
            view.needs.as_slice(),
        ),
        _ => Ok(()),
    }
}

fn routine_needs_rows(
    alloc: Global,
    out: &mut Vec<Row>,
    routine: SeenNeeds<'_>,
    table: SchemaTable,
) -> Result<(), AllocError>
    ensures { OnOk result (out.new.items ≡ out.old.items ++ spec.routine_needs_rows (shown.needs_of routine.entry) table) }
{
    match table {
        SchemaTable::RoutineTableUsage => {
            uses_tables(alloc, out, routine.object, routine.needs.as_slice())
        }
        _ => Ok(()),
    }
}

/// Puts the rows that a shown descriptor has in a table behind those of `out`, where `beside` says what else is
/// shown. `Err` is want of memory.
pub fn rows_of(
    alloc: Global,
    out: &mut Vec<Row>,
    seen: Seen<'_>,
    beside: Beside,
    table: SchemaTable,
) -> Result<(), AllocError>
    ensures { OnOk result (out.new.items ≡ out.old.items ++ spec.rows table (shown.beside_of beside) (shown.shown seen.entry)) }
{
    match seen {
        Seen::User(name) => user_rows(alloc, out, name, table),
        Seen::Role(name) => role_rows(alloc, out, name, table),
        Seen::EnabledRole(name) => enabled_role_rows(alloc, out, name, table),
        Seen::RoleAuth(grant) => role_auth_rows(alloc, out, beside, grant, table),
        Seen::Schema(schema) => schema_rows(alloc, out, schema, table),
        Seen::Table(object) => table_rows(alloc, out, object, table),
        Seen::View(view) => view_rows(alloc, out, view, table),
        Seen::Column(column) => column_rows(alloc, out, beside, column, table),
        Seen::Domain(domain) => domain_rows(alloc, out, domain, table),
        Seen::DomainCheck(check) => domain_check_rows(alloc, out, check, table),
        Seen::Key(key) => key_rows(alloc, out, key, table),
        Seen::Foreign(key) => foreign_rows(alloc, out, key, table),
        Seen::Check(check) => table_check_rows(alloc, out, check, table),
        Seen::Assertion(assertion) => assertion_rows(alloc, out, assertion, table),
        Seen::Routine(routine) => routine_rows(alloc, out, routine, table),
        Seen::ViewNeeds(view) => view_needs_rows(alloc, out, view, table),
        Seen::RoutineNeeds(routine) => routine_needs_rows(alloc, out, routine, table),
        Seen::Held(right) => right_rows(alloc, out, beside, right, table),
        Seen::RoleAdmin(_) | Seen::Grantable(_) => Ok(()),
    }
}
