//! Which tables have rows of a kind of descriptors: the others need not look at them.

ghost use Rattle.std.specs.Prelude.{◌≡◌};
ghost use Rattle.shown_items.specs.Reads as spec;

use cat_items::{ObjectKind, Part};
use schema_tables::SchemaTable;

pub fn reads_tables(table: SchemaTable) -> bool
    ensures { result ≡ spec.reads_tables table }
{
    matches!(table, SchemaTable::Tables)
}

pub fn reads_views(table: SchemaTable) -> bool
    ensures { result ≡ spec.reads_views table }
{
    matches!(
        table,
        SchemaTable::Tables
            | SchemaTable::Views
            | SchemaTable::ViewTableUsage
            | SchemaTable::ViewColumnUsage
    )
}

pub fn reads_columns(table: SchemaTable) -> bool
    ensures { result ≡ spec.reads_columns table }
{
    matches!(table, SchemaTable::Columns | SchemaTable::ColumnDomainUsage)
}

pub fn reads_domains(table: SchemaTable) -> bool
    ensures { result ≡ spec.reads_domains table }
{
    matches!(table, SchemaTable::Domains)
}

pub fn reads_routines(table: SchemaTable) -> bool
    ensures { result ≡ spec.reads_routines table }
{
    matches!(
        table,
        SchemaTable::Routines | SchemaTable::Parameters | SchemaTable::RoutineTableUsage
    )
}

pub fn reads_roles(table: SchemaTable) -> bool
    ensures { result ≡ spec.reads_roles table }
{
    matches!(
        table,
        SchemaTable::ApplicableRoles
            | SchemaTable::AdministrableRoleAuthorizations
            | SchemaTable::RoleAuthorizationDescriptors
    )
}

pub fn reads_rights(table: SchemaTable) -> bool
    ensures { result ≡ spec.reads_rights table }
{
    matches!(
        table,
        SchemaTable::TablePrivileges
            | SchemaTable::ColumnPrivileges
            | SchemaTable::UsagePrivileges
            | SchemaTable::RoutinePrivileges
            | SchemaTable::RoleTableGrants
            | SchemaTable::RoleColumnGrants
            | SchemaTable::RoleUsageGrants
            | SchemaTable::RoleRoutineGrants
    )
}

/// What is shown of objects of this kind to the owner of their schema, and to nobody else.
fn reads_owned(table: SchemaTable, kind: ObjectKind) -> bool
    ensures { result ≡ spec.reads_owned table kind }
{
    match kind {
        ObjectKind::View => matches!(
            table,
            SchemaTable::ViewTableUsage | SchemaTable::ViewColumnUsage
        ),
        ObjectKind::Routine => matches!(table, SchemaTable::RoutineTableUsage),
        ObjectKind::Table | ObjectKind::Column | ObjectKind::Domain => false,
        _ => reads_constraints(table),
    }
}

fn reads_constraints(table: SchemaTable) -> bool
    ensures { result ≡ spec.reads_constraints table }
{
    matches!(
        table,
        SchemaTable::DomainConstraints
            | SchemaTable::TableConstraints
            | SchemaTable::ReferentialConstraints
            | SchemaTable::CheckConstraints
            | SchemaTable::KeyColumnUsage
            | SchemaTable::Assertions
            | SchemaTable::ConstraintTableUsage
            | SchemaTable::ConstraintColumnUsage
            | SchemaTable::CheckTableUsage
            | SchemaTable::CheckColumnUsage
    )
}

/// Of the items of a part. Those of objects of a kind are looked at for the owner of a schema.
pub fn reads_part(table: SchemaTable, part: Part<'_>) -> bool
    ensures { result ≡ spec.reads_part table part.entry }
{
    match part {
        Part::Schema(_) => matches!(table, SchemaTable::Schemata),
        Part::Table(_) => reads_tables(table),
        Part::View(_) => reads_views(table),
        Part::Columns(_) => reads_columns(table),
        Part::Domain(_) => reads_domains(table),
        Part::Routine(_) => reads_routines(table),
        Part::Objects(kind, _) => reads_owned(table, kind),
        _ => true,
    }
}
