//! Rows of users, roles and role authorizations.

ghost use Rattle.std.specs.Prelude.{◌≡◌, ◌++◌, ◌∷◌, [], OnOk, IfOk};
ghost use Rattle.schema_tables.specs.Seen as shown;
ghost use Rattle.schema_tables.specs.TableRows as spec;

use crate::cells::{push_auth, push_name, push_words, push_yes};
use cat_items::{RoleGrant, Row};
use schema_tables::{Beside, SchemaTable};
use sql_tree::Name;
use std::alloc::{AllocError, Global};

/// A row of AUTHORIZATIONS.
fn authorization_row(alloc: Global, name: &Name, kind: &[u8]) -> Result<Row, AllocError>
    ensures { IfOk result (λ row. row ≡ spec.authorization_row name.now kind.now) }
{
    let mut row = Row::new(alloc);
    push_name(alloc, &mut row, name)?;
    push_words(alloc, &mut row, kind)?;
    Ok(row)
}

pub fn user_rows(
    alloc: Global,
    out: &mut Vec<Row>,
    name: &Name,
    table: SchemaTable,
) -> Result<(), AllocError>
    ensures { OnOk result (out.new.items ≡ out.old.items ++ spec.user_rows name.now table) }
{
    match table {
        SchemaTable::Authorizations => {
            out.push(authorization_row(alloc, name, b"USER")?)?;
            Ok(())
        }
        _ => Ok(()),
    }
}

pub fn role_rows(
    alloc: Global,
    out: &mut Vec<Row>,
    name: &Name,
    table: SchemaTable,
) -> Result<(), AllocError>
    ensures { OnOk result (out.new.items ≡ out.old.items ++ spec.role_rows name.now table) }
{
    match table {
        SchemaTable::Authorizations => {
            out.push(authorization_row(alloc, name, b"ROLE")?)?;
            Ok(())
        }
        _ => Ok(()),
    }
}

pub fn enabled_role_rows(
    alloc: Global,
    out: &mut Vec<Row>,
    name: &Name,
    table: SchemaTable,
) -> Result<(), AllocError>
    ensures { OnOk result (out.new.items ≡ out.old.items ++ spec.enabled_role_rows name.now table) }
{
    match table {
        SchemaTable::EnabledRoles => {
            let mut row = Row::new(alloc);
            push_name(alloc, &mut row, name)?;
            out.push(row)?;
            Ok(())
        }
        _ => Ok(()),
    }
}

fn applicable_row(alloc: Global, grant: &RoleGrant, option: bool) -> Result<Row, AllocError>
    ensures { IfOk result (λ row. row ≡ spec.applicable_row grant.now option) }
{
    let mut row = Row::new(alloc);
    push_name(alloc, &mut row, &grant.grantee)?;
    push_name(alloc, &mut row, &grant.role)?;
    push_yes(alloc, &mut row, option)?;
    Ok(row)
}

fn descriptor_row(alloc: Global, grant: &RoleGrant, same: bool) -> Result<Row, AllocError>
    ensures { IfOk result (λ row. row ≡ spec.descriptor_row grant.now same) }
{
    let mut row = Row::new(alloc);
    push_name(alloc, &mut row, &grant.role)?;
    push_name(alloc, &mut row, &grant.grantee)?;
    push_auth(alloc, &mut row, &grant.grantor)?;
    push_yes(alloc, &mut row, same)?;
    Ok(row)
}

pub fn role_auth_rows(
    alloc: Global,
    out: &mut Vec<Row>,
    beside: Beside,
    grant: &RoleGrant,
    table: SchemaTable,
) -> Result<(), AllocError>
    ensures { OnOk result (out.new.items ≡ out.old.items ++ spec.role_auth_rows (shown.beside_of beside) grant.now table) }
{
    match table {
        SchemaTable::ApplicableRoles => {
            out.push(applicable_row(alloc, grant, beside.option)?)?;
            Ok(())
        }
        SchemaTable::AdministrableRoleAuthorizations => {
            if beside.option {
                out.push(applicable_row(alloc, grant, true)?)?;
            }
            Ok(())
        }
        SchemaTable::RoleAuthorizationDescriptors => {
            out.push(descriptor_row(alloc, grant, beside.same)?)?;
            Ok(())
        }
        _ => Ok(()),
    }
}
