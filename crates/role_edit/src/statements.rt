//! Statements on roles.

ghost use Rattle.std.specs.Prelude.{IfOk};
ghost use Rattle.cat_items.specs.Good.{IsGood};
ghost use Rattle.edit_rules.specs.First.{IsTested};
ghost use Rattle.edit_laws.specs.Sound.{IsSound};
ghost use Rattle.role_edit.specs.RoleEdits.{IsOnRoles, IsRoleEdit, role_statement_refusals};

use crate::creations::create_role;
use crate::grants::grant_roles;
use crate::revokes::revoke_roles;
use cat_items::{Catalogue, Edit, EditError, Who};
use sql_tree::Statement;
use std::alloc::Global;

/// The edit of CREATE ROLE, and of GRANT and REVOKE of roles (SQL:2003 part 2, 12.4, 12.5 and 12.7), or the first of the
/// statement's refusals by the catalogue as it is. Several roles are granted to several grantees, each to each, or none
/// at all. Nothing further is looked at. `Memory` is want of memory.
pub fn edit_role(
    alloc: Global,
    c: &Catalogue,
    who: &Who,
    statement: &Statement,
) -> Result<Edit, EditError>
    requires good { IsGood c.now.items }
    requires on_roles { IsOnRoles statement.now }
    ensures tested { IsTested (role_statement_refusals c.now.items who.now statement.now) (IsRoleEdit c.now.items who.now statement.now) result }
    ensures sound { IfOk result (IsSound c.now.items) }
{
    match statement {
        Statement::CreateRole(parts) => create_role(alloc, c, who, parts),
        Statement::GrantRoles(parts) => grant_roles(alloc, c, who, parts),
        Statement::RevokeRoles(parts) => revoke_roles(alloc, c, who, parts),
        _ => unreachable!(),
    }
}
