//! Statements that drop an object or a role.

ghost use Rattle.std.specs.Prelude.{IfOk};
ghost use Rattle.cat_items.specs.Good.{IsGood};
ghost use Rattle.edit_rules.specs.First.{IsTested};
ghost use Rattle.edit_laws.specs.Sound.{IsSound};
ghost use Rattle.drop_edit.specs.Drops.{IsBuiltDrop, IsDrop, drop_refusals};

use crate::objects::drop_object;
use crate::roles::drop_role;
use cat_items::{Catalogue, Edit, EditError, Who};
use sql_tree::Statement;
use std::alloc::Global;

/// What a DROP takes out of a catalogue by itself, or why it is refused (SQL:2003 part 2, 11.21, 11.23, 11.38, 11.52 and
/// 12.6): the table, view, assertion, routine or role is unknown; the session doesn't act for the owner of the object's
/// schema, or has no admin option of the role. `Memory` is want of memory. Whether the behaviour RESTRICT refuses it is not
/// decided here.
pub fn edit_drop(
    alloc: Global,
    c: &Catalogue,
    who: &Who,
    statement: &Statement,
) -> Result<Edit, EditError>
    requires good { IsGood c.now.items }
    requires built { IsBuiltDrop statement.now }
    ensures tested { IsTested (drop_refusals c.now.items who.now statement.now) (IsDrop c.now.items who.now statement.now) result }
    ensures sound { IfOk result (IsSound c.now.items) }
{
    match statement {
        Statement::DropObject(parts) => drop_object(alloc, c, who, parts.kind, &parts.object),
        Statement::DropRole(role) => drop_role(alloc, c, who, role),
        _ => unreachable!(),
    }
}
