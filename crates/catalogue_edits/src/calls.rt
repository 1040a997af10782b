//! The edit of a statement alone.

ghost use Rattle.std.specs.Prelude.{IfOk};
ghost use Rattle.cat_items.specs.Good.{IsGood};
ghost use Rattle.statement_forms.specs.Written.{IsWritten};
ghost use Rattle.edit_rules.specs.First.{IsTested};
ghost use Rattle.edit_laws.specs.Sound.{IsSound};
ghost use Rattle.catalogue_edits.specs.Statements.{IsBuiltEdit, IsEditOf, edit_refusals};

use crate::plan::plan_of;
use cat_items::{Catalogue, Edit, EditError, Who};
use sql_tree::Statement;
use std::alloc::Global;

/// The edit of a statement, or the first of its refusals by the catalogue as it is (SQL:2003 part 2, 11 and 12): of a CREATE, an ALTER, a
/// DROP, a GRANT or a REVOKE. What RESTRICT and the limits refuse is `revise`'s to tell. `Memory` is want of memory.
pub fn edit_statement(
    alloc: Global,
    c: &Catalogue,
    who: &Who,
    statement: &Statement,
) -> Result<Edit, EditError>
    requires good { IsGood c.now.items }
    requires built { IsBuiltEdit statement.now }
    requires written { IsWritten statement.now }
    ensures tested { IsTested (edit_refusals c.now.items who.now statement.now) (IsEditOf c.now.items who.now statement.now) result }
    ensures sound { IfOk result (IsSound c.now.items) }
{
    Ok(plan_of(alloc, c, who, statement)?.edit)
}
