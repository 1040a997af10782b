//! ALTER TABLE of what stands.

ghost use Rattle.std.specs.Prelude.{IfOk};
ghost use Rattle.sql_tree.specs.declared.statement.Statement.TheVariants as statements;
ghost use Rattle.cat_items.specs.Good.{IsGood};
ghost use Rattle.edit_rules.specs.First.{IsTested};
ghost use Rattle.edit_laws.specs.Sound.{IsSound};
ghost use Rattle.statement_forms.specs.Written.{IsWritten};
ghost use Rattle.table_changes.specs.Changes as spec;

use crate::columns::drop_column;
use crate::constraints::drop_constraint;
use crate::defaults::{drop_default, set_default};
use cat_items::{Catalogue, Edit, EditError, Who};
use sql_tree::{AlterTable, AlterTableAction};
use std::alloc::Global;

/// What ALTER TABLE does to what stands, or why it is refused (SQL:2003 part 2, 11.10): SET DEFAULT and DROP DEFAULT of a column, DROP COLUMN
/// and DROP CONSTRAINT. `Memory` is want of memory. Whether the behaviour RESTRICT refuses it is not decided here.
pub fn alter_standing(
    alloc: Global,
    c: &Catalogue,
    who: &Who,
    statement: &AlterTable,
) -> Result<Edit, EditError>
    requires good { IsGood c.now.items }
    requires standing { spec.IsOfStanding statement.now.action }
    requires written { IsWritten (statements.AlterTable statement.now) }
    ensures tested { IsTested (spec.change_refusals c.now.items who.now statement.now) (spec.IsTableChange c.now.items who.now statement.now) result }
    ensures sound { IfOk result (IsSound c.now.items) }
{
    let table = &statement.table;
    match &statement.action {
        AlterTableAction::SetDefault { column, default } => {
            set_default(alloc, c, who, table, column, default)
        }
        AlterTableAction::DropDefault(column) => drop_default(alloc, c, who, table, column),
        AlterTableAction::DropColumn { column, .. } => drop_column(alloc, c, who, table, column),
        AlterTableAction::DropConstraint { constraint, .. } => {
            drop_constraint(alloc, c, who, table, constraint)
        }
        AlterTableAction::AddColumn(_) | AlterTableAction::AddConstraint(_) => unreachable!(),
    }
}
