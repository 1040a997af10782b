//! SET DEFAULT and DROP DEFAULT of a column.

ghost use Rattle.std.specs.Prelude.{◌≡◌, ◌∷◌, [], IfNone, IfOk, IfSome, None, Some};
ghost use Rattle.cat_items.specs.declared.item.Item.TheVariants as item;
ghost use Rattle.cat_items.specs.Good.{IsGood};
ghost use Rattle.cat_items.specs.Pieces.{AreResolved, default_pieces};
ghost use Rattle.cat_items.specs.Reach.{Has};
ghost use Rattle.cat_items.specs.Rights.{IsColumn, path_of};
ghost use Rattle.edit_rules.specs.First.{IsTested};
ghost use Rattle.edit_rules.specs.Names as names;
ghost use Rattle.edit_laws.specs.Sound.{IsSound};
ghost use Rattle.statement_steps.specs.Steps.{refusals_of};
ghost use Rattle.table_changes.specs.Defaults as spec;

use crate::lists::only;
use cat_items::{Catalogue, Column, Edit, EditError, Item, Need, Refusal, Shared, Who, columns_of};
use edit_rules::{object_in, test_base_table};
use sql_tree::{Default, Items, Name, Object, ObjectName, Path};
use statement_steps::{Making, edit_of};
use std::alloc::{AllocError, Global};
use table_parts::is_misfit;

/// The column that an item is, where it has this name.
fn as_column<'a>(x: &'a Item, table: &Object, name: &Name) -> Option<&'a Column>
    ensures found { IfSome result (λ column. (x.now ≡ item.Column column.now) × IsColumn (path_of table.now) name.now x.now) }
    ensures none { IfNone result (¬ (IsColumn (path_of table.now) name.now x.now)) }
{
    match x {
        Item::Column(column) => {
            let column = column.get();
            if column.table.same(table) && column.name.same(name) {
                return Some(column);
            }
            None
        }
        _ => None,
    }
}

/// The column of this name, looked for among the columns of its table alone.
fn find_column<'a>(c: &'a Catalogue, table: &Object, name: &Name) -> Option<&'a Column>
    ensures found { IfSome result (λ column. spec.IsStanding c.now.items table.now name.now column.now) }
    ensures none { IfNone result (¬ (Has c.now.items (IsColumn (path_of table.now) name.now))) }
{
    let items = c.items();
    let all = columns_of(c, table);
    for at in all.start..all.end {
        if let Some(column) = as_column(&items[at], table, name) {
            return Some(column);
        }
    }
    None
}

/// A copy of the column of this name, which must stand: else `UnknownName` of its table's schema and name and of its own name.
fn standing_column(c: &Catalogue, table: &Object, name: &Name) -> Result<Column, EditError>
    ensures { IsTested (names.unknown_column c.now.items table.now name.now ∷ []) (spec.IsStanding c.now.items table.now name.now) result }
{
    if let Some(column) = find_column(c, table, name) {
        return Ok(column.copy()?);
    }
    let path = Path::three(table.schema.copy()?, table.name.copy()?, name.copy()?);
    Err(EditError::Refused(Refusal::UnknownName { path }))
}

/// A column whose default is to be another one, or none.
#[derive(Drop)]
pub struct NewDefault<'a> {
    pub table: Object,
    pub column: &'a Name,
    pub default: Option<Default>,
}

/// The column as it stands, and what a default needs: nothing.
#[derive(Drop)]
pub struct OldColumn {
    pub column: Column,
    pub needs: Items<Need>,
}

/// An equal default, where there is one.
fn copy_default(default: &Option<Default>) -> Result<Option<Default>, AllocError>
    ensures { IfOk result (λ copy. copy ≡ default.now) }
{
    match default {
        None => Ok(None),
        Some(default) => Ok(Some(default.copy()?)),
    }
}

/// The column with another default.
fn with_default(column: &Column, default: &Option<Default>) -> Result<Column, AllocError>
    ensures { IfOk result (λ x. x ≡ record column.now { default = default.now }) }
{
    let mut copy = column.copy()?;
    copy.default = copy_default(default)?;
    Ok(copy)
}

impl<'a> Making for NewDefault<'a> {
    type Named = Column;

    type Made = OldColumn;

    ghost steps = { λ d c who. spec.changing_default c d.table d.column.now d.default };

    ghost naming = { λ d c who named. spec.IsStanding c d.table d.column.now named };

    ghost making = { λ d c who made. spec.IsStanding c d.table d.column.now made.column × (made.needs ≡ []) };

    fn test_tree(&self, _alloc: Global, _c: &Catalogue, _who: &Who) -> Result<(), EditError> {
        Ok(())
    }

    fn names(&self, _alloc: Global, c: &Catalogue, _who: &Who) -> Result<Column, EditError> {
        test_base_table(c, &self.table)?;
        standing_column(c, &self.table, self.column)
    }

    fn schema(&self, _c: &Catalogue, _who: &Who) -> &Name {
        &self.table.schema
    }

    fn test_taken(&self, _alloc: Global, _c: &Catalogue, _who: &Who) -> Result<(), EditError> {
        Ok(())
    }

    fn rules(
        &self,
        alloc: Global,
        _c: &Catalogue,
        _who: &Who,
        named: Column,
    ) -> Result<OldColumn, EditError> {
        if is_misfit(self.default.as_ref(), named.sort) {
            return Err(EditError::Refused(Refusal::TypeMismatch));
        }
        Ok(OldColumn {
            column: named,
            needs: Items::new(alloc),
        })
    }

    fn needs<'b>(&self, _c: &Catalogue, _who: &Who, made: &'b OldColumn) -> &'b Items<Need> {
        &made.needs
    }

    fn edit(
        &self,
        alloc: Global,
        _c: &Catalogue,
        _who: &Who,
        made: OldColumn,
    ) -> Result<Edit, AllocError> {
        let new = with_default(&made.column, &self.default)?;
        let OldColumn { column, .. } = made;
        Ok(Edit {
            target: only(alloc, Item::Column(Shared::new(alloc, column)?))?,
            changed: Items::new(alloc),
            added: only(alloc, Item::Column(Shared::new(alloc, new)?))?,
        })
    }
}

/// SET DEFAULT of a column (SQL:2003 part 2, 11.13), or why it is refused: `UnknownName` of the base table, then of the column, as schema,
/// table and column; `NotOwner` of the table's schema; `TypeMismatch` where the default is of another class than the column. `Memory` is want
/// of memory. The column keeps its place, also where other columns were dropped.
pub fn set_default(
    alloc: Global,
    c: &Catalogue,
    who: &Who,
    table: &ObjectName,
    column: &Name,
    default: &Default,
) -> Result<Edit, EditError>
    requires good { IsGood c.now.items }
    requires formed { AreResolved (default_pieces (Some default.now)) }
    ensures tested { IsTested (refusals_of c.now.items who.now (spec.changing_default c.now.items (names.object_in who.now.schema table.now) column.now (Some default.now))) (spec.MakesDefault c.now.items (names.object_in who.now.schema table.now) column.now (Some default.now)) result }
    ensures sound { IfOk result (IsSound c.now.items) }
{
    let new = NewDefault {
        table: object_in(&who.schema, table)?,
        column,
        default: Some(default.copy()?),
    };
    edit_of(alloc, c, who, &new)
}

/// DROP DEFAULT of a column (SQL:2003 part 2, 11.14), or why it is refused: `UnknownName` of the base table, then of the column; `NotOwner`
/// of the table's schema. `Memory` is want of memory. A column that has no default is put back as it was.
pub fn drop_default(
    alloc: Global,
    c: &Catalogue,
    who: &Who,
    table: &ObjectName,
    column: &Name,
) -> Result<Edit, EditError>
    requires { IsGood c.now.items }
    ensures tested { IsTested (refusals_of c.now.items who.now (spec.changing_default c.now.items (names.object_in who.now.schema table.now) column.now None)) (spec.MakesDefault c.now.items (names.object_in who.now.schema table.now) column.now None) result }
    ensures sound { IfOk result (IsSound c.now.items) }
{
    let new = NewDefault {
        table: object_in(&who.schema, table)?,
        column,
        default: None,
    };
    edit_of(alloc, c, who, &new)
}
