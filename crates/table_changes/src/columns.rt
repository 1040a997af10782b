//! DROP COLUMN.

ghost use Rattle.std.specs.Prelude.{◌≡◌, ◌↔◌, ◌∷◌, [], Contains, IfOk, IsTrue, Some};
ghost use Rattle.cat_items.specs.declared.need.Need.{Need as AnyNeed};
ghost use Rattle.cat_items.specs.declared.item.Item.TheVariants as item;
ghost use Rattle.cat_items.specs.Good.{IsGood};
ghost use Rattle.cat_items.specs.Rights as rights;
ghost use Rattle.edit_rules.specs.First.{IsTested};
ghost use Rattle.edit_rules.specs.Names as names;
ghost use Rattle.chosen_parts.specs.Tables.{IsTableAction};
ghost use Rattle.edit_laws.specs.Sound.{IsSound};
ghost use Rattle.statement_steps.specs.Steps.{refusals_of};
ghost use Rattle.table_changes.specs.DroppedColumns as spec;

use cat_items::{
    Catalogue, Check, Edit, EditError, Foreign, Item, Need, Part, Refusal, Right, Who,
};
use chosen_parts::{chosen_in, has_in, parts_of_table};
use edit_rules::{Chooses, object_in, path_of, test_base_table, test_column};
use sql_tree::{Action, Items, Name, Object, ObjectName, Path};
use statement_steps::{Making, edit_of};
use std::alloc::{AllocError, Global};

/// Whether a list of columns has this one alone.
fn is_only(columns: &Items<Name>, name: &Name) -> bool
    ensures { IsTrue result ↔ (columns.now ≡ name.now ∷ []) }
{
    let columns = columns.as_slice();
    columns.len() == 1 && columns[0].same(name)
}

/// Whether a column is named, and it is this one.
fn is_named(column: &Option<Name>, name: &Name) -> bool
    ensures { IsTrue result ↔ (column.now ≡ Some name.now) }
{
    match column {
        None => false,
        Some(column) => column.same(name),
    }
}

/// Whether an action is one on tables and views.
fn is_table_action(action: Action) -> bool
    ensures { IsTrue result ↔ IsTableAction action }
{
    !matches!(action, Action::Usage | Action::Execute | Action::Admin)
}

/// A column that is dropped: its table, by name and by path, and its own name.
#[derive(Drop)]
struct DroppedColumn<'a> {
    table: &'a Object,
    path: &'a Path,
    name: &'a Name,
    ghost one_name: { path.now ≡ rights.path_of table.now },
}

impl<'a> DroppedColumn<'a> {
    /// Whether a need, where it is one on a table or view, is one on the column's table as a whole or on the column.
    fn is_alone_in(&self, need: &Need) -> bool
        ensures { IsTrue result ↔ spec.IsOfColumn self.now.table.now self.now.name.now need.now }
    {
        if !is_table_action(need.action) {
            return true;
        }
        need.on.same(self.path) && (need.column.is_none() || is_named(&need.column, self.name))
    }

    /// Whether each of these needs is so.
    fn is_alone(&self, needs: &Items<Need>) -> bool
        ensures { IsTrue result ↔ ((need : AnyNeed) → Contains needs.now need → spec.IsOfColumn self.now.table.now self.now.name.now need) }
    {
        for need in needs.as_slice() {
            if !self.is_alone_in(need) {
                return false;
            }
        }
        true
    }

    /// Whether a need is REFERENCES on the column.
    fn is_reference(&self, need: &Need) -> bool
        ensures { IsTrue result ↔ (need.now ≡ rights.reference self.now.table.now self.now.name.now) }
    {
        matches!(need.action, Action::References)
            && need.on.same(self.path)
            && is_named(&need.column, self.name)
    }

    /// Whether one of these needs is so.
    fn is_referred(&self, needs: &Items<Need>) -> bool
        ensures { IsTrue result ↔ Contains needs.now (rights.reference self.now.table.now self.now.name.now) }
    {
        for need in needs.as_slice() {
            if self.is_reference(need) {
                return true;
            }
        }
        false
    }

    /// Whether a foreign key refers from the column to itself.
    fn is_in_foreign(&self, foreign: &Foreign) -> bool
        ensures { IsTrue result ↔ spec.GoesWithColumn self.now.table.now self.now.name.now (item.Foreign foreign.now) }
    {
        foreign.table.same(self.table)
            && is_only(&foreign.columns, self.name)
            && foreign.target.same(self.table)
            && is_only(&foreign.target_columns, self.name)
    }

    /// Whether these needs of a condition name the column, no other column and no other table.
    fn is_named_alone(&self, needs: &Items<Need>) -> bool
        ensures { IsTrue result ↔ spec.NamesAlone self.now.table.now self.now.name.now needs.now }
    {
        self.is_referred(needs) && self.is_alone(needs)
    }

    /// Whether a check of the table names the column, no other column and no other table.
    fn is_in_check(&self, check: &Check) -> bool
        ensures { IsTrue result ↔ spec.GoesWithColumn self.now.table.now self.now.name.now (item.Check check.now) }
    {
        check.table.same(self.table) && self.is_named_alone(&check.needs)
    }

    /// Whether a right is one on the column.
    fn is_under(&self, right: &Right) -> bool
        ensures { IsTrue result ↔ spec.IsRightOn self.now.table.now self.now.name.now right.now }
    {
        let need = &right.need;
        is_table_action(need.action) && need.on.same(self.path) && is_named(&need.column, self.name)
    }
}

impl<'a> Chooses for DroppedColumn<'a> {
    ghost use Rattle.table_changes.specs.DroppedColumns.{GoesWithColumn};

    ghost fits = { λ d x. GoesWithColumn d.table.now d.name.now x };

    fn chooses(&self, x: &Item) -> bool {
        match x {
            Item::Column(column) => {
                let column = column.get();
                column.table.same(self.table) && column.name.same(self.name)
            }
            Item::Key(key) => {
                let key = key.get();
                key.table.same(self.table) && is_only(&key.columns, self.name)
            }
            Item::Foreign(foreign) => self.is_in_foreign(foreign.get()),
            Item::Check(check) => self.is_in_check(check.get()),
            Item::Held(right) | Item::Grantable(right) => self.is_under(right.get()),
            _ => false,
        }
    }
}

/// The columns of a table but one.
#[derive(Drop)]
struct OtherColumns<'a> {
    table: &'a Object,
    name: &'a Name,
}

impl<'a> Chooses for OtherColumns<'a> {
    ghost use Rattle.table_changes.specs.DroppedColumns.{IsOtherColumn};

    ghost fits = { λ d x. IsOtherColumn d.table.now d.name.now x };

    fn chooses(&self, x: &Item) -> bool {
        match x {
            Item::Column(column) => {
                let column = column.get();
                column.table.same(self.table) && !column.name.same(self.name)
            }
            _ => false,
        }
    }
}

/// A column that is to be dropped.
#[derive(Drop)]
pub struct OldColumn<'a> {
    pub table: Object,
    pub column: &'a Name,
}

impl<'a> Making for OldColumn<'a> {
    type Named = Items<Need>;

    type Made = Items<Need>;

    ghost steps = { λ d c who. spec.dropping_column c d.table d.column.now };

    ghost naming = { λ d c who needs. needs ≡ [] };

    ghost making = { λ d c who needs. needs ≡ [] };

    fn test_tree(&self, _alloc: Global, _c: &Catalogue, _who: &Who) -> Result<(), EditError> {
        Ok(())
    }

    fn names(&self, alloc: Global, c: &Catalogue, _who: &Who) -> Result<Items<Need>, EditError> {
        test_base_table(c, &self.table)?;
        test_column(c, &self.table, self.column)?;
        Ok(Items::new(alloc))
    }

    fn schema(&self, _c: &Catalogue, _who: &Who) -> &Name {
        &self.table.schema
    }

    fn test_taken(&self, _alloc: Global, _c: &Catalogue, _who: &Who) -> Result<(), EditError> {
        Ok(())
    }

    fn rules(
        &self,
        _alloc: Global,
        c: &Catalogue,
        _who: &Who,
        named: Items<Need>,
    ) -> Result<Items<Need>, EditError> {
        let others = OtherColumns {
            table: &self.table,
            name: self.column,
        };
        if has_in(c, &[Part::Columns((&self.table).into())], &others) {
            return Ok(named);
        }
        Err(EditError::Refused(Refusal::OnlyColumn))
    }

    fn needs<'b>(&self, _c: &Catalogue, _who: &Who, made: &'b Items<Need>) -> &'b Items<Need> {
        made
    }

    fn edit(
        &self,
        alloc: Global,
        c: &Catalogue,
        _who: &Who,
        _made: Items<Need>,
    ) -> Result<Edit, AllocError> {
        let path = path_of(&self.table)?;
        let column = DroppedColumn {
            table: &self.table,
            path: &path,
            name: self.column,
        };
        Ok(Edit {
            target: chosen_in(alloc, c, &parts_of_table(&self.table), &column)?,
            changed: Items::new(alloc),
            added: Items::new(alloc),
        })
    }
}

/// What DROP COLUMN takes out of a catalogue by itself (SQL:2003 part 2, 11.18), or why it is refused: `UnknownName` of the base table, then
/// of the column, as schema, table and column; `NotOwner` of the table's schema; `OnlyColumn`. `Memory` is want of memory. The places of the
/// other columns stay, with a gap. Other constraints, views and routines that use the column aren't taken here, and whether the behaviour
/// RESTRICT refuses is not decided here. What goes is looked for among the columns of the table, the constraints of its schema, and the
/// privileges on the table and on its columns alone.
pub fn drop_column(
    alloc: Global,
    c: &Catalogue,
    who: &Who,
    table: &ObjectName,
    column: &Name,
) -> Result<Edit, EditError>
    requires { IsGood c.now.items }
    ensures tested { IsTested (refusals_of c.now.items who.now (spec.dropping_column c.now.items (names.object_in who.now.schema table.now) column.now)) (spec.MakesColumnDrop c.now.items (names.object_in who.now.schema table.now) column.now) result }
    ensures sound { IfOk result (IsSound c.now.items) }
{
    let old = OldColumn {
        table: object_in(&who.schema, table)?,
        column,
    };
    edit_of(alloc, c, who, &old)
}
