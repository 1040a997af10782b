//! CREATE TABLE.

ghost use Rattle.std.specs.Prelude.{IfOk};
ghost use Rattle.sql_tree.specs.declared.statement.Statement.TheVariants as statements;
ghost use Rattle.cat_items.specs.Good.{IsGood};
ghost use Rattle.edit_rules.specs.First.{IsTested};
ghost use Rattle.edit_laws.specs.Sound.{IsSound};
ghost use Rattle.statement_forms.specs.Written.{IsWritten};
ghost use Rattle.table_creation.specs.Made as made;
ghost use Rattle.table_creation.specs.Tables as spec;

use crate::constraints::{tested_constraints, work_with};
use crate::items::with_table;
use crate::new_table::{MadeConstraints, NewTable};
use cat_items::{Catalogue, Edit, EditError, Need, Who};
use edit_rules::{object_in, test_new_table, test_schema};
use sql_tree::{CreateTable, Items, Name};
use statement_steps::{Making, edit_of};
use std::alloc::{AllocError, Global};
use table_constraints::put_all;
use table_elements::found_in_parts;
use table_names::{given_names, name_constraints, test_new_constraints, test_repeated};
use table_needs::needs_of;
use table_parts::parts_of;
use table_work::own_keys;
use view_deps::ResolvedExpr;

impl Making for NewTable {
    type Named = Items<Option<ResolvedExpr>>;

    type Made = MadeConstraints;

    ghost steps = { λ t c who. spec.steps_of_table c who t.table t.parts };

    ghost naming = { λ t c who named. made.AreFoundIn c who t.table t.parts named };

    ghost making = { λ t c who m. made.AreMadeFor c who t.table t.parts m.items m.needs };

    fn test_tree(&self, alloc: Global, _c: &Catalogue, _who: &Who) -> Result<(), EditError> {
        test_repeated(alloc, &self.table, &self.parts)
    }

    fn names(
        &self,
        alloc: Global,
        c: &Catalogue,
        who: &Who,
    ) -> Result<Items<Option<ResolvedExpr>>, EditError> {
        test_schema(c, &self.table.schema)?;
        let w = work_with(alloc, c, who, self, Items::new(alloc))?;
        found_in_parts(alloc, c, who, &w, &self.parts)
    }

    fn schema(&self, _c: &Catalogue, _who: &Who) -> &Name {
        &self.table.schema
    }

    fn test_taken(&self, alloc: Global, c: &Catalogue, _who: &Who) -> Result<(), EditError> {
        test_new_table(c, &self.table)?;
        let names = given_names(alloc, &self.parts)?;
        test_new_constraints(c, &self.table.schema, &names)
    }

    fn rules(
        &self,
        alloc: Global,
        c: &Catalogue,
        who: &Who,
        named: Items<Option<ResolvedExpr>>,
    ) -> Result<MadeConstraints, EditError> {
        let constraints = name_constraints(alloc, c, &self.table.schema, &self.parts)?;
        let keys = own_keys(alloc, &self.table, &constraints)?;
        let w = work_with(alloc, c, who, self, keys)?;
        let items = tested_constraints(alloc, c, who, &w, &self.parts, &constraints, &named)?;
        let needs = needs_of(alloc, who, &self.table, &self.parts, &items)?;
        Ok(MadeConstraints { items, needs })
    }

    fn needs<'b>(&self, _c: &Catalogue, _who: &Who, made: &'b MadeConstraints) -> &'b Items<Need> {
        &made.needs
    }

    fn edit(
        &self,
        alloc: Global,
        c: &Catalogue,
        who: &Who,
        made: MadeConstraints,
    ) -> Result<Edit, AllocError> {
        let items = with_table(alloc, c, who, self, made.items)?;
        let mut added = Catalogue::of_sorted(Vec::new(alloc));
        put_all(&mut added, &items)?;
        Ok(Edit {
            target: Items::new(alloc),
            changed: Items::new(alloc),
            added: Items::from_vec(added.into_items()),
        })
    }
}

/// What CREATE TABLE adds to a catalogue, or why it is refused (SQL:2003 part 2, 11.3): `Repeated` of a name that comes twice, and of a second
/// PRIMARY KEY of the table; `UnknownName` or `Ambiguous` of the schema, a domain, a column, a target or a name in a condition; `NotOwner` of
/// the schema; `NameExists` of the table, then of a constraint; `TypeMismatch` of a default, of the columns of a foreign key or of a condition;
/// `NoSuchKey` of a foreign key; `CatalogFull` of columns; and `NoPrivilege` where the schema's owner lacks USAGE on a domain, REFERENCES on a
/// column of a target, or what a condition needs. `Memory` is want of memory.
pub fn create_table(
    alloc: Global,
    c: &Catalogue,
    who: &Who,
    statement: &CreateTable,
) -> Result<Edit, EditError>
    requires good { IsGood c.now.items }
    requires written { IsWritten (statements.CreateTable statement.now) }
    ensures tested { IsTested (spec.create_table_refusals c.now.items who.now statement.now) (spec.IsTableCreation c.now.items who.now statement.now) result }
    ensures sound { IfOk result (IsSound c.now.items) }
{
    let new = NewTable {
        table: object_in(&who.schema, &statement.table)?,
        parts: parts_of(alloc, &statement.elements)?,
    };
    edit_of(alloc, c, who, &new)
}
