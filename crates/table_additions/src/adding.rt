//! ADD of a column with its constraints, or of a constraint, step by step.

ghost use Rattle.std.specs.Prelude.{◌≡◌, ◌↔◌, ◌++◌, Contains, IfOk, List, OnOk};
ghost use Rattle.cat_items.specs.declared.item.Item.{Item as AnyItem};
ghost use Rattle.cat_items.specs.declared.need.Need.{Need as AnyNeed};
ghost use Rattle.table_names.specs.declared.named.NamedConstraint.{NamedConstraint};
ghost use Rattle.table_names.specs.Named.{AreConstraints};
ghost use Rattle.table_parts.specs.Parts.{constraints_of};
ghost use Rattle.table_elements.specs.Found.{AreFoundOf};
ghost use Rattle.table_constraints.specs.Made.{IsConstraintMade};
ghost use Rattle.table_additions.specs.Additions as spec;

use crate::added::{all_added, in_order};
use crate::columns::nullable_columns;
use crate::new_parts::{FoundParts, MadeParts, NewParts};
use crate::refusing::{made_by, test_taken_names};
use cat_items::{Catalogue, Edit, EditError, Need, Who};
use edit_rules::test_base_table;
use sql_tree::{Items, Name, Param};
use statement_steps::Making;
use std::alloc::{AllocError, Global};
use table_elements::found_in_parts;
use table_names::{name_constraints, test_repeated};
use table_needs::needs_of;
use table_work::{Work, columns_described, columns_in, keys_in};

fn push_all(columns: &mut Items<Param>, more: &Items<Param>) -> Result<(), AllocError>
    ensures { OnOk result (columns.new ≡ columns.old ++ more.now) }
{
    for column in more.as_slice() {
        columns.push(Param {
            name: column.name.copy()?,
            sort: column.sort,
        })?;
    }
    Ok(())
}

/// What the statement sees of its table: the columns that stand and the new one, and the keys that stand.
fn work_of(alloc: Global, c: &Catalogue, who: &Who, new: &NewParts) -> Result<Work, AllocError>
    ensures { IfOk result (λ w. w ≡ spec.added_work c.now.items who.now new.now.table new.now.parts) }
{
    let mut columns = columns_in(alloc, c, &new.table)?;
    let more = columns_described(alloc, c, who, &new.parts)?;
    push_all(&mut columns, &more)?;
    let keys = keys_in(alloc, c, &new.table)?;
    Ok(Work {
        table: new.table.copy()?,
        columns,
        keys,
    })
}

impl Making for NewParts {
    type Named = FoundParts;

    type Made = MadeParts;

    ghost steps = { λ s c who. spec.steps_of_parts c who s.table s.parts };

    ghost naming = { λ s c who f. (f.work ≡ spec.added_work c who s.table s.parts) × AreFoundOf c who (spec.added_work c who s.table s.parts) (constraints_of s.parts) f.found };

    ghost making = { λ s c who m. (named : List NamedConstraint) × AreConstraints c s.table s.parts named
        × ((x : AnyItem) → Contains m.items x ↔ IsConstraintMade c who (spec.added_work c who s.table s.parts) named x)
        × ((need : AnyNeed) → Contains m.needs need ↔ spec.IsNeededBy c who s.table s.parts named need) };

    fn test_tree(&self, alloc: Global, _c: &Catalogue, _who: &Who) -> Result<(), EditError> {
        test_repeated(alloc, &self.table, &self.parts)
    }

    fn names(&self, alloc: Global, c: &Catalogue, who: &Who) -> Result<FoundParts, EditError> {
        test_base_table(c, &self.table)?;
        let work = work_of(alloc, c, who, self)?;
        let found = found_in_parts(alloc, c, who, &work, &self.parts)?;
        Ok(FoundParts { work, found })
    }

    fn schema(&self, _c: &Catalogue, _who: &Who) -> &Name {
        &self.table.schema
    }

    fn test_taken(&self, alloc: Global, c: &Catalogue, _who: &Who) -> Result<(), EditError> {
        test_taken_names(alloc, c, &self.table, &self.parts)
    }

    fn rules(
        &self,
        alloc: Global,
        c: &Catalogue,
        who: &Who,
        named: FoundParts,
    ) -> Result<MadeParts, EditError> {
        let constraints = name_constraints(alloc, c, &self.table.schema, &self.parts)?;
        let items = made_by(alloc, c, who, &self.parts, &named, &constraints)?;
        let needs = needs_of(alloc, who, &self.table, &self.parts, &items)?;
        Ok(MadeParts { items, needs })
    }

    fn needs<'b>(&self, _c: &Catalogue, _who: &Who, made: &'b MadeParts) -> &'b Items<Need> {
        &made.needs
    }

    fn edit(
        &self,
        alloc: Global,
        c: &Catalogue,
        who: &Who,
        made: MadeParts,
    ) -> Result<Edit, AllocError> {
        let target = nullable_columns(alloc, c, &self.table, &self.parts)?;
        let MadeParts { items, .. } = made;
        let all = all_added(alloc, c, who, &self.table, &self.parts, &target, items)?;
        let added = in_order(alloc, &all)?;
        Ok(Edit {
            target,
            changed: Items::new(alloc),
            added,
        })
    }
}
