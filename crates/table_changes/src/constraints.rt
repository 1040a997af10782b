//! DROP CONSTRAINT.

ghost use Rattle.std.specs.Prelude.{◌≡◌, ◌↔◌, ◌∷◌, [], IfOk, IsTrue};
ghost use Rattle.cat_items.specs.Good.{IsGood};
ghost use Rattle.edit_rules.specs.First.{HasPassed, IsTested};
ghost use Rattle.edit_rules.specs.Names as names;
ghost use Rattle.edit_laws.specs.Sound.{IsSound};
ghost use Rattle.statement_steps.specs.Steps.{refusals_of};
ghost use Rattle.table_changes.specs.DroppedConstraints as spec;

use cat_items::{Catalogue, Edit, EditError, Item, Need, ObjectKind, Part, Refusal, Who};
use chosen_parts::{chosen_in, has_in};
use edit_rules::{Chooses, object_in, test_base_table};
use sql_tree::{Items, Name, Object, ObjectName, Path};
use statement_steps::{Making, edit_of};
use std::alloc::{AllocError, Global};

/// A constraint of a table that is to be dropped.
#[derive(Drop)]
pub struct OldConstraint<'a> {
    pub table: Object,
    pub constraint: &'a Name,
}

impl<'a> OldConstraint<'a> {
    /// Whether a constraint of this table and this name is the one.
    fn is(&self, table: &Object, name: &Object) -> bool
        ensures { IsTrue result ↔ ((table.now ≡ self.now.table) × (name.now ≡ spec.in_schema_of self.now.table self.now.constraint.now)) }
    {
        table.same(&self.table)
            && name.schema.same(&self.table.schema)
            && name.name.same(self.constraint)
    }

    /// The parts of a catalogue among which it stands: the constraints of its table's schema.
    fn parts(&self) -> [Part<'_>; 3]
        ensures { spec.HoldConstraint self.now.table self.now.constraint.now result }
    {
        let schema = &self.table.schema;
        [
            Part::Objects(ObjectKind::Key, schema),
            Part::Objects(ObjectKind::Foreign, schema),
            Part::Objects(ObjectKind::Check, schema),
        ]
    }
}

impl<'a> Chooses for OldConstraint<'a> {
    ghost use Rattle.table_changes.specs.DroppedConstraints.{IsConstraintOf};

    ghost fits = { λ d x. IsConstraintOf d.table d.constraint.now x };

    fn chooses(&self, x: &Item) -> bool {
        match x {
            Item::Key(key) => self.is(&key.get().table, &key.get().name),
            Item::Foreign(foreign) => self.is(&foreign.get().table, &foreign.get().name),
            Item::Check(check) => self.is(&check.get().table, &check.get().name),
            _ => false,
        }
    }
}

/// Refuses where the table has no constraint of this name: `UnknownName` of the table's schema and the name.
fn test_constraint(c: &Catalogue, old: &OldConstraint<'_>) -> Result<(), EditError>
    ensures { HasPassed (spec.unknown_constraint c.now.items old.now.table old.now.constraint.now ∷ []) result }
{
    if has_in(c, &old.parts(), old) {
        return Ok(());
    }
    let path = Path::two(old.table.schema.copy()?, old.constraint.copy()?);
    Err(EditError::Refused(Refusal::UnknownName { path }))
}

impl<'a> Making for OldConstraint<'a> {
    type Named = Items<Need>;

    type Made = Items<Need>;

    ghost steps = { λ d c who. spec.dropping_constraint c d.table d.constraint.now };

    ghost naming = { λ d c who needs. needs ≡ [] };

    ghost making = { λ d c who needs. needs ≡ [] };

    fn test_tree(&self, _alloc: Global, _c: &Catalogue, _who: &Who) -> Result<(), EditError> {
        Ok(())
    }

    fn names(&self, alloc: Global, c: &Catalogue, _who: &Who) -> Result<Items<Need>, EditError> {
        test_base_table(c, &self.table)?;
        test_constraint(c, self)?;
        Ok(Items::new(alloc))
    }

    fn schema(&self, _c: &Catalogue, _who: &Who) -> &Name {
        &self.table.schema
    }

    fn test_taken(&self, _alloc: Global, _c: &Catalogue, _who: &Who) -> Result<(), EditError> {
        Ok(())
    }

    fn rules(
        &self,
        _alloc: Global,
        _c: &Catalogue,
        _who: &Who,
        named: Items<Need>,
    ) -> Result<Items<Need>, EditError> {
        Ok(named)
    }

    fn needs<'b>(&self, _c: &Catalogue, _who: &Who, made: &'b Items<Need>) -> &'b Items<Need> {
        made
    }

    fn edit(
        &self,
        alloc: Global,
        c: &Catalogue,
        _who: &Who,
        _made: Items<Need>,
    ) -> Result<Edit, AllocError> {
        Ok(Edit {
            target: chosen_in(alloc, c, &self.parts(), self)?,
            changed: Items::new(alloc),
            added: Items::new(alloc),
        })
    }
}

/// What DROP CONSTRAINT of a table takes out of a catalogue by itself (SQL:2003 part 2, 11.20), or why it is refused: `UnknownName` of the
/// base table, then of the constraint, as the table's schema and the name, also where it is one of another table; `NotOwner` of the table's
/// schema. `Memory` is want of memory. A foreign key that is bound to a dropped key isn't taken here, and whether the behaviour RESTRICT
/// refuses is not decided here. The constraint is looked for among those of the table's schema alone.
pub fn drop_constraint(
    alloc: Global,
    c: &Catalogue,
    who: &Who,
    table: &ObjectName,
    constraint: &Name,
) -> Result<Edit, EditError>
    requires { IsGood c.now.items }
    ensures tested { IsTested (refusals_of c.now.items who.now (spec.dropping_constraint c.now.items (names.object_in who.now.schema table.now) constraint.now)) (spec.MakesConstraintDrop c.now.items (names.object_in who.now.schema table.now) constraint.now) result }
    ensures sound { IfOk result (IsSound c.now.items) }
{
    let old = OldConstraint {
        table: object_in(&who.schema, table)?,
        constraint,
    };
    edit_of(alloc, c, who, &old)
}
