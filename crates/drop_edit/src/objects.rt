//! DROP of an object.

ghost use Rattle.std.specs.Prelude.{◌≡◌, ◌↔◌, ◌∷◌, [], IfOk, IsTrue};
ghost use Rattle.cat_items.specs.Good.{IsGood};
ghost use Rattle.cat_items.specs.Ranges.{IsRange};
ghost use Rattle.cat_items.specs.Reach.{Has};
ghost use Rattle.cat_items.specs.Rights as rights;
ghost use Rattle.edit_rules.specs.Chosen.{AreChosen};
ghost use Rattle.edit_rules.specs.First.{HasPassed, IsTested};
ghost use Rattle.edit_rules.specs.Names as names;
ghost use Rattle.edit_laws.specs.Sound.{IsSound};
ghost use Rattle.drop_edit.specs.DroppedObjects as spec;

use crate::parts::{assertion_parts, routine_parts};
use cat_items::{
    Catalogue, Edit, EditError, Item, ObjectKind, Part, Refusal, Who, objects_of, places,
};
use chosen_parts::{chosen_in, parts_of_table};
use edit_rules::{Chooses, chosen, object_in, path_of, test_owner};
use sql_tree::{Action, DropKind, Items, Object, ObjectName, Path};
use std::alloc::{AllocError, Global};
use std::ops::Range;

/// Whether an item is the object that DROP names.
fn is_named(kind: DropKind, object: &Object, x: &Item) -> bool
    ensures { IsTrue result ↔ spec.IsNamedBy kind object.now x.now }
{
    match (kind, x) {
        (DropKind::Table, Item::Table(table)) => table.get().same(object),
        (DropKind::View, Item::View(view)) => view.get().view.same(object),
        (DropKind::Domain, Item::Domain(domain)) => domain.get().domain.same(object),
        (DropKind::Assertion, Item::Assertion(assertion)) => assertion.get().name.same(object),
        (DropKind::Function, Item::Routine(routine)) => {
            routine.get().routine.same(object) && routine.get().returns.is_some()
        }
        (DropKind::Procedure, Item::Routine(routine)) => {
            routine.get().routine.same(object) && routine.get().returns.is_none()
        }
        (DropKind::Routine, Item::Routine(routine)) => routine.get().routine.same(object),
        _ => false,
    }
}

/// The places among which the object that DROP names stands.
fn places_beside(c: &Catalogue, kind: DropKind, object: &Object) -> Range<usize>
    ensures { IsRange c.now.items result.start result.end (spec.IsBeside kind object.now) }
{
    match kind {
        DropKind::Table => places(c, Part::Table(object.into())),
        DropKind::View => places(c, Part::View(object.into())),
        DropKind::Domain => places(c, Part::Domain(object.into())),
        DropKind::Assertion => objects_of(c, ObjectKind::Assertion, &object.schema),
        DropKind::Function => places(c, Part::Routine(object.into())),
        DropKind::Procedure => places(c, Part::Routine(object.into())),
        DropKind::Routine => places(c, Part::Routine(object.into())),
    }
}

/// Whether the object that DROP names stands.
fn stands(c: &Catalogue, kind: DropKind, object: &Object) -> bool
    ensures { IsTrue result ↔ Has c.now.items (spec.IsNamedBy kind object.now) }
{
    let items = c.items();
    let all = places_beside(c, kind, object);
    for at in all.start..all.end {
        if is_named(kind, object, &items[at]) {
            return true;
        }
    }
    false
}

/// Refuses a name that no object of this kind has, also where one of another kind has it: `UnknownName` of its schema and
/// its name. `Memory` is want of memory.
pub fn test_dropped(c: &Catalogue, kind: DropKind, object: &Object) -> Result<(), EditError>
    ensures { HasPassed (spec.unknown_object c.now.items kind object.now ∷ []) result }
{
    if stands(c, kind, object) {
        return Ok(());
    }
    let path = path_of(object)?;
    Err(EditError::Refused(Refusal::UnknownName { path }))
}

/// Whether an item is a table or a view, or a column or a constraint of it.
fn is_part_of_table(object: &Object, x: &Item) -> bool
    ensures { IsTrue result ↔ spec.IsPartOfTable object.now x.now }
{
    match x {
        Item::Table(own) => own.get().same(object),
        Item::View(view) => view.get().view.same(object),
        Item::Column(column) => column.get().table.same(object),
        Item::Key(key) => key.get().table.same(object),
        Item::Foreign(foreign) => foreign.get().table.same(object),
        Item::Check(check) => check.get().table.same(object),
        _ => false,
    }
}

/// Whether an item is an object of this kind, or a part of it.
fn is_part_of(kind: DropKind, object: &Object, x: &Item) -> bool
    ensures { IsTrue result ↔ spec.IsPartOf kind object.now x.now }
{
    match (kind, x) {
        (DropKind::Table, _) | (DropKind::View, _) => is_part_of_table(object, x),
        (DropKind::Domain, Item::Domain(domain)) => domain.get().domain.same(object),
        (DropKind::Domain, Item::DomainCheck(check)) => check.get().domain.same(object),
        (DropKind::Assertion, Item::Assertion(assertion)) => assertion.get().name.same(object),
        (DropKind::Function, Item::Routine(routine)) => routine.get().routine.same(object),
        (DropKind::Procedure, Item::Routine(routine)) => routine.get().routine.same(object),
        (DropKind::Routine, Item::Routine(routine)) => routine.get().routine.same(object),
        _ => false,
    }
}

/// Whether an action is one on objects of this kind.
fn is_action_on(kind: DropKind, action: Action) -> bool
    ensures { IsTrue result ↔ spec.IsActionOn kind action }
{
    match (kind, action) {
        (DropKind::Table, Action::Usage | Action::Execute | Action::Admin) => false,
        (DropKind::View, Action::Usage | Action::Execute | Action::Admin) => false,
        (DropKind::Table, _) | (DropKind::View, _) => true,
        (DropKind::Domain, Action::Usage) => true,
        (DropKind::Function, Action::Execute) => true,
        (DropKind::Procedure, Action::Execute) => true,
        (DropKind::Routine, Action::Execute) => true,
        _ => false,
    }
}

/// An object that is dropped, and its path.
#[derive(Drop)]
struct Dropped<'a> {
    kind: DropKind,
    object: &'a Object,
    path: &'a Path,
    ghost one_name: { path.now ≡ rights.path_of object.now },
}

impl<'a> Dropped<'a> {
    /// Whether an item is a privilege on it.
    fn is_under(&self, x: &Item) -> bool
        ensures { IsTrue result ↔ spec.IsRightOn self.now.kind (rights.path_of self.now.object.now) x.now }
    {
        match x {
            Item::Held(right) | Item::Grantable(right) => {
                let need = &right.get().need;
                is_action_on(self.kind, need.action) && need.on.same(self.path)
            }
            _ => false,
        }
    }
}

impl<'a> Chooses for Dropped<'a> {
    ghost use Rattle.drop_edit.specs.DroppedObjects.{GoesWith};

    ghost fits = { λ t x. GoesWith t.kind t.object.now x };

    fn chooses(&self, x: &Item) -> bool {
        is_part_of(self.kind, self.object, x) || self.is_under(x)
    }
}

/// All that goes with an object of this kind: its parts, and the privileges on it. Where it is no domain, only where these stand is looked
/// through: its own places, the constraints of its schema, and the privileges of each action on it. `Err` is want of memory.
pub fn belongings(
    alloc: Global,
    c: &Catalogue,
    kind: DropKind,
    object: &Object,
) -> Result<Items<Item>, AllocError>
    requires { IsGood c.now.items }
    ensures { IfOk result (λ found. AreChosen c.now.items (spec.GoesWith kind object.now) found) }
{
    let path = path_of(object)?;
    let dropped = Dropped {
        kind,
        object,
        path: &path,
    };
    match kind {
        DropKind::Table | DropKind::View => chosen_in(alloc, c, &parts_of_table(object), &dropped),
        DropKind::Domain => chosen(alloc, c, &dropped),
        DropKind::Assertion => chosen_in(alloc, c, &assertion_parts(object), &dropped),
        DropKind::Function | DropKind::Procedure | DropKind::Routine => {
            chosen_in(alloc, c, &routine_parts(object), &dropped)
        }
    }
}

/// The edit of DROP TABLE, VIEW, ASSERTION, FUNCTION, PROCEDURE and ROUTINE, or the first of its refusals by the catalogue
/// as it is: no object of this kind has the name, or the session doesn't act for the owner of its schema. `Memory` is want
/// of memory. Of a domain this is what DROP DOMAIN takes; columns that are based on it aren't freed here.
pub fn drop_object(
    alloc: Global,
    c: &Catalogue,
    who: &Who,
    kind: DropKind,
    name: &ObjectName,
) -> Result<Edit, EditError>
    requires { IsGood c.now.items }
    ensures tested { IsTested (spec.drop_object_refusals c.now.items who.now kind name.now) (spec.IsObjectDrop c.now.items kind (names.object_in who.now.schema name.now)) result }
    ensures sound { IfOk result (IsSound c.now.items) }
{
    let object = object_in(&who.schema, name)?;
    test_dropped(c, kind, &object)?;
    test_owner(alloc, c, who, &object.schema)?;
    Ok(Edit {
        target: belongings(alloc, c, kind, &object)?,
        changed: Items::new(alloc),
        added: Items::new(alloc),
    })
}
