//! What constraints make.

ghost use Rattle.std.specs.Prelude.{◌≡◌, ◌↔◌, ◌⊎◌, ◌∷◌, [], length, Contains, IfOk};
ghost use Rattle.cat_items.specs.declared.item.Item.{Item as AnyItem};
ghost use Rattle.edit_rules.specs.First.{IsTested};
ghost use Rattle.table_elements.specs.Found.{AreFoundFor, IsFoundOf};
ghost use Rattle.table_work.specs.Keys as keys;
ghost use Rattle.table_constraints.specs.Made.{IsConstraintMade, MakesConstraint};
ghost use Rattle.table_constraints.specs.OneMade as spec;
ghost use Rattle.table_constraints.specs.Rules as rules;

use crate::checks::check_item;
use cat_items::{Catalogue, EditError, Item, Who};
use sql_tree::{Items, Object, TableConstraintKind};
use std::alloc::{AllocError, Global};
use table_names::NamedConstraint;
use table_types::foreign_made;
use table_work::{Work, own_key};
use view_deps::ResolvedExpr;

/// The key that a constraint makes, if it makes one.
fn key_item(
    alloc: Global,
    table: &Object,
    constraint: &NamedConstraint,
) -> Result<Option<Item>, AllocError>
    ensures { IfOk result (λ item. item ≡ spec.key_item (keys.own_key table.now constraint.now)) }
{
    match own_key(alloc, table, constraint)? {
        None => Ok(None),
        Some(key) => Ok(Some(Item::Key(key))),
    }
}

/// What a constraint makes, if it makes something; `NoSuchKey` where it is a foreign key for whose columns no key is there.
fn made_of(
    alloc: Global,
    c: &Catalogue,
    who: &Who,
    w: &Work,
    constraint: &NamedConstraint,
    found: &Option<ResolvedExpr>,
) -> Result<Option<Item>, EditError>
    requires { IsFoundOf c.now.items who.now w.now constraint.now.kind found.now }
    ensures { IsTested (spec.unbound c.now.items who.now w.now constraint.now ∷ []) (spec.IsOnlyMade c.now.items who.now w.now constraint.now) result }
{
    match &constraint.kind {
        TableConstraintKind::PrimaryKey(_) => Ok(key_item(alloc, &w.table, constraint)?),
        TableConstraintKind::Unique(_) => Ok(key_item(alloc, &w.table, constraint)?),
        TableConstraintKind::ForeignKey {
            columns,
            references,
        } => {
            let foreign = foreign_made(alloc, c, who, w, &constraint.name, columns, references)?;
            Ok(Some(Item::Foreign(foreign)))
        }
        TableConstraintKind::Check(_) => {
            Ok(check_item(alloc, &w.table, &constraint.name, found)?)
        }
    }
}

/// Puts what a constraint makes behind what others make.
fn push_made(
    alloc: Global,
    c: &Catalogue,
    who: &Who,
    w: &Work,
    made: &mut Items<Item>,
    constraint: &NamedConstraint,
    found: &Option<ResolvedExpr>,
) -> Result<(), EditError>
    requires { IsFoundOf c.now.items who.now w.now constraint.now.kind found.now }
    ensures { IsTested (spec.unbound c.now.items who.now w.now constraint.now ∷ []) (λ done. (x : AnyItem) → Contains made.new x ↔ (Contains made.old x ⊎ MakesConstraint c.now.items who.now w.now x constraint.now)) result }
{
    match made_of(alloc, c, who, w, constraint, found)? {
        None => Ok(()),
        Some(item) => Ok(made.push(item)?),
    }
}

/// What each constraint makes: a PRIMARY KEY or UNIQUE a key, REFERENCES a foreign key that is bound to the key that it means, a CHECK a check
/// with its resolved condition (SQL:2003 part 2, 11.6 to 11.9). `NoSuchKey` where no key is there for the columns of a foreign key. `Memory`
/// is want of memory.
pub fn constraints_made(
    alloc: Global,
    c: &Catalogue,
    who: &Who,
    w: &Work,
    named: &Items<NamedConstraint>,
    found: &Items<Option<ResolvedExpr>>,
) -> Result<Items<Item>, EditError>
    requires { AreFoundFor c.now.items who.now w.now named.now found.now }
    ensures { IsTested (rules.no_such_key c.now.items who.now w.now named.now ∷ []) (λ made. (x : AnyItem) → Contains made x ↔ IsConstraintMade c.now.items who.now w.now named.now x) result }
{
    let mut all = Items::new(alloc);
    let (named, found) = (named.as_slice(), found.as_slice());
    for at in 0..named.len() {
        push_made(alloc, c, who, w, &mut all, &named[at], &found[at])?;
    }
    Ok(all)
}
