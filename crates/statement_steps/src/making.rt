//! What each statement does, step by step.

ghost use Rattle.std.specs.Prelude.{◌≡◌, ◌∷◌, [], IfOk};
ghost use Rattle.cat_items.specs.Good.{IsGood};
ghost use Rattle.edit_rules.specs.First.{HasPassed, IsTested, Passes};
ghost use Rattle.edit_rules.specs.Owners.{not_owner};
ghost use Rattle.statement_steps.specs.Steps.{no_least_privilege, refusals_of};

use crate::needs::test_needs;
use cat_items::{Catalogue, Edit, EditError, Need, Who};
use edit_rules::test_owner;
use sql_tree::{Items, Name};
use std::alloc::{AllocError, Global};

/// A statement that makes, alters or drops an object of a schema: contracts see its tests and its edit as `steps`, and what is known
/// between them as `naming` and `making`. `edit_of` calls the methods in their order here. `Memory` and `AllocError` are want of memory.
pub trait Making {
    ghost use Rattle.std.specs.Prelude.{◌≡◌, ◌↔◌, ◌∷◌, [], Contains, IfOk, List};
    ghost use Rattle.cat_items.specs.declared.edit.Who.{Who};
    ghost use Rattle.cat_items.specs.declared.item.Item.{Item};
    ghost use Rattle.cat_items.specs.declared.need.Need.{Need};
    ghost use Rattle.cat_items.specs.Good.{IsGood};
    ghost use Rattle.edit_rules.specs.First.{First, HasPassed, IsTested, Passes};
    ghost use Rattle.statement_steps.specs.Steps.{Steps, refusals_of};

    /// What its names come to.
    type Named: Drop;

    /// What is to be made, with what it needs.
    type Made: Drop;

    ghost steps: { Self → List Item → Who → Steps };

    ghost naming: { Self → List Item → Who → Self.Named → Type 0 };

    ghost making: { Self → List Item → Who → Self.Made → Type 0 };

    /// The tests by its tree alone.
    fn test_tree(&self, alloc: Global, c: &Catalogue, who: &Who) -> Result<(), EditError>
        ensures { HasPassed ((steps self.now c.now.items who.now).by_tree) result };

    /// The tests by names that must stand.
    fn names(&self, alloc: Global, c: &Catalogue, who: &Who) -> Result<Self::Named, EditError>
        requires { IsGood c.now.items }
        ensures { IsTested ((steps self.now c.now.items who.now).names) (naming self.now c.now.items who.now) result };

    /// The schema whose owner the session must act for.
    fn schema(&self, c: &Catalogue, who: &Who) -> &Name
        ensures { result.now ≡ (steps self.now c.now.items who.now).schema };

    /// The tests by names that are taken.
    fn test_taken(&self, alloc: Global, c: &Catalogue, who: &Who) -> Result<(), EditError>
        ensures { HasPassed ((steps self.now c.now.items who.now).taken) result };

    /// The tests by types, keys, places and the like.
    fn rules(
        &self,
        alloc: Global,
        c: &Catalogue,
        who: &Who,
        named: Self::Named,
    ) -> Result<Self::Made, EditError>
        requires good { IsGood c.now.items }
        requires named { naming self.now c.now.items who.now named }
        requires taken { Passes (First ((steps self.now c.now.items who.now).taken)) }
        ensures { IsTested ((steps self.now c.now.items who.now).rules) (making self.now c.now.items who.now) result };

    /// The privileges that the owner of the schema needs.
    fn needs<'a>(&self, c: &Catalogue, who: &Who, made: &'a Self::Made) -> &'a Items<Need>
        requires { making self.now c.now.items who.now made.now }
        ensures { (need : Need) → Contains result.now need ↔ (steps self.now c.now.items who.now).needs need };

    /// What it does, where nothing refuses it.
    fn edit(
        &self,
        alloc: Global,
        c: &Catalogue,
        who: &Who,
        made: Self::Made,
    ) -> Result<Edit, AllocError>
        requires good { IsGood c.now.items }
        requires made { making self.now c.now.items who.now made }
        requires passed { Passes (First (refusals_of c.now.items who.now (steps self.now c.now.items who.now))) }
        ensures { IfOk result ((steps self.now c.now.items who.now).edit) };
}

/// Refuses where the session doesn't act for the owner of the statement's schema.
fn test_owner_of<S: Making>(
    alloc: Global,
    c: &Catalogue,
    who: &Who,
    statement: &S,
) -> Result<(), EditError>
    ensures { HasPassed (not_owner c.now.items who.now (S.steps statement.now c.now.items who.now).schema ∷ []) result }
{
    test_owner(alloc, c, who, statement.schema(c, who))
}

/// Refuses where the owner of the statement's schema lacks a privilege that it needs.
fn test_needs_of<S: Making>(
    alloc: Global,
    c: &Catalogue,
    who: &Who,
    statement: &S,
    made: &S::Made,
) -> Result<(), EditError>
    requires made { S.making statement.now c.now.items who.now made.now }
    requires owned { Passes (not_owner c.now.items who.now (S.steps statement.now c.now.items who.now).schema) }
    ensures { HasPassed (no_least_privilege c.now.items (S.steps statement.now c.now.items who.now).schema (S.steps statement.now c.now.items who.now).needs ∷ []) result }
{
    let schema = statement.schema(c, who);
    test_needs(alloc, c, who, schema, statement.needs(c, who, made))
}

/// The edit of a statement, or the first of its refusals. `Memory` is want of memory.
pub fn edit_of<S: Making>(
    alloc: Global,
    c: &Catalogue,
    who: &Who,
    statement: &S,
) -> Result<Edit, EditError>
    requires { IsGood c.now.items }
    ensures { IsTested (refusals_of c.now.items who.now (S.steps statement.now c.now.items who.now)) (S.steps statement.now c.now.items who.now).edit result }
{
    statement.test_tree(alloc, c, who)?;
    let named = statement.names(alloc, c, who)?;
    test_owner_of(alloc, c, who, statement)?;
    statement.test_taken(alloc, c, who)?;
    let made = statement.rules(alloc, c, who, named)?;
    test_needs_of(alloc, c, who, statement, &made)?;
    Ok(statement.edit(alloc, c, who, made)?)
}
