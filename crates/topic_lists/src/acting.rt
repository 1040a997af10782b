//! For whom the needs of an item are to be met, and whom this one reaches.

ghost use Rattle.std.specs.Prelude.{◌≡◌, ◌↔◌, Contains, IfOk, IsTrue, OnOk};
ghost use Rattle.cat_items.specs.declared.need.Auth.{Auth};
ghost use Rattle.cat_items.specs.Reach.{Reaches};
ghost use Rattle.cat_items.specs.Relevant.{ActsInRight, IsActor, Owns};
ghost use Rattle.role_graph.specs.Actors.{auth_of};
ghost use Rattle.topic_keys.specs.Lists.{Gets};
ghost use Rattle.topic_lists.specs.Actors as spec;

use cat_items::{Auth, Catalogue, Item, Right, owner_of};
use reached_roles::RoleGrants;
use role_graph::Actor;
use sql_tree::Name;
use std::alloc::{AllocError, Global};

/// The owner of the schema of this name.
fn owner_in<'a>(c: &'a Catalogue, schema: &Name) -> Option<Actor<'a>>
    ensures { spec.IsTheOne (Owns c.now.items schema.now) (spec.auth_in result) }
{
    // What the proof takes from it: the items are in order.
    let _ = c.items();
    match owner_of(c, schema) {
        None => None,
        Some(owner) => Some(Actor::Named(owner)),
    }
}

/// Who acts in a right.
fn acting_in<'a>(c: &'a Catalogue, right: &'a Right) -> Option<Actor<'a>>
    ensures { spec.IsTheOne (ActsInRight c.now.items right.now right.now.grantor) (spec.auth_in result) }
{
    match &right.grantor {
        Auth::System => match right.need.on.get(0) {
            None => None,
            Some(schema) => owner_in(c, schema),
        },
        Auth::Public => Some(Actor::Public),
        Auth::Named(grantor) => Some(Actor::Named(grantor)),
    }
}

/// For whom the needs of an item are to be met.
fn actor_of<'a>(c: &'a Catalogue, x: &'a Item) -> Option<Actor<'a>>
    ensures { spec.IsTheOne (IsActor c.now.items x.now) (spec.auth_in result) }
{
    match x {
        Item::User(_) | Item::Role(_) | Item::Schema(_) => None,
        Item::Table(table) => owner_in(c, &table.get().schema),
        Item::View(view) => owner_in(c, &view.get().view.schema),
        Item::Column(column) => owner_in(c, &column.get().table.schema),
        Item::Domain(domain) => owner_in(c, &domain.get().domain.schema),
        Item::DomainCheck(check) => owner_in(c, &check.get().name.schema),
        Item::Key(key) => owner_in(c, &key.get().name.schema),
        Item::Foreign(foreign) => owner_in(c, &foreign.get().name.schema),
        Item::Check(check) => owner_in(c, &check.get().name.schema),
        Item::Assertion(assertion) => owner_in(c, &assertion.get().name.schema),
        Item::Routine(routine) => owner_in(c, &routine.get().routine.schema),
        Item::RoleAuth(grant) => Some((&grant.get().grantor).into()),
        Item::RoleAdmin(grant) => Some((&grant.get().grantor).into()),
        Item::Held(right) => acting_in(c, right.get()),
        Item::Grantable(right) => acting_in(c, right.get()),
    }
}

fn push_names(all: &mut Vec<Auth>, names: &[Name]) -> Result<(), AllocError>
    ensures { OnOk result (Gets (spec.IsNamedAmong names.now) all.old.items all.new.items) }
{
    for name in names {
        all.push(Auth::Named(name.copy()?))?;
    }
    Ok(())
}

/// Puts in a user or role, and each role that it reaches.
fn push_reached(
    alloc: Global,
    roles: &RoleGrants<'_>,
    from: &Name,
    all: &mut Vec<Auth>,
) -> Result<(), AllocError>
    ensures { OnOk result (Gets (spec.IsNamedReach roles.now from.now) all.old.items all.new.items) }
{
    let names = roles.reached(alloc, from)?;
    push_names(all, names.as_slice())?;
    all.push(Auth::Named(from.copy()?))?;
    Ok(())
}

fn reached_from(
    alloc: Global,
    roles: &RoleGrants<'_>,
    actor: Actor<'_>,
) -> Result<Vec<Auth>, AllocError>
    ensures { IfOk result (λ all. (g : Auth) → Contains all.items g ↔ Reaches roles.now (auth_of actor.entry) g) }
{
    let mut all = Vec::new(alloc);
    all.push(Auth::Public)?;
    match actor {
        Actor::System => {
            all.push(Auth::System)?;
            Ok(all)
        }
        Actor::Public => Ok(all),
        Actor::Named(name) => {
            push_reached(alloc, roles, name, &mut all)?;
            Ok(all)
        }
    }
}

fn reached(
    alloc: Global,
    c: &Catalogue,
    roles: &RoleGrants<'_>,
    x: &Item,
) -> Result<Vec<Auth>, AllocError>
    requires { roles.now ≡ c.now.items }
    ensures { IfOk result (λ all. (g : Auth) → Contains all.items g ↔ spec.IsReachedBy c.now.items x.now g) }
{
    match actor_of(c, x) {
        None => Ok(Vec::new(alloc)),
        Some(actor) => reached_from(alloc, roles, actor),
    }
}

/// Whom the actor of an item reaches, where anything is looked for. The role authorizations are those of the catalogue. `Err` is want of memory.
pub fn reached_if(
    alloc: Global,
    c: &Catalogue,
    roles: &RoleGrants<'_>,
    x: &Item,
    looks: bool,
) -> Result<Vec<Auth>, AllocError>
    requires { roles.now ≡ c.now.items }
    ensures { IfOk result (λ all. (g : Auth) → Contains all.items g ↔ (IsTrue looks × spec.IsReachedBy c.now.items x.now g)) }
{
    if looks {
        reached(alloc, c, roles, x)
    } else {
        Ok(Vec::new(alloc))
    }
}
