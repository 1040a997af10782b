//! Which privileges can be granted.

ghost use Rattle.std.specs.Prelude.{◌≡◌, ◌≢◌, ◌↔◌, ◌⊎◌, ◌∷◌, [], ◌≤◌, ◌<◌, ℕ, length, slice_index_or, IfOk, OnOk, IsTrue, None};
ghost use Rattle.std.specs.List.{Contains};
ghost use Rattle.sql_tree.specs.declared.rights.Action.TheVariants as actions;
ghost use Rattle.cat_items.specs.declared.need.Need.{Need};
ghost use Rattle.cat_items.specs.Needs.{column_need};
ghost use Rattle.cat_items.specs.Rights.{path_of};
ghost use Rattle.role_graph.specs.Roles.{IsRoomFor};
ghost use Rattle.grant_edit.specs.Grants as spec;

use crate::named::on_column;
use cat_items::{Catalogue, Edit, Item, Need, NeedKey, PathKey, columns_of};
use role_graph::{Actor, Walk, met_by};
use sql_tree::{Action, Name, Object};
use std::alloc::{AllocError, Global};

/// What GRANT makes: its edit, and whether some but not all of what it names can be granted, which it warns of.
#[derive(Drop)]
pub struct Granting {
    pub edit: Edit,
    pub partial: bool,
}

/// The privileges that are granted, and whether all that are named are among them.
#[derive(Drop)]
pub struct Granted {
    pub needs: Vec<Need>,
    pub all: bool,
}

/// Whether an action is granted on columns too.
fn is_on_columns(action: Action) -> bool
    ensures { IsTrue result ↔ spec.IsOnColumns action }
{
    matches!(
        action,
        Action::Select | Action::Insert | Action::Update | Action::References
    )
}

/// The privilege on a column, where it can be granted.
fn push_column(
    needs: &mut Vec<Need>,
    c: &Catalogue,
    walk: &mut Walk,
    grantor: &Name,
    object: &Object,
    action: Action,
    x: &Item,
) -> Result<(), AllocError>
    requires { IsRoomFor walk.old c.now.items }
    ensures members { OnOk result ((need : Need) → Contains needs.new.items need ↔ (Contains needs.old.items need ⊎ spec.IsColumnGrant c.now.items grantor.now object.now action x.now need)) }
    ensures room { walk.new ≡ walk.old }
{
    let Item::Column(column) = x else {
        return Ok(());
    };
    let name = &column.get().name;
    let need = NeedKey {
        action,
        on: PathKey::Object(object.into()),
        column: Some(name),
    };
    if met_by(c, None, walk, Actor::Named(grantor), need, true) {
        needs.push(on_column(action, object, name)?)?;
    }
    Ok(())
}

/// The privileges on the columns of an object that can be granted.
fn push_columns(
    needs: &mut Vec<Need>,
    c: &Catalogue,
    walk: &mut Walk,
    grantor: &Name,
    object: &Object,
    action: Action,
) -> Result<(), AllocError>
    requires room { IsRoomFor walk.old c.now.items }
    requires columns { spec.IsOnColumns action }
    ensures members { OnOk result ((need : Need) → Contains needs.new.items need ↔ (Contains needs.old.items need ⊎ spec.IsColumnPrivilege c.now.items grantor.now object.now action need)) }
    ensures room { walk.new ≡ walk.old }
{
    let items = c.items();
    let all = columns_of(c, object);
    for at in all.start..all.end {
        push_column(needs, c, walk, grantor, object, action, &items[at])?;
    }
    Ok(())
}

/// A privilege that can be granted, and on a whole table or view those on its columns that go along.
fn push_granted(
    needs: &mut Vec<Need>,
    c: &Catalogue,
    walk: &mut Walk,
    grantor: &Name,
    object: &Object,
    need: &Need,
) -> Result<(), AllocError>
    requires room { IsRoomFor walk.old c.now.items }
    requires on { need.now.on ≡ path_of object.now }
    requires can { spec.CanGrant c.now.items grantor.now need.now }
    ensures members { OnOk result ((other : Need) → Contains needs.new.items other ↔ (Contains needs.old.items other ⊎ spec.IsToBeGranted c.now.items grantor.now object.now (need.now ∷ []) other)) }
    ensures room { walk.new ≡ walk.old }
{
    needs.push(need.copy()?)?;
    if need.column.is_none() && is_on_columns(need.action) {
        return push_columns(needs, c, walk, grantor, object, need.action);
    }
    Ok(())
}

/// What a grantor grants of the privileges that are named on an object.
pub fn find_granted(
    alloc: Global,
    c: &Catalogue,
    grantor: &Name,
    object: &Object,
    named: &Vec<Need>,
) -> Result<Granted, AllocError>
    requires { (need : Need) → Contains named.now.items need → need.on ≡ path_of object.now }
    ensures members { IfOk result (λ g. (need : Need) → Contains g.needs.items need ↔ spec.IsToBeGranted c.now.items grantor.now object.now named.now.items need) }
    ensures all { IfOk result (λ g. spec.AllGranted c.now.items grantor.now named.now.items g.all) }
{
    let mut walk = Walk::new(alloc, c)?;
    let mut needs = Vec::new(alloc);
    let mut all = true;
    for need in named {
        if met_by(c, None, &mut walk, Actor::Named(grantor), need.into(), true) {
            push_granted(&mut needs, c, &mut walk, grantor, object, need)?;
        } else {
            all = false;
        }
    }
    Ok(Granted { needs, all })
}
