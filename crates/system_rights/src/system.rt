//! The rights that the system could grant, object by object.

ghost use Rattle.std.specs.Prelude.{◌≡◌, ◌↔◌, ◌⊎◌, Contains, IfOk, OnOk, None, Some};
ghost use Rattle.std.specs.Option.{option_copied};
ghost use Rattle.cat_items.specs.declared.item.Item.{Item};
ghost use Rattle.cat_items.specs.Catalogues.{IsInOrder};
ghost use Rattle.cat_items.specs.Reach.{Has};
ghost use Rattle.cat_items.specs.Rights.{path_of};
ghost use Rattle.cat_items.specs.Shape.{IsColumnOf};
ghost use Rattle.cat_items.specs.Survivors.{IsSystemRight};
ghost use Rattle.system_rights.specs.Layers.{IsRightWhere, IsAdded, IsToOwner, IsAction, IsColumnAction, IsRowOf, IsSystemRightOn, schema_of_object};

use cat_items::{Auth, Catalogue, Item, Need, Right, Shared, columns_of, find, owner_of};
use sql_tree::{Action, Name, Object, Path};
use std::alloc::{AllocError, Global};

/// Puts in a right, if it isn't there.
fn put(rights: &mut Catalogue, right: Item) -> Result<(), AllocError>
    requires { IsRightWhere (λ r. Unit {0}) right }
    ensures { OnOk result ((x : Item) → Contains rights.new.items x ↔ (Contains rights.old.items x ⊎ (x ≡ right))) }
{
    match find(rights, &right) {
        Some(_) => {}
        None => {
            rights.reserve(1)?;
            rights.put_in(right);
        }
    }
    Ok(())
}

/// Puts in a privilege and its grant option, by the system to this owner.
fn put_both(
    alloc: Global,
    rights: &mut Catalogue,
    need: Need,
    owner: &Name,
) -> Result<(), AllocError>
    ensures { OnOk result (IsAdded rights.old.items rights.new.items (IsToOwner owner.now (λ n. n ≡ need))) }
{
    let right = Right {
        need,
        grantor: Auth::System,
        grantee: Auth::Named(owner.copy()?),
    };
    let right = Shared::new(alloc, right)?;
    put(rights, Item::Held(right.share()?))?;
    put(rights, Item::Grantable(right))
}

/// An action on an object, or on a column of it.
fn need_on(action: Action, on: &Object, column: Option<&Name>) -> Result<Need, AllocError>
    ensures { IfOk result (λ n. n ≡ record { action = action; on = path_of on.now; column = option_copied column.entry }) }
{
    let column = match column {
        None => None,
        Some(name) => Some(name.copy()?),
    };
    Ok(Need {
        action,
        on: Path::two(on.schema.copy()?, on.name.copy()?),
        column,
    })
}

/// Puts in the rights of these actions on an object, or on a column of it.
fn put_actions(
    alloc: Global,
    rights: &mut Catalogue,
    actions: &[Action],
    on: &Object,
    column: Option<&Name>,
    owner: &Name,
) -> Result<(), AllocError>
    ensures { OnOk result (IsAdded rights.old.items rights.new.items (IsToOwner owner.now (IsAction actions.now on.now (option_copied column.entry)))) }
{
    for action in actions {
        put_both(alloc, rights, need_on(*action, on, column)?, owner)?;
    }
    Ok(())
}

/// Puts in the rights of these actions on one column.
fn put_column(
    alloc: Global,
    rights: &mut Catalogue,
    actions: &[Action],
    on: &Object,
    x: &Item,
    owner: &Name,
) -> Result<(), AllocError>
    requires { IsColumnOf on.now x.now }
    ensures { OnOk result (IsAdded rights.old.items rights.new.items (IsToOwner owner.now (λ need. IsColumnAction actions.now on.now need x.now))) }
{
    match x {
        Item::Column(column) => {
            let name = &column.get().name;
            put_actions(alloc, rights, actions, on, Some(name), owner)
        }
        _ => Ok(()),
    }
}

/// Puts in the rights of these actions on each column of a table or a view.
fn put_columns(
    alloc: Global,
    rights: &mut Catalogue,
    c: &Catalogue,
    actions: &[Action],
    on: &Object,
    owner: &Name,
) -> Result<(), AllocError>
    ensures { OnOk result (IsAdded rights.old.items rights.new.items (IsToOwner owner.now (λ need. Has c.now.items (IsColumnAction actions.now on.now need)))) }
{
    let items = c.items();
    let all = columns_of(c, on);
    for at in all.start..all.end {
        put_column(alloc, rights, actions, on, &items[at], owner)?;
    }
    Ok(())
}

/// Puts in the rights of the actions on a whole table or view, and of those on each of its columns.
fn put_table(
    alloc: Global,
    rights: &mut Catalogue,
    c: &Catalogue,
    whole: &[Action],
    each: &[Action],
    on: &Object,
    owner: &Name,
) -> Result<(), AllocError>
    ensures { OnOk result (IsAdded rights.old.items rights.new.items (IsToOwner owner.now (λ need. IsAction whole.now on.now None need ⊎ Has c.now.items (IsColumnAction each.now on.now need)))) }
{
    put_actions(alloc, rights, whole, on, None, owner)?;
    put_columns(alloc, rights, c, each, on, owner)
}

/// The schema of an object on which the system could grant something.
fn schema_of(x: &Item) -> Option<&Name>
    ensures { option_copied result ≡ schema_of_object x.now }
{
    match x {
        Item::Table(table) => Some(&table.get().schema),
        Item::View(view) => Some(&view.get().view.schema),
        Item::Domain(domain) => Some(&domain.get().domain.schema),
        Item::Routine(routine) => Some(&routine.get().routine.schema),
        _ => None,
    }
}

/// Puts in what the system could grant on an object to this owner.
fn put_rows(
    alloc: Global,
    rights: &mut Catalogue,
    c: &Catalogue,
    x: &Item,
    owner: &Name,
) -> Result<(), AllocError>
    ensures { OnOk result (IsAdded rights.old.items rights.new.items (IsToOwner owner.now (IsRowOf c.now.items x.now))) }
{
    use Action::{Delete, Execute, Insert, References, Select, Update, Usage};
    match x {
        Item::Table(table) => {
            let whole = [Select, Insert, Update, References, Delete];
            put_table(alloc, rights, c, &whole, &whole[..4], table.get(), owner)
        }
        Item::View(view) => {
            let view = view.get();
            match &view.base {
                None => put_table(alloc, rights, c, &[Select], &[Select], &view.view, owner),
                Some(_) => {
                    let whole = [Select, Insert, Update, Delete];
                    put_table(alloc, rights, c, &whole, &whole[..3], &view.view, owner)
                }
            }
        }
        Item::Domain(domain) => {
            put_actions(alloc, rights, &[Usage], &domain.get().domain, None, owner)
        }
        Item::Routine(routine) => {
            put_actions(
                alloc,
                rights,
                &[Execute],
                &routine.get().routine,
                None,
                owner,
            )
        }
        _ => Ok(()),
    }
}

/// Puts in what the system could grant on an object to the owner of its schema.
fn put_object(
    alloc: Global,
    rights: &mut Catalogue,
    c: &Catalogue,
    x: &Item,
) -> Result<(), AllocError>
    requires { IsInOrder c.now.items }
    ensures { OnOk result (IsAdded rights.old.items rights.new.items (IsSystemRightOn c.now.items x.now)) }
{
    match schema_of(x) {
        None => Ok(()),
        Some(schema) => match owner_of(c, schema) {
            None => Ok(()),
            Some(owner) => put_rows(alloc, rights, c, x, owner),
        },
    }
}

/// All rights by the system that could be granted for the objects of the catalogue, in order, each once,
/// whether or not their conditions hold: to the owner of each schema, held and with grant option. `Err` is want
/// of memory.
pub fn system_items(alloc: Global, c: &Catalogue) -> Result<Vec<Item>, AllocError>
    ensures order { IfOk result (λ items. IsInOrder items.items) }
    ensures members { IfOk result (λ items. (x : Item) → Contains items.items x ↔ IsSystemRight c.now.items x) }
{
    let mut rights = Catalogue::of_sorted(Vec::new(alloc));
    for x in c.items() {
        put_object(alloc, &mut rights, c, x)?;
    }
    Ok(rights.into_items())
}
