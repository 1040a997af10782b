//! The rights on a whole table, as rights on a column of it.

ghost use Rattle.std.specs.Prelude.{◌≡◌, ◌↔◌, ◌⊎◌, ◌++◌, flat_map, Contains, IfOk, OnOk};
ghost use Rattle.std.specs.List.{Any};
ghost use Rattle.cat_items.specs.declared.item.Item.{Item as AnyItem};
ghost use Rattle.table_additions.specs.Additions as spec;
ghost use Rattle.table_additions.specs.Lists as lists;

use crate::ranges::items_in;
use cat_items::{Catalogue, Item, Need, NeedKey, Part as Stretch, PathKey, Right, Shared};
use sql_tree::{Action, Items, Name, Object};
use std::alloc::{AllocError, Global};
use table_parts::Part;

/// The same right on a column of its object.
fn right_on(right: &Right, name: &Name) -> Result<Right, AllocError>
    ensures { IfOk result (λ r. r ≡ lists.on_column name.now right.now) }
{
    Ok(Right {
        need: Need {
            action: right.need.action,
            on: right.need.on.copy()?,
            column: Some(name.copy()?),
        },
        grantor: right.grantor.copy()?,
        grantee: right.grantee.copy()?,
    })
}

fn push_right(alloc: Global, all: &mut Items<Item>, name: &Name, x: &Item) -> Result<(), AllocError>
    ensures { OnOk result (all.new ≡ all.old ++ lists.right_on_column name.now x.now) }
{
    match x {
        Item::Held(right) => {
            let right = right_on(right.get(), name)?;
            all.push(Item::Held(Shared::new(alloc, right)?))
        }
        Item::Grantable(right) => {
            let right = right_on(right.get(), name)?;
            all.push(Item::Grantable(Shared::new(alloc, right)?))
        }
        _ => Ok(()),
    }
}

fn push_rights(
    alloc: Global,
    all: &mut Items<Item>,
    name: &Name,
    items: &[Item],
) -> Result<(), AllocError>
    ensures { OnOk result (all.new ≡ all.old ++ flat_map (lists.right_on_column name.now) items.now) }
{
    for x in items {
        push_right(alloc, all, name, x)?;
    }
    Ok(())
}

/// Puts the rights by an action on the whole table behind others, as rights on a column.
fn push_action(
    alloc: Global,
    all: &mut Items<Item>,
    c: &Catalogue,
    table: &Object,
    name: &Name,
    action: Action,
) -> Result<(), AllocError>
    ensures { OnOk result ((x : AnyItem) → Contains all.new x ↔ (Contains all.old x ⊎ lists.IsRightBy c.now.items table.now name.now action x)) }
{
    let need = NeedKey {
        action,
        on: PathKey::Object(table.into()),
        column: None,
    };
    push_rights(alloc, all, name, items_in(c, Stretch::Held(need)))?;
    push_rights(alloc, all, name, items_in(c, Stretch::Grantable(need)))
}

/// Puts the rights on the whole table behind others, as rights on a column.
fn push_actions(
    alloc: Global,
    all: &mut Items<Item>,
    c: &Catalogue,
    table: &Object,
    name: &Name,
) -> Result<(), AllocError>
    ensures { OnOk result ((x : AnyItem) → Contains all.new x ↔ (Contains all.old x ⊎ spec.IsRightAsOnTable c.now.items table.now name.now x)) }
{
    push_action(alloc, all, c, table, name, Action::Select)?;
    push_action(alloc, all, c, table, name, Action::Insert)?;
    push_action(alloc, all, c, table, name, Action::Update)?;
    push_action(alloc, all, c, table, name, Action::References)
}

fn push_part(
    alloc: Global,
    all: &mut Items<Item>,
    c: &Catalogue,
    table: &Object,
    part: &Part,
) -> Result<(), AllocError>
    ensures { OnOk result ((x : AnyItem) → Contains all.new x ↔ (Contains all.old x ⊎ spec.IsRightOfPart c.now.items table.now x part.now)) }
{
    match part {
        Part::Column(definition) => push_actions(alloc, all, c, table, &definition.column),
        Part::Constraint(_) => Ok(()),
    }
}

/// Puts the rights on the whole table behind others, as rights on each column of the parts. `Err` is want of memory.
pub fn push_parts(
    alloc: Global,
    all: &mut Items<Item>,
    c: &Catalogue,
    table: &Object,
    parts: &Items<Part>,
) -> Result<(), AllocError>
    ensures { OnOk result ((x : AnyItem) → Contains all.new x ↔ (Contains all.old x ⊎ Any (spec.IsRightOfPart c.now.items table.now x) parts.now)) }
{
    for part in parts.as_slice() {
        push_part(alloc, all, c, table, part)?;
    }
    Ok(())
}
