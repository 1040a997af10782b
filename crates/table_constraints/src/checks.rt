//! Checks of a table.

ghost use Rattle.std.specs.Prelude.{◌≡◌, ◌++◌, IfOk, OnOk};
ghost use Rattle.table_constraints.specs.OneMade as spec;

use cat_items::{Check, Item, Need, Shared};
use own_columns::own_columns;
use sql_tree::{Items, Name, Object};
use std::alloc::{AllocError, Global};
use view_deps::ResolvedExpr;

fn copy_needs(alloc: Global, needs: &Items<Need>) -> Result<Items<Need>, AllocError>
    ensures { IfOk result (λ copy. copy ≡ needs.now) }
{
    let mut copy = Items::new(alloc);
    for need in needs.as_slice() {
        copy.push(need.copy()?)?;
    }
    Ok(copy)
}

/// The check of this name and condition.
fn check_made(
    alloc: Global,
    table: &Object,
    name: &Name,
    resolved: &ResolvedExpr,
) -> Result<Check, AllocError>
    ensures { IfOk result (spec.IsCheckBy table.now name.now resolved.now) }
{
    let name = Object {
        schema: table.schema.copy()?,
        name: name.copy()?,
    };
    Ok(Check {
        name,
        table: table.copy()?,
        columns: own_columns(alloc, table, &resolved.expr)?,
        cond: resolved.expr.copy(alloc)?,
        needs: copy_needs(alloc, &resolved.needs)?,
    })
}

/// The check of this name and condition, where that has a type. `Err` is want of memory.
pub fn check_item(
    alloc: Global,
    table: &Object,
    name: &Name,
    found: &Option<ResolvedExpr>,
) -> Result<Option<Item>, AllocError>
    ensures { IfOk result (spec.IsCheckItem table.now name.now found.now) }
{
    match found {
        None => Ok(None),
        Some(resolved) => {
            let check = check_made(alloc, table, name, resolved)?;
            Ok(Some(Item::Check(Shared::new(alloc, check)?)))
        }
    }
}
