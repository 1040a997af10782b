//! Copies of domains' checks.

ghost use Rattle.std.specs.Prelude.{◌≡◌, ◌↔◌, ◌∷◌, [], false, IfOk, IsTrue, OnOk, Some, flat_map};
ghost use Rattle.cat_items.specs.Reach.{Has};
ghost use Rattle.cat_items.specs.Rights.{MeetsAll};
ghost use Rattle.domain_drop.specs.CheckCopies as spec;

use crate::names::free_name;
use cat_items::{Catalogue, Check, Column, DomainCheck, Item, Need, Shared};
use constraint_deps::needs_of_cond;
use own_columns::own_columns;
use role_graph::{Judge, Needs, Walk};
use sql_tree::{Expr, Items, Name, Object};
use std::alloc::{AllocError, Global};
use value_columns::replace_value;

/// Whether all these needs are met for the owner of a schema.
fn owner_meets(
    alloc: Global,
    c: &Catalogue,
    schema: &Name,
    needs: &Items<Need>,
) -> Result<bool, AllocError>
    ensures { IfOk result (λ met. IsTrue met ↔ Has c.now.items (MeetsAll false c.now.items schema.now needs.now)) }
{
    let mut walk = Walk::new(alloc, c)?;
    let mut judge = Judge::new(c, None, &mut walk);
    let met = judge.owner_meets(schema, Needs::Listed(needs));
    judge.end();
    Ok(met)
}

/// Whether a column is based on a domain.
fn is_based(column: &Column, domain: &Object) -> bool
    ensures { IsTrue result ↔ (column.now.domain ≡ Some domain.now) }
{
    match &column.domain {
        None => false,
        Some(own) => own.same(domain),
    }
}

/// The copy behind those.
fn copy_made(
    alloc: Global,
    c: &Catalogue,
    column: &Column,
    cond: Expr,
    needs: Items<Need>,
    copies: &Items<Shared<Check>>,
) -> Result<Check, AllocError>
    ensures { IfOk result (spec.IsMade c.now.items copies.now column.now cond needs) }
{
    let name = free_name(alloc, c, &column.table.schema, copies)?;
    let columns = own_columns(alloc, &column.table, &cond)?;
    Ok(Check {
        name,
        table: column.table.copy()?,
        columns,
        cond,
        needs,
    })
}

/// Puts the copy of a check for a column behind those that are made, where it can be made.
fn copy_check(
    alloc: Global,
    c: &Catalogue,
    column: &Column,
    check: &DomainCheck,
    copies: &mut Items<Shared<Check>>,
) -> Result<(), AllocError>
    ensures { OnOk result (spec.AddsCopies c.now.items (record { column = column.now; check = check.now } ∷ []) copies.old copies.new) }
{
    if !is_based(column, &check.domain) {
        return Ok(());
    }
    let cond = replace_value(alloc, &check.cond, &column.table, &column.name)?;
    let needs = needs_of_cond(alloc, &cond)?;
    if !owner_meets(alloc, c, &column.table.schema, &needs)? {
        return Ok(());
    }
    let copy = copy_made(alloc, c, column, cond, needs, copies)?;
    copies.push(Shared::new(alloc, copy)?)
}

fn copy_item(
    alloc: Global,
    c: &Catalogue,
    column: &Column,
    x: &Item,
    copies: &mut Items<Shared<Check>>,
) -> Result<(), AllocError>
    ensures { OnOk result (spec.AddsCopies c.now.items (spec.pairs_with column.now x.now) copies.old copies.new) }
{
    match x {
        Item::DomainCheck(check) => copy_check(alloc, c, column, check.get(), copies),
        _ => Ok(()),
    }
}

/// Puts the copies for a column behind those that are made, in the order of the checks.
fn copies_for_column(
    alloc: Global,
    c: &Catalogue,
    checks: &Items<Item>,
    column: &Column,
    copies: &mut Items<Shared<Check>>,
) -> Result<(), AllocError>
    ensures { OnOk result (spec.AddsCopies c.now.items (flat_map (spec.pairs_with column.now) checks.now) copies.old copies.new) }
{
    for x in checks.as_slice() {
        copy_item(alloc, c, column, x, copies)?;
    }
    Ok(())
}

fn copies_for_item(
    alloc: Global,
    c: &Catalogue,
    checks: &Items<Item>,
    x: &Item,
    copies: &mut Items<Shared<Check>>,
) -> Result<(), AllocError>
    ensures { OnOk result (spec.AddsCopies c.now.items (spec.pairs_here checks.now x.now) copies.old copies.new) }
{
    match x {
        Item::Column(column) => copies_for_column(alloc, c, checks, column.get(), copies),
        _ => Ok(()),
    }
}

/// The copies of these checks for these columns: for each column, in order, those of its domain's checks that can be made, in order. `Err` is
/// want of memory.
pub fn copies_of(
    alloc: Global,
    c: &Catalogue,
    columns: &Items<Item>,
    checks: &Items<Item>,
) -> Result<Items<Shared<Check>>, AllocError>
    ensures { IfOk result (spec.AreCopies c.now.items [] (spec.pairs_of columns.now checks.now)) }
{
    let mut copies = Items::new(alloc);
    for x in columns.as_slice() {
        copies_for_item(alloc, c, checks, x, &mut copies)?;
    }
    Ok(copies)
}
