//! Tables and views with their columns by name.

ghost use Rattle.std.specs.Prelude.{◌≡◌, All, Contains, IfOk, IfSome, OnOk};
ghost use Rattle.std.specs.BTreeMap.{get};
ghost use Rattle.std.specs.Cmp.Lexicographic.{slice_cmp};
ghost use Rattle.std.specs.Ordering.{nat_cmp};
ghost use Rattle.sql_names.specs.NameBytes.{NameBytes};
ghost use Rattle.name_scopes.specs.Known.{column_in};
ghost use Rattle.view_deps.specs.Described.{columns_in};
ghost use Rattle.view_deps.specs.ByName as spec;

use crate::catalogue::columns;
use cat_items::{Catalogue, Item, columns_of};
use name_scopes::same_object;
use sql_tree::{Items, Name, Object, SqlType};
use std::alloc::{AllocError, Global};
use std::collections::BTreeMap;

/// How many columns a table has at least whose columns are looked up by name.
const WIDE: usize = 32;

/// A table or a view with the types of its columns by their names.
#[derive(Drop)]
pub struct Wide {
    pub table: Object,
    pub sorts: BTreeMap<Name, SqlType>,
}

/// Puts in the column that a descriptor is of, where it is of this table and no earlier one has its name.
fn put_sort(
    sorts: &mut BTreeMap<Name, SqlType>,
    table: &Object,
    item: &Item,
) -> Result<(), AllocError>
    ensures { OnOk result (spec.Joins (columns_in table.now item.now) sorts.old sorts.new) }
{
    match item {
        Item::Column(column) if same_object(&column.get().table, table) => {
            let column = column.get();
            if !sorts.contains_key(&column.name) {
                sorts.insert(column.name.copy()?, column.sort)?;
            }
            Ok(())
        }
        _ => Ok(()),
    }
}

fn sorts_of(
    alloc: Global,
    c: &Catalogue,
    table: &Object,
) -> Result<BTreeMap<Name, SqlType>, AllocError>
    ensures { IfOk result (λ sorts. spec.AreSorts c.now.items table.now sorts) }
{
    let mut sorts = BTreeMap::new(alloc);
    for item in columns(c, table) {
        put_sort(&mut sorts, table, item)?;
    }
    Ok(sorts)
}

/// Puts in a table or a view, where it is wide and isn't there yet.
fn put_wide(
    alloc: Global,
    c: &Catalogue,
    all: &mut Items<Wide>,
    table: &Object,
) -> Result<(), AllocError>
    requires { All (spec.IsWide c.now.items) all.old }
    ensures { OnOk result (All (spec.IsWide c.now.items) all.new) }
{
    if columns_of(c, table).len() < WIDE || wide_of(all.as_slice(), table).is_some() {
        return Ok(());
    }
    let sorts = sorts_of(alloc, c, table)?;
    let table = table.copy()?;
    all.push(Wide { table, sorts })
}

/// Of these tables and views those that are wide, each once. `Err` is want of memory.
pub fn wide_among(alloc: Global, c: &Catalogue, found: &[Object]) -> Result<Items<Wide>, AllocError>
    ensures { IfOk result (λ all. All (spec.IsWide c.now.items) all) }
{
    let mut all = Items::new(alloc);
    for table in found {
        put_wide(alloc, c, &mut all, table)?;
    }
    Ok(all)
}

/// The one of this table, if there is one.
pub fn wide_of<'a>(all: &'a [Wide], table: &Object) -> Option<&'a Wide>
    ensures among { IfSome result (λ wide. Contains all.now wide.now) }
    ensures named { IfSome result (λ wide. wide.now.table ≡ table.now) }
{
    all.iter().find(|wide| same_object(&wide.table, table))
}
