//! The columns of a table, each with its type.

ghost use Rattle.std.specs.Prelude.{◌≡◌, ◌↔◌, ◌++◌, flat_map, IfOk, IsTrue, OnOk};
ghost use Rattle.std.specs.List.{Any};
ghost use Rattle.table_work.specs.Seen as spec;

use crate::work::Work;
use cat_items::{Catalogue, Item, columns_of};
use name_scopes::same_object;
use sql_tree::{Items, Name, Object, Param};
use std::alloc::{AllocError, Global};

/// The descriptors of the columns of a table.
fn descriptors<'a>(c: &'a Catalogue, table: &Object) -> &'a [Item]
    ensures { spec.columns_in c.now.items table.now ≡ flat_map (spec.column_here table.now) result.now }
{
    &c.items()[columns_of(c, table)]
}

fn push_column(out: &mut Items<Param>, table: &Object, x: &Item) -> Result<(), AllocError>
    ensures { OnOk result (out.new ≡ out.old ++ spec.column_here table.now x.now) }
{
    match x {
        Item::Column(column) if same_object(&column.get().table, table) => {
            let column = column.get();
            out.push(Param {
                name: column.name.copy()?,
                sort: column.sort,
            })
        }
        _ => Ok(()),
    }
}

fn push_columns(out: &mut Items<Param>, table: &Object, items: &[Item]) -> Result<(), AllocError>
    ensures { OnOk result (out.new ≡ out.old ++ flat_map (spec.column_here table.now) items.now) }
{
    for x in items {
        push_column(out, table, x)?;
    }
    Ok(())
}

/// The columns of a table of the catalogue, in the order of their places. `Err` is want of memory.
pub fn columns_in(alloc: Global, c: &Catalogue, table: &Object) -> Result<Items<Param>, AllocError>
    ensures { IfOk result (λ columns. columns ≡ spec.columns_in c.now.items table.now) }
{
    let mut columns = Items::new(alloc);
    push_columns(&mut columns, table, descriptors(c, table))?;
    Ok(columns)
}

fn copy_columns(alloc: Global, columns: &Items<Param>) -> Result<Items<Param>, AllocError>
    ensures { IfOk result (λ copy. copy ≡ columns.now) }
{
    let mut copy = Items::new(alloc);
    for column in columns.as_slice() {
        copy.push(Param {
            name: column.name.copy()?,
            sort: column.sort,
        })?;
    }
    Ok(copy)
}

/// The columns of a table that a statement sees: of the table that it makes or alters its own. `Err` is want of memory.
pub fn columns_seen(
    alloc: Global,
    c: &Catalogue,
    w: &Work,
    table: &Object,
) -> Result<Items<Param>, AllocError>
    ensures { IfOk result (λ columns. columns ≡ spec.columns_seen c.now.items w.now table.now) }
{
    if same_object(table, &w.table) {
        copy_columns(alloc, &w.columns)
    } else {
        columns_in(alloc, c, table)
    }
}

/// Whether one of these columns has a name. It takes no memory.
pub fn has_column_called(columns: &Items<Param>, name: &Name) -> bool
    ensures { IsTrue result ↔ Any (spec.IsCalled name.now) columns.now }
{
    for column in columns.as_slice() {
        if column.name.same(name) {
            return true;
        }
    }
    false
}
