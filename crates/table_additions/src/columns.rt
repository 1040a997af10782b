//! The columns of a table that is altered: their places, and those that become NOT NULL.

ghost use Rattle.std.specs.Prelude.{◌≡◌, ◌↔◌, max, true, IfOk, IsTrue};
ghost use Rattle.std.specs.List.{Any};
ghost use Rattle.cat_items.specs.declared.item.Column.{Column as AnyColumn};
ghost use Rattle.edit_rules.specs.Chosen.{AreChosen};
ghost use Rattle.table_parts.specs.Columns.{IsPrimaryWith};
ghost use Rattle.table_additions.specs.Additions as spec;

use crate::ranges::{chosen_of, columns_of};
use cat_items::{Catalogue, Column, Item};
use edit_rules::Chooses;
use name_scopes::same_object;
use sql_tree::{Items, Name, Object, TableConstraintKind};
use std::alloc::{AllocError, Global};
use table_parts::{Part, is_among};

/// The place of a column of the table.
fn place_here(table: &Object, x: &Item) -> u32
    ensures { result ≡ spec.place_here table.now x.now }
{
    match x {
        Item::Column(column) if same_object(&column.get().table, table) => column.get().place,
        _ => 0,
    }
}

fn greater(a: u32, b: u32) -> u32
    ensures { result ≡ max a b }
{
    if a < b { b } else { a }
}

/// The greatest place of a column of the table among these.
fn greatest_place(table: &Object, items: &[Item]) -> u32
    ensures { result ≡ spec.last_place items.now table.now }
{
    let mut last = 0;
    for x in items {
        last = greater(last, place_here(table, x));
    }
    last
}

/// The greatest place of a column of the table, 0 where it has none.
pub fn last_place(c: &Catalogue, table: &Object) -> u32
    ensures { result ≡ spec.last_place c.now.items table.now }
{
    greatest_place(table, columns_of(c, table))
}

/// Whether a part is a PRIMARY KEY with this column.
fn is_primary_with(part: &Part, name: &Name) -> bool
    ensures { IsTrue result ↔ IsPrimaryWith name.now part.now }
{
    match part {
        Part::Constraint(constraint) => match &constraint.kind {
            TableConstraintKind::PrimaryKey(columns) => is_among(columns, name),
            _ => false,
        },
        Part::Column(_) => false,
    }
}

/// Whether one of these is a PRIMARY KEY with this column.
fn has_primary_with(parts: &Items<Part>, name: &Name) -> bool
    ensures { IsTrue result ↔ Any (IsPrimaryWith name.now) parts.now }
{
    for part in parts.as_slice() {
        if is_primary_with(part, name) {
            return true;
        }
    }
    false
}

/// The columns that come into a PRIMARY KEY.
#[derive(Drop)]
struct NullableColumns<'a> {
    table: &'a Object,
    parts: &'a Items<Part>,
}

impl<'a> NullableColumns<'a> {
    fn becomes_not_null(&self, column: &Column) -> bool
        ensures { IsTrue result ↔ spec.BecomesNotNull self.now.table.now self.now.parts.now column.now }
    {
        column.table.same(self.table)
            && has_primary_with(self.parts, &column.name)
            && !column.not_null
    }
}

impl<'a> Chooses for NullableColumns<'a> {
    ghost use Rattle.table_additions.specs.Additions.{IsMadeNotNull};

    ghost fits = { λ t x. IsMadeNotNull t.table.now t.parts.now x };

    fn chooses(&self, x: &Item) -> bool {
        match x {
            Item::Column(column) => self.becomes_not_null(column.get()),
            _ => false,
        }
    }
}

/// The columns of the table that become NOT NULL by a PRIMARY KEY among these parts, in order. `Err` is want of memory.
pub fn nullable_columns(
    alloc: Global,
    c: &Catalogue,
    table: &Object,
    parts: &Items<Part>,
) -> Result<Items<Item>, AllocError>
    ensures { IfOk result (AreChosen c.now.items (spec.IsMadeNotNull table.now parts.now)) }
{
    let test = NullableColumns { table, parts };
    chosen_of(alloc, columns_of(c, table), &test)
}

/// The column with NOT NULL.
pub fn with_not_null(column: &Column) -> Result<Column, AllocError>
    ensures { IfOk result (λ (x : AnyColumn). x ≡ record column.now { not_null = true }) }
{
    let mut copy = column.copy()?;
    copy.not_null = true;
    Ok(copy)
}
