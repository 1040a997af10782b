//! What names stand for by a catalogue.

ghost use Rattle.std.specs.Prelude.{◌≡◌, ◌++◌, map, flat_map, option_map, IfOk, OnOk, MatchOption};
ghost use Rattle.std.specs.List.{list_any};
ghost use Rattle.std.specs.Option.{option_copied};
ghost use Rattle.sql_names.specs.declared.sort.Param.{Param};
ghost use Rattle.name_scopes.specs.declared.scope.Signature.{Signature};
ghost use Rattle.name_scopes.specs.Known as known;
ghost use Rattle.cat_items.specs.declared.item.Column.{Column};
ghost use Rattle.cat_items.specs.declared.item.Routine.{Routine};
ghost use Rattle.view_deps.specs.Described as spec;

use crate::by_name::{Wide, wide_among, wide_of};
use cat_items::{Catalogue, Column, Item, Part, Routine, columns_of, places};
use name_scopes::{Dictionary, is_name, same_object};
use sql_tree::{Items, Name, Object, Param, SqlType};
use std::alloc::{AllocError, Global};
use std::marker::Model;

/// The names of tables, views, columns and routines that a catalogue has. Tables, views and routines are searched for in its order; so are the columns
/// of a wide table or view by their names, where it is one that was given before, while those of the others are gone through.
#[derive(Drop)]
pub struct CatalogueNames<'a> {
    catalogue: &'a Catalogue,
    wide: Items<Wide>,
}

impl<'a> Model for CatalogueNames<'a> {
    ghost use Rattle.std.specs.Prelude.{All, List};
    ghost use Rattle.std.specs.Coded.{codes};
    ghost use Rattle.cat_items.specs.declared.item.Item.{Item};
    ghost use Rattle.sql_tree.specs.contracts.expr.Expr as expr;
    ghost use Rattle.sql_tree.specs.contracts.expr.Query as query;
    ghost use Rattle.view_deps.specs.ByName.{IsWide};

    ghost Value = { List Item };

    ghost coded = { Prim.hlevel (codes, expr.the_row.coded, query.the_row.coded) };

    ghost view = { λ d. d.catalogue.now.items };

    ghost invariant = { λ d. All (IsWide d.catalogue.now.items) d.wide };
}

impl<'a> CatalogueNames<'a> {
    /// Those of a catalogue, where no table's columns are looked up by name. It takes no memory.
    pub fn new(alloc: Global, catalogue: &'a Catalogue) -> CatalogueNames<'a>
        ensures { result ≡ catalogue.now.items }
    {
        CatalogueNames {
            catalogue,
            wide: Items::new(alloc),
        }
    }

    /// Those of a catalogue, where columns of these tables and views are looked up by name. `Err` is want of memory.
    pub fn over(
        alloc: Global,
        catalogue: &'a Catalogue,
        found: &[Object],
    ) -> Result<CatalogueNames<'a>, AllocError>
        ensures { IfOk result (λ names. names ≡ catalogue.now.items) }
    {
        let wide = wide_among(alloc, catalogue, found)?;
        Ok(CatalogueNames { catalogue, wide })
    }
}

fn is_base_table(c: &Catalogue, table: &Object) -> bool
    ensures { result ≡ list_any (spec.is_base_table table.now) c.now.items }
{
    let range = places(c, Part::Table(table.into()));
    range.start < range.end
}

fn is_view(c: &Catalogue, view: &Object) -> bool
    ensures { result ≡ list_any (spec.is_view view.now) c.now.items }
{
    let range = places(c, Part::View(view.into()));
    range.start < range.end
}

/// The descriptors of the columns of a table or a view.
pub fn columns<'a>(c: &'a Catalogue, table: &Object) -> &'a [Item]
    ensures { flat_map (spec.columns_in table.now) c.now.items ≡ flat_map (spec.columns_in table.now) result.now }
{
    &c.items()[columns_of(c, table)]
}

/// The descriptors of the routine of this name: one, or none.
fn routines<'a>(c: &'a Catalogue, routine: &Object) -> &'a [Item]
    ensures { flat_map (spec.routines_in routine.now) c.now.items ≡ flat_map (spec.routines_in routine.now) result.now }
{
    &c.items()[places(c, Part::Routine(routine.into()))]
}

#[tactic(auto, using(std::proofs::lemmas::Grind::common_steps))]
fn put_names(out: &mut Items<Name>, table: &Object, items: &[Item]) -> Result<(), AllocError>
    ensures { OnOk result (out.new ≡ out.old ++ map (λ (p : Param). p.name) (flat_map (spec.columns_in table.now) items.now)) }
{
    for item in items {
        put_name(out, table, item)?;
    }
    Ok(())
}

fn put_name(out: &mut Items<Name>, table: &Object, item: &Item) -> Result<(), AllocError>
    ensures { OnOk result (out.new ≡ out.old ++ map (λ (p : Param). p.name) (spec.columns_in table.now item.now)) }
{
    match item {
        Item::Column(column) if same_object(&column.get().table, table) => {
            out.push(column.get().name.copy()?)
        }
        _ => Ok(()),
    }
}

/// The type of the column of this name, where the descriptor is of it.
fn sort_in(table: &Object, name: &Name, item: &Item) -> Option<SqlType>
    ensures { result ≡ known.column_in name.now (spec.columns_in table.now item.now) }
{
    match item {
        Item::Column(column)
            if same_object(&column.get().table, table) && is_name(&column.get().name, name) => {
            Some(column.get().sort)
        }
        _ => None,
    }
}

#[tactic(auto, using(crate::proofs::Sorts::behind_none, crate::proofs::Sorts::before_any))]
fn find_sort(table: &Object, name: &Name, items: &[Item]) -> Option<SqlType>
    ensures { result ≡ known.column_in name.now (flat_map (spec.columns_in table.now) items.now) }
{
    for item in items {
        if let Some(sort) = sort_in(table, name, item) {
            return Some(sort);
        }
    }
    None
}

/// The routine of this name among these descriptors.
fn find_routine<'a>(name: &Object, items: &'a [Item]) -> Option<&'a Routine>
    ensures { option_map spec.signature_of (option_copied result) ≡ spec.first_of (flat_map (spec.routines_in name.now) items.now) }
{
    for item in items {
        if let Item::Routine(routine) = item {
            if same_object(&routine.get().routine, name) {
                return Some(routine.get());
            }
        }
    }
    None
}

impl<'a> Dictionary for CatalogueNames<'a> {
    ghost use Rattle.view_deps.specs.Described.{known_of};

    ghost known = { known_of };

    fn is_table(&self, views: bool, table: &Object) -> bool {
        if is_view(self.catalogue, table) {
            views
        } else {
            is_base_table(self.catalogue, table)
        }
    }

    fn column_names(&self, alloc: Global, table: &Object) -> Result<Items<Name>, AllocError> {
        let mut out = Items::new(alloc);
        if self.is_table(true, table) {
            put_names(&mut out, table, columns(self.catalogue, table))?;
        }
        Ok(out)
    }

    fn sort_of(&self, table: &Object, column: &Name) -> Option<SqlType> {
        if !self.is_table(true, table) {
            return None;
        }
        match wide_of(self.wide.as_slice(), table) {
            Some(wide) => wide.sorts.get(column).copied(),
            None => find_sort(table, column, columns(self.catalogue, table)),
        }
    }

    fn params<'b>(&'b self, routine: &Object) -> Option<&'b [Param]> {
        match find_routine(routine, routines(self.catalogue, routine)) {
            None => None,
            Some(found) => Some(found.params.as_slice()),
        }
    }

    fn returns(&self, routine: &Object) -> Option<Option<SqlType>> {
        match find_routine(routine, routines(self.catalogue, routine)) {
            None => None,
            Some(found) => Some(found.returns),
        }
    }
}
