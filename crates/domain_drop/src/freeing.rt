//! Columns that are freed of their domains.

ghost use Rattle.std.specs.Prelude.{◌≡◌, ◌↔◌, ◌⊎◌, [], IfOk, IfNone, IfSome, IsTrue, OnOk, Contains};
ghost use Rattle.std.specs.declared.cmp.Ordering.TheVariants.{Equal};
ghost use Rattle.cat_items.specs.declared.item.Check.{Check as AnyCheck};
ghost use Rattle.cat_items.specs.declared.item.Item.{Item as AnyItem};
ghost use Rattle.cat_items.specs.declared.item.Item.TheVariants as item;
ghost use Rattle.cat_items.specs.Catalogues.{IsInOrder};
ghost use Rattle.cat_items.specs.Order.{item_cmp};
ghost use Rattle.cat_items.specs.Ranges.{IsDomainOf, IsRange};
ghost use Rattle.cat_items.specs.Reach.{Has};
ghost use Rattle.domain_drop.specs.CheckCopies.{HaveOwnNames};
ghost use Rattle.domain_drop.specs.Drops as drops;
ghost use Rattle.domain_drop.specs.FreedColumns as spec;
ghost use Rattle.domain_drop.specs.Gone.{FreedBy};
ghost use Rattle.domain_drop.specs.Lists as lists;

use crate::copies::copies_of;
use crate::gone::Gone;
use cat_items::{Catalogue, Check, Column, Domain, Edit, Item, Part, Shared, places};
use edit_rules::{Chooses, chosen, put};
use sql_tree::{Default, Items, Object};
use std::alloc::{AllocError, Global};
use std::ops::Range;

/// Whether a column is freed: it is based on a domain that goes, and its table isn't one of a schema that goes.
fn is_freed(gone: Gone<'_>, x: &Column) -> bool
    ensures { IsTrue result ↔ FreedBy gone.entry x.now }
{
    match (gone, &x.domain) {
        (Gone::Domain(object), Some(domain)) => domain.same(object),
        (Gone::Schema(schema), Some(domain)) => {
            domain.schema.same(schema) && !x.table.schema.same(schema)
        }
        (Gone::Domain(_), None) | (Gone::Schema(_), None) => false,
    }
}

#[derive(Drop)]
struct FreedColumns<'a> {
    gone: Gone<'a>,
}

impl<'a> Chooses for FreedColumns<'a> {
    ghost use Rattle.domain_drop.specs.FreedColumns.{IsFreed};
    ghost use Rattle.domain_drop.specs.Gone.{FreedBy};

    ghost fits = { λ t x. IsFreed (FreedBy t.gone) x };

    fn chooses(&self, x: &Item) -> bool {
        match x {
            Item::Column(column) => is_freed(self.gone, column.get()),
            _ => false,
        }
    }
}

#[derive(Drop)]
struct DomainChecks {}

impl Chooses for DomainChecks {
    ghost use Rattle.domain_drop.specs.CheckCopies.{IsDomainCheck};

    ghost fits = { λ t x. IsDomainCheck x };

    fn chooses(&self, x: &Item) -> bool {
        match x {
            Item::DomainCheck(_) => true,
            _ => false,
        }
    }
}

/// The places of the domain of this name.
fn domain_places(c: &Catalogue, object: &Object) -> Range<usize>
    ensures { IsRange c.now.items result.start result.end (IsDomainOf object.now) }
{
    places(c, Part::Domain(object.into()))
}

/// The domain of this name.
fn domain_of<'a>(c: &'a Catalogue, object: &Object) -> Option<&'a Domain>
    ensures found { IfSome result (λ d. Contains c.now.items (item.Domain d.now) × (d.now.domain ≡ object.now)) }
    ensures none { IfNone result (¬ (Has c.now.items (IsDomainOf object.now))) }
{
    let items = c.items();
    let all = domain_places(c, object);
    if all.start >= all.end {
        return None;
    }
    match &items[all.start] {
        Item::Domain(domain) => Some(domain.get()),
        _ => None,
    }
}

fn own_or(own: &Option<Default>, other: &Option<Default>) -> Result<Option<Default>, AllocError>
    ensures { IfOk result (λ default. default ≡ spec.own_or own.now other.now) }
{
    match (own, other) {
        (Some(own), _) => Ok(Some(own.copy()?)),
        (None, Some(other)) => Ok(Some(other.copy()?)),
        (None, None) => Ok(None),
    }
}

/// The column without its domain.
fn freed_column(column: &Column, domain: &Domain) -> Result<Column, AllocError>
    ensures { IfOk result (λ x. x ≡ spec.freed column.now domain.now) }
{
    Ok(Column {
        table: column.table.copy()?,
        place: column.place,
        name: column.name.copy()?,
        sort: column.sort,
        domain: None,
        default: own_or(&column.default, &domain.default)?,
        not_null: column.not_null,
    })
}

/// Puts a column in without its domain, where that stands.
fn put_freed(
    alloc: Global,
    c: &Catalogue,
    added: &mut Catalogue,
    column: &Column,
) -> Result<(), AllocError>
    requires { (y : AnyItem) → Contains added.old.items y → item_cmp y (item.Column column.now) ≡ Equal → ⊥ }
    ensures { OnOk result ((y : AnyItem) → Contains added.new.items y ↔ (Contains added.old.items y ⊎ lists.IsFreedOf c.now.items column.now y)) }
{
    let Some(object) = &column.domain else {
        return Ok(());
    };
    let Some(domain) = domain_of(c, object) else {
        return Ok(());
    };
    // What the proof takes from it: the items are in order.
    let _ = c.items();
    let freed = freed_column(column, domain)?;
    put(added, Item::Column(Shared::new(alloc, freed)?))
}

fn put_freed_item(
    alloc: Global,
    c: &Catalogue,
    added: &mut Catalogue,
    x: &Item,
) -> Result<(), AllocError>
    requires { (y : AnyItem) → Contains added.old.items y → item_cmp y x.now ≡ Equal → ⊥ }
    ensures { OnOk result ((y : AnyItem) → Contains added.new.items y ↔ (Contains added.old.items y ⊎ lists.IsFreedAt c.now.items x.now y)) }
{
    match x {
        Item::Column(column) => put_freed(alloc, c, added, column.get()),
        _ => Ok(()),
    }
}

/// Puts columns in without their domains.
fn put_back(
    alloc: Global,
    c: &Catalogue,
    added: &mut Catalogue,
    columns: &Items<Item>,
) -> Result<(), AllocError>
    requires order { IsInOrder columns.now }
    requires empty { added.old.items ≡ [] }
    ensures { OnOk result ((y : AnyItem) → Contains added.new.items y ↔ lists.IsFreedAmong c.now.items columns.now y) }
{
    for x in columns.as_slice() {
        put_freed_item(alloc, c, added, x)?;
    }
    Ok(())
}

/// Puts in checks.
fn put_copies(added: &mut Catalogue, copies: &Items<Shared<Check>>) -> Result<(), AllocError>
    requires none { (x : AnyCheck) → ¬ (Contains added.old.items (item.Check x)) }
    requires differ { HaveOwnNames copies.now }
    ensures { OnOk result ((y : AnyItem) → Contains added.new.items y ↔ (Contains added.old.items y ⊎ lists.IsAmong copies.now y)) }
{
    for copy in copies.as_slice() {
        put(added, Item::Check(copy.share()?))?;
    }
    Ok(())
}

/// The columns without their domains, and the checks.
fn put_all(
    alloc: Global,
    c: &Catalogue,
    columns: &Items<Item>,
    copies: &Items<Shared<Check>>,
) -> Result<Items<Item>, AllocError>
    requires order { IsInOrder columns.now }
    requires differ { HaveOwnNames copies.now }
    ensures order { IfOk result IsInOrder }
    ensures members { IfOk result (λ items. (y : AnyItem) → Contains items y ↔ (lists.IsFreedAmong c.now.items columns.now y ⊎ lists.IsAmong copies.now y)) }
{
    let mut added = Catalogue::of_sorted(Vec::new(alloc));
    put_back(alloc, c, &mut added, columns)?;
    put_copies(&mut added, copies)?;
    Ok(Items::from_vec(added.into_items()))
}

/// The edit that takes these items and frees the columns that are based on what goes. `Err` is want of memory.
pub fn free_columns(
    alloc: Global,
    c: &Catalogue,
    gone: Gone<'_>,
    target: Items<Item>,
) -> Result<Edit, AllocError>
    ensures target { IfOk result (λ edit. edit.target ≡ target) }
    ensures freed { IfOk result (drops.IsFreeing c.now.items (FreedBy gone.entry)) }
{
    let changed = chosen(alloc, c, &FreedColumns { gone })?;
    let checks = chosen(alloc, c, &DomainChecks {})?;
    let copies = copies_of(alloc, c, &changed, &checks)?;
    let added = put_all(alloc, c, &changed, &copies)?;
    Ok(Edit {
        target,
        changed,
        added,
    })
}
