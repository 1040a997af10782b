//! Rows of columns.

ghost use Rattle.std.specs.Prelude.{◌≡◌, ◌↔◌, OnOk, IsTrue, slice_get, Some, ℕ};
ghost use Rattle.std.specs.Option.{option_copied};
ghost use Rattle.cat_items.specs.declared.item.Item.TheVariants as item;
ghost use Rattle.schema_tables.specs.Sight.{IsPosition, IsShown};
ghost use Rattle.schema_tables.specs.TableRows.{IsDomainBeside, Shows};
ghost use Rattle.shown_items.specs.Faces.{Adds, IsFace};
ghost use Rattle.shown_items.specs.Viewers.{viewer_of};

use crate::looks::column_look;
use crate::putting::put_where;
use crate::questions::has_in;
use crate::reads::reads_columns;
use crate::rights::{sees_column, sees_domain};
use crate::session::{Viewer, owns};
use crate::sight::Sight;
use cat_items::{Catalogue, Column, Item, Part, Row, columns_of};
use role_graph::Matches;
use schema_tables::{Beside, Seen};
use sql_tree::Object;
use std::alloc::{AllocError, Global};

/// A domain that the viewer sees.
#[derive(Clone, Copy)]
struct SeenDomain<'a> {
    c: &'a Catalogue,
    viewer: Viewer<'a>,
}

impl<'a> Matches for SeenDomain<'a> {
    ghost use Rattle.cat_items.specs.declared.item.Item.{Item};
    ghost use Rattle.shown_items.specs.Viewers.{viewer_of, IsSeenDomain};

    ghost fits = { λ t x. IsSeenDomain t.c.now.items (viewer_of t.viewer) x };

    fn matches(&self, x: &Item) -> bool {
        match x {
            Item::Domain(domain) => sees_domain(self.c, self.viewer, domain.get()),
            _ => false,
        }
    }
}

/// Whether the viewer sees the domain of this name.
fn shows_named(c: &Catalogue, viewer: Viewer<'_>, domain: &Object) -> bool
    ensures { IsTrue result ↔ Shows (IsShown c.now.items (viewer_of viewer.entry)) (IsDomainBeside (Some domain.now)) }
{
    has_in(c, Part::Domain(domain.into()), &SeenDomain { c, viewer })
}

/// Whether the viewer sees the domain that a column is based on.
fn shows_domain(c: &Catalogue, viewer: Viewer<'_>, domain: Option<&Object>) -> bool
    ensures { IsTrue result ↔ Shows (IsShown c.now.items (viewer_of viewer.entry)) (IsDomainBeside (option_copied domain.entry)) }
{
    match domain {
        None => false,
        Some(domain) => shows_named(c, viewer, domain),
    }
}

/// The ordinal position of the column at a place of the catalogue.
fn position(c: &Catalogue, at: usize, x: &Column) -> u64
    requires { Some (item.Column x.now) ≡ slice_get c.now.items at }
    ensures is { IsPosition c.now.items x.now result }
    ensures only { (n : ℕ) → IsPosition c.now.items x.now n → n ≡ result }
{
    let items = c.items();
    let all = columns_of(c, &x.table);
    prove!(at < items.len());
    (at + 1 - all.start) as u64
}

pub fn put_column(
    alloc: Global,
    out: &mut Vec<Row>,
    sight: Sight<'_>,
    at: usize,
    x: &Column,
) -> Result<(), AllocError>
    requires { Some (item.Column x.now) ≡ slice_get sight.c.now.items at }
    ensures { OnOk result (Adds sight.entry (λ c v s. IsFace c v (item.Column x.now) s) out.old.items out.new.items) }
{
    if !reads_columns(sight.table) {
        return Ok(());
    }
    let owned = owns(sight.c, sight.viewer, &x.table.schema);
    let may = sees_column(sight.c, sight.viewer, x);
    let look = column_look(x, position(sight.c, at, x), owned);
    let beside = Beside {
        same: false,
        option: shows_domain(sight.c, sight.viewer, x.domain.as_ref()),
        role: false,
    };
    put_where(alloc, out, sight, may, Seen::Column(look), beside)
}
