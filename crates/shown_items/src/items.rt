//! Rows of an item of a catalogue.

ghost use Rattle.std.specs.Prelude.{◌≡◌, ◌↔◌, OnOk, IsTrue, slice_get, Some};
ghost use Rattle.role_graph.specs.Roles.{IsRoomFor};
ghost use Rattle.schema_tables.specs.Sight as sees;
ghost use Rattle.schema_tables.specs.Seen as lent;
ghost use Rattle.shown_items.specs.Faces.{Adds, IsFace, IsPlain};
ghost use Rattle.shown_items.specs.Viewers.{viewer_of};

use crate::columns::put_column;
use crate::grants::{put_right, put_role_grant};
use crate::objects::{put_domain, put_routine, put_table, put_view};
use crate::putting::{alone, put_where};
use crate::session::{Viewer, owns};
use crate::sight::Sight;
use cat_items::{Item, Row};
use role_graph::Walk;
use schema_tables::Seen;
use sql_tree::Name;
use std::alloc::{AllocError, Global};

/// Whether nothing is hidden.
fn sees_all(viewer: Viewer<'_>) -> bool
    ensures { IsTrue result ↔ sees.SeesAll (viewer_of viewer.entry) }
{
    matches!(viewer, Viewer::Whole)
}

/// Users and roles are for the whole catalogue alone.
fn put_name(
    alloc: Global,
    out: &mut Vec<Row>,
    sight: Sight<'_>,
    seen: Seen<'_>,
) -> Result<(), AllocError>
    requires { IsPlain (lent.shown seen) }
    ensures { OnOk result (Adds sight.entry (λ c v s. sees.SeesAll v × (s ≡ lent.shown seen.entry)) out.old.items out.new.items) }
{
    let may = sees_all(sight.viewer);
    put_where(alloc, out, sight, may, seen, alone())
}

/// What is shown to the owner of its schema.
fn put_owned(
    alloc: Global,
    out: &mut Vec<Row>,
    sight: Sight<'_>,
    schema: &Name,
    seen: Seen<'_>,
) -> Result<(), AllocError>
    requires { IsPlain (lent.shown seen) }
    ensures { OnOk result (Adds sight.entry (λ c v s. sees.Owns c v schema.now × (s ≡ lent.shown seen.entry)) out.old.items out.new.items) }
{
    let may = owns(sight.c, sight.viewer, schema);
    put_where(alloc, out, sight, may, seen, alone())
}

/// Those of the item at a place of the catalogue.
pub fn put_item(
    alloc: Global,
    out: &mut Vec<Row>,
    sight: Sight<'_>,
    walk: &mut Walk,
    at: usize,
    x: &Item,
) -> Result<(), AllocError>
    requires place { Some x.now ≡ slice_get sight.c.now.items at }
    requires room { IsRoomFor walk.old sight.c.now.items }
    ensures rows { OnOk result (Adds sight.entry (λ c v s. IsFace c v x.now s) out.old.items out.new.items) }
    ensures room { walk.new ≡ walk.old }
{
    match x {
        Item::User(name) => put_name(alloc, out, sight, Seen::User(name)),
        Item::Role(name) => put_name(alloc, out, sight, Seen::Role(name)),
        Item::Schema(x) => {
            let x = x.get();
            put_owned(alloc, out, sight, &x.name, Seen::Schema(x))
        }
        Item::Table(x) => put_table(alloc, out, sight, x.get()),
        Item::View(x) => put_view(alloc, out, sight, x.get()),
        Item::Column(x) => put_column(alloc, out, sight, at, x.get()),
        Item::Domain(x) => put_domain(alloc, out, sight, x.get()),
        Item::DomainCheck(x) => {
            let x = x.get();
            put_owned(alloc, out, sight, &x.name.schema, Seen::DomainCheck(x))
        }
        Item::Key(x) => {
            let x = x.get();
            put_owned(alloc, out, sight, &x.name.schema, Seen::Key(x))
        }
        Item::Foreign(x) => {
            let x = x.get();
            put_owned(alloc, out, sight, &x.name.schema, Seen::Foreign(x))
        }
        Item::Check(x) => {
            let x = x.get();
            put_owned(alloc, out, sight, &x.name.schema, Seen::Check(x))
        }
        Item::Assertion(x) => {
            let x = x.get();
            put_owned(alloc, out, sight, &x.name.schema, Seen::Assertion(x))
        }
        Item::Routine(x) => put_routine(alloc, out, sight, x.get()),
        Item::RoleAuth(x) => put_role_grant(alloc, out, sight, walk, x.get()),
        Item::Held(x) => put_right(alloc, out, sight, x.get()),
        Item::RoleAdmin(_) | Item::Grantable(_) => Ok(()),
    }
}
