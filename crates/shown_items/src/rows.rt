//! The rows of a schema table.

ghost use Rattle.std.specs.Prelude.{◌≡◌, IfOk, IfSome, OnOk, false};
ghost use Rattle.own_places.specs.Places.{HasPlaces};
ghost use Rattle.schema_tables.specs.Listings.{AreRows};
ghost use Rattle.schema_tables.specs.Sight.{IsShown};
ghost use Rattle.schema_tables.specs.TableRows.{HasRow};
ghost use Rattle.shown_items.specs.Faces.{Adds, IsEnabledFace, IsItemFace};
ghost use Rattle.shown_items.specs.Reads.{reads_rights, reads_roles};
ghost use Rattle.shown_items.specs.Viewers.{viewer_of};
ghost use Rattle.shown_items.specs.declared.session.Viewer.TheVariants as viewers;

use crate::candidates::put_candidates;
use crate::items::put_item;
use crate::own::own_paths;
use crate::putting::{alone, put_where};
use crate::reads::{reads_rights, reads_roles};
use crate::session::{Session, Viewer};
use crate::sight::Sight;
use cat_items::{Catalogue, Row};
use own_places::OwnPlaces;
use role_graph::Walk;
use schema_tables::{SchemaTable, Seen, in_order};
use std::alloc::{AllocError, Global};

/// The rows of the enabled roles.
fn put_enabled(alloc: Global, out: &mut Vec<Row>, sight: Sight<'_>) -> Result<(), AllocError>
    ensures { OnOk result (Adds sight.entry (λ c v s. IsEnabledFace v s) out.old.items out.new.items) }
{
    if let Viewer::Session(session) = sight.viewer {
        let names = session.enabled;
        for name in names {
            put_where(alloc, out, sight, true, Seen::EnabledRole(name), alone())?;
        }
    }
    Ok(())
}

/// The rows of all items, by a look at each.
fn put_all(alloc: Global, out: &mut Vec<Row>, sight: Sight<'_>) -> Result<(), AllocError>
    ensures { OnOk result (Adds sight.entry IsItemFace out.old.items out.new.items) }
{
    let mut walk = Walk::new(alloc, sight.c)?;
    let items = sight.c.items();
    for at in 0..items.len() {
        put_item(alloc, out, sight, &mut walk, at, &items[at])?;
    }
    Ok(())
}

/// The rows of all items, of a table of neither rights nor roles: by the places of the session, where these are few.
fn put_seen(
    alloc: Global,
    out: &mut Vec<Row>,
    sight: Sight<'_>,
    session: Session<'_>,
    places: &OwnPlaces,
) -> Result<(), AllocError>
    requires viewer { sight.viewer ≡ viewers.Session session }
    requires rights { reads_rights sight.table ≡ false }
    requires roles { reads_roles sight.table ≡ false }
    requires places { HasPlaces sight.c.now.items places.now }
    ensures { OnOk result (Adds sight.entry IsItemFace out.old.items out.new.items) }
{
    match own_paths(alloc, sight.c, places, session)? {
        Some(own) => put_candidates(alloc, out, sight, own.as_slice()),
        None => put_all(alloc, out, sight),
    }
}

/// The rows of all items.
fn put_items(
    alloc: Global,
    out: &mut Vec<Row>,
    sight: Sight<'_>,
    places: Option<&OwnPlaces>,
) -> Result<(), AllocError>
    requires { IfSome places (λ places. HasPlaces sight.c.now.items places.now) }
    ensures { OnOk result (Adds sight.entry IsItemFace out.old.items out.new.items) }
{
    if reads_rights(sight.table) || reads_roles(sight.table) {
        return put_all(alloc, out, sight);
    }
    match (sight.viewer, places) {
        (Viewer::Session(session), Some(places)) => put_seen(alloc, out, sight, session, places),
        _ => put_all(alloc, out, sight),
    }
}

/// The rows of a table, of what is shown of a catalogue to one who looks at it: in order, and each once. `Err` is want of memory.
///
/// Where the places of the catalogue are known and those of a session are few, the rows of a table of neither rights nor roles are found by a look at
/// these alone.
pub fn table_rows(
    alloc: Global,
    c: &Catalogue,
    viewer: Viewer<'_>,
    table: SchemaTable,
    places: Option<&OwnPlaces>,
) -> Result<Vec<Row>, AllocError>
    requires { IfSome places (λ places. HasPlaces c.now.items places.now) }
    ensures { IfOk result (λ rows. AreRows (HasRow (IsShown c.now.items (viewer_of viewer.entry)) table) rows.items) }
{
    let sight = Sight { c, viewer, table };
    let mut out = Vec::new(alloc);
    put_items(alloc, &mut out, sight, places)?;
    put_enabled(alloc, &mut out, sight)?;
    in_order(out)
}
