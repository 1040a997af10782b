//! Rows of what a session sees, found by its places.

ghost use Rattle.std.specs.Prelude.{◌≡◌, OnOk};
ghost use Rattle.cat_items.specs.Reach.{Has};
ghost use Rattle.role_graph.specs.Roles.{IsRoomFor};
ghost use Rattle.shown_items.specs.Candidates.{IsFaceAmong, IsFaceIn, IsFaceNear, IsNearFace, IsOwnerFace, IsRightFace, IsSchemaFace, Puts};
ghost use Rattle.shown_items.specs.Faces.{Adds};

use crate::items::put_item;
use crate::reads::reads_part;
use crate::sight::Sight;
use cat_items::{ObjectKind, Part, PathKey, Row, places};
use role_graph::{Walk, object_at};
use sql_tree::{Name, Path};
use std::alloc::{AllocError, Global};

/// The rows of the items of a part, if the table reads them.
fn put_part(
    alloc: Global,
    out: &mut Vec<Row>,
    sight: Sight<'_>,
    walk: &mut Walk,
    part: Part<'_>,
) -> Result<(), AllocError>
    requires { IsRoomFor walk.old sight.c.now.items }
    ensures rows { OnOk result (Adds sight.entry (IsFaceIn sight.entry.table part.entry) out.old.items out.new.items) }
    ensures room { walk.new ≡ walk.old }
{
    if !reads_part(sight.table, part) {
        return Ok(());
    }
    let items = sight.c.items();
    let range = places(sight.c, part);
    let first = range.start;
    let end = range.end;
    for at in first..end {
        put_item(alloc, out, sight, walk, at, &items[at])?;
    }
    Ok(())
}

/// Those of several parts.
fn put_parts(
    alloc: Global,
    out: &mut Vec<Row>,
    sight: Sight<'_>,
    walk: &mut Walk,
    parts: &[Part<'_>],
) -> Result<(), AllocError>
    requires { IsRoomFor walk.old sight.c.now.items }
    ensures rows { OnOk result (Adds sight.entry (IsFaceAmong sight.entry.table parts.now) out.old.items out.new.items) }
    ensures room { walk.new ≡ walk.old }
{
    for part in parts {
        put_part(alloc, out, sight, walk, *part)?;
    }
    Ok(())
}

/// What the object of this path shows to one who has a right on it.
fn put_object(
    alloc: Global,
    out: &mut Vec<Row>,
    sight: Sight<'_>,
    walk: &mut Walk,
    on: &Path,
) -> Result<(), AllocError>
    requires { IsRoomFor walk.old sight.c.now.items }
    ensures rows { OnOk result (Puts sight.entry (λ c v s. Has c (λ x. IsRightFace on.now c v x s)) out.old.items out.new.items) }
    ensures room { walk.new ≡ walk.old }
{
    let Some(key) = object_at(PathKey::Path(on)) else {
        return Ok(());
    };
    let parts = [
        Part::Table(key),
        Part::View(key),
        Part::Columns(key),
        Part::Domain(key),
        Part::Routine(key),
    ];
    put_parts(alloc, out, sight, walk, &parts)
}

/// What a schema shows to its owner.
fn put_schema(
    alloc: Global,
    out: &mut Vec<Row>,
    sight: Sight<'_>,
    walk: &mut Walk,
    schema: &Name,
) -> Result<(), AllocError>
    requires { IsRoomFor walk.old sight.c.now.items }
    ensures rows { OnOk result (Puts sight.entry (λ c v s. Has c (λ x. IsOwnerFace schema.now c v x s)) out.old.items out.new.items) }
    ensures room { walk.new ≡ walk.old }
{
    let parts = [
        Part::Schema(schema),
        Part::Objects(ObjectKind::View, schema),
        Part::Objects(ObjectKind::DomainCheck, schema),
        Part::Objects(ObjectKind::Key, schema),
        Part::Objects(ObjectKind::Foreign, schema),
        Part::Objects(ObjectKind::Check, schema),
        Part::Objects(ObjectKind::Assertion, schema),
        Part::Objects(ObjectKind::Routine, schema),
    ];
    put_parts(alloc, out, sight, walk, &parts)
}

/// What the schema of a path of one name shows to its owner.
fn put_owned(
    alloc: Global,
    out: &mut Vec<Row>,
    sight: Sight<'_>,
    walk: &mut Walk,
    on: &Path,
) -> Result<(), AllocError>
    requires { IsRoomFor walk.old sight.c.now.items }
    ensures rows { OnOk result (Puts sight.entry (IsSchemaFace on.now) out.old.items out.new.items) }
    ensures room { walk.new ≡ walk.old }
{
    if on.len() != 1 {
        return Ok(());
    }
    match on.get(0) {
        Some(schema) => put_schema(alloc, out, sight, walk, schema),
        None => Ok(()),
    }
}

/// What a place shows to one who owns it or has a right on it.
fn put_near(
    alloc: Global,
    out: &mut Vec<Row>,
    sight: Sight<'_>,
    walk: &mut Walk,
    on: &Path,
) -> Result<(), AllocError>
    requires { IsRoomFor walk.old sight.c.now.items }
    ensures rows { OnOk result (Puts sight.entry (IsNearFace on.now) out.old.items out.new.items) }
    ensures room { walk.new ≡ walk.old }
{
    put_object(alloc, out, sight, walk, on)?;
    put_owned(alloc, out, sight, walk, on)
}

/// What several show.
pub fn put_candidates(
    alloc: Global,
    out: &mut Vec<Row>,
    sight: Sight<'_>,
    own: &[Path],
) -> Result<(), AllocError>
    ensures { OnOk result (Puts sight.entry (IsFaceNear own.now) out.old.items out.new.items) }
{
    let mut walk = Walk::new(alloc, sight.c)?;
    for on in own {
        put_near(alloc, out, sight, &mut walk, on)?;
    }
    Ok(())
}
