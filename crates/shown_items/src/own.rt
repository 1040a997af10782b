//! Where a session finds what it sees: the places of its user, of PUBLIC and of the enabled roles.

ghost use Rattle.std.specs.Prelude.{Contains, IfOk, IfSome, OnOk};
ghost use Rattle.finite_chains.specs.Chains.{IsWithin};
ghost use Rattle.own_places.specs.Places.{HasPlaces};
ghost use Rattle.schema_tables.specs.Sight as sight;
ghost use Rattle.shown_items.specs.Own.{AreOwn};
ghost use Rattle.shown_items.specs.Viewers.{session_of};

use crate::session::Session;
use cat_items::{Auth, Catalogue};
use own_places::OwnPlaces;
use sql_tree::Path;
use std::alloc::{AllocError, Global};

/// Whose rights a session has: PUBLIC's, its user's and those of its enabled roles.
fn own_auths(alloc: Global, session: Session<'_>) -> Result<Vec<Auth>, AllocError>
    ensures { IfOk result (λ auths. (auth : Auth) → sight.IsOwnAuth (session_of session.entry) auth → Contains auths.items auth) }
{
    let mut auths = Vec::new(alloc);
    auths.push(Auth::Public)?;
    auths.push(Auth::Named(session.user.copy()?))?;
    for name in session.enabled {
        auths.push(Auth::Named(name.copy()?))?;
    }
    Ok(auths)
}

/// Whether these have more than `most` places.
fn are_many(places: &OwnPlaces, auths: &[Auth], most: usize) -> bool {
    let mut left = most;
    for auth in auths {
        let count = places.at(auth).len();
        if left < count {
            return true;
        }
        left -= count;
    }
    false
}

/// Puts paths behind others.
fn put_paths(own: &mut Vec<Path>, paths: &[Path]) -> Result<(), AllocError>
    ensures kept { OnOk result (IsWithin own.old.items own.new.items) }
    ensures put { OnOk result (IsWithin paths.now own.new.items) }
{
    for path in paths {
        own.push(path.copy()?)?;
    }
    Ok(())
}

/// The places of a session, where these are at most an eighth as many as the items of the catalogue. `Err` is want of memory.
pub fn own_paths(
    alloc: Global,
    c: &Catalogue,
    places: &OwnPlaces,
    session: Session<'_>,
) -> Result<Option<Vec<Path>>, AllocError>
    requires { HasPlaces c.now.items places.now }
    ensures { IfOk result (λ own. IfSome own (λ paths. AreOwn c.now.items (session_of session.entry) paths.items)) }
{
    let auths = own_auths(alloc, session)?;
    if are_many(places, auths.as_slice(), c.items().len() / 8) {
        return Ok(None);
    }
    let mut own = Vec::new(alloc);
    for auth in auths.as_slice() {
        put_paths(&mut own, places.at(auth))?;
    }
    Ok(Some(own))
}
