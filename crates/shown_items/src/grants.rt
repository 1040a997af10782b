//! Rows of role authorizations and privileges.

ghost use Rattle.std.specs.Prelude.{◌≡◌, ◌↔◌, OnOk, IsTrue, Contains};
ghost use Rattle.cat_items.specs.declared.item.Item.TheVariants as item;
ghost use Rattle.role_graph.specs.Roles.{IsRoomFor};
ghost use Rattle.schema_tables.specs.Sight.{IsApplicableTo, IsShown};
ghost use Rattle.schema_tables.specs.TableRows.{IsEnabledBeside, Shows};
ghost use Rattle.shown_items.specs.Faces.{Adds, IsFace};
ghost use Rattle.shown_items.specs.Viewers.{viewer_of, HasOption, IsEnabledAuth, IsOfRole};

use crate::putting::put_where;
use crate::questions::has_in;
use crate::reads::{reads_rights, reads_roles};
use crate::rights::sees_right;
use crate::session::{Viewer, has_name};
use crate::sight::Sight;
use cat_items::{Auth, Catalogue, Item, Part, Right, RoleGrant, Row};
use role_graph::{Actor, Matches, Walk};
use schema_tables::{Beside, Seen};
use sql_tree::Name;
use std::alloc::{AllocError, Global};

fn same_auth(a: &Auth, b: &Auth) -> bool
    ensures { IsTrue result ↔ (a.now ≡ b.now) }
{
    match (a, b) {
        (Auth::System, Auth::System) => true,
        (Auth::Public, Auth::Public) => true,
        (Auth::Named(a), Auth::Named(b)) => a.same(b),
        _ => false,
    }
}

/// An admin option for a grantee.
#[derive(Clone, Copy)]
struct OptionFor<'a> {
    grantee: &'a Name,
}

impl<'a> Matches for OptionFor<'a> {
    ghost use Rattle.cat_items.specs.declared.item.Item.{Item};
    ghost use Rattle.shown_items.specs.Viewers.{IsOptionFor};

    ghost fits = { λ t x. IsOptionFor t.grantee.now x };

    fn matches(&self, x: &Item) -> bool {
        match x {
            Item::RoleAdmin(grant) => grant.get().grantee.same(self.grantee),
            _ => false,
        }
    }
}

/// An admin option by a grantor for a grantee.
#[derive(Clone, Copy)]
struct OptionBy<'a> {
    grantor: &'a Auth,
    grantee: &'a Name,
}

impl<'a> Matches for OptionBy<'a> {
    ghost use Rattle.cat_items.specs.declared.item.Item.{Item};
    ghost use Rattle.shown_items.specs.Viewers.{IsOptionBy};

    ghost fits = { λ t x. IsOptionBy t.grantor.now t.grantee.now x };

    fn matches(&self, x: &Item) -> bool {
        match x {
            Item::RoleAdmin(grant) => {
                let grant = grant.get();
                same_auth(&grant.grantor, self.grantor) && grant.grantee.same(self.grantee)
            }
            _ => false,
        }
    }
}

/// A grant option by a grantor for a grantee.
#[derive(Clone, Copy)]
struct GrantableBy<'a> {
    grantor: &'a Auth,
    grantee: &'a Auth,
}

impl<'a> Matches for GrantableBy<'a> {
    ghost use Rattle.cat_items.specs.declared.item.Item.{Item};
    ghost use Rattle.shown_items.specs.Viewers.{IsGrantableBy};

    ghost fits = { λ t x. IsGrantableBy t.grantor.now t.grantee.now x };

    fn matches(&self, x: &Item) -> bool {
        match x {
            Item::Grantable(right) => {
                let right = right.get();
                same_auth(&right.grantor, self.grantor) && same_auth(&right.grantee, self.grantee)
            }
            _ => false,
        }
    }
}

/// Whether a role is granted to the user or to a role that the user reaches.
fn applies(c: &Catalogue, viewer: Viewer<'_>, walk: &mut Walk, x: &RoleGrant) -> bool
    requires { IsRoomFor walk.old c.now.items }
    ensures answer { IsTrue result ↔ IsApplicableTo c.now.items (viewer_of viewer.entry) x.now }
    ensures room { walk.new ≡ walk.old }
{
    match viewer {
        Viewer::Whole => true,
        Viewer::Session(session) => {
            walk.reaches_by(
                c,
                None,
                Actor::Named(session.user),
                Actor::Named(&x.grantee),
            )
        }
    }
}

/// Whether the admin option of the same fields stands.
fn has_same_option(c: &Catalogue, x: &RoleGrant) -> bool
    ensures { IsTrue result ↔ Contains c.now.items (item.RoleAdmin x.now) }
{
    let test = OptionBy {
        grantor: &x.grantor,
        grantee: &x.grantee,
    };
    has_in(c, Part::AdminOptions(&x.role), &test)
}

/// Whether an admin option of the role stands for the grantee, whoever granted it.
fn has_option(c: &Catalogue, x: &RoleGrant) -> bool
    ensures { IsTrue result ↔ HasOption c.now.items x.now }
{
    let test = OptionFor {
        grantee: &x.grantee,
    };
    has_in(c, Part::AdminOptions(&x.role), &test)
}

pub fn put_role_grant(
    alloc: Global,
    out: &mut Vec<Row>,
    sight: Sight<'_>,
    walk: &mut Walk,
    x: &RoleGrant,
) -> Result<(), AllocError>
    requires { IsRoomFor walk.old sight.c.now.items }
    ensures rows { OnOk result (Adds sight.entry (λ c v s. IsFace c v (item.RoleAuth x.now) s) out.old.items out.new.items) }
    ensures room { walk.new ≡ walk.old }
{
    if !reads_roles(sight.table) {
        return Ok(());
    }
    let may = applies(sight.c, sight.viewer, walk, x);
    let beside = Beside {
        same: has_same_option(sight.c, x),
        option: has_option(sight.c, x),
        role: false,
    };
    put_where(alloc, out, sight, may, Seen::RoleAuth(x), beside)
}

/// Whether the grant option of the same fields stands.
fn is_grantable(c: &Catalogue, x: &Right) -> bool
    ensures { IsTrue result ↔ Contains c.now.items (item.Grantable x.now) }
{
    let test = GrantableBy {
        grantor: &x.grantor,
        grantee: &x.grantee,
    };
    has_in(c, Part::Grantable((&x.need).into()), &test)
}

/// Whether this is an enabled role.
fn is_enabled(viewer: Viewer<'_>, auth: &Auth) -> bool
    ensures { IsTrue result ↔ IsEnabledAuth (viewer_of viewer.entry) auth.now }
{
    match (viewer, auth) {
        (Viewer::Session(session), Auth::Named(name)) => has_name(session.enabled, name),
        _ => false,
    }
}

/// Whether an enabled role granted or has the right.
fn is_of_role(viewer: Viewer<'_>, x: &Right) -> bool
    ensures { IsTrue result ↔ IsOfRole (viewer_of viewer.entry) x.now }
{
    is_enabled(viewer, &x.grantor) || is_enabled(viewer, &x.grantee)
}

pub fn put_right(
    alloc: Global,
    out: &mut Vec<Row>,
    sight: Sight<'_>,
    x: &Right,
) -> Result<(), AllocError>
    ensures { OnOk result (Adds sight.entry (λ c v s. IsFace c v (item.Held x.now) s) out.old.items out.new.items) }
{
    if !reads_rights(sight.table) {
        return Ok(());
    }
    if !sees_right(sight.viewer, x) {
        return Ok(());
    }
    let beside = Beside {
        same: false,
        option: is_grantable(sight.c, x),
        role: is_of_role(sight.viewer, x),
    };
    put_where(alloc, out, sight, true, Seen::Held(x), beside)
}
