//! Sessions, and what their users own.

ghost use Rattle.std.specs.Prelude.{◌↔◌, IsTrue, Contains};
ghost use Rattle.schema_tables.specs.Sight as sight;
ghost use Rattle.shown_items.specs.Viewers.{session_of, viewer_of};

use crate::questions::has_in;
use cat_items::{Auth, Catalogue, Item, Part};
use role_graph::Matches;
use sql_tree::Name;

/// The user of a session, and its enabled roles.
#[derive(Clone, Copy)]
pub struct Session<'a> {
    pub user: &'a Name,
    pub enabled: &'a [Name],
}

/// Who looks: nobody in particular, for whom nothing is hidden, or a session.
#[derive(Clone, Copy)]
pub enum Viewer<'a> {
    Whole,
    Session(Session<'a>),
}

/// Whether a name is among others.
pub fn has_name(names: &[Name], name: &Name) -> bool
    ensures { IsTrue result ↔ Contains names.now name.now }
{
    names.iter().any(|other| other.bytes() == name.bytes())
}

/// Whether a name is the user's, or that of an enabled role. It takes no memory.
pub fn is_own(session: Session<'_>, name: &Name) -> bool
    ensures { IsTrue result ↔ sight.IsOwn (session_of session.entry) name.now }
{
    name.same(session.user) || has_name(session.enabled, name)
}

/// Whether this is the user, an enabled role or PUBLIC. It takes no memory.
pub fn is_own_auth(session: Session<'_>, auth: &Auth) -> bool
    ensures { IsTrue result ↔ sight.IsOwnAuth (session_of session.entry) auth.now }
{
    match auth {
        Auth::System => false,
        Auth::Public => true,
        Auth::Named(name) => is_own(session, name),
    }
}

/// A schema that the session owns.
#[derive(Clone, Copy)]
struct Owned<'a> {
    session: Session<'a>,
}

impl<'a> Matches for Owned<'a> {
    ghost use Rattle.cat_items.specs.declared.item.Item.{Item};
    ghost use Rattle.shown_items.specs.Viewers.{session_of, HasOwnOwner};

    ghost fits = { λ t x. HasOwnOwner (session_of t.session) x };

    fn matches(&self, x: &Item) -> bool {
        match x {
            Item::Schema(schema) => is_own(self.session, &schema.get().owner),
            _ => false,
        }
    }
}

/// Whether the user or an enabled role owns a schema. It takes no memory.
pub fn owns(c: &Catalogue, viewer: Viewer<'_>, schema: &Name) -> bool
    ensures { IsTrue result ↔ sight.Owns c.now.items (viewer_of viewer.entry) schema.now }
{
    match viewer {
        Viewer::Whole => true,
        Viewer::Session(session) => has_in(c, Part::Schema(schema), &Owned { session }),
    }
}
