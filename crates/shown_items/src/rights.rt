//! Objects and columns on which a session has a right.

ghost use Rattle.std.specs.Prelude.{◌↔◌, ◌⊎◌, IsTrue};
ghost use Rattle.cat_items.specs.Keys.{path_in};
ghost use Rattle.cat_items.specs.Ranges.{IsHeldOn};
ghost use Rattle.cat_items.specs.Reach.{Has};
ghost use Rattle.cat_items.specs.Rights.{path_of};
ghost use Rattle.cat_items.specs.declared.item.Item.TheVariants as item;
ghost use Rattle.schema_tables.specs.Sight as sight;
ghost use Rattle.shown_items.specs.RightsOn as spec;
ghost use Rattle.shown_items.specs.Viewers.{session_of, viewer_of};

use crate::questions::has_in;
use crate::session::{Session, Viewer, is_own_auth};
use cat_items::{Catalogue, Column, Domain, Item, NeedKey, Part, PathKey, Right, Routine, View};
use role_graph::Matches;
use sql_tree::{Action, Object};

/// A right that the user, PUBLIC or an enabled role has.
#[derive(Clone, Copy)]
struct OwnRight<'a> {
    session: Session<'a>,
}

impl<'a> Matches for OwnRight<'a> {
    ghost use Rattle.cat_items.specs.declared.item.Item.{Item};
    ghost use Rattle.shown_items.specs.Viewers.{session_of, HasOwnGrantee};

    ghost fits = { λ t x. HasOwnGrantee (session_of t.session) x };

    fn matches(&self, x: &Item) -> bool {
        match x {
            Item::Held(right) => is_own_auth(self.session, &right.get().grantee),
            _ => false,
        }
    }
}

/// Whether the session has the right of an action on an object, or on a column of it.
fn has_action(c: &Catalogue, session: Session<'_>, action: Action, on: PathKey<'_>) -> bool
    ensures { IsTrue result ↔ spec.HasAction c.now.items (session_of session.entry) action (path_in on.entry) }
{
    has_in(c, Part::HeldOn(action, on), &OwnRight { session })
}

/// Whether the session has the right of any action on a table, or on a column of it.
fn has_table_action(c: &Catalogue, session: Session<'_>, on: PathKey<'_>) -> bool
    ensures { IsTrue result ↔ spec.HasTableAction c.now.items (session_of session.entry) (path_in on.entry) }
{
    has_action(c, session, Action::Select, on)
        || has_action(c, session, Action::Insert, on)
        || has_action(c, session, Action::Update, on)
        || has_action(c, session, Action::Delete, on)
        || has_action(c, session, Action::References, on)
}

/// Whether the session has the right of an action on a column.
fn has_on_column(c: &Catalogue, session: Session<'_>, action: Action, column: &Column) -> bool
    ensures { IsTrue result ↔ spec.HasOnColumn c.now.items (session_of session.entry) action column.now }
{
    let need = NeedKey {
        action,
        on: PathKey::Object((&column.table).into()),
        column: Some(&column.name),
    };
    has_in(c, Part::Held(need), &OwnRight { session })
}

/// Whether the session has any right on a column.
fn has_column_action(c: &Catalogue, session: Session<'_>, column: &Column) -> bool
    ensures { IsTrue result ↔ spec.HasColumnAction c.now.items (session_of session.entry) column.now }
{
    has_on_column(c, session, Action::Select, column)
        || has_on_column(c, session, Action::Insert, column)
        || has_on_column(c, session, Action::Update, column)
        || has_on_column(c, session, Action::Delete, column)
        || has_on_column(c, session, Action::References, column)
}

/// Whether the viewer sees a base table. It takes no memory.
pub fn sees_table(c: &Catalogue, viewer: Viewer<'_>, table: &Object) -> bool
    ensures { IsTrue result ↔ sight.HasRightOn c.now.items (viewer_of viewer.entry) (item.Table table.now) }
{
    match viewer {
        Viewer::Whole => true,
        Viewer::Session(session) => has_table_action(c, session, PathKey::Object(table.into())),
    }
}

/// Whether the viewer sees a view. It takes no memory.
pub fn sees_view(c: &Catalogue, viewer: Viewer<'_>, view: &View) -> bool
    ensures { IsTrue result ↔ sight.HasRightOn c.now.items (viewer_of viewer.entry) (item.View view.now) }
{
    match viewer {
        Viewer::Whole => true,
        Viewer::Session(session) => {
            has_table_action(c, session, PathKey::Object((&view.view).into()))
        }
    }
}

/// Whether the viewer sees a column. It takes no memory.
pub fn sees_column(c: &Catalogue, viewer: Viewer<'_>, column: &Column) -> bool
    ensures { IsTrue result ↔ sight.HasRightOn c.now.items (viewer_of viewer.entry) (item.Column column.now) }
{
    match viewer {
        Viewer::Whole => true,
        Viewer::Session(session) => has_column_action(c, session, column),
    }
}

/// Whether the viewer sees a domain. It takes no memory.
pub fn sees_domain(c: &Catalogue, viewer: Viewer<'_>, domain: &Domain) -> bool
    ensures { IsTrue result ↔ sight.HasRightOn c.now.items (viewer_of viewer.entry) (item.Domain domain.now) }
{
    match viewer {
        Viewer::Whole => true,
        Viewer::Session(session) => {
            has_action(
                c,
                session,
                Action::Usage,
                PathKey::Object((&domain.domain).into()),
            )
        }
    }
}

/// Whether the viewer sees a routine. It takes no memory.
pub fn sees_routine(c: &Catalogue, viewer: Viewer<'_>, routine: &Routine) -> bool
    ensures { IsTrue result ↔ sight.HasRightOn c.now.items (viewer_of viewer.entry) (item.Routine routine.now) }
{
    match viewer {
        Viewer::Whole => true,
        Viewer::Session(session) => {
            has_action(
                c,
                session,
                Action::Execute,
                PathKey::Object((&routine.routine).into()),
            )
        }
    }
}

/// Whether the viewer sees a right: one that the user, PUBLIC or an enabled role granted or has. It takes no memory.
pub fn sees_right(viewer: Viewer<'_>, right: &Right) -> bool
    ensures { IsTrue result ↔ sight.IsPartyTo (viewer_of viewer.entry) right.now }
{
    match viewer {
        Viewer::Whole => true,
        Viewer::Session(session) => {
            is_own_auth(session, &right.grantor) || is_own_auth(session, &right.grantee)
        }
    }
}
