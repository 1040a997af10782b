//! Authorization identifiers that are lent.

ghost use Rattle.std.specs.Prelude.{◌≡◌, ◌↔◌, [], IsTrue};
ghost use Rattle.cat_items.specs.Reach.{Reaches};
ghost use Rattle.role_graph.specs.Actors.{auth_of};

use cat_items::Auth;
use sql_tree::Name;

/// An authorization identifier whose name is lent: for calls that take no memory and have no [`Auth`] at hand.
#[derive(Clone, Copy)]
pub enum Actor<'a> {
    System,
    Public,
    Named(&'a Name),
}

impl<'a> From<&'a Auth> for Actor<'a> {
    ghost from_gives = { λ auth actor. auth_of actor ≡ auth.now };

    fn from(auth: &'a Auth) -> Actor<'a> {
        match auth {
            Auth::System => Actor::System,
            Auth::Public => Actor::Public,
            Auth::Named(name) => Actor::Named(name),
        }
    }
}

/// Whether `a` reaches `g` where nobody is granted a role.
pub(crate) fn reaches_alone(a: Actor<'_>, g: Actor<'_>) -> bool
    ensures { IsTrue result ↔ Reaches [] (auth_of a.entry) (auth_of g.entry) }
{
    match (a, g) {
        (_, Actor::Public) | (Actor::System, Actor::System) => true,
        (Actor::Named(from), Actor::Named(to)) => from.same(to),
        _ => false,
    }
}
