//! Whom an authorization reaches.

ghost use Rattle.std.specs.Prelude.{◌≡◌, ◌↔◌, length, IfOk, IsTrue, Some};
ghost use Rattle.std.specs.Option.{option_copied};
ghost use Rattle.cat_items.specs.Reach.{Reaches};
ghost use Rattle.role_graph.specs.Actors.{auth_of};
ghost use Rattle.role_graph.specs.Marked.{AreMarksOf, counted, marked};
ghost use Rattle.role_graph.specs.Roles.{IsApplicable, IsRoomFor};

use crate::actor::Actor;
use crate::trail::{clear, leads_back};
use cat_items::{Auth, Catalogue, Marks, role_authorizations, role_grants_of};
use sql_tree::Name;
use std::alloc::{AllocError, Global};
use std::marker::Model;

/// Room for walks over the role authorizations of a catalogue, which contracts see as the number of those for
/// which there is room. A walk leaves it.
#[derive(Drop)]
pub struct Walk {
    /// Whether a walk came to a role authorization, in their order; between walks none is flagged.
    seen: Vec<bool>,
    /// The places of those that the last walk came to.
    found: Vec<usize>,
}

impl Model for Walk {
    ghost use Rattle.std.specs.Prelude.{ℕ, ◌≤◌, vec_len};
    ghost use Rattle.std.specs.Vec.{vec_capacity};
    ghost use Rattle.role_graph.specs.Trails.{AreClear};

    ghost Value = { ℕ };

    ghost view = { λ w. vec_len w.seen };

    ghost invariant = { λ w. (vec_len w.seen ≤ vec_capacity w.found) × AreClear w.seen.items };
}

impl Walk {
    /// Room for this catalogue, and for each that has no more role authorizations.
    pub fn new(alloc: Global, c: &Catalogue) -> Result<Walk, AllocError>
        ensures { IfOk result (λ w. IsRoomFor w c.now.items) }
    {
        let all = role_authorizations(c);
        let room = all.end - all.start;
        Ok(Walk {
            seen: vec![in alloc; false; room]?,
            found: Vec::with_capacity(alloc, room)?,
        })
    }

    /// Whether `a` reaches `g` by the role authorizations at marked places. It takes no memory.
    ///
    /// It walks back from `g` to those whom it is granted to, so it costs one look-up in the catalogue where nobody is granted `g`, and else a few, and
    /// two more for each role authorization that leads to `g`, and nothing for the others.
    pub fn reaches(&mut self, c: &Catalogue, marks: &Marks, a: &Auth, g: &Auth) -> bool
        requires room { IsRoomFor self.old c.now.items }
        requires marks { length marks.now ≡ length c.now.items }
        ensures answer { IsTrue result ↔ Reaches (marked c.now.items marks.now) a.now g.now }
        ensures room { self.new ≡ self.old }
    {
        self.reaches_by(c, Some(marks), a.into(), g.into())
    }

    /// The same of lent identifiers, and by all role authorizations where there are no marks.
    pub fn reaches_by(
        &mut self,
        c: &Catalogue,
        marks: Option<&Marks>,
        a: Actor<'_>,
        g: Actor<'_>,
    ) -> bool
        requires room { IsRoomFor self.old c.now.items }
        requires marks { AreMarksOf (length c.now.items) (option_copied marks) }
        ensures answer { IsTrue result ↔ Reaches (counted c.now.items (option_copied marks.entry)) (auth_of a.entry) (auth_of g.entry) }
        ensures room { self.new ≡ self.old }
    {
        match (a, g) {
            (_, Actor::Public) | (Actor::System, Actor::System) => true,
            (Actor::Named(from), Actor::Named(to)) => {
                from.same(to) || self.leads(c, marks, from, to)
            }
            _ => false,
        }
    }

    /// Whether one or more role authorizations lead from a name to another.
    pub(crate) fn leads(
        &mut self,
        c: &Catalogue,
        marks: Option<&Marks>,
        from: &Name,
        to: &Name,
    ) -> bool
        requires room { IsRoomFor self.old c.now.items }
        requires marks { AreMarksOf (length c.now.items) (option_copied marks) }
        ensures answer { IsTrue result ↔ IsApplicable (counted c.now.items (option_copied marks.entry)) from.now to.now }
        ensures room { self.new ≡ self.old }
    {
        let grants = role_grants_of(c, to);
        if grants.start >= grants.end {
            return false;
        }
        let first = role_authorizations(c).start;
        self.found.clear();
        let seen = self.seen.as_mut_slice();
        let leads = leads_back(c, marks, from, to, first, seen, &mut self.found);
        clear(first, seen, self.found.as_slice());
        leads
    }
}

/// Whether `a` reaches `g`: it is `g`, or `g` is PUBLIC, or role authorizations lead from it to the role `g`.
/// `Err` is want of memory.
pub fn reaches(alloc: Global, c: &Catalogue, a: &Auth, g: &Auth) -> Result<bool, AllocError>
    ensures { IfOk result (λ answer. IsTrue answer ↔ Reaches c.now.items a.now g.now) }
{
    let mut walk = Walk::new(alloc, c)?;
    Ok(walk.reaches_by(c, None, a.into(), g.into()))
}
