//! Questions about a catalogue: searches through its parts, and reach.

ghost use Rattle.std.specs.Prelude.{◌≡◌, ◌↔◌, length, IsTrue};
ghost use Rattle.std.specs.Option.{option_copied};
ghost use Rattle.cat_items.specs.Ranges.{IsIn};
ghost use Rattle.cat_items.specs.Reach.{Has, Reaches};
ghost use Rattle.role_graph.specs.Actors.{auth_of};
ghost use Rattle.role_graph.specs.Judges.{counting};
ghost use Rattle.role_graph.specs.Marked.{AreMarksOf, counted};
ghost use Rattle.role_graph.specs.Roles.{IsRoomFor};

use crate::actor::{Actor, reaches_alone};
use crate::grants::is_counted;
use crate::walk::Walk;
use cat_items::{Catalogue, Item, Marks, Part, places, role_authorizations};
use std::marker::Model;

/// Answers questions about a catalogue by those of its items that count: those at marked places, or all where there
/// are no marks. It has room for walks, which is lent to it, and leaves it as it is. No question takes memory.
#[derive(Drop)]
pub struct Judge<'a> {
    c: &'a Catalogue,
    marks: Option<&'a Marks>,
    walk: &'a mut Walk,
    /// Whether the catalogue has role authorizations: where it has none, no walk is made.
    has_roles: bool,
}

impl<'a> Model for Judge<'a> {
    ghost use Rattle.std.specs.Prelude.{length};
    ghost use Rattle.std.specs.Coded.{codes};
    ghost use Rattle.std.specs.Option.{option_copied};
    ghost use Rattle.sql_tree.specs.contracts.expr.Expr as expr;
    ghost use Rattle.sql_tree.specs.contracts.expr.Query as query;
    ghost use Rattle.role_graph.specs.Judges.{Grounds};
    ghost use Rattle.role_graph.specs.Marked.{AreMarksOf};
    ghost use Rattle.role_graph.specs.Roles.{HasNoRoleAuthorization, IsRoomFor};
    ghost use Rattle.std.specs.Prelude.{◌≡◌, false};

    ghost Value = { Grounds };

    ghost coded = { Prim.hlevel (codes, expr.the_row.coded, query.the_row.coded) };

    ghost view = { λ j. record { items = j.c.now.items; marks = option_copied j.marks; walk = j.walk } };

    ghost invariant = { λ j. IsRoomFor j.walk.now j.c.now.items × AreMarksOf (length j.c.now.items) (option_copied j.marks) × (j.has_roles ≡ false → HasNoRoleAuthorization j.c.now.items) };
}

/// A test of an item by itself.
pub trait Matches {
    ghost use Rattle.cat_items.specs.declared.item.Item.{Item};

    ghost fits: { Self → Item → Type 0 };

    fn matches(&self, x: &Item) -> bool
        ensures { IsTrue result ↔ fits self.now x.now };
}

/// A test of an item by the items that count.
pub trait Condition {
    ghost use Rattle.std.specs.Prelude.{List};
    ghost use Rattle.cat_items.specs.declared.item.Item.{Item};

    ghost holds: { Self → List Item → Item → Type 0 };

    fn is_met(&self, judge: &mut Judge<'_>, x: &Item) -> bool
        ensures answer { IsTrue result ↔ holds self.now (counting judge.old) x.now }
        ensures same { judge.new ≡ judge.old };
}

impl<'a> Judge<'a> {
    /// One for this catalogue, where there is room for its role authorizations and each item has a mark, if any has.
    pub fn new(c: &'a Catalogue, marks: Option<&'a Marks>, walk: &'a mut Walk) -> Judge<'a>
        requires room { IsRoomFor walk.old c.now.items }
        requires marks { AreMarksOf (length c.now.items) (option_copied marks) }
        ensures items { result.items ≡ c.now.items }
        ensures marks { result.marks ≡ option_copied marks.entry }
        ensures walk { result.walk ≡ walk.entry }
    {
        let all = role_authorizations(c);
        Judge {
            c,
            marks,
            walk,
            has_roles: all.start < all.end,
        }
    }

    /// Gives the room for walks back.
    pub fn end(self) -> &'a mut Walk
        ensures { result ≡ self.entry.walk }
    {
        let Judge { walk, .. } = self;
        walk
    }

    /// Whether `a` reaches `g` by the items that count.
    pub fn reaches(&mut self, a: Actor<'_>, g: Actor<'_>) -> bool
        ensures answer { IsTrue result ↔ Reaches (counting self.old) (auth_of a.entry) (auth_of g.entry) }
        ensures same { self.new ≡ self.old }
    {
        if !self.has_roles {
            return reaches_alone(a, g);
        }
        let c = self.c;
        let marks = self.marks;
        self.walk.reaches_by(c, marks, a, g)
    }

    /// Whether an item of a part counts.
    pub fn any_in(&self, part: Part<'_>) -> bool
        ensures { IsTrue result ↔ Has (counting self.now) (IsIn part.entry) }
    {
        let all = places(self.c, part);
        for at in all.start..all.end {
            if is_counted(self.marks, at) {
                return true;
            }
        }
        false
    }

    /// Whether an item of a part that counts passes a test.
    pub fn any_match<T: Matches>(&self, part: Part<'_>, test: &T) -> bool
        ensures { IsTrue result ↔ Has (counting self.now) (λ y. IsIn part.entry y × T.fits test.now y) }
    {
        let items = self.c.items();
        let all = places(self.c, part);
        for at in all.start..all.end {
            if is_counted(self.marks, at) && test.matches(&items[at]) {
                return true;
            }
        }
        false
    }

    /// Whether an item of a part that counts meets a condition by the items that count.
    pub fn any_met<T: Condition>(&mut self, part: Part<'_>, test: &T) -> bool
        ensures answer { IsTrue result ↔ Has (counting self.old) (λ y. IsIn part.entry y × T.holds test.now (counting self.old) y) }
        ensures same { self.new ≡ self.old }
    {
        let among = self.marks;
        self.any_among(among, part, test)
    }

    /// The same of an item that is among others: of those at places that are marked for this, or of any.
    pub fn any_among<T: Condition>(
        &mut self,
        among: Option<&Marks>,
        part: Part<'_>,
        test: &T,
    ) -> bool
        requires { AreMarksOf (length self.old.items) (option_copied among) }
        ensures answer { IsTrue result ↔ Has (counted self.old.items (option_copied among.entry)) (λ y. IsIn part.entry y × T.holds test.now (counting self.old) y) }
        ensures same { self.new ≡ self.old }
    {
        let c = self.c;
        let items = c.items();
        let all = places(c, part);
        for at in all.start..all.end {
            if is_counted(among, at) && test.is_met(self, &items[at]) {
                return true;
            }
        }
        false
    }
}
