//! Which needs are met for whom.

ghost use Rattle.std.specs.Prelude.{◌≡◌, ◌↔◌, ◌∷◌, [], All, false, length, map, IsTrue, Some};
ghost use Rattle.std.specs.Option.{option_copied};
ghost use Rattle.cat_items.specs.declared.need.Auth.TheVariants.{Named};
ghost use Rattle.cat_items.specs.Keys.{need_of};
ghost use Rattle.cat_items.specs.Reach.{Has};
ghost use Rattle.cat_items.specs.Rights.{IsAdminFor, IsRightFor, Met, MeetsAll, reference};
ghost use Rattle.cat_items.specs.SystemRights.{MetWithOption};
ghost use Rattle.role_graph.specs.Actors.{auth_of};
ghost use Rattle.role_graph.specs.Judges.{counting};
ghost use Rattle.role_graph.specs.Marked.{AreMarksOf, counted, marked};
ghost use Rattle.role_graph.specs.Roles.{IsRoomFor};
ghost use Rattle.role_graph.specs.Needs.{needs_of};

use crate::actor::Actor;
use crate::judge::{Condition, Judge};
use crate::standing::role_at;
use crate::walk::Walk;
use cat_items::{Auth, Catalogue, Item, Marks, Need, NeedKey, Part, PathKey};
use sql_tree::{Action, Items, Name, Object};

/// A right or an admin option whose grantee `a` reaches.
#[derive(Drop)]
struct Reached<'a> {
    a: Actor<'a>,
}

impl<'a> Condition for Reached<'a> {
    ghost use Rattle.role_graph.specs.Actors.{auth_of};
    ghost use Rattle.role_graph.specs.Loops.{IsReached};

    ghost holds = { λ t s x. IsReached s (auth_of t.a) x };

    fn is_met(&self, judge: &mut Judge<'_>, x: &Item) -> bool {
        match x {
            Item::Held(right) => judge.reaches(self.a, (&right.get().grantee).into()),
            Item::Grantable(right) => judge.reaches(self.a, (&right.get().grantee).into()),
            Item::RoleAdmin(grant) => judge.reaches(self.a, Actor::Named(&grant.get().grantee)),
            _ => false,
        }
    }
}

/// Needs that are lent.
#[derive(Clone, Copy)]
pub enum Needs<'a> {
    Listed(&'a Items<Need>),
    One(NeedKey<'a>),
    /// REFERENCES on each of these columns of a table.
    References {
        table: &'a Object,
        columns: &'a Items<Name>,
    },
}

/// A schema of this name for whose owner these needs are met.
#[derive(Drop)]
struct MeetingSchema<'a> {
    schema: &'a Name,
    needs: Needs<'a>,
}

impl<'a> Condition for MeetingSchema<'a> {
    ghost use Rattle.std.specs.Prelude.{false};
    ghost use Rattle.cat_items.specs.Rights.{MeetsAll};
    ghost use Rattle.role_graph.specs.Needs.{needs_of};

    ghost holds = { λ t s x. MeetsAll false s t.schema.now (needs_of t.needs) x };

    fn is_met(&self, judge: &mut Judge<'_>, x: &Item) -> bool {
        match x {
            Item::Schema(schema) => {
                let schema = schema.get();
                schema.name.same(self.schema) && judge.all_met(&schema.owner, self.needs)
            }
            _ => false,
        }
    }
}

impl Judge<'_> {
    /// Whether a right of this need counts whose grantee `a` reaches.
    fn holds_right(&mut self, a: Actor<'_>, need: NeedKey<'_>, grantable: bool) -> bool
        ensures answer { IsTrue result ↔ Has (counting self.old) (IsRightFor grantable (counting self.old) (auth_of a.entry) (need_of need.entry)) }
        ensures same { self.new ≡ self.old }
    {
        if grantable {
            self.any_met(Part::Grantable(need), &Reached { a })
        } else {
            self.any_met(Part::Held(need), &Reached { a })
        }
    }

    /// Whether an admin option of this role counts whose grantee `a` reaches.
    pub fn has_admin(&mut self, a: Actor<'_>, role: &Name) -> bool
        ensures answer { IsTrue result ↔ Has (counting self.old) (IsAdminFor (counting self.old) (auth_of a.entry) (role.now ∷ [])) }
        ensures same { self.new ≡ self.old }
    {
        self.any_met(Part::AdminOptions(role), &Reached { a })
    }

    /// Whether a need is met for `a` by the items that count, or met grantably.
    ///
    /// It looks up the rights of exactly this need, and goes from the grantee of each until one is reached.
    pub fn met_by(&mut self, a: Actor<'_>, need: NeedKey<'_>, grantable: bool) -> bool
        ensures answer { IsTrue result ↔ Met grantable (counting self.old) (auth_of a.entry) (need_of need.entry) }
        ensures same { self.new ≡ self.old }
    {
        match need.action {
            Action::Admin => match role_at(need.on) {
                None => false,
                Some(role) => self.has_admin(a, role),
            },
            _ => self.stands(need) && self.holds_right(a, need, grantable),
        }
    }

    /// Whether each need of a list is met for the user or role of this name.
    fn each_met(&mut self, owner: &Name, needs: &Items<Need>, grantable: bool) -> bool
        ensures answer { IsTrue result ↔ All (Met grantable (counting self.old) (Named owner.now)) needs.now }
        ensures same { self.new ≡ self.old }
    {
        for need in needs.as_slice() {
            if !self.met_by(Actor::Named(owner), need.into(), grantable) {
                return false;
            }
        }
        true
    }

    /// Whether REFERENCES on each of these columns is met for the user or role of this name.
    fn each_referenced(&mut self, owner: &Name, table: &Object, columns: &Items<Name>) -> bool
        ensures answer { IsTrue result ↔ All (Met false (counting self.old) (Named owner.now)) (map (reference table.now) columns.now) }
        ensures same { self.new ≡ self.old }
    {
        for name in columns.as_slice() {
            let need = NeedKey {
                action: Action::References,
                on: PathKey::Object(table.into()),
                column: Some(name),
            };
            if !self.met_by(Actor::Named(owner), need, false) {
                return false;
            }
        }
        true
    }

    /// Whether all these needs are met for the user or role of this name.
    fn all_met(&mut self, owner: &Name, needs: Needs<'_>) -> bool
        ensures answer { IsTrue result ↔ All (Met false (counting self.old) (Named owner.now)) (needs_of needs.entry) }
        ensures same { self.new ≡ self.old }
    {
        match needs {
            Needs::Listed(needs) => self.each_met(owner, needs, false),
            Needs::One(need) => self.met_by(Actor::Named(owner), need, false),
            Needs::References { table, columns } => self.each_referenced(owner, table, columns),
        }
    }

    /// Whether a schema of this name counts for whose owner these needs are met.
    pub fn owner_meets(&mut self, schema: &Name, needs: Needs<'_>) -> bool
        ensures answer { IsTrue result ↔ Has (counting self.old) (MeetsAll false (counting self.old) schema.now (needs_of needs.entry)) }
        ensures same { self.new ≡ self.old }
    {
        let test = MeetingSchema { schema, needs };
        self.any_met(Part::Schema(schema), &test)
    }

    /// Whether all these needs are met grantably, where it is the grant option that is asked for.
    pub fn met_with_option(&mut self, owner: &Name, needs: &Items<Need>, grantable: bool) -> bool
        ensures answer { IsTrue result ↔ MetWithOption grantable (counting self.old) (Named owner.now) needs.now }
        ensures same { self.new ≡ self.old }
    {
        !grantable || self.each_met(owner, needs, true)
    }
}

/// Whether a need is met for `a` by the items at marked places, or met grantably. It takes no memory.
///
/// It looks up the rights of exactly this need, and walks from the grantee of each until one is reached.
pub fn met(
    c: &Catalogue,
    marks: &Marks,
    walk: &mut Walk,
    a: &Auth,
    need: &Need,
    grantable: bool,
) -> bool
    requires room { IsRoomFor walk.old c.now.items }
    requires marks { length marks.now ≡ length c.now.items }
    ensures answer { IsTrue result ↔ Met grantable (marked c.now.items marks.now) a.now need.now }
    ensures room { walk.new ≡ walk.old }
{
    met_by(c, Some(marks), walk, a.into(), need.into(), grantable)
}

/// The same for a lent authorization and a lent need, and by all items where there are no marks.
pub fn met_by(
    c: &Catalogue,
    marks: Option<&Marks>,
    walk: &mut Walk,
    a: Actor<'_>,
    need: NeedKey<'_>,
    grantable: bool,
) -> bool
    requires room { IsRoomFor walk.old c.now.items }
    requires marks { AreMarksOf (length c.now.items) (option_copied marks) }
    ensures answer { IsTrue result ↔ Met grantable (counted c.now.items (option_copied marks.entry)) (auth_of a.entry) (need_of need.entry) }
    ensures room { walk.new ≡ walk.old }
{
    let mut judge = Judge::new(c, marks, walk);
    let answer = judge.met_by(a, need, grantable);
    judge.end();
    answer
}
