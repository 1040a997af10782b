//! Paths.

ghost use Rattle.std.specs.Prelude.{◌≡◌, ◌<◌, ◌≤◌, [], ◌∷◌, length, slice_get, IfOk, ◌↔◌, IsTrue};
ghost use Rattle.std.specs.Option.{option_copied};
ghost use Rattle.std.specs.Ordering.{nat_cmp, eq_by_cmp, as_partial_cmp};
ghost use Rattle.std.specs.Cmp.Lexicographic.{slice_cmp};
ghost use Rattle.std.specs.Cmp.{partial_order_from_own_ties};
ghost use Rattle.std.specs.Cmp.Rules.{comparing};
ghost use Rattle.std.proofs.Common.{rules};
ghost use Rattle.std.specs.Hash.{same_Alike};
ghost use Rattle.std.specs.List.{flat_map};
ghost use Rattle.sql_names.specs.Fronts.{name_writes};
ghost use Rattle.sql_names.specs.Names.{path_eq-Decides};

use crate::name::Name;
use std::alloc::AllocError;
use std::cmp::Ordering;
use std::hash::{Hash, Hasher};
use std::marker::Model;

#[derive(Drop)]
enum Names {
    One(Name),
    Two(Name, Name),
    Three(Name, Name, Name),
}

/// One to three names: a schema or a role, an object of a schema, a column of a table; or what was
/// written where a name isn't known. Compared name by name, a path that is the front of another first.
#[derive(Drop)]
pub struct Path {
    names: Names,
}

const _: () = prove!(size_of::<Path>() == 32);

impl Model for Path {
    ghost use Rattle.std.specs.Prelude.{List, ℕ};
    ghost use Rattle.sql_names.specs.Paths.{names_of};

    ghost Value = { List (List ℕ) };

    ghost view = { λ p. names_of p.names };
}

impl Path {
    /// The path of one name.
    pub fn one(name: Name) -> Path
        ensures { result ≡ name ∷ [] }
    {
        Path {
            names: Names::One(name),
        }
    }

    /// The path of two names.
    pub fn two(first: Name, second: Name) -> Path
        ensures { result ≡ first ∷ second ∷ [] }
    {
        Path {
            names: Names::Two(first, second),
        }
    }

    /// The path of three names.
    pub fn three(first: Name, second: Name, third: Name) -> Path
        ensures { result ≡ first ∷ second ∷ third ∷ [] }
    {
        Path {
            names: Names::Three(first, second, third),
        }
    }

    /// How many names it has.
    pub fn len(&self) -> usize
        ensures names { result ≡ length self.now }
        ensures some { 0 < result }
        ensures few { result ≤ 3 }
    {
        match &self.names {
            Names::One(_) => 1,
            Names::Two(_, _) => 2,
            Names::Three(_, _, _) => 3,
        }
    }

    /// The name at a place, from 0.
    pub fn get(&self, at: usize) -> Option<&Name>
        ensures { option_copied result ≡ slice_get self.now at }
    {
        match (&self.names, at) {
            (Names::One(name) | Names::Two(name, _) | Names::Three(name, _, _), 0) => Some(name),
            (Names::Two(_, name) | Names::Three(_, name, _), 1) => Some(name),
            (Names::Three(_, _, name), 2) => Some(name),
            _ => None,
        }
    }

    /// Whether the two have the same names, as `==` says.
    pub fn same(&self, other: &Path) -> bool
        ensures { IsTrue result ↔ (self.now ≡ other.now) }
    {
        match (&self.names, &other.names) {
            (Names::One(a), Names::One(x)) => a.same(x),
            (Names::Two(a, b), Names::Two(x, y)) => a.same(x) && b.same(y),
            (Names::Three(a, b, c), Names::Three(x, y, z)) => a.same(x) && b.same(y) && c.same(z),
            _ => false,
        }
    }

    /// An equal path, which shares the bytes. It takes no memory; `Err` is the end of a count of owners.
    pub fn copy(&self) -> Result<Path, AllocError>
        ensures { IfOk result (λ p. p ≡ self.now) }
    {
        let names = match &self.names {
            Names::One(a) => Names::One(a.copy()?),
            Names::Two(a, b) => Names::Two(a.copy()?, b.copy()?),
            Names::Three(a, b, c) => Names::Three(a.copy()?, b.copy()?, c.copy()?),
        };
        Ok(Path { names })
    }
}

impl PartialEq for Path {
    ghost eq = { eq_by_cmp (slice_cmp (slice_cmp nat_cmp)) };

    ghost laws = { Prim.search (comparing, rules) };

    fn eq(&self, other: &Path) -> bool {
        self.cmp(other).is_eq()
    }
}

impl Eq for Path {
    ghost laws = { Prim.search (comparing, rules) };
}

impl PartialOrd for Path {
    ghost partial_cmp = { as_partial_cmp (slice_cmp (slice_cmp nat_cmp)) };

    ghost laws = { partial_order_from_own_ties (Prim.search (comparing, rules)) (Prim.search (comparing, rules)) };

    fn partial_cmp(&self, other: &Path) -> Option<Ordering> {
        Some(self.cmp(other))
    }
}

impl Ord for Path {
    ghost cmp = { slice_cmp (slice_cmp nat_cmp) };

    ghost total = { Prim.search (comparing, rules) };

    ghost matches_partial_cmp = { Prim.search (comparing, rules) };

    ghost matches_eq = { Prim.search (comparing, rules) };

    fn cmp(&self, other: &Path) -> Ordering {
        match (&self.names, &other.names) {
            (Names::One(a), Names::One(x)) => a.cmp(x),
            (Names::One(a), Names::Two(x, _) | Names::Three(x, _, _)) => {
                a.cmp(x).then(Ordering::Less)
            }
            (Names::Two(a, _) | Names::Three(a, _, _), Names::One(x)) => {
                a.cmp(x).then(Ordering::Greater)
            }
            (Names::Two(a, b), Names::Two(x, y)) => a.cmp(x).then_with(|| b.cmp(y)),
            (Names::Two(a, b), Names::Three(x, y, _)) => a
                .cmp(x)
                .then_with(|| b.cmp(y).then(Ordering::Less)),
            (Names::Three(a, b, _), Names::Two(x, y)) => a
                .cmp(x)
                .then_with(|| b.cmp(y).then(Ordering::Greater)),
            (Names::Three(a, b, c), Names::Three(x, y, z)) => a
                .cmp(x)
                .then_with(|| b.cmp(y).then_with(|| c.cmp(z))),
        }
    }
}

impl Hash for Path {
    ghost hash_input = { flat_map name_writes };

    ghost respects_eq = { (same_Alike (flat_map name_writes) path_eq-Decides).fed };

    fn hash<H: Hasher>(&self, state: &mut H) {
        match &self.names {
            Names::One(a) => a.hash(state),
            Names::Two(a, b) => {
                a.hash(state);
                b.hash(state);
            }
            Names::Three(a, b, c) => {
                a.hash(state);
                b.hash(state);
                c.hash(state);
            }
        }
    }
}
