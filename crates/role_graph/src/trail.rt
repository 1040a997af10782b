//! The walk back from a role to those whom it is granted to.

ghost use Rattle.std.specs.Prelude.{◌≡◌, ◌↔◌, ◌≤◌, ◌<◌, ◌+◌, ◌++◌, ◌∷◌, [], false, length, vec_len, IsTrue};
ghost use Rattle.std.specs.List.{Contains};
ghost use Rattle.std.specs.Option.{option_copied};
ghost use Rattle.std.specs.Vec.{vec_capacity};
ghost use Rattle.role_graph.specs.Marked.{AreMarksOf, counted};
ghost use Rattle.role_graph.specs.Roles.{IsApplicable};
ghost use Rattle.role_graph.specs.Trails.{AreClear, GrewBy, HasGrantsOf, HaveFlags, IsGranted, IsGrantElsewhere, IsTrail};

use crate::grants::{grant_at, is_counted};
use cat_items::{Catalogue, Marks, role_grants_of};
use sql_tree::Name;

/// Puts in a number at the end, where there is room.
fn push_in_room(numbers: &mut Vec<usize>, number: usize)
    requires { vec_len numbers.old < vec_capacity numbers.old }
    ensures items { numbers.new.items ≡ numbers.old.items ++ number ∷ [] }
    ensures capacity { vec_capacity numbers.old ≤ vec_capacity numbers.new }
{
    let _ = numbers.push(number);
}

/// Comes to a place, if not already there.
fn come_to(at: usize, first: usize, seen: &mut [bool], found: &mut Vec<usize>)
    requires from { first ≤ at }
    requires within { at < first + length seen.old }
    requires room { length seen.old ≤ vec_capacity found.old }
    requires trail { IsTrail first seen.old found.old.items }
    ensures trail { IsTrail first seen.new found.new.items }
    ensures grown { GrewBy (λ k. k ≡ at) found.old.items found.new.items }
    ensures come { Contains found.new.items at }
    ensures capacity { vec_capacity found.old ≤ vec_capacity found.new }
{
    if !seen[at - first] {
        seen[at - first] = true;
        push_in_room(found, at);
    }
}

/// Comes to all grants of a role that count, or tells that it is granted to the one who is sought.
fn come_to_grants(
    c: &Catalogue,
    marks: Option<&Marks>,
    role: &Name,
    sought: &Name,
    first: usize,
    seen: &mut [bool],
    found: &mut Vec<usize>,
) -> bool
    requires marks { AreMarksOf (length c.now.items) (option_copied marks) }
    requires flags { HaveFlags first (length seen.old) c.now.items }
    requires room { length seen.old ≤ vec_capacity found.old }
    requires trail { IsTrail first seen.old found.old.items }
    ensures granted { IsTrue result → IsGranted c.now.items (option_copied marks.entry) role.now sought.now }
    ensures trail { IsTrail first seen.new found.new.items }
    ensures grown { GrewBy (IsGrantElsewhere c.now.items (option_copied marks.entry) role.now sought.now) found.old.items found.new.items }
    ensures all { result ≡ false → HasGrantsOf c.now.items (option_copied marks.entry) role.now found.new.items }
    ensures capacity { vec_capacity found.old ≤ vec_capacity found.new }
{
    let items = c.items();
    let grants = role_grants_of(c, role);
    for at in grants.start..grants.end {
        if is_counted(marks, at) {
            if grant_at(items, at).grantee.same(sought) {
                return true;
            }
            come_to(at, first, seen, found);
        }
    }
    false
}

/// Takes back the flags of the places to which a walk came.
pub fn clear(first: usize, seen: &mut [bool], found: &[usize])
    requires { IsTrail first seen.old found.now }
    ensures { AreClear seen.new }
{
    for at in found {
        seen[*at - first] = false;
    }
}

/// Whether one or more role authorizations that count lead from a name to another.
pub fn leads_back(
    c: &Catalogue,
    marks: Option<&Marks>,
    from: &Name,
    to: &Name,
    first: usize,
    seen: &mut [bool],
    found: &mut Vec<usize>,
) -> bool
    requires marks { AreMarksOf (length c.now.items) (option_copied marks) }
    requires flags { HaveFlags first (length seen.old) c.now.items }
    requires room { length seen.old ≤ vec_capacity found.old }
    requires clear { AreClear seen.old }
    requires empty { found.old.items ≡ [] }
    ensures trail { IsTrail first seen.new found.new.items }
    ensures answer { IsTrue result ↔ IsApplicable (counted c.now.items (option_copied marks.entry)) from.now to.now }
    ensures capacity { vec_capacity found.old ≤ vec_capacity found.new }
{
    if come_to_grants(c, marks, to, from, first, seen, found) {
        return true;
    }
    let mut next = 0;
    while next < found.len() {
        let role = &grant_at(c.items(), found[next]).grantee;
        if come_to_grants(c, marks, role, from, first, seen, found) {
            return true;
        }
        next += 1;
    }
    false
}
