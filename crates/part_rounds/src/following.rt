//! Rights that follow one from another: a grant option from its right, and what it lets grant from a grant option.

ghost use Rattle.std.specs.Prelude.{◌≡◌, ◌≤◌, ◌<◌, ◌+◌, not, length, count_by};
ghost use Rattle.std.specs.Vec.{vec_capacity};
ghost use Rattle.cat_items.specs.Supported.{Supported};
ghost use Rattle.role_graph.specs.Marked.{marked};
ghost use Rattle.role_graph.specs.Roles.{IsRoomFor};
ghost use Rattle.part_rounds.specs.Grantees.{AreListed};
ghost use Rattle.part_rounds.specs.Grown.{HaveGrown, IsWorklist};
ghost use Rattle.part_rounds.specs.Options.{Knows};

use crate::hints::Guide;
use crate::options::Found;
use crate::trying::try_mark;
use cat_items::{Auth, Catalogue, Item, Marks};
use role_graph::Walk;
use sql_tree::Name;
use std::cmp::Ordering;

/// Compares a grantor with the user or role of this name.
fn compare_grantor(grantor: &Auth, name: &Name) -> Ordering {
    match grantor {
        Auth::System | Auth::Public => Ordering::Less,
        Auth::Named(grantor) => grantor.cmp(name),
    }
}

/// Compares an item with those that follow from another: these are the option of the other, or what was granted by who got the other as an
/// option.
fn compare_following(x: &Item, before: &Item) -> Ordering {
    match (before, x) {
        (Item::Held(right), Item::Grantable(option)) => option.get().cmp(right.get()),
        (Item::Held(_), _) => Ordering::Less,
        (Item::Grantable(option), Item::Held(right)) => {
            let grantor = right.get().grantor.cmp(&option.get().grantee);
            right.get().need.cmp(&option.get().need).then(grantor)
        }
        (Item::RoleAuth(grant), Item::RoleAdmin(option)) => option.get().cmp(grant.get()),
        (Item::RoleAdmin(option), Item::RoleAuth(grant)) => {
            let grantor = compare_grantor(&grant.get().grantor, &option.get().grantee);
            grant.get().role.cmp(&option.get().role).then(grantor)
        }
        (_, Item::Grantable(_)) | (Item::RoleAuth(_) | Item::RoleAdmin(_), Item::Held(_)) => {
            Ordering::Greater
        }
        (Item::RoleAdmin(_), Item::RoleAdmin(_)) => Ordering::Greater,
        _ => Ordering::Less,
    }
}

/// Tries what follows from the item at a place, and puts on the list what gets marked: what is known then. What follows from one item stands
/// together, so it is found by a search.
fn mark_following<'a>(
    c: &'a Catalogue,
    marks: &mut Marks,
    walk: &mut Walk,
    guide: Guide<'_>,
    at: usize,
    known: Option<Found<'a>>,
    list: &mut Vec<usize>,
) -> Option<Found<'a>>
    requires within { at < length c.now.items }
    requires room { IsRoomFor walk.old c.now.items }
    requires marks { length marks.old ≡ length c.now.items }
    requires options { AreListed c.now.items guide.options.now }
    requires known { Knows c.now.items (marked c.now.items marks.old) known }
    requires list { IsWorklist c.now.items marks.old list.old.items (vec_capacity list.old) }
    ensures grown { HaveGrown (Supported c.now.items) c.now.items marks.old marks.new }
    ensures known { Knows c.now.items (marked c.now.items marks.new) result }
    ensures list { IsWorklist c.now.items marks.new list.new.items (vec_capacity list.new) }
    ensures left { length list.new.items + count_by not marks.new ≤ length list.old.items + count_by not marks.old }
    ensures room { walk.new ≡ walk.old }
{
    let items = c.items();
    let before = &items[at];
    let first = items.partition_point(|x| compare_following(x, before).is_lt());
    let mut found = known;
    for next in first..items.len() {
        if compare_following(&items[next], before).is_ne() {
            return found;
        }
        let told = try_mark(c, marks, walk, guide, next, found);
        found = told.found;
        if told.holds {
            list.push_reserved(next);
        }
    }
    found
}

/// Marks what follows from the item at a place, and what follows from that, as long as the marked ones support it: what is known then.
pub fn mark_behind<'a>(
    c: &'a Catalogue,
    marks: &mut Marks,
    walk: &mut Walk,
    guide: Guide<'_>,
    from: usize,
    known: Option<Found<'a>>,
    list: &mut Vec<usize>,
) -> Option<Found<'a>>
    requires within { from < length c.now.items }
    requires room { IsRoomFor walk.old c.now.items }
    requires marks { length marks.old ≡ length c.now.items }
    requires options { AreListed c.now.items guide.options.now }
    requires known { Knows c.now.items (marked c.now.items marks.old) known }
    requires list { IsWorklist c.now.items marks.old list.old.items (vec_capacity list.old) }
    requires free { length list.old.items + count_by not marks.old < vec_capacity list.old }
    ensures grown { HaveGrown (Supported c.now.items) c.now.items marks.old marks.new }
    ensures known { Knows c.now.items (marked c.now.items marks.new) result }
    ensures list { IsWorklist c.now.items marks.new list.new.items (vec_capacity list.new) }
    ensures room { walk.new ≡ walk.old }
{
    list.push_reserved(from);
    let mut found = known;
    while let Some(at) = list.pop() {
        found = mark_following(c, marks, walk, guide, at, found, list);
    }
    found
}
