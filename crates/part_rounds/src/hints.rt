//! Where what an item rests on is looked for first. It is tested there, and searched for otherwise, so only the time that it takes goes by a hint.

ghost use Rattle.std.specs.Prelude.{◌≡◌, length};

use crate::granted::compare_made;
use crate::grantees::{GrantOption, compare_titles, title_to};
use crate::grants::{Granted, granted_in};
use cat_items::{Catalogue, Item, Marks};
use role_graph::Actor;
use std::alloc::{AllocError, Global};

/// Of what a user or a role granted: where the options to who granted it start, and of an option the place of the grant itself.
#[derive(Clone, Copy)]
pub struct Hint {
    pub own: usize,
    pub made: usize,
}

/// The options of a catalogue by title, and the hints of its places, or none.
#[derive(Clone, Copy)]
pub struct Guide<'a> {
    pub options: &'a [GrantOption<'a>],
    pub hints: &'a [Hint],
}

/// No place, where there is no hint.
pub const NOWHERE: usize = usize::MAX;

/// The hint of a place.
pub fn hint_at(guide: Guide<'_>, at: usize) -> Hint {
    match guide.hints.get(at) {
        Some(hint) => *hint,
        None => Hint {
            own: NOWHERE,
            made: NOWHERE,
        },
    }
}

/// How many places are looked at one by one.
const NEAR: usize = 4;

/// Up to how many options are best searched without hints.
const SHORT: usize = 32;

/// Where those start that don't come before what is sought: a little behind a place at best, or else by a search.
fn start_near<T, F: Fn(&T) -> bool>(xs: &[T], from: usize, is_before: F) -> usize
    requires { F.IsAlwaysCallable is_before }
{
    let from = from.min(xs.len());
    if from > 0 && !is_before(&xs[from - 1]) {
        return xs.partition_point(is_before);
    }
    let to = from.saturating_add(NEAR).min(xs.len());
    for at in from..to {
        if !is_before(&xs[at]) {
            return at;
        }
    }
    xs.partition_point(is_before)
}

/// Where the options start to who granted it.
fn own_near(options: &[GrantOption<'_>], granted: Granted<'_>, from: usize) -> usize {
    match title_to(granted.grant, Actor::Named(granted.by)) {
        Some(title) => start_near(options, from, |option| {
            compare_titles(option.title, title).is_lt()
        }),
        None => from,
    }
}

/// The place of the grant itself, where it is its option that was granted.
fn made_near(items: &[Item], granted: Granted<'_>, from: usize) -> usize {
    if !granted.option {
        return from;
    }
    start_near(items, from, |x| compare_made(x, granted.grant).is_lt())
}

/// The hint of an item, which is near that of the item before.
fn hint_near(items: &[Item], options: &[GrantOption<'_>], x: &Item, near: Hint) -> Hint {
    match granted_in(x) {
        Some(granted) => Hint {
            own: own_near(options, granted, near.own),
            made: made_near(items, granted, near.made),
        },
        None => near,
    }
}

/// A hint for each place of a catalogue, where it has many options. Only those of places without a mark are looked for. `Err` is want of memory.
pub fn hints_of(
    alloc: Global,
    c: &Catalogue,
    marks: &Marks,
    options: &[GrantOption<'_>],
) -> Result<Vec<Hint>, AllocError>
    requires { length marks.now ≡ length c.now.items }
{
    if options.len() <= SHORT {
        return Ok(Vec::new(alloc));
    }
    let items = c.items();
    let mut hints = Vec::with_capacity(alloc, items.len())?;
    let mut near = Hint { own: 0, made: 0 };
    for at in 0..items.len() {
        if !marks.marked(at) {
            near = hint_near(items, options, &items[at], near);
        }
        hints.push(near)?;
    }
    Ok(hints)
}
