//! Aggregates and GROUP BY in one SELECT.

ghost use Rattle.std.specs.Prelude.{◌≡◌, IfOk, OnOk, ◌++◌};
ghost use Rattle.query_types.specs.Aggregates as spec;

use name_scopes::is_name;
use sql_tree::{Items, Name, Reference};
use std::alloc::{AllocError, Global};

/// A column of a FROM that is named outside of aggregates.
#[derive(Drop)]
pub struct Bare {
    pub up: usize,
    pub at: usize,
    pub name: Name,
}

/// What stands outside of aggregates; whether an aggregate of the innermost SELECT stands in it, or one of any SELECT; and
/// whether each stands where it may.
#[derive(Drop)]
pub struct Grouping {
    pub bare: Items<Bare>,
    pub own: bool,
    pub some: bool,
    pub right: bool,
}
/// What names no column and has no aggregate.

pub fn nothing(alloc: Global) -> Grouping
    ensures { result ≡ spec.nothing }
{
    Grouping {
        bare: Items::new(alloc),
        own: false,
        some: false,
        right: true,
    }
}
/// What two parts have.

pub fn both(a: Grouping, b: Grouping) -> Result<Grouping, AllocError>
    ensures { IfOk result (λ r. r ≡ spec.both a b) }
{
    let own = a.own || b.own;
    let some = a.some || b.some;
    let right = a.right && b.right;
    let mut bare = a.bare;
    bare.append(b.bare)?;
    Ok(Grouping {
        bare,
        own,
        some,
        right,
    })
}
/// What a reference is.

pub fn referred(alloc: Global, reference: &Reference) -> Result<Grouping, AllocError>
    ensures { IfOk result (λ r. r ≡ spec.referred reference.now) }
{
    let mut grouping = nothing(alloc);
    if let Reference::Cell { up, at, name, .. } = reference {
        grouping.bare.push(Bare {
            up: *up,
            at: *at,
            name: name.copy()?,
        })?;
    }
    Ok(grouping)
}
/// What an aggregate of this is.

pub fn aggregated(alloc: Global, inside: Grouping) -> Grouping
    ensures { result ≡ spec.aggregated inside }
{
    Grouping {
        bare: Items::new(alloc),
        own: true,
        some: true,
        right: inside.right && !inside.some,
    }
}

fn put_outer(out: &mut Items<Bare>, all: &[Bare]) -> Result<(), AllocError>
    ensures { OnOk result (out.new ≡ out.old ++ spec.outer all.now) }
{
    for one in all {
        if one.up > 0 {
            out.push(Bare {
                up: one.up - 1,
                at: one.at,
                name: one.name.copy()?,
            })?;
        }
    }
    Ok(())
}

fn is_group(at: usize, name: &Name, group: &Reference) -> bool
    ensures { result ≡ spec.is_group at name.now group.now }
{
    match group {
        Reference::Cell {
            up,
            at: place,
            name: own,
            ..
        } => *up == 0 && at == *place && is_name(name, own),
        _ => false,
    }
}

fn any_group(at: usize, name: &Name, groups: &[Reference]) -> bool
    ensures { result ≡ spec.any_group at name.now groups.now }
{
    for group in groups {
        if is_group(at, name, group) {
            return true;
        }
    }
    false
}

fn is_grouped(groups: &[Reference], bare: &Bare) -> bool
    ensures { result ≡ spec.is_grouped groups.now bare.now }
{
    if bare.up == 0 {
        any_group(bare.at, &bare.name, groups)
    } else {
        true
    }
}

fn all_grouped(groups: &[Reference], all: &[Bare]) -> bool
    ensures { result ≡ spec.all_grouped groups.now all.now }
{
    for one in all {
        if !is_grouped(groups, one) {
            return false;
        }
    }
    true
}

fn is_own(group: &Reference) -> bool
    ensures { result ≡ spec.is_own group.now }
{
    match group {
        Reference::Cell { up, .. } => *up == 0,
        _ => false,
    }
}

fn all_own(groups: &[Reference]) -> bool
    ensures { result ≡ spec.all_own groups.now }
{
    for group in groups {
        if !is_own(group) {
            return false;
        }
    }
    true
}

fn has_groups(groups: &[Reference]) -> bool
    ensures { result ≡ spec.has_groups groups.now }
{
    match groups {
        [] => false,
        [_, ..] => true,
    }
}

/// A SELECT: aggregates stand in its items alone, and GROUP BY names its own columns.
pub fn settled(
    alloc: Global,
    from: Grouping,
    list: Grouping,
    filter: Grouping,
    groups: &[Reference],
) -> Result<Grouping, AllocError>
    ensures { IfOk result (λ r. r ≡ spec.settled from list filter groups.now) }
{
    let some = from.some || list.some || filter.some;
    let grouped = !(list.own || has_groups(groups)) || all_grouped(groups, list.bare.as_slice());
    let placed = from.right && list.right && filter.right && !from.own && !filter.own;
    let right = placed && all_own(groups) && grouped;
    let mut bare = Items::new(alloc);
    put_outer(&mut bare, from.bare.as_slice())?;
    put_outer(&mut bare, list.bare.as_slice())?;
    put_outer(&mut bare, filter.bare.as_slice())?;
    Ok(Grouping {
        bare,
        own: false,
        some,
        right,
    })
}
