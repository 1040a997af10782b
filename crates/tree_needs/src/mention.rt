//! Columns, tables and routines that are mentioned.
#![tactic(auto, using(crate::proofs::MentionEquations::mentioned, std::proofs::lemmas::Grind::common_steps))]

ghost use Rattle.std.specs.Prelude.{◌≡◌, ◌++◌, ◌∷◌, [], cond, map, flat_map, IfOk, OnOk};
ghost use Rattle.std.specs.Option.{option_copied};
ghost use Rattle.std.specs.List.{list_any};
ghost use Rattle.cat_items.specs.Mentions as mentions;
ghost use Rattle.tree_needs.specs.Mentioned as spec;
ghost use Rattle.tree_needs.specs.Views.{mention_of};

use sql_tree::{Chain, Items, Join, Name, Object, ObjectName, Reference};
use std::alloc::{AllocError, Global};
use std::marker::Model;

/// What is mentioned.
#[derive(Drop)]
pub enum MentionKind {
    Cell { up: usize, at: usize, name: Name },
    Column { table: Object, name: Name },
    Table(Object),
    Routine(Object),
}

/// A column of a table of a FROM that isn't closed yet, a column of a table, a table no column of which is used, or a routine.
#[derive(Drop)]
pub struct Mention {
    pub kind: MentionKind,
}

impl Model for Mention {
    ghost use Rattle.cat_items.specs.Mentions as mentions;
    ghost use Rattle.tree_needs.specs.Views.{mention_of};

    ghost Value = { mentions.Mention };

    ghost view = { λ m. mention_of m.kind };
}

fn push(out: &mut Items<Mention>, kind: MentionKind) -> Result<(), AllocError>
    ensures { OnOk result (out.new ≡ out.old ++ mention_of kind ∷ []) }
{
    out.push(Mention { kind })
}

pub fn put_reference(out: &mut Items<Mention>, reference: &Reference) -> Result<(), AllocError>
    ensures { OnOk result (out.new ≡ out.old ++ mentions.reference_mentions reference.now) }
{
    match reference {
        Reference::Unqualified(_) => Ok(()),
        Reference::Qualified { .. } => Ok(()),
        Reference::Cell { up, at, name, .. } => {
            let kind = MentionKind::Cell {
                up: *up,
                at: *at,
                name: name.copy()?,
            };
            push(out, kind)
        }
        Reference::Own { table, name } => {
            let kind = MentionKind::Column {
                table: table.copy()?,
                name: name.copy()?,
            };
            push(out, kind)
        }
        Reference::Param { .. } => Ok(()),
    }
}

pub fn put_references(out: &mut Items<Mention>, all: &[Reference]) -> Result<(), AllocError>
    ensures { OnOk result (out.new ≡ out.old ++ flat_map mentions.reference_mentions all.now) }
{
    for one in all {
        put_reference(out, one)?;
    }
    Ok(())
}

pub fn put_routine(out: &mut Items<Mention>, routine: &ObjectName) -> Result<(), AllocError>
    ensures { OnOk result (out.new ≡ out.old ++ mentions.routine_mentions routine.now) }
{
    match routine {
        ObjectName::Unqualified(_) => Ok(()),
        ObjectName::Qualified(routine) => push(out, MentionKind::Routine(routine.copy()?)),
    }
}

fn put_table(out: &mut Items<Mention>, table: &ObjectName) -> Result<(), AllocError>
    ensures { OnOk result (out.new ≡ out.old ++ mentions.table_mentions table.now) }
{
    match table {
        ObjectName::Unqualified(_) => Ok(()),
        ObjectName::Qualified(table) => push(out, MentionKind::Table(table.copy()?)),
    }
}

fn put_column_at(
    out: &mut Items<Mention>,
    table: Option<&ObjectName>,
    name: &Name,
) -> Result<(), AllocError>
    ensures { OnOk result (out.new ≡ out.old ++ mentions.column_at (option_copied table.entry) name.now) }
{
    match table {
        None => Ok(()),
        Some(table) => match table {
            ObjectName::Unqualified(_) => Ok(()),
            ObjectName::Qualified(table) => {
                let kind = MentionKind::Column {
                    table: table.copy()?,
                    name: name.copy()?,
                };
                push(out, kind)
            }
        },
    }
}

/// A mention as it is seen from outside of a query with these tables.
#[tactic(auto, using(crate::proofs::Outside::further_out))]
fn put_outside(
    out: &mut Items<Mention>,
    tables: &Items<ObjectName>,
    mention: &Mention,
) -> Result<(), AllocError>
    ensures { OnOk result (out.new ≡ out.old ++ mentions.seen_outside tables.now mention.now) }
{
    match &mention.kind {
        MentionKind::Cell { up, at, name } => {
            if *up == 0 {
                put_column_at(out, tables.get(*at), name)
            } else {
                let kind = MentionKind::Cell {
                    up: *up - 1,
                    at: *at,
                    name: name.copy()?,
                };
                push(out, kind)
            }
        }
        MentionKind::Column { table, name } => {
            let kind = MentionKind::Column {
                table: table.copy()?,
                name: name.copy()?,
            };
            push(out, kind)
        }
        MentionKind::Table(table) => push(out, MentionKind::Table(table.copy()?)),
        MentionKind::Routine(routine) => push(out, MentionKind::Routine(routine.copy()?)),
    }
}

fn put_all_outside(
    out: &mut Items<Mention>,
    tables: &Items<ObjectName>,
    all: &[Mention],
) -> Result<(), AllocError>
    ensures { OnOk result (out.new ≡ out.old ++ flat_map (mentions.seen_outside tables.now) all.now) }
{
    for one in all {
        put_outside(out, tables, one)?;
    }
    Ok(())
}

#[tactic(auto, using(crate::proofs::Outside::of_place))]
fn is_of_place(place: usize, mention: &Mention) -> bool
    ensures { result ≡ mentions.is_of_place place mention.now }
{
    match &mention.kind {
        MentionKind::Cell { up, at, .. } => *up == 0 && *at == place,
        _ => false,
    }
}

fn is_used(place: usize, all: &[Mention]) -> bool
    ensures { result ≡ list_any (mentions.is_of_place place) all.now }
{
    for one in all {
        if is_of_place(place, one) {
            return true;
        }
    }
    false
}

fn put_unused(
    out: &mut Items<Mention>,
    tables: &[ObjectName],
    all: &[Mention],
) -> Result<(), AllocError>
    ensures { OnOk result (out.new ≡ out.old ++ mentions.unused_tables 0 tables.now all.now) }
{
    for place in 0..tables.len() {
        put_if_unused(out, place, &tables[place], all)?;
    }
    Ok(())
}

fn put_if_unused(
    out: &mut Items<Mention>,
    place: usize,
    table: &ObjectName,
    all: &[Mention],
) -> Result<(), AllocError>
    ensures { OnOk result (out.new ≡ out.old ++ cond (list_any (mentions.is_of_place place) all.now) [] (mentions.table_mentions table.now)) }
{
    if is_used(place, all) {
        Ok(())
    } else {
        put_table(out, table)
    }
}

fn join_table(join: &Join) -> &ObjectName
    ensures { result.now ≡ (spec.join_mentions join.now).0 }
{
    match join {
        Join::Inner { table, .. } => &table.table,
        Join::Cross(table) => &table.table,
    }
}

fn put_join_tables(out: &mut Items<ObjectName>, all: &[Join]) -> Result<(), AllocError>
    ensures { OnOk result (out.new ≡ out.old ++ map (λ j. j.0) (map spec.join_mentions all.now)) }
{
    for one in all {
        out.push(join_table(one).copy()?)?;
    }
    Ok(())
}

fn put_chain_tables(out: &mut Items<ObjectName>, chain: &Chain) -> Result<(), AllocError>
    ensures { OnOk result (out.new ≡ out.old ++ (spec.chain_mentions chain.now).0) }
{
    out.push(chain.first.table.copy()?)?;
    put_join_tables(out, chain.joins.as_slice())
}

fn tables_of(alloc: Global, from: &[Chain]) -> Result<Items<ObjectName>, AllocError>
    ensures { IfOk result (λ ts. ts ≡ flat_map (λ c. c.0) (map spec.chain_mentions from.now)) }
{
    let mut out = Items::new(alloc);
    for one in from {
        put_chain_tables(&mut out, one)?;
    }
    Ok(out)
}

/// The mentions of a SELECT, as they are seen from outside of it.
pub fn put_closed(
    alloc: Global,
    out: &mut Items<Mention>,
    from: &[Chain],
    inside: &[Mention],
) -> Result<(), AllocError>
    ensures { OnOk result (out.new ≡ out.old ++ mentions.closed_mentions (flat_map (λ c. c.0) (map spec.chain_mentions from.now)) inside.now) }
{
    let tables = tables_of(alloc, from)?;
    put_all_outside(out, &tables, inside)?;
    put_unused(out, tables.as_slice(), inside)
}
