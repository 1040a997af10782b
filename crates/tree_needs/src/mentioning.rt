//! What queries, conditions and bodies mention: columns, tables and routines, at any depth.
#![tactic(auto, using(crate::proofs::MentionEquations::mentioned, std::proofs::lemmas::Grind::common_steps))]

ghost use Rattle.std.specs.Prelude.{◌≡◌, ◌++◌, map, flat_map, option_map, OnOk};
ghost use Rattle.cat_items.specs.Mentions as mentions;
ghost use Rattle.tree_needs.specs.Mentioned as spec;

use crate::mention::{Mention, put_closed, put_reference, put_references, put_routine};
use sql_tree::{
    Added, Arm, Boxed, Chain, Conjunction, Expr, Factor, Further, Items, Join, Multiplied,
    Negation, Operand, Predicate, Query, Select, SelectItem, SelectList, Sum, Tail, Term,
};
use std::alloc::{AllocError, Global};

#[cycle(mentions)]
fn put_conjunctions(
    alloc: Global,
    out: &mut Items<Mention>,
    all: &[Conjunction],
) -> Result<(), AllocError>
    ensures { OnOk result (out.new ≡ out.old ++ mentions.all_mentions (map spec.conjunction_mentions all.now)) }
{
    for one in all {
        put_conjunction(alloc, out, one)?;
    }
    Ok(())
}

#[cycle(mentions)]
fn put_negations(
    alloc: Global,
    out: &mut Items<Mention>,
    all: &[Negation],
) -> Result<(), AllocError>
    ensures { OnOk result (out.new ≡ out.old ++ mentions.all_mentions (map spec.negation_mentions all.now)) }
{
    for one in all {
        put_negation(alloc, out, one)?;
    }
    Ok(())
}

#[cycle(mentions)]
fn put_added_terms(alloc: Global, out: &mut Items<Mention>, all: &[Added]) -> Result<(), AllocError>
    ensures { OnOk result (out.new ≡ out.old ++ mentions.all_mentions (map spec.added_mentions all.now)) }
{
    for one in all {
        put_added(alloc, out, one)?;
    }
    Ok(())
}

#[cycle(mentions)]
fn put_multiplied_factors(
    alloc: Global,
    out: &mut Items<Mention>,
    all: &[Multiplied],
) -> Result<(), AllocError>
    ensures { OnOk result (out.new ≡ out.old ++ mentions.all_mentions (map spec.multiplied_mentions all.now)) }
{
    for one in all {
        put_multiplied(alloc, out, one)?;
    }
    Ok(())
}

#[cycle(mentions)]
fn put_exprs(alloc: Global, out: &mut Items<Mention>, all: &[Expr]) -> Result<(), AllocError>
    ensures { OnOk result (out.new ≡ out.old ++ mentions.all_mentions (map mentions.expr_mentions all.now)) }
{
    for one in all {
        put_expr(alloc, out, one)?;
    }
    Ok(())
}

#[cycle(mentions)]
fn put_arms(alloc: Global, out: &mut Items<Mention>, all: &[Arm]) -> Result<(), AllocError>
    ensures { OnOk result (out.new ≡ out.old ++ mentions.all_mentions (map spec.arm_mentions all.now)) }
{
    for one in all {
        put_arm(alloc, out, one)?;
    }
    Ok(())
}

#[cycle(mentions)]
fn put_further_selects(
    alloc: Global,
    out: &mut Items<Mention>,
    all: &[Further],
) -> Result<(), AllocError>
    ensures { OnOk result (out.new ≡ out.old ++ mentions.all_mentions (map spec.further_mentions all.now)) }
{
    for one in all {
        put_further(alloc, out, one)?;
    }
    Ok(())
}

#[cycle(mentions)]
fn put_select_items(
    alloc: Global,
    out: &mut Items<Mention>,
    all: &[SelectItem],
) -> Result<(), AllocError>
    ensures { OnOk result (out.new ≡ out.old ++ mentions.all_mentions (map spec.select_item_mentions all.now)) }
{
    for one in all {
        put_select_item(alloc, out, one)?;
    }
    Ok(())
}

#[cycle(mentions)]
fn put_chains(alloc: Global, out: &mut Items<Mention>, all: &[Chain]) -> Result<(), AllocError>
    ensures { OnOk result (out.new ≡ out.old ++ flat_map (λ j. j.1) (map spec.chain_mentions all.now)) }
{
    for one in all {
        put_chain(alloc, out, one)?;
    }
    Ok(())
}

#[cycle(mentions)]
fn put_joins(alloc: Global, out: &mut Items<Mention>, all: &[Join]) -> Result<(), AllocError>
    ensures { OnOk result (out.new ≡ out.old ++ flat_map (λ j. j.1) (map spec.join_mentions all.now)) }
{
    for one in all {
        put_join(alloc, out, one)?;
    }
    Ok(())
}

#[cycle(mentions)]
fn put_optional(
    alloc: Global,
    out: &mut Items<Mention>,
    expr: &Option<Expr>,
) -> Result<(), AllocError>
    ensures { OnOk result (out.new ≡ out.old ++ mentions.optional_mentions (option_map mentions.expr_mentions expr.now)) }
{
    match expr {
        None => Ok(()),
        Some(expr) => put_expr(alloc, out, expr),
    }
}

#[cycle(mentions)]
fn put_optional_tail(
    alloc: Global,
    out: &mut Items<Mention>,
    tail: &Option<Boxed<Tail>>,
) -> Result<(), AllocError>
    ensures { OnOk result (out.new ≡ out.old ++ mentions.optional_mentions (option_map spec.tail_mentions tail.now)) }
{
    match tail {
        None => Ok(()),
        Some(tail) => put_tail(alloc, out, tail.get()),
    }
}

/// What an expression mentions.
#[cycle(mentions)]
pub fn put_expr(alloc: Global, out: &mut Items<Mention>, expr: &Expr) -> Result<(), AllocError>
    ensures { OnOk result (out.new ≡ out.old ++ mentions.expr_mentions expr.now) }
{
    put_conjunctions(alloc, out, expr.any.get().as_slice())
}

#[cycle(mentions)]
fn put_conjunction(
    alloc: Global,
    out: &mut Items<Mention>,
    conjunction: &Conjunction,
) -> Result<(), AllocError>
    ensures { OnOk result (out.new ≡ out.old ++ spec.conjunction_mentions conjunction.now) }
{
    put_negations(alloc, out, conjunction.every.as_slice())
}

#[cycle(mentions)]
fn put_negation(
    alloc: Global,
    out: &mut Items<Mention>,
    negation: &Negation,
) -> Result<(), AllocError>
    ensures { OnOk result (out.new ≡ out.old ++ spec.negation_mentions negation.now) }
{
    put_predicate(alloc, out, &negation.predicate)
}

#[cycle(mentions)]
fn put_predicate(
    alloc: Global,
    out: &mut Items<Mention>,
    predicate: &Predicate,
) -> Result<(), AllocError>
    ensures { OnOk result (out.new ≡ out.old ++ spec.predicate_mentions predicate.now) }
{
    put_sum(alloc, out, &predicate.tested)?;
    put_optional_tail(alloc, out, &predicate.tail)
}

#[cycle(mentions)]
fn put_tail(alloc: Global, out: &mut Items<Mention>, tail: &Tail) -> Result<(), AllocError>
    ensures { OnOk result (out.new ≡ out.old ++ spec.tail_mentions tail.now) }
{
    match tail {
        Tail::Compare { with, .. } => put_sum(alloc, out, with),
        Tail::IsNull { .. } => Ok(()),
        Tail::Between { low, high, .. } => {
            put_sum(alloc, out, low)?;
            put_sum(alloc, out, high)
        }
        Tail::InQuery { query, .. } => put_query(alloc, out, query),
        Tail::InList { list, .. } => put_exprs(alloc, out, list.as_slice()),
        Tail::Like { pattern, .. } => put_sum(alloc, out, pattern),
    }
}

#[cycle(mentions)]
fn put_sum(alloc: Global, out: &mut Items<Mention>, sum: &Sum) -> Result<(), AllocError>
    ensures { OnOk result (out.new ≡ out.old ++ spec.sum_mentions sum.now) }
{
    put_term(alloc, out, &sum.first)?;
    put_added_terms(alloc, out, sum.others.as_slice())
}

#[cycle(mentions)]
fn put_added(alloc: Global, out: &mut Items<Mention>, added: &Added) -> Result<(), AllocError>
    ensures { OnOk result (out.new ≡ out.old ++ spec.added_mentions added.now) }
{
    put_term(alloc, out, &added.term)
}

#[cycle(mentions)]
fn put_term(alloc: Global, out: &mut Items<Mention>, term: &Term) -> Result<(), AllocError>
    ensures { OnOk result (out.new ≡ out.old ++ spec.term_mentions term.now) }
{
    put_factor(alloc, out, &term.first)?;
    put_multiplied_factors(alloc, out, term.others.as_slice())
}

#[cycle(mentions)]
fn put_multiplied(
    alloc: Global,
    out: &mut Items<Mention>,
    multiplied: &Multiplied,
) -> Result<(), AllocError>
    ensures { OnOk result (out.new ≡ out.old ++ spec.multiplied_mentions multiplied.now) }
{
    put_factor(alloc, out, &multiplied.factor)
}

#[cycle(mentions)]
fn put_factor(alloc: Global, out: &mut Items<Mention>, factor: &Factor) -> Result<(), AllocError>
    ensures { OnOk result (out.new ≡ out.old ++ spec.factor_mentions factor.now) }
{
    put_operand(alloc, out, &factor.operand)
}

#[cycle(mentions)]
fn put_operand(alloc: Global, out: &mut Items<Mention>, operand: &Operand) -> Result<(), AllocError>
    ensures { OnOk result (out.new ≡ out.old ++ spec.operand_mentions operand.now) }
{
    match operand {
        Operand::Literal(_) => Ok(()),
        Operand::Number(_) => Ok(()),
        Operand::True => Ok(()),
        Operand::False => Ok(()),
        Operand::Special(_) => Ok(()),
        Operand::Value => Ok(()),
        Operand::Reference(reference) => put_reference(out, reference),
        Operand::Call { routine, arguments } => {
            put_routine(out, routine)?;
            put_exprs(alloc, out, arguments.as_slice())
        }
        Operand::CountAll => Ok(()),
        Operand::Aggregate { argument, .. } => put_expr(alloc, out, argument),
        Operand::Case { arms, otherwise } => {
            put_arms(alloc, out, arms.as_slice())?;
            put_optional(alloc, out, otherwise)
        }
        Operand::Cast { operand, .. } => put_optional(alloc, out, operand),
        Operand::Exists(query) => put_query(alloc, out, query.get()),
        Operand::Subquery(query) => put_query(alloc, out, query.get()),
        Operand::Parenthesized(expr) => put_expr(alloc, out, expr),
    }
}

#[cycle(mentions)]
fn put_arm(alloc: Global, out: &mut Items<Mention>, arm: &Arm) -> Result<(), AllocError>
    ensures { OnOk result (out.new ≡ out.old ++ spec.arm_mentions arm.now) }
{
    put_expr(alloc, out, &arm.condition)?;
    put_expr(alloc, out, &arm.value)
}

/// What a query mentions.
#[cycle(mentions)]
pub fn put_query(alloc: Global, out: &mut Items<Mention>, query: &Query) -> Result<(), AllocError>
    ensures { OnOk result (out.new ≡ out.old ++ mentions.query_mentions query.now) }
{
    put_select(alloc, out, query.first.get())?;
    put_further_selects(alloc, out, query.others.get().as_slice())
}

#[cycle(mentions)]
fn put_further(alloc: Global, out: &mut Items<Mention>, further: &Further) -> Result<(), AllocError>
    ensures { OnOk result (out.new ≡ out.old ++ spec.further_mentions further.now) }
{
    put_select(alloc, out, &further.select)
}

#[cycle(mentions)]
fn put_select(alloc: Global, out: &mut Items<Mention>, select: &Select) -> Result<(), AllocError>
    ensures { OnOk result (out.new ≡ out.old ++ spec.select_mentions select.now) }
{
    let mut inside = Items::new(alloc);
    put_select_list(alloc, &mut inside, &select.list)?;
    put_chains(alloc, &mut inside, select.from.as_slice())?;
    put_optional(alloc, &mut inside, &select.filter)?;
    put_references(&mut inside, select.group_by.as_slice())?;
    put_closed(alloc, out, select.from.as_slice(), inside.as_slice())
}

#[cycle(mentions)]
fn put_select_list(
    alloc: Global,
    out: &mut Items<Mention>,
    select_list: &SelectList,
) -> Result<(), AllocError>
    ensures { OnOk result (out.new ≡ out.old ++ spec.select_list_mentions select_list.now) }
{
    match select_list {
        SelectList::Star => Ok(()),
        SelectList::Listed(all) => put_select_items(alloc, out, all.as_slice()),
    }
}

#[cycle(mentions)]
fn put_select_item(
    alloc: Global,
    out: &mut Items<Mention>,
    select_item: &SelectItem,
) -> Result<(), AllocError>
    ensures { OnOk result (out.new ≡ out.old ++ spec.select_item_mentions select_item.now) }
{
    match select_item {
        SelectItem::Expr { expr, .. } => put_expr(alloc, out, expr),
        SelectItem::QualifiedStar(_) => Ok(()),
    }
}

#[cycle(mentions)]
fn put_chain(alloc: Global, out: &mut Items<Mention>, chain: &Chain) -> Result<(), AllocError>
    ensures { OnOk result (out.new ≡ out.old ++ (spec.chain_mentions chain.now).1) }
{
    put_joins(alloc, out, chain.joins.as_slice())
}

#[cycle(mentions)]
fn put_join(alloc: Global, out: &mut Items<Mention>, join: &Join) -> Result<(), AllocError>
    ensures { OnOk result (out.new ≡ out.old ++ (spec.join_mentions join.now).1) }
{
    match join {
        Join::Inner { on, .. } => put_expr(alloc, out, on),
        Join::Cross(_) => Ok(()),
    }
}
