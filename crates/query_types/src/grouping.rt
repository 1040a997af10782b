//! Aggregates and GROUP BY: where an aggregate may stand, and what stands outside of aggregates.
#![tactic(auto, using(crate::proofs::GroupingEquations::grouping, std::proofs::lemmas::Grind::common_steps))]

ghost use Rattle.std.specs.Prelude.{◌≡◌, map, option_map, IfOk};
ghost use Rattle.query_types.specs.Aggregates as part;
ghost use Rattle.query_types.specs.Grouping as spec;

use crate::aggregates::{Grouping, aggregated, both, nothing, referred, settled};
use sql_tree::{
    Added, Arm, Boxed, Chain, Conjunction, Expr, Factor, Further, Join, Multiplied, Negation,
    Operand, Predicate, Query, Select, SelectItem, SelectList, Sum, Tail, Term,
};
use std::alloc::{AllocError, Global};

#[cycle(grouping)]
fn group_conjunctions(alloc: Global, all: &[Conjunction]) -> Result<Grouping, AllocError>
    ensures { IfOk result (λ r. r ≡ part.join_all part.nothing (map spec.conjunction all.now)) }
{
    let mut out = nothing(alloc);
    for one in all {
        out = both(out, group_conjunction(alloc, one)?)?;
    }
    Ok(out)
}

#[cycle(grouping)]
fn group_negations(alloc: Global, all: &[Negation]) -> Result<Grouping, AllocError>
    ensures { IfOk result (λ r. r ≡ part.join_all part.nothing (map spec.negation all.now)) }
{
    let mut out = nothing(alloc);
    for one in all {
        out = both(out, group_negation(alloc, one)?)?;
    }
    Ok(out)
}

#[cycle(grouping)]
fn group_added_terms(alloc: Global, all: &[Added]) -> Result<Grouping, AllocError>
    ensures { IfOk result (λ r. r ≡ part.join_all part.nothing (map spec.added all.now)) }
{
    let mut out = nothing(alloc);
    for one in all {
        out = both(out, group_added(alloc, one)?)?;
    }
    Ok(out)
}

#[cycle(grouping)]
fn group_multiplied_factors(alloc: Global, all: &[Multiplied]) -> Result<Grouping, AllocError>
    ensures { IfOk result (λ r. r ≡ part.join_all part.nothing (map spec.multiplied all.now)) }
{
    let mut out = nothing(alloc);
    for one in all {
        out = both(out, group_multiplied(alloc, one)?)?;
    }
    Ok(out)
}

#[cycle(grouping)]
fn group_exprs(alloc: Global, all: &[Expr]) -> Result<Grouping, AllocError>
    ensures { IfOk result (λ r. r ≡ part.join_all part.nothing (map spec.expr all.now)) }
{
    let mut out = nothing(alloc);
    for one in all {
        out = both(out, group_expr(alloc, one)?)?;
    }
    Ok(out)
}

#[cycle(grouping)]
fn group_arms(alloc: Global, all: &[Arm]) -> Result<Grouping, AllocError>
    ensures { IfOk result (λ r. r ≡ part.join_all part.nothing (map spec.arm all.now)) }
{
    let mut out = nothing(alloc);
    for one in all {
        out = both(out, group_arm(alloc, one)?)?;
    }
    Ok(out)
}

#[cycle(grouping)]
fn group_further_selects(alloc: Global, all: &[Further]) -> Result<Grouping, AllocError>
    ensures { IfOk result (λ r. r ≡ part.join_all part.nothing (map spec.further all.now)) }
{
    let mut out = nothing(alloc);
    for one in all {
        out = both(out, group_further(alloc, one)?)?;
    }
    Ok(out)
}

#[cycle(grouping)]
fn group_select_items(alloc: Global, all: &[SelectItem]) -> Result<Grouping, AllocError>
    ensures { IfOk result (λ r. r ≡ part.join_all part.nothing (map spec.select_item all.now)) }
{
    let mut out = nothing(alloc);
    for one in all {
        out = both(out, group_select_item(alloc, one)?)?;
    }
    Ok(out)
}

#[cycle(grouping)]
fn group_chains(alloc: Global, all: &[Chain]) -> Result<Grouping, AllocError>
    ensures { IfOk result (λ r. r ≡ part.join_all part.nothing (map spec.chain all.now)) }
{
    let mut out = nothing(alloc);
    for one in all {
        out = both(out, group_chain(alloc, one)?)?;
    }
    Ok(out)
}

#[cycle(grouping)]
fn group_joins(alloc: Global, all: &[Join]) -> Result<Grouping, AllocError>
    ensures { IfOk result (λ r. r ≡ part.join_all part.nothing (map spec.join all.now)) }
{
    let mut out = nothing(alloc);
    for one in all {
        out = both(out, group_join(alloc, one)?)?;
    }
    Ok(out)
}

#[cycle(grouping)]
fn group_optional(alloc: Global, expr: &Option<Expr>) -> Result<Grouping, AllocError>
    ensures { IfOk result (λ r. r ≡ part.perhaps (option_map spec.expr expr.now)) }
{
    match expr {
        None => Ok(nothing(alloc)),
        Some(expr) => group_expr(alloc, expr),
    }
}

#[cycle(grouping)]
fn group_optional_tail(alloc: Global, tail: &Option<Boxed<Tail>>) -> Result<Grouping, AllocError>
    ensures { IfOk result (λ r. r ≡ part.perhaps (option_map spec.tail tail.now)) }
{
    match tail {
        None => Ok(nothing(alloc)),
        Some(tail) => group_tail(alloc, tail.get()),
    }
}

/// What stands outside of aggregates in an expression.
#[cycle(grouping)]
pub fn group_expr(alloc: Global, expr: &Expr) -> Result<Grouping, AllocError>
    ensures { IfOk result (λ r. r ≡ spec.expr expr.now) }
{
    group_conjunctions(alloc, expr.any.get().as_slice())
}

#[cycle(grouping)]
fn group_conjunction(alloc: Global, conjunction: &Conjunction) -> Result<Grouping, AllocError>
    ensures { IfOk result (λ r. r ≡ spec.conjunction conjunction.now) }
{
    group_negations(alloc, conjunction.every.as_slice())
}

#[cycle(grouping)]
fn group_negation(alloc: Global, negation: &Negation) -> Result<Grouping, AllocError>
    ensures { IfOk result (λ r. r ≡ spec.negation negation.now) }
{
    group_predicate(alloc, &negation.predicate)
}

#[cycle(grouping)]
fn group_predicate(alloc: Global, predicate: &Predicate) -> Result<Grouping, AllocError>
    ensures { IfOk result (λ r. r ≡ spec.predicate predicate.now) }
{
    let first = group_sum(alloc, &predicate.tested)?;
    both(first, group_optional_tail(alloc, &predicate.tail)?)
}

#[cycle(grouping)]
fn group_tail(alloc: Global, tail: &Tail) -> Result<Grouping, AllocError>
    ensures { IfOk result (λ r. r ≡ spec.tail tail.now) }
{
    match tail {
        Tail::Compare { with, .. } => group_sum(alloc, with),
        Tail::IsNull { .. } => Ok(nothing(alloc)),
        Tail::Between { low, high, .. } => {
            let low = group_sum(alloc, low)?;
            both(low, group_sum(alloc, high)?)
        }
        Tail::InQuery { query, .. } => group_query(alloc, query),
        Tail::InList { list, .. } => group_exprs(alloc, list.as_slice()),
        Tail::Like { pattern, .. } => group_sum(alloc, pattern),
    }
}

#[cycle(grouping)]
fn group_sum(alloc: Global, sum: &Sum) -> Result<Grouping, AllocError>
    ensures { IfOk result (λ r. r ≡ spec.sum sum.now) }
{
    let first = group_term(alloc, &sum.first)?;
    both(first, group_added_terms(alloc, sum.others.as_slice())?)
}

#[cycle(grouping)]
fn group_added(alloc: Global, added: &Added) -> Result<Grouping, AllocError>
    ensures { IfOk result (λ r. r ≡ spec.added added.now) }
{
    group_term(alloc, &added.term)
}

#[cycle(grouping)]
fn group_term(alloc: Global, term: &Term) -> Result<Grouping, AllocError>
    ensures { IfOk result (λ r. r ≡ spec.term term.now) }
{
    let first = group_factor(alloc, &term.first)?;
    both(
        first,
        group_multiplied_factors(alloc, term.others.as_slice())?,
    )
}

#[cycle(grouping)]
fn group_multiplied(alloc: Global, multiplied: &Multiplied) -> Result<Grouping, AllocError>
    ensures { IfOk result (λ r. r ≡ spec.multiplied multiplied.now) }
{
    group_factor(alloc, &multiplied.factor)
}

#[cycle(grouping)]
fn group_factor(alloc: Global, factor: &Factor) -> Result<Grouping, AllocError>
    ensures { IfOk result (λ r. r ≡ spec.factor factor.now) }
{
    group_operand(alloc, &factor.operand)
}

#[cycle(grouping)]
fn group_operand(alloc: Global, operand: &Operand) -> Result<Grouping, AllocError>
    ensures { IfOk result (λ r. r ≡ spec.operand operand.now) }
{
    match operand {
        Operand::Literal(_) => Ok(nothing(alloc)),
        Operand::Number(_) => Ok(nothing(alloc)),
        Operand::True => Ok(nothing(alloc)),
        Operand::False => Ok(nothing(alloc)),
        Operand::Special(_) => Ok(nothing(alloc)),
        Operand::Value => Ok(nothing(alloc)),
        Operand::Reference(reference) => referred(alloc, reference),
        Operand::Call { arguments, .. } => group_exprs(alloc, arguments.as_slice()),
        Operand::CountAll => Ok(aggregated(alloc, nothing(alloc))),
        Operand::Aggregate { argument, .. } => Ok(aggregated(alloc, group_expr(alloc, argument)?)),
        Operand::Case { arms, otherwise } => {
            let arms = group_arms(alloc, arms.as_slice())?;
            both(arms, group_optional(alloc, otherwise)?)
        }
        Operand::Cast { operand, .. } => group_optional(alloc, operand),
        Operand::Exists(query) => group_query(alloc, query.get()),
        Operand::Subquery(query) => group_query(alloc, query.get()),
        Operand::Parenthesized(expr) => group_expr(alloc, expr),
    }
}

#[cycle(grouping)]
fn group_arm(alloc: Global, arm: &Arm) -> Result<Grouping, AllocError>
    ensures { IfOk result (λ r. r ≡ spec.arm arm.now) }
{
    let first = group_expr(alloc, &arm.condition)?;
    both(first, group_expr(alloc, &arm.value)?)
}

/// What stands outside of aggregates in a query, as seen from outside of it.
#[cycle(grouping)]
pub fn group_query(alloc: Global, query: &Query) -> Result<Grouping, AllocError>
    ensures { IfOk result (λ r. r ≡ spec.query query.now) }
{
    let first = group_select(alloc, query.first.get())?;
    both(
        first,
        group_further_selects(alloc, query.others.get().as_slice())?,
    )
}

#[cycle(grouping)]
fn group_further(alloc: Global, further: &Further) -> Result<Grouping, AllocError>
    ensures { IfOk result (λ r. r ≡ spec.further further.now) }
{
    group_select(alloc, &further.select)
}

#[cycle(grouping)]
fn group_select(alloc: Global, select: &Select) -> Result<Grouping, AllocError>
    ensures { IfOk result (λ r. r ≡ spec.select select.now) }
{
    let from = group_chains(alloc, select.from.as_slice())?;
    let list = group_select_list(alloc, &select.list)?;
    let filter = group_optional(alloc, &select.filter)?;
    settled(alloc, from, list, filter, select.group_by.as_slice())
}

#[cycle(grouping)]
fn group_select_list(alloc: Global, select_list: &SelectList) -> Result<Grouping, AllocError>
    ensures { IfOk result (λ r. r ≡ spec.select_list select_list.now) }
{
    match select_list {
        SelectList::Star => Ok(nothing(alloc)),
        SelectList::Listed(all) => group_select_items(alloc, all.as_slice()),
    }
}

#[cycle(grouping)]
fn group_select_item(alloc: Global, select_item: &SelectItem) -> Result<Grouping, AllocError>
    ensures { IfOk result (λ r. r ≡ spec.select_item select_item.now) }
{
    match select_item {
        SelectItem::Expr { expr, .. } => group_expr(alloc, expr),
        SelectItem::QualifiedStar(_) => Ok(nothing(alloc)),
    }
}

#[cycle(grouping)]
fn group_chain(alloc: Global, chain: &Chain) -> Result<Grouping, AllocError>
    ensures { IfOk result (λ r. r ≡ spec.chain chain.now) }
{
    group_joins(alloc, chain.joins.as_slice())
}

#[cycle(grouping)]
fn group_join(alloc: Global, join: &Join) -> Result<Grouping, AllocError>
    ensures { IfOk result (λ r. r ≡ spec.join join.now) }
{
    match join {
        Join::Inner { on, .. } => group_expr(alloc, on),
        Join::Cross(_) => Ok(nothing(alloc)),
    }
}
