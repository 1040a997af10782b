//! The references of a tree, in reading order.
#![tactic(auto, using(crate::proofs::ReferenceEquations::referred, std::proofs::lemmas::Grind::common_steps))]

ghost use Rattle.std.specs.Prelude.{◌≡◌, ◌++◌, map, option_map, OnOk};
ghost use Rattle.cat_items.specs.Pieces as pieces;
ghost use Rattle.resolved_trees.specs.TreePieces as trees;
ghost use Rattle.own_columns.specs.References.{references_in};

use sql_tree::{
    Added, Arm, Boxed, Chain, Conjunction, Expr, Factor, Further, Items, Join, Multiplied,
    Negation, Operand, Predicate, Query, Reference, Select, SelectItem, SelectList, Sum, Tail,
    Term,
};
use std::alloc::AllocError;

#[cycle(references)]
fn put_conjunctions(out: &mut Items<Reference>, all: &[Conjunction]) -> Result<(), AllocError>
    ensures { OnOk result (out.new ≡ out.old ++ references_in (pieces.all_pieces (map trees.conjunction_pieces all.now))) }
{
    for one in all {
        put_conjunction(out, one)?;
    }
    Ok(())
}

#[cycle(references)]
fn put_negations(out: &mut Items<Reference>, all: &[Negation]) -> Result<(), AllocError>
    ensures { OnOk result (out.new ≡ out.old ++ references_in (pieces.all_pieces (map trees.negation_pieces all.now))) }
{
    for one in all {
        put_negation(out, one)?;
    }
    Ok(())
}

#[cycle(references)]
fn put_added_terms(out: &mut Items<Reference>, all: &[Added]) -> Result<(), AllocError>
    ensures { OnOk result (out.new ≡ out.old ++ references_in (pieces.all_pieces (map trees.added_pieces all.now))) }
{
    for one in all {
        put_added(out, one)?;
    }
    Ok(())
}

#[cycle(references)]
fn put_multiplied_factors(out: &mut Items<Reference>, all: &[Multiplied]) -> Result<(), AllocError>
    ensures { OnOk result (out.new ≡ out.old ++ references_in (pieces.all_pieces (map trees.multiplied_pieces all.now))) }
{
    for one in all {
        put_multiplied(out, one)?;
    }
    Ok(())
}

#[cycle(references)]
fn put_exprs(out: &mut Items<Reference>, all: &[Expr]) -> Result<(), AllocError>
    ensures { OnOk result (out.new ≡ out.old ++ references_in (pieces.all_pieces (map pieces.expr_pieces all.now))) }
{
    for one in all {
        put_expr(out, one)?;
    }
    Ok(())
}

#[cycle(references)]
fn put_arms(out: &mut Items<Reference>, all: &[Arm]) -> Result<(), AllocError>
    ensures { OnOk result (out.new ≡ out.old ++ references_in (pieces.all_pieces (map trees.arm_pieces all.now))) }
{
    for one in all {
        put_arm(out, one)?;
    }
    Ok(())
}

#[cycle(references)]
fn put_further_selects(out: &mut Items<Reference>, all: &[Further]) -> Result<(), AllocError>
    ensures { OnOk result (out.new ≡ out.old ++ references_in (pieces.all_pieces (map trees.further_pieces all.now))) }
{
    for one in all {
        put_further(out, one)?;
    }
    Ok(())
}

#[cycle(references)]
fn put_select_items(out: &mut Items<Reference>, all: &[SelectItem]) -> Result<(), AllocError>
    ensures { OnOk result (out.new ≡ out.old ++ references_in (pieces.all_pieces (map trees.select_item_pieces all.now))) }
{
    for one in all {
        put_select_item(out, one)?;
    }
    Ok(())
}

#[cycle(references)]
fn put_chains(out: &mut Items<Reference>, all: &[Chain]) -> Result<(), AllocError>
    ensures { OnOk result (out.new ≡ out.old ++ references_in (pieces.all_pieces (map trees.chain_pieces all.now))) }
{
    for one in all {
        put_chain(out, one)?;
    }
    Ok(())
}

#[cycle(references)]
fn put_joins(out: &mut Items<Reference>, all: &[Join]) -> Result<(), AllocError>
    ensures { OnOk result (out.new ≡ out.old ++ references_in (pieces.all_pieces (map trees.join_pieces all.now))) }
{
    for one in all {
        put_join(out, one)?;
    }
    Ok(())
}

#[cycle(references)]
fn put_optional(out: &mut Items<Reference>, expr: &Option<Expr>) -> Result<(), AllocError>
    ensures { OnOk result (out.new ≡ out.old ++ references_in (pieces.optional_pieces (option_map pieces.expr_pieces expr.now))) }
{
    match expr {
        None => Ok(()),
        Some(expr) => put_expr(out, expr),
    }
}

#[cycle(references)]
fn put_optional_tail(
    out: &mut Items<Reference>,
    tail: &Option<Boxed<Tail>>,
) -> Result<(), AllocError>
    ensures { OnOk result (out.new ≡ out.old ++ references_in (pieces.optional_pieces (option_map trees.tail_pieces tail.now))) }
{
    match tail {
        None => Ok(()),
        Some(tail) => put_tail(out, tail.get()),
    }
}

#[cycle(references)]
pub fn put_expr(out: &mut Items<Reference>, expr: &Expr) -> Result<(), AllocError>
    ensures { OnOk result (out.new ≡ out.old ++ references_in (pieces.expr_pieces expr.now)) }
{
    put_conjunctions(out, expr.any.get().as_slice())
}

#[cycle(references)]
fn put_conjunction(out: &mut Items<Reference>, conjunction: &Conjunction) -> Result<(), AllocError>
    ensures { OnOk result (out.new ≡ out.old ++ references_in (trees.conjunction_pieces conjunction.now)) }
{
    put_negations(out, conjunction.every.as_slice())
}

#[cycle(references)]
fn put_negation(out: &mut Items<Reference>, negation: &Negation) -> Result<(), AllocError>
    ensures { OnOk result (out.new ≡ out.old ++ references_in (trees.negation_pieces negation.now)) }
{
    put_predicate(out, &negation.predicate)
}

#[cycle(references)]
fn put_predicate(out: &mut Items<Reference>, predicate: &Predicate) -> Result<(), AllocError>
    ensures { OnOk result (out.new ≡ out.old ++ references_in (trees.predicate_pieces predicate.now)) }
{
    put_sum(out, &predicate.tested)?;
    put_optional_tail(out, &predicate.tail)
}

#[cycle(references)]
fn put_tail(out: &mut Items<Reference>, tail: &Tail) -> Result<(), AllocError>
    ensures { OnOk result (out.new ≡ out.old ++ references_in (trees.tail_pieces tail.now)) }
{
    match tail {
        Tail::Compare { with, .. } => put_sum(out, with),
        Tail::IsNull { .. } => Ok(()),
        Tail::Between { low, high, .. } => {
            put_sum(out, low)?;
            put_sum(out, high)
        }
        Tail::InQuery { query, .. } => put_query(out, query),
        Tail::InList { list, .. } => put_exprs(out, list.as_slice()),
        Tail::Like { pattern, .. } => put_sum(out, pattern),
    }
}

#[cycle(references)]
fn put_sum(out: &mut Items<Reference>, sum: &Sum) -> Result<(), AllocError>
    ensures { OnOk result (out.new ≡ out.old ++ references_in (trees.sum_pieces sum.now)) }
{
    put_term(out, &sum.first)?;
    put_added_terms(out, sum.others.as_slice())
}

#[cycle(references)]
fn put_added(out: &mut Items<Reference>, added: &Added) -> Result<(), AllocError>
    ensures { OnOk result (out.new ≡ out.old ++ references_in (trees.added_pieces added.now)) }
{
    put_term(out, &added.term)
}

#[cycle(references)]
fn put_term(out: &mut Items<Reference>, term: &Term) -> Result<(), AllocError>
    ensures { OnOk result (out.new ≡ out.old ++ references_in (trees.term_pieces term.now)) }
{
    put_factor(out, &term.first)?;
    put_multiplied_factors(out, term.others.as_slice())
}

#[cycle(references)]
fn put_multiplied(out: &mut Items<Reference>, multiplied: &Multiplied) -> Result<(), AllocError>
    ensures { OnOk result (out.new ≡ out.old ++ references_in (trees.multiplied_pieces multiplied.now)) }
{
    put_factor(out, &multiplied.factor)
}

#[cycle(references)]
fn put_factor(out: &mut Items<Reference>, factor: &Factor) -> Result<(), AllocError>
    ensures { OnOk result (out.new ≡ out.old ++ references_in (trees.factor_pieces factor.now)) }
{
    put_operand(out, &factor.operand)
}

#[cycle(references)]
fn put_operand(out: &mut Items<Reference>, operand: &Operand) -> Result<(), AllocError>
    ensures { OnOk result (out.new ≡ out.old ++ references_in (trees.operand_pieces operand.now)) }
{
    match operand {
        Operand::Literal(_) => Ok(()),
        Operand::Number(_) => Ok(()),
        Operand::True => Ok(()),
        Operand::False => Ok(()),
        Operand::Special(_) => Ok(()),
        Operand::Value => Ok(()),
        Operand::Reference(reference) => out.push(reference.copy()?),
        Operand::Call { arguments, .. } => put_exprs(out, arguments.as_slice()),
        Operand::CountAll => Ok(()),
        Operand::Aggregate { argument, .. } => put_expr(out, argument),
        Operand::Case { arms, otherwise } => {
            put_arms(out, arms.as_slice())?;
            put_optional(out, otherwise)
        }
        Operand::Cast { operand, .. } => put_optional(out, operand),
        Operand::Exists(query) => put_query(out, query.get()),
        Operand::Subquery(query) => put_query(out, query.get()),
        Operand::Parenthesized(expr) => put_expr(out, expr),
    }
}

#[cycle(references)]
fn put_arm(out: &mut Items<Reference>, arm: &Arm) -> Result<(), AllocError>
    ensures { OnOk result (out.new ≡ out.old ++ references_in (trees.arm_pieces arm.now)) }
{
    put_expr(out, &arm.condition)?;
    put_expr(out, &arm.value)
}

#[cycle(references)]
fn put_query(out: &mut Items<Reference>, query: &Query) -> Result<(), AllocError>
    ensures { OnOk result (out.new ≡ out.old ++ references_in (pieces.query_pieces query.now)) }
{
    put_select(out, query.first.get())?;
    put_further_selects(out, query.others.get().as_slice())
}

#[cycle(references)]
fn put_further(out: &mut Items<Reference>, further: &Further) -> Result<(), AllocError>
    ensures { OnOk result (out.new ≡ out.old ++ references_in (trees.further_pieces further.now)) }
{
    put_select(out, &further.select)
}

#[cycle(references)]
fn put_select(out: &mut Items<Reference>, select: &Select) -> Result<(), AllocError>
    ensures { OnOk result (out.new ≡ out.old ++ references_in (trees.select_pieces select.now)) }
{
    put_select_list(out, &select.list)?;
    put_chains(out, select.from.as_slice())?;
    put_optional(out, &select.filter)
}

#[cycle(references)]
fn put_select_list(out: &mut Items<Reference>, select_list: &SelectList) -> Result<(), AllocError>
    ensures { OnOk result (out.new ≡ out.old ++ references_in (trees.select_list_pieces select_list.now)) }
{
    match select_list {
        SelectList::Star => Ok(()),
        SelectList::Listed(items) => put_select_items(out, items.as_slice()),
    }
}

#[cycle(references)]
fn put_select_item(out: &mut Items<Reference>, select_item: &SelectItem) -> Result<(), AllocError>
    ensures { OnOk result (out.new ≡ out.old ++ references_in (trees.select_item_pieces select_item.now)) }
{
    match select_item {
        SelectItem::Expr { expr, .. } => put_expr(out, expr),
        SelectItem::QualifiedStar(_) => Ok(()),
    }
}

#[cycle(references)]
fn put_chain(out: &mut Items<Reference>, chain: &Chain) -> Result<(), AllocError>
    ensures { OnOk result (out.new ≡ out.old ++ references_in (trees.chain_pieces chain.now)) }
{
    put_joins(out, chain.joins.as_slice())
}

#[cycle(references)]
fn put_join(out: &mut Items<Reference>, join: &Join) -> Result<(), AllocError>
    ensures { OnOk result (out.new ≡ out.old ++ references_in (trees.join_pieces join.now)) }
{
    match join {
        Join::Inner { on, .. } => put_expr(out, on),
        Join::Cross(_) => Ok(()),
    }
}
