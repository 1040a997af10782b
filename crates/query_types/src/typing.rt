//! Types of resolved trees.
#![tactic(auto, using(crate::proofs::TypesEquations::typing, std::proofs::lemmas::Grind::common_steps))]

mod lists;

ghost use Rattle.std.specs.Prelude.{◌≡◌, IfOk, OnOk};
ghost use Rattle.type_rules.specs.TypeParts as part;
ghost use Rattle.query_types.specs.Types as spec;

use crate::tables::tables_of;
use lists::{
    chains_hold, holds, joins_hold, type_added_terms, type_arms, type_conjunctions, type_exprs,
    type_further_selects, type_multiplied_factors, type_negations, type_select_items,
};
use name_scopes::{Dictionary, Frame, Frames, Scope};
use sql_tree::{
    Arm, Chain, Conjunction, Expr, Factor, Items, Join, Negation, Operand, Predicate, Query,
    Select, SelectItem, SelectList, SqlType, Sum, Tail, Term,
};
use std::alloc::{AllocError, Global};
use type_rules::{
    aggregated, between, boolean, called, case_arms, cast_to, compared, guarded, like, listed,
    literal_type, logical, negated, number_type, selected_where, single, special_type, tested,
    there, type_reference, unless_negated, with_else,
};

/// The type of a resolved expression.
#[cycle(types)]
pub fn type_expr<D: Dictionary>(
    alloc: Global,
    dictionary: &D,
    scope: &Scope,
    frames: &mut Frames,
    expr: &Expr,
) -> Result<Option<SqlType>, AllocError>
    ensures answer { IfOk result (λ r. r ≡ spec.expr (D.known dictionary.now) scope.now expr.now frames.old) }
    ensures kept { OnOk result (frames.new ≡ frames.old) }
{
    Ok(logical(type_conjunctions(alloc, dictionary, scope, frames, expr.any.get().as_slice())?))
}

#[cycle(types)]
pub fn type_conjunction<D: Dictionary>(
    alloc: Global,
    dictionary: &D,
    scope: &Scope,
    frames: &mut Frames,
    conjunction: &Conjunction,
) -> Result<Option<SqlType>, AllocError>
    ensures answer { IfOk result (λ r. r ≡ spec.conjunction (D.known dictionary.now) scope.now conjunction.now frames.old) }
    ensures kept { OnOk result (frames.new ≡ frames.old) }
{
    Ok(logical(type_negations(
        alloc,
        dictionary,
        scope,
        frames,
        conjunction.every.as_slice(),
    )?))
}

#[cycle(types)]
pub fn type_negation<D: Dictionary>(
    alloc: Global,
    dictionary: &D,
    scope: &Scope,
    frames: &mut Frames,
    negation: &Negation,
) -> Result<Option<SqlType>, AllocError>
    ensures answer { IfOk result (λ r. r ≡ spec.negation (D.known dictionary.now) scope.now negation.now frames.old) }
    ensures kept { OnOk result (frames.new ≡ frames.old) }
{
    Ok(unless_negated(
        negation.negated,
        type_predicate(alloc, dictionary, scope, frames, &negation.predicate)?,
    ))
}

#[cycle(types)]
fn type_predicate<D: Dictionary>(
    alloc: Global,
    dictionary: &D,
    scope: &Scope,
    frames: &mut Frames,
    predicate: &Predicate,
) -> Result<Option<SqlType>, AllocError>
    ensures answer { IfOk result (λ r. r ≡ spec.predicate (D.known dictionary.now) scope.now predicate.now frames.old) }
    ensures kept { OnOk result (frames.new ≡ frames.old) }
{
    let tested = type_sum(alloc, dictionary, scope, frames, &predicate.tested)?;
    match &predicate.tail {
        None => Ok(tested),
        Some(tail) => type_tail(alloc, dictionary, scope, frames, tail.get(), tested),
    }
}

#[cycle(types)]
fn type_tail<D: Dictionary>(
    alloc: Global,
    dictionary: &D,
    scope: &Scope,
    frames: &mut Frames,
    tail: &Tail,
    left: Option<SqlType>,
) -> Result<Option<SqlType>, AllocError>
    ensures answer { IfOk result (λ r. r ≡ spec.tail (D.known dictionary.now) scope.now tail.now frames.old left) }
    ensures kept { OnOk result (frames.new ≡ frames.old) }
{
    match tail {
        Tail::Compare { with, .. } => Ok(compared(
            left,
            type_sum(alloc, dictionary, scope, frames, with)?,
        )),
        Tail::IsNull { .. } => Ok(tested(left)),
        Tail::Between { low, high, .. } => {
            let low = type_sum(alloc, dictionary, scope, frames, low)?;
            let high = type_sum(alloc, dictionary, scope, frames, high)?;
            Ok(between(left, low, high))
        }
        Tail::InQuery { query, .. } => Ok(compared(
            left,
            single(type_query(alloc, dictionary, scope, frames, query)?),
        )),
        Tail::InList { list, .. } => Ok(listed(
            left,
            type_exprs(alloc, dictionary, scope, frames, list.as_slice())?,
        )),
        Tail::Like { pattern, .. } => Ok(like(
            left,
            type_sum(alloc, dictionary, scope, frames, pattern)?,
        )),
    }
}

#[cycle(types)]
fn type_sum<D: Dictionary>(
    alloc: Global,
    dictionary: &D,
    scope: &Scope,
    frames: &mut Frames,
    sum: &Sum,
) -> Result<Option<SqlType>, AllocError>
    ensures answer { IfOk result (λ r. r ≡ spec.sum (D.known dictionary.now) scope.now sum.now frames.old) }
    ensures kept { OnOk result (frames.new ≡ frames.old) }
{
    let first = type_term(alloc, dictionary, scope, frames, &sum.first)?;
    type_added_terms(
        alloc,
        dictionary,
        scope,
        frames,
        first,
        sum.others.as_slice(),
    )
}

#[cycle(types)]
pub fn type_term<D: Dictionary>(
    alloc: Global,
    dictionary: &D,
    scope: &Scope,
    frames: &mut Frames,
    term: &Term,
) -> Result<Option<SqlType>, AllocError>
    ensures answer { IfOk result (λ r. r ≡ spec.term (D.known dictionary.now) scope.now term.now frames.old) }
    ensures kept { OnOk result (frames.new ≡ frames.old) }
{
    let first = type_factor(alloc, dictionary, scope, frames, &term.first)?;
    type_multiplied_factors(
        alloc,
        dictionary,
        scope,
        frames,
        first,
        term.others.as_slice(),
    )
}

#[cycle(types)]
pub fn type_factor<D: Dictionary>(
    alloc: Global,
    dictionary: &D,
    scope: &Scope,
    frames: &mut Frames,
    factor: &Factor,
) -> Result<Option<SqlType>, AllocError>
    ensures answer { IfOk result (λ r. r ≡ spec.factor (D.known dictionary.now) scope.now factor.now frames.old) }
    ensures kept { OnOk result (frames.new ≡ frames.old) }
{
    Ok(negated(
        factor.minus,
        type_operand(alloc, dictionary, scope, frames, &factor.operand)?,
    ))
}

#[cycle(types)]
fn type_operand<D: Dictionary>(
    alloc: Global,
    dictionary: &D,
    scope: &Scope,
    frames: &mut Frames,
    operand: &Operand,
) -> Result<Option<SqlType>, AllocError>
    ensures answer { IfOk result (λ r. r ≡ spec.operand (D.known dictionary.now) scope.now operand.now frames.old) }
    ensures kept { OnOk result (frames.new ≡ frames.old) }
{
    match operand {
        Operand::Literal(text) => Ok(Some(literal_type(text.bytes()))),
        Operand::Number(text) => Ok(Some(number_type(text.bytes()))),
        Operand::True => Ok(Some(SqlType::Boolean)),
        Operand::False => Ok(Some(SqlType::Boolean)),
        Operand::Special(special) => Ok(Some(special_type(*special))),
        Operand::Value => Ok(scope.value),
        Operand::Reference(reference) => Ok(type_reference(dictionary, scope, frames, reference)),
        Operand::Call { routine, arguments } => {
            let sorts = type_exprs(alloc, dictionary, scope, frames, arguments.as_slice())?;
            called(dictionary, scope, routine, sorts)
        }
        Operand::CountAll => Ok(Some(SqlType::Bigint)),
        Operand::Aggregate { function, argument } => {
            Ok(aggregated(
                *function,
                type_expr(alloc, dictionary, scope, frames, argument)?,
            ))
        }
        Operand::Case { arms, otherwise } => {
            let arms = case_arms(type_arms(alloc, dictionary, scope, frames, arms.as_slice())?);
            match otherwise {
                None => Ok(arms),
                Some(otherwise) => Ok(with_else(
                    arms,
                    type_expr(alloc, dictionary, scope, frames, otherwise)?,
                )),
            }
        }
        Operand::Cast { operand, sort } => match operand {
            None => Ok(Some(*sort)),
            Some(operand) => Ok(cast_to(
                type_expr(alloc, dictionary, scope, frames, operand)?,
                *sort,
            )),
        },
        Operand::Exists(query) => Ok(there(type_query(
            alloc,
            dictionary,
            scope,
            frames,
            query.get(),
        )?)),
        Operand::Subquery(query) => Ok(single(type_query(
            alloc,
            dictionary,
            scope,
            frames,
            query.get(),
        )?)),
        Operand::Parenthesized(expr) => type_expr(alloc, dictionary, scope, frames, expr),
    }
}

#[cycle(types)]
pub fn type_arm<D: Dictionary>(
    alloc: Global,
    dictionary: &D,
    scope: &Scope,
    frames: &mut Frames,
    arm: &Arm,
) -> Result<Option<SqlType>, AllocError>
    ensures answer { IfOk result (λ r. r ≡ spec.arm (D.known dictionary.now) scope.now arm.now frames.old) }
    ensures kept { OnOk result (frames.new ≡ frames.old) }
{
    let condition = type_expr(alloc, dictionary, scope, frames, &arm.condition)?;
    let value = type_expr(alloc, dictionary, scope, frames, &arm.value)?;
    Ok(guarded(condition, value))
}

/// The types of the columns of a resolved query.
#[cycle(types)]
pub fn type_query<D: Dictionary>(
    alloc: Global,
    dictionary: &D,
    scope: &Scope,
    frames: &mut Frames,
    query: &Query,
) -> Result<Option<Items<SqlType>>, AllocError>
    ensures answer { IfOk result (λ r. r ≡ spec.query (D.known dictionary.now) scope.now query.now frames.old) }
    ensures kept { OnOk result (frames.new ≡ frames.old) }
{
    match type_select(alloc, dictionary, scope, frames, query.first.get())? {
        None => Ok(None),
        Some(first) => type_further_selects(
            alloc,
            dictionary,
            scope,
            frames,
            first,
            query.others.get().as_slice(),
        ),
    }
}

#[cycle(types)]
pub fn type_select<D: Dictionary>(
    alloc: Global,
    dictionary: &D,
    scope: &Scope,
    frames: &mut Frames,
    select: &Select,
) -> Result<Option<Items<SqlType>>, AllocError>
    ensures answer { IfOk result (λ r. r ≡ spec.select (D.known dictionary.now) scope.now select.now frames.old) }
    ensures kept { OnOk result (frames.new ≡ frames.old) }
{
    let tables = tables_of(alloc, dictionary, scope, select.from.as_slice())?;
    frames.push(Frame { skip: 0, tables })?;
    let from = chains_hold(alloc, dictionary, scope, frames, select.from.as_slice())?;
    let filter = holds(alloc, dictionary, scope, frames, &select.filter)?;
    let sorts = type_select_list(alloc, dictionary, scope, frames, &select.list)?;
    frames.pop();
    Ok(selected_where(from, filter, sorts))
}

#[cycle(types)]
fn type_select_list<D: Dictionary>(
    alloc: Global,
    dictionary: &D,
    scope: &Scope,
    frames: &mut Frames,
    select_list: &SelectList,
) -> Result<Option<Items<SqlType>>, AllocError>
    ensures answer { IfOk result (λ r. r ≡ spec.select_list (D.known dictionary.now) scope.now select_list.now frames.old) }
    ensures kept { OnOk result (frames.new ≡ frames.old) }
{
    match select_list {
        SelectList::Star => Ok(None),
        SelectList::Listed(all) => type_select_items(
            alloc,
            dictionary,
            scope,
            frames,
            all.as_slice(),
        ),
    }
}

#[cycle(types)]
pub fn type_select_item<D: Dictionary>(
    alloc: Global,
    dictionary: &D,
    scope: &Scope,
    frames: &mut Frames,
    select_item: &SelectItem,
) -> Result<Option<SqlType>, AllocError>
    ensures answer { IfOk result (λ r. r ≡ spec.select_item (D.known dictionary.now) scope.now select_item.now frames.old) }
    ensures kept { OnOk result (frames.new ≡ frames.old) }
{
    match select_item {
        SelectItem::Expr { expr, .. } => type_expr(alloc, dictionary, scope, frames, expr),
        SelectItem::QualifiedStar(_) => Ok(None),
    }
}

#[cycle(types)]
pub fn join_holds<D: Dictionary>(
    alloc: Global,
    dictionary: &D,
    scope: &Scope,
    frames: &mut Frames,
    join: &Join,
) -> Result<bool, AllocError>
    ensures answer { IfOk result (λ r. r ≡ (spec.join (D.known dictionary.now) scope.now join.now).1 frames.old) }
    ensures kept { OnOk result (frames.new ≡ frames.old) }
{
    match join {
        Join::Inner { on, .. } => Ok(boolean(type_expr(alloc, dictionary, scope, frames, on)?)),
        Join::Cross(_) => Ok(true),
    }
}

#[cycle(types)]
pub fn chain_holds<D: Dictionary>(
    alloc: Global,
    dictionary: &D,
    scope: &Scope,
    frames: &mut Frames,
    chain: &Chain,
) -> Result<bool, AllocError>
    ensures answer { IfOk result (λ r. r ≡ (spec.chain (D.known dictionary.now) scope.now chain.now).1 frames.old) }
    ensures kept { OnOk result (frames.new ≡ frames.old) }
{
    joins_hold(alloc, dictionary, scope, frames, chain.joins.as_slice())
}
