//! Names of queries and expressions, in the order in which they are tried.
#![tactic(auto, using(crate::proofs::Equations::names, name_scopes::proofs::Tails::tails, std::proofs::lemmas::Grind::common_steps))]

mod lists;

ghost use Rattle.std.specs.Prelude.{◌≡◌, drop, OnOk};
ghost use Rattle.query_names.specs.Names as spec;
ghost use Rattle.name_scopes.specs.Outcomes.{Answers, Extends};

use crate::making::{
    enter, make_exists, make_expr, make_literal, make_number, make_query, make_select,
    make_subquery, open, resolve_references,
};
use lists::{
    resolve_added_terms, resolve_arms, resolve_chains, resolve_conjunctions, resolve_exprs,
    resolve_further_selects, resolve_joins, resolve_multiplied_factors, resolve_negations,
    resolve_optional, resolve_optional_tail, resolve_select_items,
};
use name_scopes::{
    Dictionary, Frame, Frames, ResolveError, Scope, make_item, resolve_function, resolve_reference,
    resolve_star, resolve_table_star,
};
use sql_tree::{
    Added, Arm, Chain, Conjunction, Expr, Factor, Further, Items, Join, Multiplied, Negation,
    ObjectName, Operand, Predicate, Query, Select, SelectItem, SelectList, Sum, Tail, Term,
};
use std::alloc::Global;

/// The names of an expression.
#[cycle(names)]
pub fn resolve_expr<D: Dictionary>(
    alloc: Global,
    dictionary: &D,
    scope: &Scope,
    frames: &mut Frames,
    expr: &Expr,
) -> Result<Expr, ResolveError>
    ensures answer { Answers (spec.expr (D.known dictionary.now) scope.now expr.now frames.old) result }
    ensures kept { OnOk result (frames.new ≡ frames.old) }
{
    let any = resolve_conjunctions(alloc, dictionary, scope, frames, expr.any.get().as_slice())?;
    make_expr(alloc, any)
}

#[cycle(names)]
pub fn resolve_conjunction<D: Dictionary>(
    alloc: Global,
    dictionary: &D,
    scope: &Scope,
    frames: &mut Frames,
    conjunction: &Conjunction,
) -> Result<Conjunction, ResolveError>
    ensures answer { Answers (spec.conjunction (D.known dictionary.now) scope.now conjunction.now frames.old) result }
    ensures kept { OnOk result (frames.new ≡ frames.old) }
{
    let every = resolve_negations(
        alloc,
        dictionary,
        scope,
        frames,
        conjunction.every.as_slice(),
    )?;
    Ok(Conjunction { every })
}

#[cycle(names)]
pub fn resolve_negation<D: Dictionary>(
    alloc: Global,
    dictionary: &D,
    scope: &Scope,
    frames: &mut Frames,
    negation: &Negation,
) -> Result<Negation, ResolveError>
    ensures answer { Answers (spec.negation (D.known dictionary.now) scope.now negation.now frames.old) result }
    ensures kept { OnOk result (frames.new ≡ frames.old) }
{
    let predicate = resolve_predicate(alloc, dictionary, scope, frames, &negation.predicate)?;
    Ok(Negation {
        negated: negation.negated,
        predicate,
    })
}

#[cycle(names)]
fn resolve_predicate<D: Dictionary>(
    alloc: Global,
    dictionary: &D,
    scope: &Scope,
    frames: &mut Frames,
    predicate: &Predicate,
) -> Result<Predicate, ResolveError>
    ensures answer { Answers (spec.predicate (D.known dictionary.now) scope.now predicate.now frames.old) result }
    ensures kept { OnOk result (frames.new ≡ frames.old) }
{
    let tested = resolve_sum(alloc, dictionary, scope, frames, &predicate.tested)?;
    let tail = resolve_optional_tail(alloc, dictionary, scope, frames, &predicate.tail)?;
    Ok(Predicate { tested, tail })
}

#[cycle(names)]
pub fn resolve_tail<D: Dictionary>(
    alloc: Global,
    dictionary: &D,
    scope: &Scope,
    frames: &mut Frames,
    tail: &Tail,
) -> Result<Tail, ResolveError>
    ensures answer { Answers (spec.tail (D.known dictionary.now) scope.now tail.now frames.old) result }
    ensures kept { OnOk result (frames.new ≡ frames.old) }
{
    match tail {
        Tail::Compare { by, with } => {
            let with = resolve_sum(alloc, dictionary, scope, frames, with)?;
            Ok(Tail::Compare { by: *by, with })
        }
        Tail::IsNull { negated } => Ok(Tail::IsNull { negated: *negated }),
        Tail::Between { negated, low, high } => {
            let low = resolve_sum(alloc, dictionary, scope, frames, low)?;
            let high = resolve_sum(alloc, dictionary, scope, frames, high)?;
            Ok(Tail::Between {
                negated: *negated,
                low,
                high,
            })
        }
        Tail::InQuery { negated, query } => {
            let query = resolve_query(alloc, dictionary, scope, frames, query)?;
            Ok(Tail::InQuery {
                negated: *negated,
                query,
            })
        }
        Tail::InList { negated, list } => {
            let list = resolve_exprs(alloc, dictionary, scope, frames, list.as_slice())?;
            Ok(Tail::InList {
                negated: *negated,
                list,
            })
        }
        Tail::Like { negated, pattern } => {
            let pattern = resolve_sum(alloc, dictionary, scope, frames, pattern)?;
            Ok(Tail::Like {
                negated: *negated,
                pattern,
            })
        }
    }
}

#[cycle(names)]
fn resolve_sum<D: Dictionary>(
    alloc: Global,
    dictionary: &D,
    scope: &Scope,
    frames: &mut Frames,
    sum: &Sum,
) -> Result<Sum, ResolveError>
    ensures answer { Answers (spec.sum (D.known dictionary.now) scope.now sum.now frames.old) result }
    ensures kept { OnOk result (frames.new ≡ frames.old) }
{
    let first = resolve_term(alloc, dictionary, scope, frames, &sum.first)?;
    let others = resolve_added_terms(alloc, dictionary, scope, frames, sum.others.as_slice())?;
    Ok(Sum { first, others })
}

#[cycle(names)]
pub fn resolve_added<D: Dictionary>(
    alloc: Global,
    dictionary: &D,
    scope: &Scope,
    frames: &mut Frames,
    added: &Added,
) -> Result<Added, ResolveError>
    ensures answer { Answers (spec.added (D.known dictionary.now) scope.now added.now frames.old) result }
    ensures kept { OnOk result (frames.new ≡ frames.old) }
{
    let term = resolve_term(alloc, dictionary, scope, frames, &added.term)?;
    Ok(Added { by: added.by, term })
}

#[cycle(names)]
fn resolve_term<D: Dictionary>(
    alloc: Global,
    dictionary: &D,
    scope: &Scope,
    frames: &mut Frames,
    term: &Term,
) -> Result<Term, ResolveError>
    ensures answer { Answers (spec.term (D.known dictionary.now) scope.now term.now frames.old) result }
    ensures kept { OnOk result (frames.new ≡ frames.old) }
{
    let first = resolve_factor(alloc, dictionary, scope, frames, &term.first)?;
    let others = resolve_multiplied_factors(
        alloc,
        dictionary,
        scope,
        frames,
        term.others.as_slice(),
    )?;
    Ok(Term { first, others })
}

#[cycle(names)]
pub fn resolve_multiplied<D: Dictionary>(
    alloc: Global,
    dictionary: &D,
    scope: &Scope,
    frames: &mut Frames,
    multiplied: &Multiplied,
) -> Result<Multiplied, ResolveError>
    ensures answer { Answers (spec.multiplied (D.known dictionary.now) scope.now multiplied.now frames.old) result }
    ensures kept { OnOk result (frames.new ≡ frames.old) }
{
    let factor = resolve_factor(alloc, dictionary, scope, frames, &multiplied.factor)?;
    Ok(Multiplied {
        by: multiplied.by,
        factor,
    })
}

#[cycle(names)]
fn resolve_factor<D: Dictionary>(
    alloc: Global,
    dictionary: &D,
    scope: &Scope,
    frames: &mut Frames,
    factor: &Factor,
) -> Result<Factor, ResolveError>
    ensures answer { Answers (spec.factor (D.known dictionary.now) scope.now factor.now frames.old) result }
    ensures kept { OnOk result (frames.new ≡ frames.old) }
{
    let operand = resolve_operand(alloc, dictionary, scope, frames, &factor.operand)?;
    Ok(Factor {
        minus: factor.minus,
        operand,
    })
}

#[cycle(names)]
fn resolve_operand<D: Dictionary>(
    alloc: Global,
    dictionary: &D,
    scope: &Scope,
    frames: &mut Frames,
    operand: &Operand,
) -> Result<Operand, ResolveError>
    ensures answer { Answers (spec.operand (D.known dictionary.now) scope.now operand.now frames.old) result }
    ensures kept { OnOk result (frames.new ≡ frames.old) }
{
    match operand {
        Operand::Literal(text) => make_literal(text),
        Operand::Number(text) => make_number(text),
        Operand::True => Ok(Operand::True),
        Operand::False => Ok(Operand::False),
        Operand::Special(special) => Ok(Operand::Special(*special)),
        Operand::Value => Ok(Operand::Value),
        Operand::Reference(reference) => {
            Ok(Operand::Reference(resolve_reference(dictionary, scope, frames, reference)?))
        }
        Operand::Call { routine, arguments } => resolve_call(
            alloc,
            dictionary,
            scope,
            frames,
            routine,
            arguments.as_slice(),
        ),
        Operand::CountAll => Ok(Operand::CountAll),
        Operand::Aggregate { function, argument } => {
            let argument = resolve_expr(alloc, dictionary, scope, frames, argument)?;
            Ok(Operand::Aggregate {
                function: *function,
                argument,
            })
        }
        Operand::Case { arms, otherwise } => {
            let arms = resolve_arms(alloc, dictionary, scope, frames, arms.as_slice())?;
            let otherwise = resolve_optional(alloc, dictionary, scope, frames, otherwise)?;
            Ok(Operand::Case { arms, otherwise })
        }
        Operand::Cast { operand, sort } => {
            let operand = resolve_optional(alloc, dictionary, scope, frames, operand)?;
            Ok(Operand::Cast {
                operand,
                sort: *sort,
            })
        }
        Operand::Exists(query) => make_exists(
            alloc,
            resolve_query(alloc, dictionary, scope, frames, query.get())?,
        ),
        Operand::Subquery(query) => make_subquery(
            alloc,
            resolve_query(alloc, dictionary, scope, frames, query.get())?,
        ),
        Operand::Parenthesized(expr) => Ok(Operand::Parenthesized(resolve_expr(
            alloc, dictionary, scope, frames, expr,
        )?)),
    }
}

#[cycle(names)]
fn resolve_call<D: Dictionary>(
    alloc: Global,
    dictionary: &D,
    scope: &Scope,
    frames: &mut Frames,
    routine: &ObjectName,
    arguments: &[Expr],
) -> Result<Operand, ResolveError>
    ensures answer { Answers (spec.operand (D.known dictionary.now) scope.now (Operand.Call routine.now arguments.now) frames.old) result }
    ensures kept { OnOk result (frames.new ≡ frames.old) }
{
    let routine = resolve_function(dictionary, scope, routine)?;
    let arguments = resolve_exprs(alloc, dictionary, scope, frames, arguments)?;
    Ok(Operand::Call { routine, arguments })
}

#[cycle(names)]
pub fn resolve_arm<D: Dictionary>(
    alloc: Global,
    dictionary: &D,
    scope: &Scope,
    frames: &mut Frames,
    arm: &Arm,
) -> Result<Arm, ResolveError>
    ensures answer { Answers (spec.arm (D.known dictionary.now) scope.now arm.now frames.old) result }
    ensures kept { OnOk result (frames.new ≡ frames.old) }
{
    let condition = resolve_expr(alloc, dictionary, scope, frames, &arm.condition)?;
    let value = resolve_expr(alloc, dictionary, scope, frames, &arm.value)?;
    Ok(Arm { condition, value })
}

/// The names of a query.
#[cycle(names)]
pub fn resolve_query<D: Dictionary>(
    alloc: Global,
    dictionary: &D,
    scope: &Scope,
    frames: &mut Frames,
    query: &Query,
) -> Result<Query, ResolveError>
    ensures answer { Answers (spec.query (D.known dictionary.now) scope.now query.now frames.old) result }
    ensures kept { OnOk result (frames.new ≡ frames.old) }
{
    let first = resolve_select(alloc, dictionary, scope, frames, query.first.get())?;
    let others = resolve_further_selects(
        alloc,
        dictionary,
        scope,
        frames,
        query.others.get().as_slice(),
    )?;
    make_query(alloc, first, others)
}

#[cycle(names)]
pub fn resolve_further<D: Dictionary>(
    alloc: Global,
    dictionary: &D,
    scope: &Scope,
    frames: &mut Frames,
    further: &Further,
) -> Result<Further, ResolveError>
    ensures answer { Answers (spec.further (D.known dictionary.now) scope.now further.now frames.old) result }
    ensures kept { OnOk result (frames.new ≡ frames.old) }
{
    let select = resolve_select(alloc, dictionary, scope, frames, &further.select)?;
    Ok(Further {
        by: further.by,
        all: further.all,
        select,
    })
}

#[cycle(names)]
fn resolve_select<D: Dictionary>(
    alloc: Global,
    dictionary: &D,
    scope: &Scope,
    frames: &mut Frames,
    select: &Select,
) -> Result<Select, ResolveError>
    ensures answer { Answers (spec.select (D.known dictionary.now) scope.now select.now frames.old) result }
    ensures kept { OnOk result (frames.new ≡ frames.old) }
{
    let tables = Items::new(alloc);
    frames.push(Frame { skip: 0, tables })?;
    let from = resolve_chains(alloc, dictionary, scope, frames, select.from.as_slice())?;
    frames.whole()?;
    let list = resolve_select_list(alloc, dictionary, scope, frames, &select.list)?;
    let filter = resolve_optional(alloc, dictionary, scope, frames, &select.filter)?;
    let group_by = resolve_references(alloc, dictionary, scope, frames, select.group_by.as_slice());
    frames.pop();
    make_select(select.distinct, list, from, filter, group_by)
}

#[cycle(names)]
fn resolve_select_list<D: Dictionary>(
    alloc: Global,
    dictionary: &D,
    scope: &Scope,
    frames: &mut Frames,
    select_list: &SelectList,
) -> Result<SelectList, ResolveError>
    ensures answer { Answers (spec.select_list (D.known dictionary.now) scope.now select_list.now frames.old) result }
    ensures kept { OnOk result (frames.new ≡ frames.old) }
{
    match select_list {
        SelectList::Star => Ok(SelectList::Listed(resolve_star(alloc, dictionary, frames)?)),
        SelectList::Listed(all) => {
            Ok(SelectList::Listed(resolve_select_items(
                alloc,
                dictionary,
                scope,
                frames,
                all.as_slice(),
            )?))
        }
    }
}

#[cycle(names)]
pub fn resolve_select_item<D: Dictionary>(
    alloc: Global,
    dictionary: &D,
    scope: &Scope,
    frames: &mut Frames,
    position: usize,
    item: &SelectItem,
) -> Result<Items<SelectItem>, ResolveError>
    ensures answer { Answers (spec.select_item (D.known dictionary.now) scope.now item.now frames.old position) result }
    ensures kept { OnOk result (frames.new ≡ frames.old) }
{
    match item {
        SelectItem::Expr { expr, name } => {
            let expr = resolve_expr(alloc, dictionary, scope, frames, expr)?;
            make_item(alloc, position, name, expr)
        }
        SelectItem::QualifiedStar(qualifier) => {
            resolve_table_star(alloc, dictionary, frames, qualifier)
        }
    }
}

#[cycle(names)]
pub fn resolve_chain<D: Dictionary>(
    alloc: Global,
    dictionary: &D,
    scope: &Scope,
    frames: &mut Frames,
    chain: &Chain,
) -> Result<Chain, ResolveError>
    ensures answer { Extends (spec.chain (D.known dictionary.now) scope.now chain.now frames.old) result frames.new }
    ensures kept { OnOk result (drop 1 frames.new ≡ drop 1 frames.old) }
{
    let first = open(dictionary, scope, frames, &chain.first)?;
    let joins = resolve_joins(alloc, dictionary, scope, frames, chain.joins.as_slice())?;
    Ok(Chain { first, joins })
}

#[cycle(names)]
pub fn resolve_join<D: Dictionary>(
    alloc: Global,
    dictionary: &D,
    scope: &Scope,
    frames: &mut Frames,
    join: &Join,
) -> Result<Join, ResolveError>
    ensures answer { Extends (spec.join (D.known dictionary.now) scope.now join.now frames.old) result frames.new }
    ensures kept { OnOk result (drop 1 frames.new ≡ drop 1 frames.old) }
{
    match join {
        Join::Inner { table, on } => {
            let table = enter(dictionary, scope, frames, table)?;
            let on = resolve_expr(alloc, dictionary, scope, frames, on)?;
            Ok(Join::Inner { table, on })
        }
        Join::Cross(table) => Ok(Join::Cross(enter(dictionary, scope, frames, table)?)),
    }
}
