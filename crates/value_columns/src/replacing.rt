//! VALUE replaced in each part of a tree.

mod lists;

ghost use Rattle.std.specs.Prelude.{◌≡◌, IfOk};
ghost use Rattle.value_columns.specs.Replaced as spec;

use crate::making::{
    make_call, make_chain, make_exists, make_expr, make_item, make_query, make_select,
    make_subquery,
};
use lists::{
    replace_added_terms, replace_arms, replace_chains, replace_conjunctions, replace_exprs,
    replace_further_selects, replace_joins, replace_multiplied_factors, replace_negations,
    replace_optional, replace_optional_tail, replace_select_items,
};
use sql_names::{Name, Object, Reference};
use sql_tree::{
    Added, Arm, Chain, Conjunction, Expr, Factor, Further, Join, Multiplied, Negation, Operand,
    Predicate, Query, Select, SelectItem, SelectList, Sum, Tail, Term,
};
use std::alloc::{AllocError, Global};

#[cycle(replace)]
pub fn replace_join(alloc: Global, by: &Reference, node: &Join) -> Result<Join, AllocError>
    ensures { IfOk result (λ out. out ≡ spec.replaced_join by.now node.now) }
{
    match node {
        Join::Inner { table, on } => Ok(Join::Inner {
            table: table.copy()?,
            on: replace_expr(alloc, by, on)?,
        }),
        Join::Cross(table) => Ok(Join::Cross(table.copy()?)),
    }
}

#[cycle(replace)]
pub fn replace_operand(alloc: Global, by: &Reference, node: &Operand) -> Result<Operand, AllocError>
    ensures { IfOk result (λ out. out ≡ spec.replaced_operand by.now node.now) }
{
    match node {
        Operand::Literal(text) => Ok(Operand::Literal(text.copy()?)),
        Operand::Number(text) => Ok(Operand::Number(text.copy()?)),
        Operand::True => Ok(Operand::True),
        Operand::False => Ok(Operand::False),
        Operand::Special(special) => Ok(Operand::Special(*special)),
        Operand::Value => Ok(Operand::Reference(by.copy()?)),
        Operand::Reference(reference) => Ok(Operand::Reference(reference.copy()?)),
        Operand::Call { routine, arguments } => {
            let arguments = replace_exprs(alloc, by, arguments.as_slice())?;
            make_call(routine, arguments)
        }
        Operand::CountAll => Ok(Operand::CountAll),
        Operand::Aggregate { function, argument } => Ok(Operand::Aggregate {
            function: *function,
            argument: replace_expr(alloc, by, argument)?,
        }),
        Operand::Case { arms, otherwise } => {
            let arms = replace_arms(alloc, by, arms.as_slice())?;
            let otherwise = replace_optional(alloc, by, otherwise)?;
            Ok(Operand::Case { arms, otherwise })
        }
        Operand::Cast { operand, sort } => Ok(Operand::Cast {
            operand: replace_optional(alloc, by, operand)?,
            sort: *sort,
        }),
        Operand::Exists(query) => {
            let query = replace_query(alloc, by, query.get())?;
            make_exists(alloc, query)
        }
        Operand::Subquery(query) => {
            let query = replace_query(alloc, by, query.get())?;
            make_subquery(alloc, query)
        }
        Operand::Parenthesized(expr) => Ok(Operand::Parenthesized(replace_expr(alloc, by, expr)?)),
    }
}

#[cycle(replace)]
pub fn replace_select_item(
    alloc: Global,
    by: &Reference,
    node: &SelectItem,
) -> Result<SelectItem, AllocError>
    ensures { IfOk result (λ out. out ≡ spec.replaced_select_item by.now node.now) }
{
    match node {
        SelectItem::Expr { expr, name } => {
            let expr = replace_expr(alloc, by, expr)?;
            make_item(expr, name)
        }
        SelectItem::QualifiedStar(qualifier) => Ok(SelectItem::QualifiedStar(qualifier.copy()?)),
    }
}

#[cycle(replace)]
fn replace_select_list(
    alloc: Global,
    by: &Reference,
    node: &SelectList,
) -> Result<SelectList, AllocError>
    ensures { IfOk result (λ out. out ≡ spec.replaced_select_list by.now node.now) }
{
    match node {
        SelectList::Star => Ok(SelectList::Star),
        SelectList::Listed(items) => {
            Ok(SelectList::Listed(replace_select_items(alloc, by, items.as_slice())?))
        }
    }
}

#[cycle(replace)]
pub fn replace_tail(alloc: Global, by: &Reference, node: &Tail) -> Result<Tail, AllocError>
    ensures { IfOk result (λ out. out ≡ spec.replaced_tail by.now node.now) }
{
    match node {
        Tail::Compare {
            by: comparison,
            with,
        } => Ok(Tail::Compare {
            by: *comparison,
            with: replace_sum(alloc, by, with)?,
        }),
        Tail::IsNull { negated } => Ok(Tail::IsNull { negated: *negated }),
        Tail::Between { negated, low, high } => {
            let low = replace_sum(alloc, by, low)?;
            let high = replace_sum(alloc, by, high)?;
            Ok(Tail::Between {
                negated: *negated,
                low,
                high,
            })
        }
        Tail::InQuery { negated, query } => Ok(Tail::InQuery {
            negated: *negated,
            query: replace_query(alloc, by, query)?,
        }),
        Tail::InList { negated, list } => Ok(Tail::InList {
            negated: *negated,
            list: replace_exprs(alloc, by, list.as_slice())?,
        }),
        Tail::Like { negated, pattern } => Ok(Tail::Like {
            negated: *negated,
            pattern: replace_sum(alloc, by, pattern)?,
        }),
    }
}

#[cycle(replace)]
pub fn replace_added(alloc: Global, by: &Reference, node: &Added) -> Result<Added, AllocError>
    ensures { IfOk result (λ out. out ≡ spec.replaced_added by.now node.now) }
{
    Ok(Added {
        by: node.by,
        term: replace_term(alloc, by, &node.term)?,
    })
}

#[cycle(replace)]
pub fn replace_arm(alloc: Global, by: &Reference, node: &Arm) -> Result<Arm, AllocError>
    ensures { IfOk result (λ out. out ≡ spec.replaced_arm by.now node.now) }
{
    let condition = replace_expr(alloc, by, &node.condition)?;
    let value = replace_expr(alloc, by, &node.value)?;
    Ok(Arm { condition, value })
}

#[cycle(replace)]
pub fn replace_chain(alloc: Global, by: &Reference, node: &Chain) -> Result<Chain, AllocError>
    ensures { IfOk result (λ out. out ≡ spec.replaced_chain by.now node.now) }
{
    let joins = replace_joins(alloc, by, node.joins.as_slice())?;
    make_chain(&node.first, joins)
}

#[cycle(replace)]
pub fn replace_conjunction(
    alloc: Global,
    by: &Reference,
    node: &Conjunction,
) -> Result<Conjunction, AllocError>
    ensures { IfOk result (λ out. out ≡ spec.replaced_conjunction by.now node.now) }
{
    Ok(Conjunction {
        every: replace_negations(alloc, by, node.every.as_slice())?,
    })
}

#[cycle(replace)]
pub fn replace_expr(alloc: Global, by: &Reference, node: &Expr) -> Result<Expr, AllocError>
    ensures { IfOk result (λ out. out ≡ spec.replaced_expr by.now node.now) }
{
    let any = replace_conjunctions(alloc, by, node.any.get().as_slice())?;
    make_expr(alloc, any)
}

#[cycle(replace)]
pub fn replace_factor(alloc: Global, by: &Reference, node: &Factor) -> Result<Factor, AllocError>
    ensures { IfOk result (λ out. out ≡ spec.replaced_factor by.now node.now) }
{
    Ok(Factor {
        minus: node.minus,
        operand: replace_operand(alloc, by, &node.operand)?,
    })
}

#[cycle(replace)]
pub fn replace_further(alloc: Global, by: &Reference, node: &Further) -> Result<Further, AllocError>
    ensures { IfOk result (λ out. out ≡ spec.replaced_further by.now node.now) }
{
    Ok(Further {
        by: node.by,
        all: node.all,
        select: replace_select(alloc, by, &node.select)?,
    })
}

#[cycle(replace)]
pub fn replace_multiplied(
    alloc: Global,
    by: &Reference,
    node: &Multiplied,
) -> Result<Multiplied, AllocError>
    ensures { IfOk result (λ out. out ≡ spec.replaced_multiplied by.now node.now) }
{
    Ok(Multiplied {
        by: node.by,
        factor: replace_factor(alloc, by, &node.factor)?,
    })
}

#[cycle(replace)]
pub fn replace_negation(
    alloc: Global,
    by: &Reference,
    node: &Negation,
) -> Result<Negation, AllocError>
    ensures { IfOk result (λ out. out ≡ spec.replaced_negation by.now node.now) }
{
    Ok(Negation {
        negated: node.negated,
        predicate: replace_predicate(alloc, by, &node.predicate)?,
    })
}

#[cycle(replace)]
pub fn replace_predicate(
    alloc: Global,
    by: &Reference,
    node: &Predicate,
) -> Result<Predicate, AllocError>
    ensures { IfOk result (λ out. out ≡ spec.replaced_predicate by.now node.now) }
{
    let tested = replace_sum(alloc, by, &node.tested)?;
    let tail = replace_optional_tail(alloc, by, &node.tail)?;
    Ok(Predicate { tested, tail })
}

#[cycle(replace)]
fn replace_query(alloc: Global, by: &Reference, node: &Query) -> Result<Query, AllocError>
    ensures { IfOk result (λ out. out ≡ spec.replaced_query by.now node.now) }
{
    let first = replace_select(alloc, by, node.first.get())?;
    let others = replace_further_selects(alloc, by, node.others.get().as_slice())?;
    make_query(alloc, first, others)
}

#[cycle(replace)]
fn replace_select(alloc: Global, by: &Reference, node: &Select) -> Result<Select, AllocError>
    ensures { IfOk result (λ out. out ≡ spec.replaced_select by.now node.now) }
{
    let list = replace_select_list(alloc, by, &node.list)?;
    let from = replace_chains(alloc, by, node.from.as_slice())?;
    let filter = replace_optional(alloc, by, &node.filter)?;
    make_select(alloc, node, list, from, filter)
}

#[cycle(replace)]
pub fn replace_sum(alloc: Global, by: &Reference, node: &Sum) -> Result<Sum, AllocError>
    ensures { IfOk result (λ out. out ≡ spec.replaced_sum by.now node.now) }
{
    let first = replace_term(alloc, by, &node.first)?;
    let others = replace_added_terms(alloc, by, node.others.as_slice())?;
    Ok(Sum { first, others })
}

#[cycle(replace)]
pub fn replace_term(alloc: Global, by: &Reference, node: &Term) -> Result<Term, AllocError>
    ensures { IfOk result (λ out. out ≡ spec.replaced_term by.now node.now) }
{
    let first = replace_factor(alloc, by, &node.first)?;
    let others = replace_multiplied_factors(alloc, by, node.others.as_slice())?;
    Ok(Term { first, others })
}

/// The condition of a domain as one of a column of a table, which stands in each place of VALUE, at any depth and in subqueries too (SQL:2003
/// part 2, 11.30). All else stays. `Err` is want of memory.
pub fn replace_value(
    alloc: Global,
    expr: &Expr,
    table: &Object,
    column: &Name,
) -> Result<Expr, AllocError>
    ensures { IfOk result (λ out. out ≡ spec.with_column table.now column.now expr.now) }
{
    let by = Reference::Own {
        table: table.copy()?,
        name: column.copy()?,
    };
    replace_expr(alloc, &by, expr)
}
