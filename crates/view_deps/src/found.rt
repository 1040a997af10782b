//! The tables and views that a query or an expression names, at any depth. Which are found is a matter of time alone: what is looked up in
//! one is the same whether it was found or not.

use name_scopes::{Scope, full_name};
use sql_tree::{
    Chain, Expr, Items, Join, Object, Operand, Predicate, Query, Select, SelectItem, SelectList,
    Sum, TableReference, Tail, Term,
};
use std::alloc::AllocError;

/// Puts in the table or view that a FROM names.
fn put_table(
    scope: &Scope,
    found: &mut Items<Object>,
    table: &TableReference,
) -> Result<(), AllocError> {
    found.push(full_name(scope, &table.table)?)
}

#[cycle(tables)]
pub fn put_in_expr(
    scope: &Scope,
    found: &mut Items<Object>,
    expr: &Expr,
) -> Result<(), AllocError> {
    for conjunction in expr.any.get().as_slice() {
        for negation in conjunction.every.as_slice() {
            put_in_predicate(scope, found, &negation.predicate)?;
        }
    }
    Ok(())
}

#[cycle(tables)]
fn put_in_predicate(
    scope: &Scope,
    found: &mut Items<Object>,
    predicate: &Predicate,
) -> Result<(), AllocError> {
    put_in_sum(scope, found, &predicate.tested)?;
    match &predicate.tail {
        None => Ok(()),
        Some(tail) => put_in_tail(scope, found, tail.get()),
    }
}

#[cycle(tables)]
fn put_in_tail(scope: &Scope, found: &mut Items<Object>, tail: &Tail) -> Result<(), AllocError> {
    match tail {
        Tail::Compare { with, .. } => put_in_sum(scope, found, with),
        Tail::IsNull { .. } => Ok(()),
        Tail::Between { low, high, .. } => {
            put_in_sum(scope, found, low)?;
            put_in_sum(scope, found, high)
        }
        Tail::InQuery { query, .. } => put_in_query(scope, found, query),
        Tail::InList { list, .. } => put_in_all(scope, found, list.as_slice()),
        Tail::Like { pattern, .. } => put_in_sum(scope, found, pattern),
    }
}

#[cycle(tables)]
fn put_in_all(scope: &Scope, found: &mut Items<Object>, all: &[Expr]) -> Result<(), AllocError> {
    for expr in all {
        put_in_expr(scope, found, expr)?;
    }
    Ok(())
}

#[cycle(tables)]
fn put_in_sum(scope: &Scope, found: &mut Items<Object>, sum: &Sum) -> Result<(), AllocError> {
    put_in_term(scope, found, &sum.first)?;
    for added in sum.others.as_slice() {
        put_in_term(scope, found, &added.term)?;
    }
    Ok(())
}

#[cycle(tables)]
fn put_in_term(scope: &Scope, found: &mut Items<Object>, term: &Term) -> Result<(), AllocError> {
    put_in_operand(scope, found, &term.first.operand)?;
    for multiplied in term.others.as_slice() {
        put_in_operand(scope, found, &multiplied.factor.operand)?;
    }
    Ok(())
}

#[cycle(tables)]
fn put_in_operand(
    scope: &Scope,
    found: &mut Items<Object>,
    operand: &Operand,
) -> Result<(), AllocError> {
    match operand {
        Operand::Call { arguments, .. } => put_in_all(scope, found, arguments.as_slice()),
        Operand::Aggregate { argument, .. } => put_in_expr(scope, found, argument),
        Operand::Case { arms, otherwise } => {
            for arm in arms.as_slice() {
                put_in_expr(scope, found, &arm.condition)?;
                put_in_expr(scope, found, &arm.value)?;
            }
            put_in_optional(scope, found, otherwise)
        }
        Operand::Cast { operand, .. } => put_in_optional(scope, found, operand),
        Operand::Exists(query) => put_in_query(scope, found, query.get()),
        Operand::Subquery(query) => put_in_query(scope, found, query.get()),
        Operand::Parenthesized(expr) => put_in_expr(scope, found, expr),
        _ => Ok(()),
    }
}

#[cycle(tables)]
fn put_in_optional(
    scope: &Scope,
    found: &mut Items<Object>,
    expr: &Option<Expr>,
) -> Result<(), AllocError> {
    match expr {
        None => Ok(()),
        Some(expr) => put_in_expr(scope, found, expr),
    }
}

#[cycle(tables)]
pub fn put_in_query(
    scope: &Scope,
    found: &mut Items<Object>,
    query: &Query,
) -> Result<(), AllocError> {
    put_in_select(scope, found, query.first.get())?;
    for further in query.others.get().as_slice() {
        put_in_select(scope, found, &further.select)?;
    }
    Ok(())
}

#[cycle(tables)]
fn put_in_select(
    scope: &Scope,
    found: &mut Items<Object>,
    select: &Select,
) -> Result<(), AllocError> {
    if let SelectList::Listed(items) = &select.list {
        for item in items.as_slice() {
            if let SelectItem::Expr { expr, .. } = item {
                put_in_expr(scope, found, expr)?;
            }
        }
    }
    for chain in select.from.as_slice() {
        put_in_chain(scope, found, chain)?;
    }
    put_in_optional(scope, found, &select.filter)
}

#[cycle(tables)]
fn put_in_chain(scope: &Scope, found: &mut Items<Object>, chain: &Chain) -> Result<(), AllocError> {
    put_table(scope, found, &chain.first)?;
    for join in chain.joins.as_slice() {
        match join {
            Join::Inner { table, on } => {
                put_table(scope, found, table)?;
                put_in_expr(scope, found, on)?;
            }
            Join::Cross(table) => put_table(scope, found, table)?,
        }
    }
    Ok(())
}
