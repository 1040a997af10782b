//! The base of a plain view.
#![tactic(auto)]

ghost use Rattle.std.specs.Prelude.{◌≡◌, [], map, option_map, bytes_eq, IfOk};
ghost use Rattle.std.specs.List.{list_any};
ghost use Rattle.std.specs.Option.{option_copied};
ghost use Rattle.cat_items.specs.Plain.{HasBase, all_columns, base_of, reference_alone};
ghost use Rattle.cat_items.specs.Plain as plain;
ghost use Rattle.plain_views.specs.Alone as spec;
ghost use Rattle.plain_views.specs.Bases.{base_found, differ, only_table};

use crate::simple::simple_optional;
use sql_tree::{
    Chain, Conjunction, Expr, Factor, Items, Name, Negation, Object, ObjectName, Operand,
    Predicate, Query, Reference, Select, SelectItem, SelectList, Sum, Term,
};
use std::alloc::{AllocError, Global};

/// The table or view of a SELECT, and its column for each item.
#[derive(Drop)]
pub struct Found {
    pub table: Object,
    pub columns: Items<Name>,
}

/// The table or view that a view is plain on, and its column for each column of the view; `None` and no column where it isn't plain.
#[derive(Drop)]
pub struct PlainBase {
    pub base: Option<Object>,
    pub columns: Items<Name>,
}

/// The column of the first table of the own FROM.
#[tactic(auto, using(crate::proofs::Columns::cell_column))]
fn column_of_reference(reference: &Reference) -> Option<&Name>
    ensures { option_copied result ≡ (reference_alone reference.now).column }
{
    match reference {
        Reference::Unqualified(_) => None,
        Reference::Qualified { .. } => None,
        Reference::Cell { up, at, name, .. } => {
            if *up == 0 && *at == 0 {
                Some(name)
            } else {
                None
            }
        }
        Reference::Own { .. } => None,
        Reference::Param { .. } => None,
    }
}

#[tactic(auto, using(crate::proofs::BaseEquations::columns))]
fn column_of_operand(operand: &Operand) -> Option<&Name>
    ensures { option_copied result ≡ (spec.operand_base operand.now).column }
{
    match operand {
        Operand::Literal(_) => None,
        Operand::Number(_) => None,
        Operand::True => None,
        Operand::False => None,
        Operand::Special(_) => None,
        Operand::Value => None,
        Operand::Reference(reference) => column_of_reference(reference),
        Operand::Call { .. } => None,
        Operand::CountAll => None,
        Operand::Aggregate { .. } => None,
        Operand::Case { .. } => None,
        Operand::Cast { .. } => None,
        Operand::Exists(_) => None,
        Operand::Subquery(_) => None,
        Operand::Parenthesized(_) => None,
    }
}

#[tactic(auto, using(crate::proofs::BaseEquations::column_Factor))]
fn column_of_factor(factor: &Factor) -> Option<&Name>
    ensures { option_copied result ≡ (spec.factor_base factor.now).column }
{
    if factor.minus {
        None
    } else {
        column_of_operand(&factor.operand)
    }
}

#[tactic(auto, using(crate::proofs::BaseEquations::column_Term))]
fn column_of_term(term: &Term) -> Option<&Name>
    ensures { option_copied result ≡ (spec.term_base term.now).column }
{
    if term.others.len() == 0 {
        column_of_factor(&term.first)
    } else {
        None
    }
}

#[tactic(auto, using(crate::proofs::BaseEquations::column_Sum))]
fn column_of_sum(sum: &Sum) -> Option<&Name>
    ensures { option_copied result ≡ (spec.sum_base sum.now).column }
{
    if sum.others.len() == 0 {
        column_of_term(&sum.first)
    } else {
        None
    }
}

#[tactic(auto, using(crate::proofs::BaseEquations::column_Predicate))]
fn column_of_predicate(predicate: &Predicate) -> Option<&Name>
    ensures { option_copied result ≡ (spec.predicate_base predicate.now).column }
{
    match &predicate.tail {
        Some(_) => None,
        None => column_of_sum(&predicate.tested),
    }
}

#[tactic(auto, using(crate::proofs::BaseEquations::column_Negation))]
fn column_of_negation(negation: &Negation) -> Option<&Name>
    ensures { option_copied result ≡ (spec.negation_base negation.now).column }
{
    if negation.negated {
        None
    } else {
        column_of_predicate(&negation.predicate)
    }
}

#[tactic(auto, using(crate::proofs::BaseEquations::column_Conjunction))]
fn column_of_conjunction(conjunction: &Conjunction) -> Option<&Name>
    ensures { option_copied result ≡ (spec.conjunction_base conjunction.now).column }
{
    match conjunction.every.as_slice() {
        [negation] => column_of_negation(negation),
        _ => None,
    }
}

/// The column of the first table of the own FROM that an expression is, and no more.
#[tactic(auto, using(crate::proofs::BaseEquations::column_Expr))]
fn column_of_expr(expr: &Expr) -> Option<&Name>
    ensures { option_copied result ≡ (spec.expr_base expr.now).column }
{
    match expr.any.get().as_slice() {
        [conjunction] => column_of_conjunction(conjunction),
        _ => None,
    }
}

#[tactic(auto, using(crate::proofs::BaseEquations::item_bases))]
fn column_of_item(item: &SelectItem) -> Option<&Name>
    ensures { option_copied result ≡ spec.select_item_base item.now }
{
    match item {
        SelectItem::Expr { expr, .. } => column_of_expr(expr),
        SelectItem::QualifiedStar(_) => None,
    }
}

/// The columns that the items are, where each is one.
#[tactic(auto, using(crate::proofs::Columns::afters))]
fn columns_of_items(alloc: Global, items: &[SelectItem]) -> Result<Option<Items<Name>>, AllocError>
    ensures { IfOk result (λ r. r ≡ all_columns (map spec.select_item_base items.now)) }
{
    let mut out = Items::new(alloc);
    for item in items {
        match column_of_item(item) {
            None => return Ok(None),
            Some(name) => out.push(name.copy()?)?,
        }
    }
    Ok(Some(out))
}

#[tactic(auto, using(crate::proofs::BaseEquations::list_bases))]
fn columns_of_list(alloc: Global, list: &SelectList) -> Result<Option<Items<Name>>, AllocError>
    ensures { IfOk result (λ r. r ≡ spec.select_list_base list.now) }
{
    match list {
        SelectList::Star => Ok(None),
        SelectList::Listed(items) => columns_of_items(alloc, items.as_slice()),
    }
}

fn object_of(name: &ObjectName) -> Option<&Object>
    ensures { option_copied result ≡ plain.object_of name.now }
{
    match name {
        ObjectName::Qualified(object) => Some(object),
        ObjectName::Unqualified(_) => None,
    }
}

/// The table of a chain that has one.
#[tactic(auto, using(crate::proofs::BaseEquations::base_Chain))]
fn table_of_chain(chain: &Chain) -> Option<&Object>
    ensures { option_copied result ≡ spec.chain_base chain.now }
{
    if chain.joins.len() == 0 {
        object_of(&chain.first.table)
    } else {
        None
    }
}

fn table_of_from(from: &[Chain]) -> Option<&Object>
    ensures { option_copied result ≡ only_table (map spec.chain_base from.now) }
{
    match from {
        [] => None,
        [chain] => table_of_chain(chain),
        [_, _, ..] => None,
    }
}

#[tactic(auto, using(crate::proofs::BaseEquations::base_Select, crate::proofs::Columns::base_joined))]
fn base_of_select(alloc: Global, select: &Select) -> Result<Option<Found>, AllocError>
    ensures { IfOk result (λ r. option_map base_found r ≡ spec.select_base select.now) }
{
    if select.distinct || !simple_optional(&select.filter) || !select.group_by.is_empty() {
        return Ok(None);
    }
    match table_of_from(select.from.as_slice()) {
        None => Ok(None),
        Some(table) => match columns_of_list(alloc, &select.list)? {
            None => Ok(None),
            Some(columns) => Ok(Some(Found {
                table: table.copy()?,
                columns,
            })),
        },
    }
}

fn is_among(name: &Name, names: &[Name]) -> bool
    ensures { result ≡ list_any (bytes_eq name.now) names.now }
{
    for one in names {
        if name.bytes() == one.bytes() {
            return true;
        }
    }
    false
}

fn names_differ(names: &[Name]) -> bool
    ensures { result ≡ differ names.now }
{
    for at in 0..names.len() {
        if is_among(&names[at], &names[at + 1..]) {
            return false;
        }
    }
    true
}

#[tactic(auto, using(crate::proofs::BaseEquations::base_Query))]
fn found_in(alloc: Global, query: &Query) -> Result<Option<Found>, AllocError>
    ensures { IfOk result (λ r. option_map base_found r ≡ base_of query.now) }
{
    if query.others.get().len() == 0 {
        base_of_select(alloc, query.first.get())
    } else {
        Ok(None)
    }
}

fn not_plain(alloc: Global) -> PlainBase
    ensures { result ≡ record { base = None; columns = [] } }
{
    PlainBase {
        base: None,
        columns: Items::new(alloc),
    }
}

/// What a view with this query is plain on: where it is one SELECT without DISTINCT, GROUP BY, an aggregate or a subquery, with one
/// table or view in FROM, and each item is a column of it, none twice. `Err` is want of memory.
#[tactic(auto, using(crate::proofs::Plainness::has_none, crate::proofs::Plainness::has_plain, crate::proofs::Plainness::has_twice))]
pub fn plain_base(alloc: Global, query: &Query) -> Result<PlainBase, AllocError>
    ensures { IfOk result (λ r. HasBase (base_of query.now) r.base r.columns) }
{
    match found_in(alloc, query)? {
        None => Ok(not_plain(alloc)),
        Some(found) => {
            if names_differ(found.columns.as_slice()) {
                Ok(PlainBase {
                    base: Some(found.table),
                    columns: found.columns,
                })
            } else {
                Ok(not_plain(alloc))
            }
        }
    }
}
