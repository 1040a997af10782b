//! The printed text of queries and expressions.
//!
//! Each function puts a text at the end of `out`. After `Err` nothing is said of what `out` has.
#![tactic(auto, using(crate::proofs::Equations::texts, std::proofs::lemmas::Grind::common_steps))]

ghost use Rattle.std.specs.Prelude.{◌≡◌, ◌++◌, [], OnOk, IfOk, map, codes, option_map};
ghost use Rattle.sql_spelling.specs.Texts.{reference_text, object_name_text};
ghost use Rattle.sql_text.specs.Printing as spec;

use sql_spelling::{
    put_alias, put_literal, put_minus, put_name, put_object_name, put_reference, put_special,
    put_table, put_type,
};
use sql_tree::{
    Added, Additive, Aggregate, Arm, Boxed, Chain, Comparison, Conjunction, Expr, Factor, Further,
    Join, Multiplicative, Multiplied, Negation, ObjectName, Operand, Predicate, Query, Reference,
    Select, SelectItem, SelectList, SetOperator, SqlType, Sum, TableReference, Tail, Term, Text,
};
use std::alloc::{AllocError, Global};

fn put_comparison(out: &mut Text, by: Comparison) -> Result<(), AllocError>
    ensures { OnOk result (out.new ≡ out.old ++ spec.comparison_text by) }
{
    match by {
        Comparison::Equal => out.push_all(b" = "),
        Comparison::NotEqual => out.push_all(b" <> "),
        Comparison::Less => out.push_all(b" < "),
        Comparison::LessOrEqual => out.push_all(b" <= "),
        Comparison::Greater => out.push_all(b" > "),
        Comparison::GreaterOrEqual => out.push_all(b" >= "),
    }
}

fn put_additive(out: &mut Text, by: Additive) -> Result<(), AllocError>
    ensures { OnOk result (out.new ≡ out.old ++ spec.additive_text by) }
{
    match by {
        Additive::Plus => out.push_all(b" + "),
        Additive::Minus => out.push_all(b" - "),
        Additive::Concatenation => out.push_all(b" || "),
    }
}

fn put_multiplicative(out: &mut Text, by: Multiplicative) -> Result<(), AllocError>
    ensures { OnOk result (out.new ≡ out.old ++ spec.multiplicative_text by) }
{
    match by {
        Multiplicative::Times => out.push_all(b" * "),
        Multiplicative::Divided => out.push_all(b" / "),
    }
}

fn put_aggregate(out: &mut Text, by: Aggregate) -> Result<(), AllocError>
    ensures { OnOk result (out.new ≡ out.old ++ spec.aggregate_text by) }
{
    match by {
        Aggregate::Count => out.push_all(b"COUNT("),
        Aggregate::Sum => out.push_all(b"SUM("),
        Aggregate::Min => out.push_all(b"MIN("),
        Aggregate::Max => out.push_all(b"MAX("),
        Aggregate::Avg => out.push_all(b"AVG("),
    }
}

fn put_operator(out: &mut Text, by: SetOperator, all: bool) -> Result<(), AllocError>
    ensures { OnOk result (out.new ≡ out.old ++ spec.operator_text by all) }
{
    match by {
        SetOperator::Union if all => out.push_all(b" UNION ALL "),
        SetOperator::Union => out.push_all(b" UNION "),
        SetOperator::Except if all => out.push_all(b" EXCEPT ALL "),
        SetOperator::Except => out.push_all(b" EXCEPT "),
    }
}

fn put_not(out: &mut Text, negated: bool) -> Result<(), AllocError>
    ensures { OnOk result (out.new ≡ out.old ++ spec.not_text negated) }
{
    if negated {
        out.push_all(b"NOT ")
    } else {
        Ok(())
    }
}

/// ` [NOT] word`
fn put_test(out: &mut Text, negated: bool, word: &[u8]) -> Result<(), AllocError>
    ensures { OnOk result (out.new ≡ out.old ++ codes " " ++ spec.not_text negated ++ word.now) }
{
    out.push_all(b" ")?;
    put_not(out, negated)?;
    out.push_all(word)
}

fn put_distinct(out: &mut Text, distinct: bool) -> Result<(), AllocError>
    ensures { OnOk result (out.new ≡ out.old ++ spec.distinct_text distinct) }
{
    if distinct {
        out.push_all(b"SELECT DISTINCT ")
    } else {
        out.push_all(b"SELECT ")
    }
}

fn put_group(out: &mut Text, all: &[Reference]) -> Result<(), AllocError>
    ensures { OnOk result (out.new ≡ out.old ++ spec.group_text (map reference_text all.now)) }
{
    if let [first, rest @ ..] = all {
        out.push_all(b" GROUP BY ")?;
        put_reference(out, first)?;
        for one in rest {
            out.push_all(b", ")?;
            put_reference(out, one)?;
        }
    }
    Ok(())
}

#[cycle(print)]
fn put_exprs(out: &mut Text, all: &[Expr]) -> Result<(), AllocError>
    ensures { OnOk result (out.new ≡ out.old ++ spec.separated (codes ", ") (map spec.expr_text all.now)) }
{
    if let [first, rest @ ..] = all {
        put_expr(out, first)?;
        for one in rest {
            out.push_all(b", ")?;
            put_expr(out, one)?;
        }
    }
    Ok(())
}

#[cycle(print)]
fn put_conjunctions(out: &mut Text, all: &[Conjunction]) -> Result<(), AllocError>
    ensures { OnOk result (out.new ≡ out.old ++ spec.separated (codes " OR ") (map spec.conjunction_text all.now)) }
{
    if let [first, rest @ ..] = all {
        put_conjunction(out, first)?;
        for one in rest {
            out.push_all(b" OR ")?;
            put_conjunction(out, one)?;
        }
    }
    Ok(())
}

#[cycle(print)]
fn put_negations(out: &mut Text, all: &[Negation]) -> Result<(), AllocError>
    ensures { OnOk result (out.new ≡ out.old ++ spec.separated (codes " AND ") (map spec.negation_text all.now)) }
{
    if let [first, rest @ ..] = all {
        put_negation(out, first)?;
        for one in rest {
            out.push_all(b" AND ")?;
            put_negation(out, one)?;
        }
    }
    Ok(())
}

#[cycle(print)]
fn put_select_items(out: &mut Text, all: &[SelectItem]) -> Result<(), AllocError>
    ensures { OnOk result (out.new ≡ out.old ++ spec.separated (codes ", ") (map spec.select_item_text all.now)) }
{
    if let [first, rest @ ..] = all {
        put_select_item(out, first)?;
        for one in rest {
            out.push_all(b", ")?;
            put_select_item(out, one)?;
        }
    }
    Ok(())
}

#[cycle(print)]
fn put_chains(out: &mut Text, all: &[Chain]) -> Result<(), AllocError>
    ensures { OnOk result (out.new ≡ out.old ++ spec.separated (codes ", ") (map spec.chain_text all.now)) }
{
    if let [first, rest @ ..] = all {
        put_chain(out, first)?;
        for one in rest {
            out.push_all(b", ")?;
            put_chain(out, one)?;
        }
    }
    Ok(())
}

#[cycle(print)]
fn put_added_terms(out: &mut Text, all: &[Added]) -> Result<(), AllocError>
    ensures { OnOk result (out.new ≡ out.old ++ spec.joined (map spec.added_text all.now)) }
{
    for one in all {
        put_added(out, one)?;
    }
    Ok(())
}

#[cycle(print)]
fn put_multiplied_factors(out: &mut Text, all: &[Multiplied]) -> Result<(), AllocError>
    ensures { OnOk result (out.new ≡ out.old ++ spec.joined (map spec.multiplied_text all.now)) }
{
    for one in all {
        put_multiplied(out, one)?;
    }
    Ok(())
}

#[cycle(print)]
fn put_arms(out: &mut Text, all: &[Arm]) -> Result<(), AllocError>
    ensures { OnOk result (out.new ≡ out.old ++ spec.joined (map spec.arm_text all.now)) }
{
    for one in all {
        put_arm(out, one)?;
    }
    Ok(())
}

#[cycle(print)]
fn put_further_selects(out: &mut Text, all: &[Further]) -> Result<(), AllocError>
    ensures { OnOk result (out.new ≡ out.old ++ spec.joined (map spec.further_text all.now)) }
{
    for one in all {
        put_further(out, one)?;
    }
    Ok(())
}

#[cycle(print)]
fn put_joins(out: &mut Text, all: &[Join]) -> Result<(), AllocError>
    ensures { OnOk result (out.new ≡ out.old ++ spec.joined (map spec.join_text all.now)) }
{
    for one in all {
        put_join(out, one)?;
    }
    Ok(())
}

/// A condition or a value.
#[cycle(print)]
pub fn put_expr(out: &mut Text, expr: &Expr) -> Result<(), AllocError>
    ensures { OnOk result (out.new ≡ out.old ++ spec.expr_text expr.now) }
{
    put_conjunctions(out, expr.any.get().as_slice())
}

#[cycle(print)]
fn put_conjunction(out: &mut Text, conjunction: &Conjunction) -> Result<(), AllocError>
    ensures { OnOk result (out.new ≡ out.old ++ spec.conjunction_text conjunction.now) }
{
    put_negations(out, conjunction.every.as_slice())
}

#[cycle(print)]
fn put_negation(out: &mut Text, negation: &Negation) -> Result<(), AllocError>
    ensures { OnOk result (out.new ≡ out.old ++ spec.negation_text negation.now) }
{
    put_not(out, negation.negated)?;
    put_predicate(out, &negation.predicate)
}

#[cycle(print)]
fn put_predicate(out: &mut Text, predicate: &Predicate) -> Result<(), AllocError>
    ensures { OnOk result (out.new ≡ out.old ++ spec.predicate_text predicate.now) }
{
    put_sum(out, &predicate.tested)?;
    put_optional_tail(out, &predicate.tail)
}

#[cycle(print)]
fn put_optional_tail(out: &mut Text, tail: &Option<Boxed<Tail>>) -> Result<(), AllocError>
    ensures { OnOk result (out.new ≡ out.old ++ spec.optional_text [] (option_map spec.tail_text tail.now)) }
{
    match tail {
        None => Ok(()),
        Some(tail) => put_tail(out, tail.get()),
    }
}

#[cycle(print)]
fn put_tail(out: &mut Text, tail: &Tail) -> Result<(), AllocError>
    ensures { OnOk result (out.new ≡ out.old ++ spec.tail_text tail.now) }
{
    match tail {
        Tail::Compare { by, with } => {
            put_comparison(out, *by)?;
            put_sum(out, with)
        }
        Tail::IsNull { negated } => {
            out.push_all(b" IS ")?;
            put_not(out, *negated)?;
            out.push_all(b"NULL")
        }
        Tail::Between { negated, low, high } => {
            put_test(out, *negated, b"BETWEEN ")?;
            put_sum(out, low)?;
            out.push_all(b" AND ")?;
            put_sum(out, high)
        }
        Tail::InQuery { negated, query } => {
            put_test(out, *negated, b"IN (")?;
            put_query(out, query)?;
            out.push_all(b")")
        }
        Tail::InList { negated, list } => {
            put_test(out, *negated, b"IN (")?;
            put_exprs(out, list.as_slice())?;
            out.push_all(b")")
        }
        Tail::Like { negated, pattern } => {
            put_test(out, *negated, b"LIKE ")?;
            put_sum(out, pattern)
        }
    }
}

#[cycle(print)]
fn put_sum(out: &mut Text, sum: &Sum) -> Result<(), AllocError>
    ensures { OnOk result (out.new ≡ out.old ++ spec.sum_text sum.now) }
{
    put_term(out, &sum.first)?;
    put_added_terms(out, sum.others.as_slice())
}

#[cycle(print)]
fn put_added(out: &mut Text, added: &Added) -> Result<(), AllocError>
    ensures { OnOk result (out.new ≡ out.old ++ spec.added_text added.now) }
{
    put_additive(out, added.by)?;
    put_term(out, &added.term)
}

#[cycle(print)]
fn put_term(out: &mut Text, term: &Term) -> Result<(), AllocError>
    ensures { OnOk result (out.new ≡ out.old ++ spec.term_text term.now) }
{
    put_factor(out, &term.first)?;
    put_multiplied_factors(out, term.others.as_slice())
}

#[cycle(print)]
fn put_multiplied(out: &mut Text, multiplied: &Multiplied) -> Result<(), AllocError>
    ensures { OnOk result (out.new ≡ out.old ++ spec.multiplied_text multiplied.now) }
{
    put_multiplicative(out, multiplied.by)?;
    put_factor(out, &multiplied.factor)
}

#[cycle(print)]
fn put_factor(out: &mut Text, factor: &Factor) -> Result<(), AllocError>
    ensures { OnOk result (out.new ≡ out.old ++ spec.factor_text factor.now) }
{
    put_minus(out, factor.minus)?;
    put_operand(out, &factor.operand)
}

#[cycle(print)]
fn put_operand(out: &mut Text, operand: &Operand) -> Result<(), AllocError>
    ensures { OnOk result (out.new ≡ out.old ++ spec.operand_text operand.now) }
{
    match operand {
        Operand::Literal(text) => put_literal(out, text),
        Operand::Number(text) => out.push_all(text.bytes()),
        Operand::True => out.push_all(b"TRUE"),
        Operand::False => out.push_all(b"FALSE"),
        Operand::Special(special) => put_special(out, *special),
        Operand::Value => out.push_all(b"VALUE"),
        Operand::Reference(reference) => put_reference(out, reference),
        Operand::Call { routine, arguments } => put_call(out, routine, arguments.as_slice()),
        Operand::CountAll => out.push_all(b"COUNT(*)"),
        Operand::Aggregate { function, argument } => {
            put_aggregate(out, *function)?;
            put_expr(out, argument)?;
            out.push_all(b")")
        }
        Operand::Case { arms, otherwise } => {
            out.push_all(b"CASE")?;
            put_arms(out, arms.as_slice())?;
            put_optional_expr(out, b" ELSE ", otherwise)?;
            out.push_all(b" END")
        }
        Operand::Cast { operand, sort } => put_cast(out, operand, *sort),
        Operand::Exists(query) => {
            out.push_all(b"EXISTS ")?;
            put_subquery(out, query.get())
        }
        Operand::Subquery(query) => put_subquery(out, query.get()),
        Operand::Parenthesized(expr) => {
            out.push_all(b"(")?;
            put_expr(out, expr)?;
            out.push_all(b")")
        }
    }
}

#[cycle(print)]
pub(crate) fn put_call(
    out: &mut Text,
    routine: &ObjectName,
    arguments: &[Expr],
) -> Result<(), AllocError>
    ensures { OnOk result (out.new ≡ out.old ++ spec.call_text (object_name_text routine.now) (map spec.expr_text arguments.now)) }
{
    put_object_name(out, routine)?;
    out.push_all(b"(")?;
    put_exprs(out, arguments)?;
    out.push_all(b")")
}

#[cycle(print)]
fn put_cast(out: &mut Text, operand: &Option<Expr>, sort: SqlType) -> Result<(), AllocError>
    ensures { OnOk result (out.new ≡ out.old ++ spec.cast_text (option_map spec.expr_text operand.now) sort) }
{
    out.push_all(b"CAST(")?;
    put_expr_or_null(out, operand)?;
    out.push_all(b" AS ")?;
    put_type(out, sort)?;
    out.push_all(b")")
}

#[cycle(print)]
fn put_subquery(out: &mut Text, query: &Query) -> Result<(), AllocError>
    ensures { OnOk result (out.new ≡ out.old ++ spec.subquery_text (spec.query_text query.now)) }
{
    out.push_all(b"(")?;
    put_query(out, query)?;
    out.push_all(b")")
}

#[cycle(print)]
pub(crate) fn put_optional_expr(
    out: &mut Text,
    word: &[u8],
    expr: &Option<Expr>,
) -> Result<(), AllocError>
    ensures { OnOk result (out.new ≡ out.old ++ spec.optional_text word.now (option_map spec.expr_text expr.now)) }
{
    match expr {
        None => Ok(()),
        Some(expr) => {
            out.push_all(word)?;
            put_expr(out, expr)
        }
    }
}

#[cycle(print)]
fn put_expr_or_null(out: &mut Text, expr: &Option<Expr>) -> Result<(), AllocError>
    ensures { OnOk result (out.new ≡ out.old ++ spec.or_null_text (option_map spec.expr_text expr.now)) }
{
    match expr {
        None => out.push_all(b"NULL"),
        Some(expr) => put_expr(out, expr),
    }
}

#[cycle(print)]
fn put_arm(out: &mut Text, arm: &Arm) -> Result<(), AllocError>
    ensures { OnOk result (out.new ≡ out.old ++ spec.arm_text arm.now) }
{
    out.push_all(b" WHEN ")?;
    put_expr(out, &arm.condition)?;
    out.push_all(b" THEN ")?;
    put_expr(out, &arm.value)
}

/// A query.
#[cycle(print)]
pub fn put_query(out: &mut Text, query: &Query) -> Result<(), AllocError>
    ensures { OnOk result (out.new ≡ out.old ++ spec.query_text query.now) }
{
    put_select(out, query.first.get())?;
    put_further_selects(out, query.others.get().as_slice())
}

#[cycle(print)]
fn put_further(out: &mut Text, further: &Further) -> Result<(), AllocError>
    ensures { OnOk result (out.new ≡ out.old ++ spec.further_text further.now) }
{
    put_operator(out, further.by, further.all)?;
    put_select(out, &further.select)
}

#[cycle(print)]
fn put_select(out: &mut Text, select: &Select) -> Result<(), AllocError>
    ensures { OnOk result (out.new ≡ out.old ++ spec.select_text select.now) }
{
    put_distinct(out, select.distinct)?;
    put_select_list(out, &select.list)?;
    out.push_all(b" FROM ")?;
    put_chains(out, select.from.as_slice())?;
    put_optional_expr(out, b" WHERE ", &select.filter)?;
    put_group(out, select.group_by.as_slice())
}

#[cycle(print)]
fn put_select_list(out: &mut Text, list: &SelectList) -> Result<(), AllocError>
    ensures { OnOk result (out.new ≡ out.old ++ spec.select_list_text list.now) }
{
    match list {
        SelectList::Star => out.push_all(b"*"),
        SelectList::Listed(items) => put_select_items(out, items.as_slice()),
    }
}

#[cycle(print)]
fn put_select_item(out: &mut Text, item: &SelectItem) -> Result<(), AllocError>
    ensures { OnOk result (out.new ≡ out.old ++ spec.select_item_text item.now) }
{
    match item {
        SelectItem::Expr { expr, name } => {
            put_expr(out, expr)?;
            put_alias(out, name)
        }
        SelectItem::QualifiedStar(qualifier) => {
            put_name(out, qualifier)?;
            out.push_all(b".*")
        }
    }
}

#[cycle(print)]
fn put_chain(out: &mut Text, chain: &Chain) -> Result<(), AllocError>
    ensures { OnOk result (out.new ≡ out.old ++ spec.chain_text chain.now) }
{
    put_table(out, &chain.first)?;
    put_joins(out, chain.joins.as_slice())
}

#[cycle(print)]
fn put_join(out: &mut Text, join: &Join) -> Result<(), AllocError>
    ensures { OnOk result (out.new ≡ out.old ++ spec.join_text join.now) }
{
    match join {
        Join::Inner { table, on } => {
            out.push_all(b" JOIN ")?;
            put_table(out, table)?;
            out.push_all(b" ON ")?;
            put_expr(out, on)
        }
        Join::Cross(table) => {
            out.push_all(b" CROSS JOIN ")?;
            put_table(out, table)
        }
    }
}

/// The text of a query.
pub fn print_query(alloc: Global, query: &Query) -> Result<Text, AllocError>
    ensures { IfOk result (λ text. text ≡ spec.query_text query.now) }
{
    let mut out = Text::new(alloc);
    put_query(&mut out, query)?;
    Ok(out)
}

/// The text of a condition or a value.
pub fn print_expr(alloc: Global, expr: &Expr) -> Result<Text, AllocError>
    ensures { IfOk result (λ text. text ≡ spec.expr_text expr.now) }
{
    let mut out = Text::new(alloc);
    put_expr(&mut out, expr)?;
    Ok(out)
}
