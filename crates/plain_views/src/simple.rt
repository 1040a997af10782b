//! Expressions without aggregates and subqueries.
#![tactic(auto, using(crate::proofs::AloneEquations::simple, std::proofs::lemmas::Grind::common_steps))]

ghost use Rattle.std.specs.Prelude.{◌≡◌, map, option_map};
ghost use Rattle.cat_items.specs.Plain.{all_simple, optional_simple};
ghost use Rattle.plain_views.specs.Alone as spec;

use sql_tree::{
    Added, Arm, Boxed, Conjunction, Expr, Factor, Multiplied, Negation, Operand, Predicate, Sum,
    Tail, Term,
};

#[cycle(simple)]
fn simple_exprs(all: &[Expr]) -> bool
    ensures { result ≡ all_simple (map spec.expr_base all.now) }
{
    for one in all {
        if !is_simple_expr(one) {
            return false;
        }
    }
    true
}

#[cycle(simple)]
fn simple_conjunctions(all: &[Conjunction]) -> bool
    ensures { result ≡ all_simple (map spec.conjunction_base all.now) }
{
    for one in all {
        if !is_simple_conjunction(one) {
            return false;
        }
    }
    true
}

#[cycle(simple)]
fn simple_negations(all: &[Negation]) -> bool
    ensures { result ≡ all_simple (map spec.negation_base all.now) }
{
    for one in all {
        if !is_simple_negation(one) {
            return false;
        }
    }
    true
}

#[cycle(simple)]
fn simple_arms(all: &[Arm]) -> bool
    ensures { result ≡ all_simple (map spec.arm_base all.now) }
{
    for one in all {
        if !is_simple_arm(one) {
            return false;
        }
    }
    true
}

#[cycle(simple)]
fn simple_added_terms(all: &[Added]) -> bool
    ensures { result ≡ all_simple (map spec.added_base all.now) }
{
    for one in all {
        if !is_simple_added(one) {
            return false;
        }
    }
    true
}

#[cycle(simple)]
fn simple_multiplied_factors(all: &[Multiplied]) -> bool
    ensures { result ≡ all_simple (map spec.multiplied_base all.now) }
{
    for one in all {
        if !is_simple_multiplied(one) {
            return false;
        }
    }
    true
}

/// Whether it is, or isn't there.
#[cycle(simple)]
pub fn simple_optional(expr: &Option<Expr>) -> bool
    ensures { result ≡ optional_simple (option_map spec.expr_base expr.now) }
{
    match expr {
        None => true,
        Some(expr) => is_simple_expr(expr),
    }
}

#[cycle(simple)]
fn simple_tail(tail: &Option<Boxed<Tail>>) -> bool
    ensures { result ≡ optional_simple (option_map spec.tail_base tail.now) }
{
    match tail {
        None => true,
        Some(tail) => is_simple_tail(tail.get()),
    }
}

/// Whether an expression is without aggregates and subqueries. It takes no memory.
#[cycle(simple)]
fn is_simple_expr(expr: &Expr) -> bool
    ensures { result ≡ (spec.expr_base expr.now).simple }
{
    simple_conjunctions(expr.any.get().as_slice())
}

#[cycle(simple)]
fn is_simple_conjunction(conjunction: &Conjunction) -> bool
    ensures { result ≡ (spec.conjunction_base conjunction.now).simple }
{
    simple_negations(conjunction.every.as_slice())
}

#[cycle(simple)]
fn is_simple_negation(negation: &Negation) -> bool
    ensures { result ≡ (spec.negation_base negation.now).simple }
{
    is_simple_predicate(&negation.predicate)
}

#[cycle(simple)]
fn is_simple_predicate(predicate: &Predicate) -> bool
    ensures { result ≡ (spec.predicate_base predicate.now).simple }
{
    is_simple_sum(&predicate.tested) && simple_tail(&predicate.tail)
}

#[cycle(simple)]
fn is_simple_tail(tail: &Tail) -> bool
    ensures { result ≡ (spec.tail_base tail.now).simple }
{
    match tail {
        Tail::Compare { with, .. } => is_simple_sum(with),
        Tail::IsNull { .. } => true,
        Tail::Between { low, high, .. } => is_simple_sum(low) && is_simple_sum(high),
        Tail::InQuery { .. } => false,
        Tail::InList { list, .. } => simple_exprs(list.as_slice()),
        Tail::Like { pattern, .. } => is_simple_sum(pattern),
    }
}

#[cycle(simple)]
fn is_simple_sum(sum: &Sum) -> bool
    ensures { result ≡ (spec.sum_base sum.now).simple }
{
    is_simple_term(&sum.first) && simple_added_terms(sum.others.as_slice())
}

#[cycle(simple)]
fn is_simple_added(added: &Added) -> bool
    ensures { result ≡ (spec.added_base added.now).simple }
{
    is_simple_term(&added.term)
}

#[cycle(simple)]
fn is_simple_term(term: &Term) -> bool
    ensures { result ≡ (spec.term_base term.now).simple }
{
    is_simple_factor(&term.first) && simple_multiplied_factors(term.others.as_slice())
}

#[cycle(simple)]
fn is_simple_multiplied(multiplied: &Multiplied) -> bool
    ensures { result ≡ (spec.multiplied_base multiplied.now).simple }
{
    is_simple_factor(&multiplied.factor)
}

#[cycle(simple)]
fn is_simple_factor(factor: &Factor) -> bool
    ensures { result ≡ (spec.factor_base factor.now).simple }
{
    is_simple_operand(&factor.operand)
}

#[cycle(simple)]
fn is_simple_operand(operand: &Operand) -> bool
    ensures { result ≡ (spec.operand_base operand.now).simple }
{
    match operand {
        Operand::Literal(_) => true,
        Operand::Number(_) => true,
        Operand::True => true,
        Operand::False => true,
        Operand::Special(_) => true,
        Operand::Value => true,
        Operand::Reference(_) => true,
        Operand::Call { arguments, .. } => simple_exprs(arguments.as_slice()),
        Operand::CountAll => false,
        Operand::Aggregate { .. } => false,
        Operand::Case { arms, otherwise } => {
            simple_arms(arms.as_slice()) && simple_optional(otherwise)
        }
        Operand::Cast { operand, .. } => simple_optional(operand),
        Operand::Exists(_) => false,
        Operand::Subquery(_) => false,
        Operand::Parenthesized(expr) => is_simple_expr(expr),
    }
}

#[cycle(simple)]
fn is_simple_arm(arm: &Arm) -> bool
    ensures { result ≡ (spec.arm_base arm.now).simple }
{
    is_simple_expr(&arm.condition) && is_simple_expr(&arm.value)
}
