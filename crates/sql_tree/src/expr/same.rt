//! Whether two queries or expressions are equal.

ghost use Rattle.std.specs.Prelude.{◌≡◌, ◌↔◌, IsTrue};

use super::{
    Added, Arm, Chain, Conjunction, Expr, Factor, Further, Join, Multiplied, Negation, Operand,
    Predicate, Query, Select, SelectItem, SelectList, Sum, Tail, Term,
};
use sql_names::{Boxed, Items, Same};

#[cycle(same)]
fn same_conjunctions(list: &Items<Conjunction>, other: &Items<Conjunction>) -> bool
    ensures { IsTrue result ↔ (list.now ≡ other.now) }
{
    let (all, others) = (list.as_slice(), other.as_slice());
    if all.len() != others.len() {
        return false;
    }
    for at in 0..all.len() {
        if !all[at].same(&others[at]) {
            return false;
        }
    }
    true
}

#[cycle(same)]
fn same_negations(list: &Items<Negation>, other: &Items<Negation>) -> bool
    ensures { IsTrue result ↔ (list.now ≡ other.now) }
{
    let (all, others) = (list.as_slice(), other.as_slice());
    if all.len() != others.len() {
        return false;
    }
    for at in 0..all.len() {
        if !all[at].same(&others[at]) {
            return false;
        }
    }
    true
}

#[cycle(same)]
fn same_exprs(list: &Items<Expr>, other: &Items<Expr>) -> bool
    ensures { IsTrue result ↔ (list.now ≡ other.now) }
{
    let (all, others) = (list.as_slice(), other.as_slice());
    if all.len() != others.len() {
        return false;
    }
    for at in 0..all.len() {
        if !all[at].same(&others[at]) {
            return false;
        }
    }
    true
}

#[cycle(same)]
fn same_added(list: &Items<Added>, other: &Items<Added>) -> bool
    ensures { IsTrue result ↔ (list.now ≡ other.now) }
{
    let (all, others) = (list.as_slice(), other.as_slice());
    if all.len() != others.len() {
        return false;
    }
    for at in 0..all.len() {
        if !all[at].same(&others[at]) {
            return false;
        }
    }
    true
}

#[cycle(same)]
fn same_multiplied(list: &Items<Multiplied>, other: &Items<Multiplied>) -> bool
    ensures { IsTrue result ↔ (list.now ≡ other.now) }
{
    let (all, others) = (list.as_slice(), other.as_slice());
    if all.len() != others.len() {
        return false;
    }
    for at in 0..all.len() {
        if !all[at].same(&others[at]) {
            return false;
        }
    }
    true
}

#[cycle(same)]
fn same_arms(list: &Items<Arm>, other: &Items<Arm>) -> bool
    ensures { IsTrue result ↔ (list.now ≡ other.now) }
{
    let (all, others) = (list.as_slice(), other.as_slice());
    if all.len() != others.len() {
        return false;
    }
    for at in 0..all.len() {
        if !all[at].same(&others[at]) {
            return false;
        }
    }
    true
}

#[cycle(same)]
fn same_further(list: &Items<Further>, other: &Items<Further>) -> bool
    ensures { IsTrue result ↔ (list.now ≡ other.now) }
{
    let (all, others) = (list.as_slice(), other.as_slice());
    if all.len() != others.len() {
        return false;
    }
    for at in 0..all.len() {
        if !all[at].same(&others[at]) {
            return false;
        }
    }
    true
}

#[cycle(same)]
fn same_select_items(list: &Items<SelectItem>, other: &Items<SelectItem>) -> bool
    ensures { IsTrue result ↔ (list.now ≡ other.now) }
{
    let (all, others) = (list.as_slice(), other.as_slice());
    if all.len() != others.len() {
        return false;
    }
    for at in 0..all.len() {
        if !all[at].same(&others[at]) {
            return false;
        }
    }
    true
}

#[cycle(same)]
fn same_chains(list: &Items<Chain>, other: &Items<Chain>) -> bool
    ensures { IsTrue result ↔ (list.now ≡ other.now) }
{
    let (all, others) = (list.as_slice(), other.as_slice());
    if all.len() != others.len() {
        return false;
    }
    for at in 0..all.len() {
        if !all[at].same(&others[at]) {
            return false;
        }
    }
    true
}

#[cycle(same)]
fn same_joins(list: &Items<Join>, other: &Items<Join>) -> bool
    ensures { IsTrue result ↔ (list.now ≡ other.now) }
{
    let (all, others) = (list.as_slice(), other.as_slice());
    if all.len() != others.len() {
        return false;
    }
    for at in 0..all.len() {
        if !all[at].same(&others[at]) {
            return false;
        }
    }
    true
}

#[cycle(same)]
fn same_optional_expr(expr: &Option<Expr>, other: &Option<Expr>) -> bool
    ensures { IsTrue result ↔ (expr.now ≡ other.now) }
{
    match (expr, other) {
        (None, None) => true,
        (Some(a), Some(b)) => a.same(b),
        _ => false,
    }
}

#[cycle(same)]
fn same_tail(tail: &Option<Boxed<Tail>>, other: &Option<Boxed<Tail>>) -> bool
    ensures { IsTrue result ↔ (tail.now ≡ other.now) }
{
    match (tail, other) {
        (None, None) => true,
        (Some(a), Some(b)) => a.get().same(b.get()),
        _ => false,
    }
}

impl Expr {
    /// Whether the two are equal in all parts.
    #[cycle(same)]
    pub fn same(&self, other: &Expr) -> bool
        ensures { IsTrue result ↔ (self.now ≡ other.now) }
    {
        same_conjunctions(self.any.get(), other.any.get())
    }
}

impl Conjunction {
    /// Whether the two are equal in all parts.
    #[cycle(same)]
    pub fn same(&self, other: &Conjunction) -> bool
        ensures { IsTrue result ↔ (self.now ≡ other.now) }
    {
        same_negations(&self.every, &other.every)
    }
}

impl Negation {
    /// Whether the two are equal in all parts.
    #[cycle(same)]
    pub fn same(&self, other: &Negation) -> bool
        ensures { IsTrue result ↔ (self.now ≡ other.now) }
    {
        self.negated == other.negated && self.predicate.same(&other.predicate)
    }
}

impl Predicate {
    /// Whether the two are equal in all parts.
    #[cycle(same)]
    pub fn same(&self, other: &Predicate) -> bool
        ensures { IsTrue result ↔ (self.now ≡ other.now) }
    {
        self.tested.same(&other.tested) && same_tail(&self.tail, &other.tail)
    }
}

impl Tail {
    /// Whether the two are equal in all parts.
    #[cycle(same)]
    pub fn same(&self, other: &Tail) -> bool
        ensures { IsTrue result ↔ (self.now ≡ other.now) }
    {
        match (self, other) {
            (
                Tail::Compare { by, with },
                Tail::Compare {
                    by: other_by,
                    with: other_with,
                },
            ) => { by == other_by && with.same(other_with) }
            (
                Tail::IsNull { negated },
                Tail::IsNull {
                    negated: other_negated,
                },
            ) => { negated == other_negated }
            (
                Tail::Between { negated, low, high },
                Tail::Between {
                    negated: other_negated,
                    low: other_low,
                    high: other_high,
                },
            ) => { negated == other_negated && low.same(other_low) && high.same(other_high) }
            (
                Tail::InQuery { negated, query },
                Tail::InQuery {
                    negated: other_negated,
                    query: other_query,
                },
            ) => { negated == other_negated && query.same(other_query) }
            (
                Tail::InList { negated, list },
                Tail::InList {
                    negated: other_negated,
                    list: other_list,
                },
            ) => { negated == other_negated && same_exprs(list, other_list) }
            (
                Tail::Like { negated, pattern },
                Tail::Like {
                    negated: other_negated,
                    pattern: other_pattern,
                },
            ) => { negated == other_negated && pattern.same(other_pattern) }
            _ => false,
        }
    }
}

impl Sum {
    /// Whether the two are equal in all parts.
    #[cycle(same)]
    pub fn same(&self, other: &Sum) -> bool
        ensures { IsTrue result ↔ (self.now ≡ other.now) }
    {
        self.first.same(&other.first) && same_added(&self.others, &other.others)
    }
}

impl Added {
    /// Whether the two are equal in all parts.
    #[cycle(same)]
    pub fn same(&self, other: &Added) -> bool
        ensures { IsTrue result ↔ (self.now ≡ other.now) }
    {
        self.by == other.by && self.term.same(&other.term)
    }
}

impl Term {
    /// Whether the two are equal in all parts.
    #[cycle(same)]
    pub fn same(&self, other: &Term) -> bool
        ensures { IsTrue result ↔ (self.now ≡ other.now) }
    {
        self.first.same(&other.first) && same_multiplied(&self.others, &other.others)
    }
}

impl Multiplied {
    /// Whether the two are equal in all parts.
    #[cycle(same)]
    pub fn same(&self, other: &Multiplied) -> bool
        ensures { IsTrue result ↔ (self.now ≡ other.now) }
    {
        self.by == other.by && self.factor.same(&other.factor)
    }
}

impl Factor {
    /// Whether the two are equal in all parts.
    #[cycle(same)]
    pub fn same(&self, other: &Factor) -> bool
        ensures { IsTrue result ↔ (self.now ≡ other.now) }
    {
        self.minus == other.minus && self.operand.same(&other.operand)
    }
}

impl Operand {
    /// Whether the two are equal in all parts.
    #[cycle(same)]
    pub fn same(&self, other: &Operand) -> bool
        ensures { IsTrue result ↔ (self.now ≡ other.now) }
    {
        match (self, other) {
            (Operand::Literal(a), Operand::Literal(b)) => a.same(b),
            (Operand::Number(a), Operand::Number(b)) => a.same(b),
            (Operand::True, Operand::True) => true,
            (Operand::False, Operand::False) => true,
            (Operand::Special(a), Operand::Special(b)) => a == b,
            (Operand::Value, Operand::Value) => true,
            (Operand::Reference(a), Operand::Reference(b)) => a.same(b),
            (
                Operand::Call { routine, arguments },
                Operand::Call {
                    routine: other_routine,
                    arguments: other_arguments,
                },
            ) => { routine.same(other_routine) && same_exprs(arguments, other_arguments) }
            (Operand::CountAll, Operand::CountAll) => true,
            (
                Operand::Aggregate { function, argument },
                Operand::Aggregate {
                    function: other_function,
                    argument: other_argument,
                },
            ) => { function == other_function && argument.same(other_argument) }
            (
                Operand::Case { arms, otherwise },
                Operand::Case {
                    arms: other_arms,
                    otherwise: other_otherwise,
                },
            ) => { same_arms(arms, other_arms) && same_optional_expr(otherwise, other_otherwise) }
            (
                Operand::Cast { operand, sort },
                Operand::Cast {
                    operand: other_operand,
                    sort: other_sort,
                },
            ) => { same_optional_expr(operand, other_operand) && sort == other_sort }
            (Operand::Exists(a), Operand::Exists(b)) => a.get().same(b.get()),
            (Operand::Subquery(a), Operand::Subquery(b)) => a.get().same(b.get()),
            (Operand::Parenthesized(a), Operand::Parenthesized(b)) => a.same(b),
            _ => false,
        }
    }
}

impl Arm {
    /// Whether the two are equal in all parts.
    #[cycle(same)]
    pub fn same(&self, other: &Arm) -> bool
        ensures { IsTrue result ↔ (self.now ≡ other.now) }
    {
        self.condition.same(&other.condition) && self.value.same(&other.value)
    }
}

impl Query {
    /// Whether the two are equal in all parts.
    #[cycle(same)]
    pub fn same(&self, other: &Query) -> bool
        ensures { IsTrue result ↔ (self.now ≡ other.now) }
    {
        self.first.get().same(other.first.get())
            && same_further(self.others.get(), other.others.get())
    }
}

impl Further {
    /// Whether the two are equal in all parts.
    #[cycle(same)]
    pub fn same(&self, other: &Further) -> bool
        ensures { IsTrue result ↔ (self.now ≡ other.now) }
    {
        self.by == other.by && self.all == other.all && self.select.same(&other.select)
    }
}

impl Select {
    /// Whether the two are equal in all parts.
    #[cycle(same)]
    pub fn same(&self, other: &Select) -> bool
        ensures { IsTrue result ↔ (self.now ≡ other.now) }
    {
        self.distinct == other.distinct
            && self.list.same(&other.list)
            && same_chains(&self.from, &other.from)
            && same_optional_expr(&self.filter, &other.filter)
            && self.group_by.same_as(&other.group_by)
    }
}

impl SelectList {
    /// Whether the two are equal in all parts.
    #[cycle(same)]
    pub fn same(&self, other: &SelectList) -> bool
        ensures { IsTrue result ↔ (self.now ≡ other.now) }
    {
        match (self, other) {
            (SelectList::Star, SelectList::Star) => true,
            (SelectList::Listed(a), SelectList::Listed(b)) => same_select_items(a, b),
            _ => false,
        }
    }
}

impl SelectItem {
    /// Whether the two are equal in all parts.
    #[cycle(same)]
    pub fn same(&self, other: &SelectItem) -> bool
        ensures { IsTrue result ↔ (self.now ≡ other.now) }
    {
        match (self, other) {
            (
                SelectItem::Expr { expr, name },
                SelectItem::Expr {
                    expr: other_expr,
                    name: other_name,
                },
            ) => { expr.same(other_expr) && name.same_as(other_name) }
            (SelectItem::QualifiedStar(a), SelectItem::QualifiedStar(b)) => a.same(b),
            _ => false,
        }
    }
}

impl Chain {
    /// Whether the two are equal in all parts.
    #[cycle(same)]
    pub fn same(&self, other: &Chain) -> bool
        ensures { IsTrue result ↔ (self.now ≡ other.now) }
    {
        self.first.same(&other.first) && same_joins(&self.joins, &other.joins)
    }
}

impl Join {
    /// Whether the two are equal in all parts.
    #[cycle(same)]
    pub fn same(&self, other: &Join) -> bool
        ensures { IsTrue result ↔ (self.now ≡ other.now) }
    {
        match (self, other) {
            (
                Join::Inner { table, on },
                Join::Inner {
                    table: other_table,
                    on: other_on,
                },
            ) => { table.same(other_table) && on.same(other_on) }
            (Join::Cross(a), Join::Cross(b)) => a.same(b),
            _ => false,
        }
    }
}

impl Same for Expr {
    fn same_as(&self, other: &Expr) -> bool {
        self.same(other)
    }
}
