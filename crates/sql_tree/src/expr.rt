//! Queries and expressions, one type for each rule of the grammar.

mod copy;
mod same;

use sql_names::{
    Boxed, Items, Name, ObjectName, Reference, Shared, Special, SqlType, TableReference, Text,
};

/// How two values are compared.
#[derive(Clone, Copy, PartialEq, Eq)]
pub enum Comparison {
    Equal,
    NotEqual,
    Less,
    LessOrEqual,
    Greater,
    GreaterOrEqual,
}

/// `+`, `-` or `||`
#[derive(Clone, Copy, PartialEq, Eq)]
pub enum Additive {
    Plus,
    Minus,
    Concatenation,
}

/// `*` or `/`
#[derive(Clone, Copy, PartialEq, Eq)]
pub enum Multiplicative {
    Times,
    Divided,
}

/// A set function with an argument. `COUNT(*)` is an operand of its own.
#[derive(Clone, Copy, PartialEq, Eq)]
pub enum Aggregate {
    Count,
    Sum,
    Min,
    Max,
    Avg,
}

/// What joins two SELECTs.
#[derive(Clone, Copy, PartialEq, Eq)]
pub enum SetOperator {
    Union,
    Except,
}

/// One or more conjunctions, joined by OR.
#[cycle(tree)]
#[derive(Drop)]
pub struct Expr {
    pub any: Shared<Items<Conjunction>>,
}

const _: () = prove!(size_of::<Expr>() == 8);

/// One or more parts, joined by AND.
#[cycle(tree)]
#[derive(Drop)]
pub struct Conjunction {
    pub every: Items<Negation>,
}

/// `[NOT] predicate`
#[cycle(tree)]
#[derive(Drop)]
pub struct Negation {
    pub negated: bool,
    pub predicate: Predicate,
}

/// A sum, and the test of it where there is one.
#[cycle(tree)]
#[derive(Drop)]
pub struct Predicate {
    pub tested: Sum,
    pub tail: Option<Boxed<Tail>>,
}

/// A test of the sum before it.
#[cycle(tree)]
#[derive(Drop)]
pub enum Tail {
    Compare { by: Comparison, with: Sum },
    /// `IS [NOT] NULL`
    IsNull { negated: bool },
    Between { negated: bool, low: Sum, high: Sum },
    InQuery { negated: bool, query: Query },
    InList { negated: bool, list: Items<Expr> },
    Like { negated: bool, pattern: Sum },
}

/// Terms, joined from left to right.
#[cycle(tree)]
#[derive(Drop)]
pub struct Sum {
    pub first: Term,
    pub others: Items<Added>,
}

/// A later term of a sum.
#[cycle(tree)]
#[derive(Drop)]
pub struct Added {
    pub by: Additive,
    pub term: Term,
}

/// Factors, joined from left to right.
#[cycle(tree)]
#[derive(Drop)]
pub struct Term {
    pub first: Factor,
    pub others: Items<Multiplied>,
}

/// A later factor of a term.
#[cycle(tree)]
#[derive(Drop)]
pub struct Multiplied {
    pub by: Multiplicative,
    pub factor: Factor,
}

/// `[-] operand`
#[cycle(tree)]
#[derive(Drop)]
pub struct Factor {
    pub minus: bool,
    pub operand: Operand,
}

/// What stands between operators.
#[cycle(tree)]
#[derive(Drop)]
pub enum Operand {
    /// A literal, without its quotes and undoubled.
    Literal(Text),
    /// A number, as it is written.
    Number(Text),
    True,
    False,
    Special(Special),
    /// VALUE, which stands in a domain's checks alone.
    Value,
    Reference(Reference),
    Call {
        routine: ObjectName,
        arguments: Items<Expr>,
    },
    /// `COUNT(*)`
    CountAll,
    Aggregate {
        function: Aggregate,
        argument: Expr,
    },
    /// One or more arms, then ELSE where it is written.
    Case {
        arms: Items<Arm>,
        otherwise: Option<Expr>,
    },
    /// No operand stands for NULL.
    Cast {
        operand: Option<Expr>,
        sort: SqlType,
    },
    Exists(Boxed<Query>),
    /// `(query)`
    Subquery(Boxed<Query>),
    /// `(expression)`
    Parenthesized(Expr),
}

/// `WHEN condition THEN value`
#[cycle(tree)]
#[derive(Drop)]
pub struct Arm {
    pub condition: Expr,
    pub value: Expr,
}

/// SELECTs, joined from left to right.
#[cycle(tree)]
#[derive(Drop)]
pub struct Query {
    pub first: Shared<Select>,
    pub others: Shared<Items<Further>>,
}

/// A later SELECT of a query.
#[cycle(tree)]
#[derive(Drop)]
pub struct Further {
    pub by: SetOperator,
    pub all: bool,
    pub select: Select,
}

/// One SELECT. `group_by` is empty where GROUP BY isn't written.
#[cycle(tree)]
#[derive(Drop)]
pub struct Select {
    pub distinct: bool,
    pub list: SelectList,
    pub from: Items<Chain>,
    pub filter: Option<Expr>,
    pub group_by: Items<Reference>,
}

/// What a SELECT gives.
#[cycle(tree)]
#[derive(Drop)]
pub enum SelectList {
    /// `*`, which no resolved tree has.
    Star,
    /// One or more.
    Listed(Items<SelectItem>),
}

/// An item of a select list.
#[cycle(tree)]
#[derive(Drop)]
pub enum SelectItem {
    /// `expression [[AS] name]`. In a resolved tree it has its name.
    Expr { expr: Expr, name: Option<Name> },
    /// `name.*`, which no resolved tree has.
    QualifiedStar(Name),
}

/// A table of a FROM, and the tables joined to it, from left to right.
#[cycle(tree)]
#[derive(Drop)]
pub struct Chain {
    pub first: TableReference,
    pub joins: Items<Join>,
}

/// A further table of a chain.
#[cycle(tree)]
#[derive(Drop)]
pub enum Join {
    /// `[INNER] JOIN table ON condition`
    Inner { table: TableReference, on: Expr },
    /// `CROSS JOIN table`
    Cross(TableReference),
}
