//! The rules that hold expressions in brackets take the parser of those as a parameter, so that each is proved by itself.

ghost use Rattle.sql_expressions.specs.ExpressionParsers as spec;
ghost use Rattle.sql_expressions.specs.Nests.{Nests};
ghost use Rattle.sql_phrases.specs.Parsers.{Reads};

use sql_phrases::{GrammarError, Reader};
use sql_tree::{Expr, Query};
use std::alloc::Global;

#[derive(Clone, Copy)]
pub struct Grammar<F> {
    pub alloc: Global,
    /// How many more brackets may be opened.
    pub depth: usize,
    /// Whether VALUE may stand for a value.
    pub value: bool,
    pub expr: F,
}

impl<F: Fn(Global, &mut Reader<'_>, usize, bool) -> Result<Expr, GrammarError>> Grammar<F> {
    // An expression in brackets.
    pub fn whole(&self, words: &mut Reader<'_>) -> Result<Expr, GrammarError>
        requires { Nests self.now.value self.now.depth (F.pre self.now.expr) (F.post self.now.expr) }
        ensures { Reads (spec.expr_within self.now.value self.now.depth words.old) result words.new }
    {
        (self.expr)(self.alloc, words, self.depth, self.value)
    }
}

/// An expression, `<value expression>` or `<search condition>` of SQL:2003, with which the words begin. It ends before the first
/// word that can't go on with it, so `A = B C` leaves `C`, and `A AND` gives `Syntax`.
///
/// Fewer than `depth` brackets may be open at one word, where a CASE counts as a bracket up to its END. VALUE stands for the
/// value that a domain's check is on where `value`, and gives `Syntax` elsewhere. Each word is read once.
pub fn expr(
    alloc: Global,
    words: &mut Reader<'_>,
    depth: usize,
    value: bool,
) -> Result<Expr, GrammarError>
    ensures { Reads (spec.expr_within value depth words.old) result words.new }
{
    if depth == 0 {
        return Err(GrammarError::Syntax);
    }
    Grammar {
        alloc,
        depth: depth - 1,
        value,
        expr,
    }
    .expression(words)
}

/// A query, `<query expression>` of SQL:2003 without WITH and without brackets around a SELECT, with which the words begin. It
/// ends before the first word that can't go on with it. UNION and EXCEPT group to the left.
///
/// `depth` and `value` are those of `expr`.
pub fn query(
    alloc: Global,
    words: &mut Reader<'_>,
    depth: usize,
    value: bool,
) -> Result<Query, GrammarError>
    ensures { Reads (spec.query_within value depth words.old) result words.new }
{
    if depth == 0 {
        return Err(GrammarError::Syntax);
    }
    Grammar {
        alloc,
        depth,
        value,
        expr,
    }
    .query(words)
}
