//! Sums, tests and conditions.

ghost use Rattle.std.specs.Prelude.{◌≡◌};
ghost use Rattle.sql_spelling.specs.declared.kind.Kind.TheVariants as k;
ghost use Rattle.sql_expressions.specs.ExpressionParsers as spec;
ghost use Rattle.sql_expressions.specs.ExpressionParsers.{expr_within};
ghost use Rattle.sql_expressions.specs.Nests.{Nests};
ghost use Rattle.sql_phrases.specs.Parsers.{Reads, separated, repeated};

use crate::grammar::Grammar;
use sql_phrases::{GrammarError, Reader};
use sql_tree::{
    Added, Additive, Boxed, Comparison, Conjunction, Expr, Factor, Items, Multiplicative,
    Multiplied, Negation, Predicate, Shared, Sum, Tail, Term,
};
use sql_words::Kind;
use std::alloc::Global;

fn comparison_of(kind: Kind) -> Option<Comparison>
    ensures { result ≡ spec.comparison_of kind }
{
    match kind {
        Kind::Equals => Some(Comparison::Equal),
        Kind::NotEquals => Some(Comparison::NotEqual),
        Kind::LessThan => Some(Comparison::Less),
        Kind::LessThanOrEquals => Some(Comparison::LessOrEqual),
        Kind::GreaterThan => Some(Comparison::Greater),
        Kind::GreaterThanOrEquals => Some(Comparison::GreaterOrEqual),
        _ => None,
    }
}

fn additive_of(kind: Kind) -> Option<Additive>
    ensures { result ≡ spec.additive_of kind }
{
    match kind {
        Kind::PlusSign => Some(Additive::Plus),
        Kind::MinusSign => Some(Additive::Minus),
        Kind::Concatenation => Some(Additive::Concatenation),
        _ => None,
    }
}

fn begins_added(kind: Kind) -> bool
    ensures { result ≡ spec.begins_added kind }
{
    matches!(kind, Kind::PlusSign | Kind::MinusSign | Kind::Concatenation)
}

fn multiplicative_of(kind: Kind) -> Option<Multiplicative>
    ensures { result ≡ spec.multiplicative_of kind }
{
    match kind {
        Kind::Asterisk => Some(Multiplicative::Times),
        Kind::Solidus => Some(Multiplicative::Divided),
        _ => None,
    }
}

fn begins_multiplied(kind: Kind) -> bool
    ensures { result ≡ spec.begins_multiplied kind }
{
    matches!(kind, Kind::Asterisk | Kind::Solidus)
}

impl<F: Fn(Global, &mut Reader<'_>, usize, bool) -> Result<Expr, GrammarError>> Grammar<F> {
    #[tactic(auto, unfolding(crate::specs::ExpressionParsers::factor))]
    fn factor(&self, words: &mut Reader<'_>) -> Result<Factor, GrammarError>
        requires { Nests self.now.value self.now.depth (F.pre self.now.expr) (F.post self.now.expr) }
        ensures { Reads (spec.factor self.now.value (expr_within self.now.value self.now.depth) self.now.depth words.old) result words.new }
    {
        let minus = words.eat(Kind::MinusSign);
        let operand = self.operand(words)?;
        Ok(Factor { minus, operand })
    }

    #[tactic(auto, unfolding(crate::specs::ExpressionParsers::multiplied))]
    fn multiplied(&self, words: &mut Reader<'_>) -> Result<Multiplied, GrammarError>
        requires { Nests self.now.value self.now.depth (F.pre self.now.expr) (F.post self.now.expr) }
        ensures { Reads (spec.multiplied self.now.value (expr_within self.now.value self.now.depth) self.now.depth words.old) result words.new }
    {
        let Some(by) = multiplicative_of(words.peek()) else {
            return Err(GrammarError::Syntax);
        };
        words.take();
        let factor = self.factor(words)?;
        Ok(Multiplied { by, factor })
    }

    #[tactic(auto, unfolding(sql_phrases::specs::Parsers::repeated), using(sql_phrases::proofs::Turns::repeated_step, sql_phrases::proofs::Turns::repeated_done))]
    fn more_multiplied(&self, words: &mut Reader<'_>) -> Result<Items<Multiplied>, GrammarError>
        requires { Nests self.now.value self.now.depth (F.pre self.now.expr) (F.post self.now.expr) }
        ensures { Reads (repeated spec.begins_multiplied (spec.multiplied self.now.value (expr_within self.now.value self.now.depth) self.now.depth) words.old) result words.new }
    {
        let mut found = Items::new(self.alloc);
        for _turn in 0..words.len() {
            if !begins_multiplied(words.peek()) {
                return Ok(found);
            }
            found.push(self.multiplied(words)?)?;
        }
        Ok(found)
    }

    #[tactic(auto, unfolding(crate::specs::ExpressionParsers::term))]
    fn term(&self, words: &mut Reader<'_>) -> Result<Term, GrammarError>
        requires { Nests self.now.value self.now.depth (F.pre self.now.expr) (F.post self.now.expr) }
        ensures { Reads (spec.term self.now.value (expr_within self.now.value self.now.depth) self.now.depth words.old) result words.new }
    {
        let first = self.factor(words)?;
        let others = self.more_multiplied(words)?;
        Ok(Term { first, others })
    }

    #[tactic(auto, unfolding(crate::specs::ExpressionParsers::added))]
    fn added(&self, words: &mut Reader<'_>) -> Result<Added, GrammarError>
        requires { Nests self.now.value self.now.depth (F.pre self.now.expr) (F.post self.now.expr) }
        ensures { Reads (spec.added self.now.value (expr_within self.now.value self.now.depth) self.now.depth words.old) result words.new }
    {
        let Some(by) = additive_of(words.peek()) else {
            return Err(GrammarError::Syntax);
        };
        words.take();
        let term = self.term(words)?;
        Ok(Added { by, term })
    }

    #[tactic(auto, unfolding(sql_phrases::specs::Parsers::repeated), using(sql_phrases::proofs::Turns::repeated_step, sql_phrases::proofs::Turns::repeated_done))]
    fn more_added(&self, words: &mut Reader<'_>) -> Result<Items<Added>, GrammarError>
        requires { Nests self.now.value self.now.depth (F.pre self.now.expr) (F.post self.now.expr) }
        ensures { Reads (repeated spec.begins_added (spec.added self.now.value (expr_within self.now.value self.now.depth) self.now.depth) words.old) result words.new }
    {
        let mut found = Items::new(self.alloc);
        for _turn in 0..words.len() {
            if !begins_added(words.peek()) {
                return Ok(found);
            }
            found.push(self.added(words)?)?;
        }
        Ok(found)
    }

    #[tactic(auto, unfolding(crate::specs::ExpressionParsers::sum))]
    fn sum(&self, words: &mut Reader<'_>) -> Result<Sum, GrammarError>
        requires { Nests self.now.value self.now.depth (F.pre self.now.expr) (F.post self.now.expr) }
        ensures { Reads (spec.sum self.now.value (expr_within self.now.value self.now.depth) self.now.depth words.old) result words.new }
    {
        let first = self.term(words)?;
        let others = self.more_added(words)?;
        Ok(Sum { first, others })
    }

    // After BETWEEN.
    #[tactic(auto, unfolding(crate::specs::ExpressionParsers::between))]
    fn between(&self, words: &mut Reader<'_>, negated: bool) -> Result<Tail, GrammarError>
        requires { Nests self.now.value self.now.depth (F.pre self.now.expr) (F.post self.now.expr) }
        ensures { Reads (spec.between self.now.value (expr_within self.now.value self.now.depth) self.now.depth negated words.old) result words.new }
    {
        let low = self.sum(words)?;
        words.expect(Kind::And)?;
        let high = self.sum(words)?;
        Ok(Tail::Between { negated, low, high })
    }

    // A test that NOT may stand before.
    #[tactic(auto, unfolding(crate::specs::ExpressionParsers::testing))]
    fn test(&self, words: &mut Reader<'_>, negated: bool) -> Result<Tail, GrammarError>
        requires { Nests self.now.value self.now.depth (F.pre self.now.expr) (F.post self.now.expr) }
        ensures { Reads (spec.testing self.now.value (expr_within self.now.value self.now.depth) self.now.depth negated words.old) result words.new }
    {
        match words.peek() {
            Kind::Between => {
                words.take();
                self.between(words, negated)
            }
            Kind::In => {
                words.take();
                words.open(self.depth)?;
                self.members(words, negated)
            }
            Kind::Like => {
                words.take();
                let pattern = self.sum(words)?;
                Ok(Tail::Like { negated, pattern })
            }
            _ => Err(GrammarError::Syntax),
        }
    }

    // A comparison, where a word of this kind begins one.
    fn compared(
        &self,
        words: &mut Reader<'_>,
        kind: Kind,
    ) -> Result<Option<Boxed<Tail>>, GrammarError>
        requires { Nests self.now.value self.now.depth (F.pre self.now.expr) (F.post self.now.expr) }
        ensures { Reads (spec.compared_by self.now.value (expr_within self.now.value self.now.depth) self.now.depth (spec.comparison_of kind) words.old) result words.new }
    {
        let Some(by) = comparison_of(kind) else {
            return Ok(None);
        };
        words.take();
        let with = self.sum(words)?;
        Ok(Some(Boxed::new(self.alloc, Tail::Compare { by, with })?))
    }

    #[tactic(auto, unfolding(crate::specs::ExpressionParsers::tail))]
    fn tail(&self, words: &mut Reader<'_>) -> Result<Option<Boxed<Tail>>, GrammarError>
        requires { Nests self.now.value self.now.depth (F.pre self.now.expr) (F.post self.now.expr) }
        ensures { Reads (spec.tail self.now.value (expr_within self.now.value self.now.depth) self.now.depth words.old) result words.new }
    {
        match words.peek() {
            Kind::Is => {
                words.take();
                let test = null_test(words)?;
                Ok(Some(Boxed::new(self.alloc, test)?))
            }
            Kind::Not => {
                words.take();
                let test = self.test(words, true)?;
                Ok(Some(Boxed::new(self.alloc, test)?))
            }
            Kind::Between | Kind::In | Kind::Like => {
                let test = self.test(words, false)?;
                Ok(Some(Boxed::new(self.alloc, test)?))
            }
            kind => self.compared(words, kind),
        }
    }

    #[tactic(auto, unfolding(crate::specs::ExpressionParsers::predicate))]
    fn predicate(&self, words: &mut Reader<'_>) -> Result<Predicate, GrammarError>
        requires { Nests self.now.value self.now.depth (F.pre self.now.expr) (F.post self.now.expr) }
        ensures { Reads (spec.predicate self.now.value (expr_within self.now.value self.now.depth) self.now.depth words.old) result words.new }
    {
        let tested = self.sum(words)?;
        let tail = self.tail(words)?;
        Ok(Predicate { tested, tail })
    }

    #[tactic(auto, unfolding(crate::specs::ExpressionParsers::negation))]
    fn negation(&self, words: &mut Reader<'_>) -> Result<Negation, GrammarError>
        requires { Nests self.now.value self.now.depth (F.pre self.now.expr) (F.post self.now.expr) }
        ensures { Reads (spec.negation self.now.value (expr_within self.now.value self.now.depth) self.now.depth words.old) result words.new }
    {
        let negated = words.eat(Kind::Not);
        let predicate = self.predicate(words)?;
        Ok(Negation { negated, predicate })
    }

    #[tactic(auto, unfolding(sql_phrases::specs::Parsers::separated), using(sql_phrases::proofs::Turns::separated_step, sql_phrases::proofs::Turns::separated_done))]
    fn negations(&self, words: &mut Reader<'_>) -> Result<Items<Negation>, GrammarError>
        requires { Nests self.now.value self.now.depth (F.pre self.now.expr) (F.post self.now.expr) }
        ensures { Reads (separated k.And (spec.negation self.now.value (expr_within self.now.value self.now.depth) self.now.depth) words.old) result words.new }
    {
        let mut found = Items::new(self.alloc);
        for _turn in 0..words.len() {
            found.push(self.negation(words)?)?;
            if !words.eat(Kind::And) {
                return Ok(found);
            }
        }
        Err(GrammarError::Syntax)
    }

    #[tactic(auto, unfolding(crate::specs::ExpressionParsers::conjunction))]
    fn conjunction(&self, words: &mut Reader<'_>) -> Result<Conjunction, GrammarError>
        requires { Nests self.now.value self.now.depth (F.pre self.now.expr) (F.post self.now.expr) }
        ensures { Reads (spec.conjunction self.now.value (expr_within self.now.value self.now.depth) self.now.depth words.old) result words.new }
    {
        let every = self.negations(words)?;
        Ok(Conjunction { every })
    }

    #[tactic(auto, unfolding(sql_phrases::specs::Parsers::separated), using(sql_phrases::proofs::Turns::separated_step, sql_phrases::proofs::Turns::separated_done))]
    fn conjunctions(&self, words: &mut Reader<'_>) -> Result<Items<Conjunction>, GrammarError>
        requires { Nests self.now.value self.now.depth (F.pre self.now.expr) (F.post self.now.expr) }
        ensures { Reads (separated k.Or (spec.conjunction self.now.value (expr_within self.now.value self.now.depth) self.now.depth) words.old) result words.new }
    {
        let mut found = Items::new(self.alloc);
        for _turn in 0..words.len() {
            found.push(self.conjunction(words)?)?;
            if !words.eat(Kind::Or) {
                return Ok(found);
            }
        }
        Err(GrammarError::Syntax)
    }

    #[tactic(auto, unfolding(crate::specs::ExpressionParsers::expr))]
    pub fn expression(&self, words: &mut Reader<'_>) -> Result<Expr, GrammarError>
        requires { Nests self.now.value self.now.depth (F.pre self.now.expr) (F.post self.now.expr) }
        ensures { Reads (spec.expr self.now.value (expr_within self.now.value self.now.depth) self.now.depth words.old) result words.new }
    {
        let any = self.conjunctions(words)?;
        Ok(Expr {
            any: Shared::new(self.alloc, any)?,
        })
    }
}

// `[NOT] NULL`, after IS.
#[tactic(auto, unfolding(crate::specs::ExpressionParsers::is_null))]
fn null_test(words: &mut Reader<'_>) -> Result<Tail, GrammarError>
    ensures { Reads (spec.is_null words.old) result words.new }
{
    let negated = words.eat(Kind::Not);
    words.expect(Kind::Null)?;
    Ok(Tail::IsNull { negated })
}
