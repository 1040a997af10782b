//! What stands between operators.

ghost use Rattle.std.specs.Prelude.{◌≡◌};
ghost use Rattle.sql_spelling.specs.declared.kind.Kind.TheVariants as k;
ghost use Rattle.sql_expressions.specs.ExpressionParsers as spec;
ghost use Rattle.sql_expressions.specs.ExpressionParsers.{expr_within};
ghost use Rattle.sql_expressions.specs.Nests.{Nests};
ghost use Rattle.sql_phrases.specs.Parsers.{Reads, separated};

use crate::grammar::Grammar;
use crate::queries::reference_of;
use sql_phrases::{GrammarError, Reader, object_name, sees_name, special_by, sql_type};
use sql_tree::{Aggregate, Arm, Boxed, Expr, Items, Operand, Query, Tail, Text};
use sql_words::Kind;
use std::alloc::Global;

// The value that a word of this kind is by itself. VALUE is one where it may stand.
fn constant_of(kind: Kind, value: bool) -> Option<Operand>
    ensures { result ≡ spec.constant_of value kind }
{
    match kind {
        Kind::True => Some(Operand::True),
        Kind::False => Some(Operand::False),
        Kind::Value if value => Some(Operand::Value),
        kind => match special_by(kind) {
            Some(special) => Some(Operand::Special(special)),
            None => None,
        },
    }
}

#[tactic(auto, unfolding(crate::specs::ExpressionParsers::constant))]
fn constant(words: &mut Reader<'_>, value: bool) -> Result<Operand, GrammarError>
    ensures { Reads (spec.constant value words.old) result words.new }
{
    let Some(found) = constant_of(words.peek(), value) else {
        return Err(GrammarError::Syntax);
    };
    words.take();
    Ok(found)
}

impl<F: Fn(Global, &mut Reader<'_>, usize, bool) -> Result<Expr, GrammarError>> Grammar<F> {
    // A query whose bracket is open, and the bracket behind it.
    #[tactic(auto, unfolding(crate::specs::ExpressionParsers::closed_query))]
    fn closed_query(&self, words: &mut Reader<'_>) -> Result<Query, GrammarError>
        requires { Nests self.now.value self.now.depth (F.pre self.now.expr) (F.post self.now.expr) }
        ensures { Reads (spec.closed_query (expr_within self.now.value self.now.depth) words.old) result words.new }
    {
        let query = self.query(words)?;
        words.expect(Kind::RightParen)?;
        Ok(query)
    }

    #[tactic(auto, unfolding(crate::specs::ExpressionParsers::closed_expr))]
    fn closed_expr(&self, words: &mut Reader<'_>) -> Result<Expr, GrammarError>
        requires { Nests self.now.value self.now.depth (F.pre self.now.expr) (F.post self.now.expr) }
        ensures { Reads (spec.closed_expr (expr_within self.now.value self.now.depth) words.old) result words.new }
    {
        let expr = self.whole(words)?;
        words.expect(Kind::RightParen)?;
        Ok(expr)
    }

    #[tactic(auto, unfolding(sql_phrases::specs::Parsers::separated), using(sql_phrases::proofs::Turns::separated_step, sql_phrases::proofs::Turns::separated_done))]
    fn list(&self, words: &mut Reader<'_>) -> Result<Items<Expr>, GrammarError>
        requires { Nests self.now.value self.now.depth (F.pre self.now.expr) (F.post self.now.expr) }
        ensures { Reads (separated k.Comma (expr_within self.now.value self.now.depth) words.old) result words.new }
    {
        let mut found = Items::new(self.alloc);
        for _turn in 0..words.len() {
            found.push(self.whole(words)?)?;
            if !words.eat(Kind::Comma) {
                return Ok(found);
            }
        }
        Err(GrammarError::Syntax)
    }

    #[tactic(auto, unfolding(crate::specs::ExpressionParsers::closed_list))]
    fn closed_list(&self, words: &mut Reader<'_>) -> Result<Items<Expr>, GrammarError>
        requires { Nests self.now.value self.now.depth (F.pre self.now.expr) (F.post self.now.expr) }
        ensures { Reads (spec.closed_list (expr_within self.now.value self.now.depth) words.old) result words.new }
    {
        let list = self.list(words)?;
        words.expect(Kind::RightParen)?;
        Ok(list)
    }

    #[tactic(auto, unfolding(crate::specs::ExpressionParsers::arguments))]
    fn arguments(&self, words: &mut Reader<'_>) -> Result<Items<Expr>, GrammarError>
        requires { Nests self.now.value self.now.depth (F.pre self.now.expr) (F.post self.now.expr) }
        ensures { Reads (spec.arguments (expr_within self.now.value self.now.depth) words.old) result words.new }
    {
        if words.eat(Kind::RightParen) {
            Ok(Items::new(self.alloc))
        } else {
            self.closed_list(words)
        }
    }

    // What stands after IN and its bracket.
    #[tactic(auto, unfolding(crate::specs::ExpressionParsers::members))]
    pub fn members(&self, words: &mut Reader<'_>, negated: bool) -> Result<Tail, GrammarError>
        requires { Nests self.now.value self.now.depth (F.pre self.now.expr) (F.post self.now.expr) }
        ensures { Reads (spec.members (expr_within self.now.value self.now.depth) negated words.old) result words.new }
    {
        if words.sees(Kind::Select) {
            let query = self.closed_query(words)?;
            Ok(Tail::InQuery { negated, query })
        } else {
            let list = self.closed_list(words)?;
            Ok(Tail::InList { negated, list })
        }
    }

    // After WHEN.
    #[tactic(auto, unfolding(crate::specs::ExpressionParsers::arm))]
    fn arm(&self, words: &mut Reader<'_>) -> Result<Arm, GrammarError>
        requires { Nests self.now.value self.now.depth (F.pre self.now.expr) (F.post self.now.expr) }
        ensures { Reads (spec.arm (expr_within self.now.value self.now.depth) words.old) result words.new }
    {
        let condition = self.whole(words)?;
        words.expect(Kind::Then)?;
        let value = self.whole(words)?;
        Ok(Arm { condition, value })
    }

    #[tactic(auto, unfolding(sql_phrases::specs::Parsers::separated), using(sql_phrases::proofs::Turns::separated_step, sql_phrases::proofs::Turns::separated_done))]
    fn arms(&self, words: &mut Reader<'_>) -> Result<Items<Arm>, GrammarError>
        requires { Nests self.now.value self.now.depth (F.pre self.now.expr) (F.post self.now.expr) }
        ensures { Reads (separated k.When (spec.arm (expr_within self.now.value self.now.depth)) words.old) result words.new }
    {
        let mut found = Items::new(self.alloc);
        for _turn in 0..words.len() {
            found.push(self.arm(words)?)?;
            if !words.eat(Kind::When) {
                return Ok(found);
            }
        }
        Err(GrammarError::Syntax)
    }

    #[tactic(auto, unfolding(crate::specs::ExpressionParsers::case_opening))]
    fn open_case(&self, words: &mut Reader<'_>) -> Result<(), GrammarError>
        ensures { Reads (spec.case_opening self.now.depth words.old) result words.new }
    {
        if self.depth == 0 {
            return Err(GrammarError::Syntax);
        }
        words.expect(Kind::Case)
    }

    #[tactic(auto, unfolding(crate::specs::ExpressionParsers::case_when))]
    fn case_when(&self, words: &mut Reader<'_>) -> Result<Operand, GrammarError>
        requires { Nests self.now.value self.now.depth (F.pre self.now.expr) (F.post self.now.expr) }
        ensures { Reads (spec.case_when self.now.value (expr_within self.now.value self.now.depth) self.now.depth words.old) result words.new }
    {
        self.open_case(words)?;
        words.expect(Kind::When)?;
        let arms = self.arms(words)?;
        let otherwise = self.after_word(words, Kind::Else)?;
        words.expect(Kind::End)?;
        Ok(Operand::Case { arms, otherwise })
    }

    #[tactic(auto, unfolding(crate::specs::ExpressionParsers::cast_operand))]
    fn cast_operand(&self, words: &mut Reader<'_>) -> Result<Option<Expr>, GrammarError>
        requires { Nests self.now.value self.now.depth (F.pre self.now.expr) (F.post self.now.expr) }
        ensures { Reads (spec.cast_operand (expr_within self.now.value self.now.depth) words.old) result words.new }
    {
        if words.eat(Kind::Null) {
            Ok(None)
        } else {
            Ok(Some(self.whole(words)?))
        }
    }

    #[tactic(auto, unfolding(crate::specs::ExpressionParsers::cast))]
    fn cast(&self, words: &mut Reader<'_>) -> Result<Operand, GrammarError>
        requires { Nests self.now.value self.now.depth (F.pre self.now.expr) (F.post self.now.expr) }
        ensures { Reads (spec.cast self.now.value (expr_within self.now.value self.now.depth) self.now.depth words.old) result words.new }
    {
        words.take();
        words.open(self.depth)?;
        let operand = self.cast_operand(words)?;
        words.expect(Kind::As)?;
        let sort = sql_type(words, self.depth.saturating_sub(1))?;
        words.expect(Kind::RightParen)?;
        Ok(Operand::Cast { operand, sort })
    }

    #[tactic(auto, unfolding(crate::specs::ExpressionParsers::exists))]
    fn exists(&self, words: &mut Reader<'_>) -> Result<Operand, GrammarError>
        requires { Nests self.now.value self.now.depth (F.pre self.now.expr) (F.post self.now.expr) }
        ensures { Reads (spec.exists self.now.value (expr_within self.now.value self.now.depth) self.now.depth words.old) result words.new }
    {
        words.take();
        words.open(self.depth)?;
        let query = self.closed_query(words)?;
        Ok(Operand::Exists(Boxed::new(self.alloc, query)?))
    }

    #[tactic(auto, unfolding(crate::specs::ExpressionParsers::aggregate))]
    fn aggregate(
        &self,
        words: &mut Reader<'_>,
        function: Aggregate,
    ) -> Result<Operand, GrammarError>
        requires { Nests self.now.value self.now.depth (F.pre self.now.expr) (F.post self.now.expr) }
        ensures { Reads (spec.aggregate self.now.value (expr_within self.now.value self.now.depth) self.now.depth function words.old) result words.new }
    {
        words.take();
        words.open(self.depth)?;
        let argument = self.closed_expr(words)?;
        Ok(Operand::Aggregate { function, argument })
    }

    // What stands after COUNT and its bracket.
    #[tactic(auto, unfolding(crate::specs::ExpressionParsers::counted))]
    fn counted(&self, words: &mut Reader<'_>) -> Result<Operand, GrammarError>
        requires { Nests self.now.value self.now.depth (F.pre self.now.expr) (F.post self.now.expr) }
        ensures { Reads (spec.counted (expr_within self.now.value self.now.depth) words.old) result words.new }
    {
        if words.eat(Kind::Asterisk) {
            words.expect(Kind::RightParen)?;
            return Ok(Operand::CountAll);
        }
        let argument = self.closed_expr(words)?;
        Ok(Operand::Aggregate {
            function: Aggregate::Count,
            argument,
        })
    }

    #[tactic(auto, unfolding(crate::specs::ExpressionParsers::count))]
    fn count(&self, words: &mut Reader<'_>) -> Result<Operand, GrammarError>
        requires { Nests self.now.value self.now.depth (F.pre self.now.expr) (F.post self.now.expr) }
        ensures { Reads (spec.count self.now.value (expr_within self.now.value self.now.depth) self.now.depth words.old) result words.new }
    {
        words.take();
        words.open(self.depth)?;
        self.counted(words)
    }

    // What stands after a bracket where an operand may stand.
    #[tactic(auto, unfolding(crate::specs::ExpressionParsers::bracketed))]
    fn bracketed(&self, words: &mut Reader<'_>) -> Result<Operand, GrammarError>
        requires { Nests self.now.value self.now.depth (F.pre self.now.expr) (F.post self.now.expr) }
        ensures { Reads (spec.bracketed (expr_within self.now.value self.now.depth) words.old) result words.new }
    {
        if words.sees(Kind::Select) {
            let query = self.closed_query(words)?;
            Ok(Operand::Subquery(Boxed::new(self.alloc, query)?))
        } else {
            Ok(Operand::Parenthesized(self.closed_expr(words)?))
        }
    }

    #[tactic(auto, unfolding(crate::specs::ExpressionParsers::named))]
    fn named(&self, words: &mut Reader<'_>) -> Result<Operand, GrammarError>
        requires { Nests self.now.value self.now.depth (F.pre self.now.expr) (F.post self.now.expr) }
        ensures { Reads (spec.named self.now.value (expr_within self.now.value self.now.depth) self.now.depth words.old) result words.new }
    {
        let name = object_name(self.alloc, words)?;
        if !words.sees(Kind::LeftParen) {
            return Ok(Operand::Reference(reference_of(name)));
        }
        words.open(self.depth)?;
        let arguments = self.arguments(words)?;
        Ok(Operand::Call {
            routine: name,
            arguments,
        })
    }

    #[tactic(auto, unfolding(crate::specs::ExpressionParsers::named_or_constant))]
    fn named_or_constant(&self, words: &mut Reader<'_>) -> Result<Operand, GrammarError>
        requires { Nests self.now.value self.now.depth (F.pre self.now.expr) (F.post self.now.expr) }
        ensures { Reads (spec.named_or_constant self.now.value (expr_within self.now.value self.now.depth) self.now.depth words.old) result words.new }
    {
        if sees_name(words) {
            self.named(words)
        } else {
            constant(words, self.value)
        }
    }

    #[tactic(auto, unfolding(crate::specs::ExpressionParsers::operand))]
    pub fn operand(&self, words: &mut Reader<'_>) -> Result<Operand, GrammarError>
        requires { Nests self.now.value self.now.depth (F.pre self.now.expr) (F.post self.now.expr) }
        ensures { Reads (spec.operand self.now.value (expr_within self.now.value self.now.depth) self.now.depth words.old) result words.new }
    {
        match words.peek() {
            Kind::Literal => Ok(Operand::Literal(Text::of(self.alloc, words.take())?)),
            Kind::Number => Ok(Operand::Number(Text::of(self.alloc, words.take())?)),
            Kind::LeftParen => {
                words.open(self.depth)?;
                self.bracketed(words)
            }
            Kind::Count => self.count(words),
            Kind::Sum => self.aggregate(words, Aggregate::Sum),
            Kind::Min => self.aggregate(words, Aggregate::Min),
            Kind::Max => self.aggregate(words, Aggregate::Max),
            Kind::Avg => self.aggregate(words, Aggregate::Avg),
            Kind::Case => self.case_when(words),
            Kind::Cast => self.cast(words),
            Kind::Exists => self.exists(words),
            _ => self.named_or_constant(words),
        }
    }
}
