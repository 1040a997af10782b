//! Conditions of constraints and domains.

ghost use Rattle.std.specs.Prelude.{◌≡◌, true};
ghost use Rattle.sql_definitions.specs.CheckParsers as spec;
ghost use Rattle.sql_phrases.specs.Parsers.{Reads};

use sql_expressions::expr;
use sql_phrases::{GrammarError, Reader, identifier};
use sql_tree::{DomainCheck, Expr, Items, Name};
use sql_words::Kind;
use std::alloc::Global;

/// How many brackets, CASE and BEGIN may be open at one word.
pub const MOST_OPEN: usize = 64;

/// `CHECK (condition)`, where this many brackets may be opened; VALUE may stand in it where `value`.
#[tactic(auto, unfolding(crate::specs::CheckParsers::check))]
pub fn check(
    alloc: Global,
    words: &mut Reader<'_>,
    depth: usize,
    value: bool,
) -> Result<Expr, GrammarError>
    ensures { Reads (spec.check value depth words.old) result words.new }
{
    words.expect(Kind::Check)?;
    words.expect(Kind::LeftParen)?;
    let condition = expr(alloc, words, depth, value)?;
    words.expect(Kind::RightParen)?;
    Ok(condition)
}

/// `[CONSTRAINT name]`
#[tactic(auto, unfolding(crate::specs::CheckParsers::constraint_name, sql_phrases::specs::Parsers::optional))]
pub fn constraint_name(alloc: Global, words: &mut Reader<'_>) -> Result<Option<Name>, GrammarError>
    ensures { Reads (spec.constraint_name words.old) result words.new }
{
    if words.eat(Kind::Constraint) {
        Ok(Some(identifier(alloc, words)?))
    } else {
        Ok(None)
    }
}

/// A check of a domain, with its name where it has one.
#[tactic(auto, unfolding(crate::specs::CheckParsers::domain_check))]
pub fn domain_check(alloc: Global, words: &mut Reader<'_>) -> Result<DomainCheck, GrammarError>
    ensures { Reads (spec.domain_check words.old) result words.new }
{
    let name = constraint_name(alloc, words)?;
    let condition = check(alloc, words, MOST_OPEN, true)?;
    Ok(DomainCheck { name, condition })
}

fn begins_domain_check(kind: Kind) -> bool
    ensures { result ≡ spec.begins_domain_check kind }
{
    matches!(kind, Kind::Constraint | Kind::Check)
}

/// All checks of a domain that come next.
#[tactic(auto, unfolding(crate::specs::CheckParsers::domain_checks, sql_phrases::specs::Parsers::repeated), using(sql_phrases::proofs::Turns::repeated_step, sql_phrases::proofs::Turns::repeated_done))]
pub fn domain_checks(
    alloc: Global,
    words: &mut Reader<'_>,
) -> Result<Items<DomainCheck>, GrammarError>
    ensures { Reads (spec.domain_checks words.old) result words.new }
{
    let mut found = Items::new(alloc);
    for _turn in 0..words.len() {
        if !begins_domain_check(words.peek()) {
            return Ok(found);
        }
        found.push(domain_check(alloc, words)?)?;
    }
    Ok(found)
}
