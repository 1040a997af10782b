//! Parameters of routines.

ghost use Rattle.std.specs.Prelude.{◌≡◌};
ghost use Rattle.sql_spelling.specs.declared.kind.Kind.TheVariants as k;
ghost use Rattle.sql_definitions.specs.RoutineParsers as spec;
ghost use Rattle.sql_phrases.specs.Parsers.{Reads, separated};

use crate::condition::MOST_OPEN;
use sql_phrases::{GrammarError, Reader, identifier, sql_type};
use sql_tree::{Items, Param};
use sql_words::Kind;
use std::alloc::Global;

#[tactic(auto, unfolding(crate::specs::RoutineParsers::param))]
fn param(alloc: Global, words: &mut Reader<'_>) -> Result<Param, GrammarError>
    ensures { Reads (spec.param words.old) result words.new }
{
    words.eat(Kind::In);
    let name = identifier(alloc, words)?;
    let sort = sql_type(words, MOST_OPEN - 1)?;
    Ok(Param { name, sort })
}

#[tactic(auto, unfolding(sql_phrases::specs::Parsers::separated), using(sql_phrases::proofs::Turns::separated_step, sql_phrases::proofs::Turns::separated_done))]
fn each_param(alloc: Global, words: &mut Reader<'_>) -> Result<Items<Param>, GrammarError>
    ensures { Reads (separated k.Comma spec.param words.old) result words.new }
{
    let mut found = Items::new(alloc);
    for _turn in 0..words.len() {
        found.push(param(alloc, words)?)?;
        if !words.eat(Kind::Comma) {
            return Ok(found);
        }
    }
    Err(GrammarError::Syntax)
}

/// `([parameter, ..])`
#[tactic(auto, unfolding(crate::specs::RoutineParsers::params))]
pub fn params(alloc: Global, words: &mut Reader<'_>) -> Result<Items<Param>, GrammarError>
    ensures { Reads (spec.params words.old) result words.new }
{
    words.expect(Kind::LeftParen)?;
    if words.eat(Kind::RightParen) {
        return Ok(Items::new(alloc));
    }
    let found = each_param(alloc, words)?;
    words.expect(Kind::RightParen)?;
    Ok(found)
}

/// `[LANGUAGE SQL]`
#[tactic(auto, unfolding(crate::specs::RoutineParsers::language))]
pub fn language(words: &mut Reader<'_>) -> Result<(), GrammarError>
    ensures { Reads (spec.language words.old) result words.new }
{
    if words.eat(Kind::Language) {
        words.expect(Kind::Sql)?;
    }
    Ok(())
}
