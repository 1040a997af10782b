//! SELECT from a view of the Information Schema.

ghost use Rattle.std.specs.Prelude.{◌≡◌};
ghost use Rattle.sql_spelling.specs.declared.kind.Kind.TheVariants as k;
ghost use Rattle.sql_grammar.specs.InformationParsers as spec;
ghost use Rattle.sql_phrases.specs.Parsers.{Reads, separated};

use sql_phrases::{GrammarError, Reader, identifier, identifiers};
use sql_tree::{InfoColumns, InfoQuery, InfoTest, InfoValue, Items};
use sql_words::Kind;
use std::alloc::Global;

#[tactic(auto, unfolding(crate::specs::InformationParsers::info_value))]
fn info_value(alloc: Global, words: &mut Reader<'_>) -> Result<InfoValue, GrammarError>
    ensures { Reads (spec.info_value words.old) result words.new }
{
    if words.sees(Kind::Literal) {
        Ok(InfoValue::Literal(words.text(alloc, Kind::Literal)?))
    } else {
        Ok(InfoValue::Number(words.text(alloc, Kind::Number)?))
    }
}

#[tactic(auto, unfolding(crate::specs::InformationParsers::info_test))]
fn info_test(alloc: Global, words: &mut Reader<'_>) -> Result<InfoTest, GrammarError>
    ensures { Reads (spec.info_test words.old) result words.new }
{
    let column = identifier(alloc, words)?;
    if words.eat(Kind::Is) {
        words.expect(Kind::Null)?;
        return Ok(InfoTest::IsNull(column));
    }
    words.expect(Kind::Equals)?;
    let value = info_value(alloc, words)?;
    Ok(InfoTest::Equals { column, value })
}

#[tactic(auto, unfolding(sql_phrases::specs::Parsers::separated), using(sql_phrases::proofs::Turns::separated_step, sql_phrases::proofs::Turns::separated_done))]
fn every_test(alloc: Global, words: &mut Reader<'_>) -> Result<Items<InfoTest>, GrammarError>
    ensures { Reads (separated k.And spec.info_test words.old) result words.new }
{
    let mut found = Items::new(alloc);
    for _turn in 0..words.len() {
        found.push(info_test(alloc, words)?)?;
        if !words.eat(Kind::And) {
            return Ok(found);
        }
    }
    Err(GrammarError::Syntax)
}

#[tactic(auto, unfolding(crate::specs::InformationParsers::info_tests))]
fn info_tests(alloc: Global, words: &mut Reader<'_>) -> Result<Items<InfoTest>, GrammarError>
    ensures { Reads (spec.info_tests words.old) result words.new }
{
    if words.eat(Kind::Where) {
        Ok(every_test(alloc, words)?)
    } else {
        Ok(Items::new(alloc))
    }
}

#[tactic(auto, unfolding(crate::specs::InformationParsers::info_columns))]
fn info_columns(alloc: Global, words: &mut Reader<'_>) -> Result<InfoColumns, GrammarError>
    ensures { Reads (spec.info_columns words.old) result words.new }
{
    if words.eat(Kind::Asterisk) {
        return Ok(InfoColumns::All);
    }
    Ok(InfoColumns::Named(identifiers(alloc, words)?))
}

/// What stands after SELECT.
#[tactic(auto, unfolding(crate::specs::InformationParsers::info_query))]
pub fn info_query(alloc: Global, words: &mut Reader<'_>) -> Result<InfoQuery, GrammarError>
    ensures { Reads (spec.info_query words.old) result words.new }
{
    let columns = info_columns(alloc, words)?;
    words.expect(Kind::From)?;
    words.expect(Kind::InformationSchema)?;
    words.expect(Kind::Period)?;
    let view = identifier(alloc, words)?;
    let tests = info_tests(alloc, words)?;
    Ok(InfoQuery {
        columns,
        view,
        tests,
    })
}
