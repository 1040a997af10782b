//! Names and lists of names.

ghost use Rattle.std.specs.Prelude.{◌≡◌};
ghost use Rattle.sql_spelling.specs.declared.kind.Kind.TheVariants as k;
ghost use Rattle.sql_phrases.specs.NameParsers as spec;
ghost use Rattle.sql_phrases.specs.Parsers.{Reads};

use crate::error::GrammarError;
use crate::reader::Reader;
use sql_tree::{Items, Name, Object, ObjectName};
use sql_words::{Kind, is_name};
use std::alloc::Global;

// The text of the next word as a name.
#[tactic(auto, unfolding(crate::specs::NameParsers::name_next), using(crate::proofs::NameTexts::is_name_fits, crate::proofs::NameTexts::fits_is_name))]
fn name_next(alloc: Global, words: &mut Reader<'_>) -> Result<Name, GrammarError>
    ensures { Reads (spec.name_next words.old) result words.new }
{
    match Name::of(alloc, words.take())? {
        Some(name) => Ok(name),
        None => Err(GrammarError::Syntax),
    }
}

/// Whether a word that stands for a name comes next.
#[tactic(auto, unfolding(crate::specs::NameParsers::sees_name))]
pub fn sees_name(words: &Reader<'_>) -> bool
    ensures { result ≡ spec.sees_name words.now }
{
    is_name(words.peek())
}

/// A word that stands for a name.
#[tactic(auto, unfolding(crate::specs::NameParsers::identifier))]
pub fn identifier(alloc: Global, words: &mut Reader<'_>) -> Result<Name, GrammarError>
    ensures { Reads (spec.identifier words.old) result words.new }
{
    if !sees_name(words) {
        return Err(GrammarError::Syntax);
    }
    name_next(alloc, words)
}

/// A literal that stands for a name.
#[tactic(auto, unfolding(crate::specs::NameParsers::literal_name))]
pub fn literal_name(alloc: Global, words: &mut Reader<'_>) -> Result<Name, GrammarError>
    ensures { Reads (spec.literal_name words.old) result words.new }
{
    if !words.sees(Kind::Literal) {
        return Err(GrammarError::Syntax);
    }
    name_next(alloc, words)
}

/// `name` or `schema.name`
#[tactic(auto, unfolding(crate::specs::NameParsers::object_name))]
pub fn object_name(alloc: Global, words: &mut Reader<'_>) -> Result<ObjectName, GrammarError>
    ensures { Reads (spec.object_name words.old) result words.new }
{
    let first = identifier(alloc, words)?;
    if words.eat(Kind::Period) {
        let name = identifier(alloc, words)?;
        Ok(ObjectName::Qualified(Object {
            schema: first,
            name,
        }))
    } else {
        Ok(ObjectName::Unqualified(first))
    }
}

/// Names with commas between them.
#[tactic(auto, unfolding(crate::specs::NameParsers::identifiers, crate::specs::Parsers::separated), using(crate::proofs::Turns::separated_step, crate::proofs::Turns::separated_done))]
pub fn identifiers(alloc: Global, words: &mut Reader<'_>) -> Result<Items<Name>, GrammarError>
    ensures { Reads (spec.identifiers words.old) result words.new }
{
    let mut found = Items::new(alloc);
    for _turn in 0..words.len() {
        found.push(identifier(alloc, words)?)?;
        if !words.eat(Kind::Comma) {
            return Ok(found);
        }
    }
    Err(GrammarError::Syntax)
}

/// `[(name, ..)]`
#[tactic(auto, unfolding(crate::specs::NameParsers::columns))]
pub fn columns(alloc: Global, words: &mut Reader<'_>) -> Result<Items<Name>, GrammarError>
    ensures { Reads (spec.columns words.old) result words.new }
{
    if !words.eat(Kind::LeftParen) {
        return Ok(Items::new(alloc));
    }
    let names = identifiers(alloc, words)?;
    words.expect(Kind::RightParen)?;
    Ok(names)
}
