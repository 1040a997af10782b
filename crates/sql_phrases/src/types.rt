//! Data types and defaults.

ghost use Rattle.std.specs.Prelude.{◌≡◌};
ghost use Rattle.sql_phrases.specs.Parsers.{Reads};
ghost use Rattle.sql_phrases.specs.TypeParsers as spec;

use crate::error::GrammarError;
use crate::reader::Reader;
use sql_tree::{Default, Special, SqlType};
use sql_words::Kind;
use std::alloc::Global;

// The number that digits write, where they are digits and it is between two bounds.
#[tactic(auto, unfolding(crate::specs::TypeParsers::within_from), using(crate::proofs::Numbers::too_great, crate::proofs::Numbers::no_digit, crate::proofs::Numbers::one_digit))]
fn number_within(text: &[u8], low: u32, high: u32) -> Option<u32>
    ensures { result ≡ spec.number_within low high text.now }
{
    let mut number = 0u64;
    let mut left = text;
    while let [digit, rest @ ..] = left {
        if number > high as u64 || !digit.is_ascii_digit() {
            return None;
        }
        number = number * 10 + (*digit - b'0') as u64;
        left = rest;
    }
    if number <= high as u64 && low as u64 <= number {
        Some(number as u32)
    } else {
        None
    }
}

// A number without a point, between two bounds.
#[tactic(auto, unfolding(crate::specs::TypeParsers::number))]
fn number(words: &mut Reader<'_>, low: u32, high: u32) -> Result<u32, GrammarError>
    ensures { Reads (spec.number low high words.old) result words.new }
{
    if !words.sees(Kind::Number) {
        return Err(GrammarError::Syntax);
    }
    match number_within(words.take(), low, high) {
        Some(found) => Ok(found),
        None => Err(GrammarError::Syntax),
    }
}

/// `(n)`, where this many brackets may be opened.
#[tactic(auto, unfolding(crate::specs::TypeParsers::bracketed))]
fn bracketed(words: &mut Reader<'_>, depth: usize, low: u32, high: u32) -> Result<u32, GrammarError>
    ensures { Reads (spec.bracketed depth low high words.old) result words.new }
{
    words.open(depth)?;
    let found = number(words, low, high)?;
    words.expect(Kind::RightParen)?;
    Ok(found)
}

/// `[(n)]`, and a number where it is left out.
#[tactic(auto, unfolding(crate::specs::TypeParsers::size))]
fn size(
    words: &mut Reader<'_>,
    depth: usize,
    without: u32,
    low: u32,
    high: u32,
) -> Result<u32, GrammarError>
    ensures { Reads (spec.size depth without low high words.old) result words.new }
{
    if words.sees(Kind::LeftParen) {
        Ok(bracketed(words, depth, low, high)?)
    } else {
        Ok(without)
    }
}

// `[, n])`, after a precision.
#[tactic(auto, unfolding(crate::specs::TypeParsers::scale))]
fn scale(words: &mut Reader<'_>, precision: u32) -> Result<(u32, u32), GrammarError>
    ensures { Reads (spec.scale precision words.old) result words.new }
{
    if words.eat(Kind::Comma) {
        let scale = number(words, 0, precision)?;
        words.expect(Kind::RightParen)?;
        return Ok((precision, scale));
    }
    words.expect(Kind::RightParen)?;
    Ok((precision, 0))
}

/// `[(precision [, scale])]`
#[tactic(auto, unfolding(crate::specs::TypeParsers::precision))]
fn precision(words: &mut Reader<'_>, depth: usize) -> Result<(u32, u32), GrammarError>
    ensures { Reads (spec.precision depth words.old) result words.new }
{
    if !words.sees(Kind::LeftParen) {
        return Ok((18, 0));
    }
    words.open(depth)?;
    let precision = number(words, 1, 38)?;
    Ok(scale(words, precision)?)
}

#[tactic(auto, unfolding(crate::specs::TypeParsers::character))]
fn character(words: &mut Reader<'_>, depth: usize) -> Result<SqlType, GrammarError>
    ensures { Reads (spec.character depth words.old) result words.new }
{
    if words.eat(Kind::Varying) {
        let length = bracketed(words, depth, 1, 1_000_000)?;
        return Ok(SqlType::CharacterVarying { length });
    }
    let length = size(words, depth, 1, 1, 1_000_000)?;
    Ok(SqlType::Character { length })
}

// A type that begins with a word of this kind.
fn type_by(words: &mut Reader<'_>, depth: usize, kind: Kind) -> Result<SqlType, GrammarError>
    ensures { Reads (spec.type_by depth kind words.old) result words.new }
{
    words.take();
    match kind {
        Kind::Character | Kind::Char => Ok(character(words, depth)?),
        Kind::Varchar => {
            let length = bracketed(words, depth, 1, 1_000_000)?;
            Ok(SqlType::CharacterVarying { length })
        }
        Kind::Numeric => {
            let (precision, scale) = precision(words, depth)?;
            Ok(SqlType::Numeric { precision, scale })
        }
        Kind::Decimal | Kind::Dec => {
            let (precision, scale) = precision(words, depth)?;
            Ok(SqlType::Decimal { precision, scale })
        }
        Kind::Smallint => Ok(SqlType::Smallint),
        Kind::Integer | Kind::Int => Ok(SqlType::Integer),
        Kind::Bigint => Ok(SqlType::Bigint),
        Kind::Boolean => Ok(SqlType::Boolean),
        Kind::Date => Ok(SqlType::Date),
        Kind::Time => {
            let precision = size(words, depth, 0, 0, 9)?;
            Ok(SqlType::Time { precision })
        }
        Kind::Timestamp => {
            let precision = size(words, depth, 6, 0, 9)?;
            Ok(SqlType::Timestamp { precision })
        }
        _ => Err(GrammarError::Syntax),
    }
}

/// A data type, where this many brackets may be opened.
#[tactic(auto, unfolding(crate::specs::TypeParsers::sql_type))]
pub fn sql_type(words: &mut Reader<'_>, depth: usize) -> Result<SqlType, GrammarError>
    ensures { Reads (spec.sql_type depth words.old) result words.new }
{
    let kind = words.peek();
    type_by(words, depth, kind)
}

/// The value of the session or the clock that a word of this kind says.
pub fn special_by(kind: Kind) -> Option<Special>
    ensures { result ≡ spec.special_by kind }
{
    match kind {
        Kind::CurrentUser => Some(Special::CurrentUser),
        Kind::CurrentDate => Some(Special::CurrentDate),
        Kind::CurrentTime => Some(Special::CurrentTime),
        Kind::CurrentTimestamp => Some(Special::CurrentTimestamp),
        _ => None,
    }
}

// A default that a word of this kind is.
fn default_word(words: &mut Reader<'_>, kind: Kind) -> Result<Default, GrammarError>
    ensures { Reads (spec.default_word kind words.old) result words.new }
{
    words.take();
    match kind {
        Kind::True => Ok(Default::True),
        Kind::False => Ok(Default::False),
        Kind::Null => Ok(Default::Null),
        kind => match special_by(kind) {
            Some(special) => Ok(Default::Special(special)),
            None => Err(GrammarError::Syntax),
        },
    }
}

#[tactic(auto, unfolding(crate::specs::TypeParsers::unsigned_default))]
fn unsigned_default(alloc: Global, words: &mut Reader<'_>) -> Result<Default, GrammarError>
    ensures { Reads (spec.unsigned_default words.old) result words.new }
{
    if words.sees(Kind::Number) {
        let text = words.text(alloc, Kind::Number)?;
        return Ok(Default::Number { minus: false, text });
    }
    let kind = words.peek();
    default_word(words, kind)
}

/// The value after DEFAULT.
#[tactic(auto, unfolding(crate::specs::TypeParsers::default))]
pub fn default(alloc: Global, words: &mut Reader<'_>) -> Result<Default, GrammarError>
    ensures { Reads (spec.default words.old) result words.new }
{
    if words.sees(Kind::Literal) {
        return Ok(Default::Literal(words.text(alloc, Kind::Literal)?));
    }
    if words.eat(Kind::MinusSign) {
        let text = words.text(alloc, Kind::Number)?;
        return Ok(Default::Number { minus: true, text });
    }
    Ok(unsigned_default(alloc, words)?)
}
