//! What the grammar sees of a word.

ghost use Rattle.std.specs.Prelude.{◌≡◌};
ghost use Rattle.sql_words.specs.Kinds as spec;

use crate::word::{Symbol, Word};
use sql_spelling::{Kind, keyword};

fn symbol_kind(symbol: Symbol) -> Kind
    ensures { result ≡ spec.symbol_kind symbol }
{
    match symbol {
        Symbol::LeftParen => Kind::LeftParen,
        Symbol::RightParen => Kind::RightParen,
        Symbol::Comma => Kind::Comma,
        Symbol::Period => Kind::Period,
        Symbol::Semicolon => Kind::Semicolon,
        Symbol::Equals => Kind::Equals,
        Symbol::NotEquals => Kind::NotEquals,
        Symbol::LessThan => Kind::LessThan,
        Symbol::LessThanOrEquals => Kind::LessThanOrEquals,
        Symbol::GreaterThan => Kind::GreaterThan,
        Symbol::GreaterThanOrEquals => Kind::GreaterThanOrEquals,
        Symbol::PlusSign => Kind::PlusSign,
        Symbol::MinusSign => Kind::MinusSign,
        Symbol::Asterisk => Kind::Asterisk,
        Symbol::Solidus => Kind::Solidus,
        Symbol::Concatenation => Kind::Concatenation,
    }
}

/// What the grammar sees of a word. A plain word that is a keyword has the keyword's kind, reserved or not.
pub fn kind_of(word: &Word) -> Kind
    ensures { result ≡ spec.kind_of word.now }
{
    match word {
        Word::Plain(text) => keyword(text.bytes()),
        Word::Quoted(_) => Kind::Name,
        Word::Literal(_) => Kind::Literal,
        Word::Number(_) => Kind::Number,
        Word::Symbol(symbol) => symbol_kind(*symbol),
    }
}

/// The text of a word: a symbol has none.
pub fn text_of(word: &Word) -> &[u8]
    ensures { result.now ≡ spec.text_of word.now }
{
    match word {
        Word::Plain(text) | Word::Quoted(text) | Word::Literal(text) | Word::Number(text) => {
            text.bytes()
        }
        Word::Symbol(_) => &[],
    }
}
