//! The words that are left to read.

ghost use Rattle.std.specs.Prelude.{◌≡◌, length};
ghost use Rattle.sql_phrases.specs.Reading as spec;
ghost use Rattle.sql_phrases.specs.Parsers as parsers;
ghost use Rattle.sql_phrases.specs.Parsers.{Reads};

use crate::error::GrammarError;
use sql_tree::Text;
use sql_words::{Kind, Word, kind_of, same_kind, text_of};
use std::alloc::Global;
use std::marker::Model;

// The kind of the first of these words.
fn first_kind(words: &[Word]) -> Kind
    ensures { result ≡ spec.peek words.now }
{
    match words {
        [] => Kind::EndOfText,
        [word, ..] => kind_of(word),
    }
}

/// The words that are left, with the kind of the next one.
#[derive(Drop)]
pub struct Reader<'a> {
    left: &'a [Word],
    kind: Kind,
}

impl<'a> Model for Reader<'a> {
    ghost use Rattle.std.specs.Prelude.{List, ◌≡◌};
    ghost use Rattle.sql_words.specs.declared.word.Word.{Word};
    ghost use Rattle.sql_phrases.specs.Reading.{peek};

    ghost Value = { List Word };

    ghost view = { λ r. r.left.now };

    ghost invariant = { λ r. r.kind ≡ peek r.left.now };
}

impl<'a> Reader<'a> {
    pub fn new(words: &'a [Word]) -> Reader<'a>
        ensures { result ≡ words.now }
    {
        Reader {
            left: words,
            kind: first_kind(words),
        }
    }

    pub fn left(&self) -> &'a [Word]
        ensures { result.now ≡ self.now }
    {
        self.left
    }

    pub fn len(&self) -> usize
        ensures { result ≡ length self.now }
    {
        self.left.len()
    }

    /// The kind of the next word.
    pub fn peek(&self) -> Kind
        ensures { result ≡ spec.peek self.now }
    {
        self.kind
    }

    /// The kind of the word after the next.
    pub fn peek_after(&self) -> Kind
        ensures { result ≡ spec.peek (spec.next self.now) }
    {
        match self.left {
            [] => Kind::EndOfText,
            [_, rest @ ..] => first_kind(rest),
        }
    }

    /// The kind of the second word after the next.
    pub fn peek_third(&self) -> Kind
        ensures { result ≡ spec.peek (spec.next (spec.next self.now)) }
    {
        match self.left {
            [] => Kind::EndOfText,
            [_] => Kind::EndOfText,
            [_, _, rest @ ..] => first_kind(rest),
        }
    }

    #[tactic(auto, unfolding(crate::specs::Reading::sees))]
    pub fn sees(&self, kind: Kind) -> bool
        ensures { result ≡ spec.sees kind self.now }
    {
        same_kind(self.peek(), kind)
    }

    /// The text of the next word, which it passes over.
    pub fn take(&mut self) -> &'a [u8]
        ensures text { result.now ≡ spec.spelling self.old }
        ensures left { self.new ≡ spec.next self.old }
    {
        match self.left {
            [] => &[],
            [word, rest @ ..] => {
                *self = Reader::new(rest);
                text_of(word)
            }
        }
    }

    /// Passes over the next word, if it is of this kind.
    #[tactic(auto, unfolding(crate::specs::Reading::after))]
    pub fn eat(&mut self, kind: Kind) -> bool
        ensures eaten { result ≡ spec.sees kind self.old }
        ensures left { self.new ≡ spec.after kind self.old }
    {
        if !self.sees(kind) {
            return false;
        }
        self.take();
        true
    }

    /// The text of the next word, which is of this kind.
    #[tactic(auto, unfolding(crate::specs::Parsers::text))]
    pub fn text(&mut self, alloc: Global, kind: Kind) -> Result<Text, GrammarError>
        ensures { Reads (parsers.text kind self.old) result self.new }
    {
        if !self.sees(kind) {
            return Err(GrammarError::Syntax);
        }
        Ok(Text::of(alloc, self.take())?)
    }

    /// One more bracket, of which this many may still be opened.
    #[tactic(auto, unfolding(crate::specs::Parsers::opening))]
    pub fn open(&mut self, depth: usize) -> Result<(), GrammarError>
        ensures { Reads (parsers.opening depth self.old) result self.new }
    {
        if depth == 0 {
            return Err(GrammarError::Syntax);
        }
        self.expect(Kind::LeftParen)
    }

    /// Passes over the next word, which is of this kind.
    #[tactic(auto, unfolding(crate::specs::Parsers::expect))]
    pub fn expect(&mut self, kind: Kind) -> Result<(), GrammarError>
        ensures { Reads (parsers.expect kind self.old) result self.new }
    {
        if self.sees(kind) {
            self.take();
            Ok(())
        } else {
            Err(GrammarError::Syntax)
        }
    }
}
