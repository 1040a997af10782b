ghost use Rattle.std.specs.Prelude.{◌≡◌, Ok, MatchResult};
ghost use Rattle.sql_words.specs.Failing.{FailsAt};
ghost use Rattle.sql_words.specs.Words.{words_of};

use crate::tokens::{gap, token};
use crate::word::Word;
use std::alloc::Global;
use thiserror::Error;

/// Why a text has no words.
#[derive(Debug, Drop, Error)]
pub enum WordsError {
    /// The first piece that is no token begins at this byte of the text, counted from 0.
    #[error("no token at byte {offset}")]
    BadToken { offset: usize },
    #[error("out of memory")]
    Memory,
}

/// The words of a text: the tokens of SQL:2003 that this profile has, from left to right, without white space and comments.
pub fn words(alloc: Global, text: &[u8]) -> Result<Vec<Word>, WordsError>
    ensures { MatchResult result (λ words. words_of text.now ≡ Ok words.items) (FailsAt (words_of text.now)) }
{
    let mut words = Vec::new(alloc);
    let mut at = 0;
    while at < text.len() {
        let between = gap(&text[at..]);
        if between > 0 {
            at += between;
        } else {
            match token(alloc, &text[at..]) {
                Ok(Some((word, size))) => match words.push(word) {
                    Ok(()) => at += size,
                    Err(_) => return Err(WordsError::Memory),
                },
                Ok(None) => return Err(WordsError::BadToken { offset: at }),
                Err(_) => return Err(WordsError::Memory),
            }
        }
    }
    Ok(words)
}
