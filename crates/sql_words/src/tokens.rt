ghost use Rattle.std.specs.Prelude.{◌≡◌, ◌<◌, ◌≤◌, ◌+◌, ◌-◌, ◌↔◌, ◌==◌, ◌&&◌, false, Some, length, take, drop, slice_index, IfOk, IfSome, IsTrue, IsUtf8};
ghost use Rattle.std.specs.Option.{option_map};
ghost use Rattle.std.specs.List.{prefix_len};
ghost use Rattle.sql_words.specs.Division as division;
ghost use Rattle.sql_words.specs.Words as spec;
ghost use Rattle.sql_words.specs.Tokens.{is_in, IsQuoted, IsToken};

use crate::scan::{is_run_byte, is_space};
use crate::word::{Symbol, Word};
use sql_names::Text;
use std::alloc::{AllocError, Global};

/// The most bytes of a plain word and of a quoted name.
const MOST_NAME_BYTES: usize = 128;
/// The most digits of a number.
const MOST_DIGITS: usize = 38;

// A word, and how many bytes of the text it has.
type Found = Option<(Word, usize)>;

// A class of bytes.
#[derive(Clone, Copy, Debug)]
pub enum Class {
    Digit,
    Run,
}

fn belongs(class: Class, byte: u8) -> bool
    ensures { result ≡ is_in class byte }
{
    match class {
        Class::Digit => byte.is_ascii_digit(),
        Class::Run => is_run_byte(byte),
    }
}

// How many bytes of the class stand at the front.
fn run_len(class: Class, text: &[u8]) -> usize
    ensures count { result ≡ prefix_len (is_in class) text.now }
    ensures within { result ≤ length text.now }
{
    for (index, byte) in text.iter().enumerate() {
        if !belongs(class, *byte) {
            return index;
        }
    }
    text.len()
}

// The byte at a place, or 0 behind the end.
fn byte_at(text: &[u8], at: usize) -> u8
    ensures value { result ≡ slice_index text.now at }
    ensures within { 0 < result → at < length text.now }
{
    if at < text.len() { text[at] } else { 0 }
}

// Whether these bytes are UTF-8.
fn is_text(bytes: &[u8]) -> bool
    ensures { IsTrue result ↔ IsUtf8 bytes.now }
{
    str::from_utf8(bytes).is_ok()
}

// How many bytes there are up to and with the first mark.
fn size_to(mark: u8, text: &[u8]) -> Option<usize>
    ensures size { result ≡ division.size_to mark text.now }
    ensures within { IfSome result (λ n. n ≤ length text.now) }
{
    for (index, byte) in text.iter().enumerate() {
        if *byte == mark {
            return Some(index + 1);
        }
    }
    None
}

// Whether these two bytes close a bracketed comment.
fn closes_bracket(byte: u8, next: u8) -> bool
    ensures value { result ≡ ((byte == 42) && (next == 47)) }
    ensures some { IsTrue result → 0 < next }
{
    byte == b'*' && next == b'/'
}

// How many bytes there are up to and with the first asterisk and solidus.
fn size_to_bracket(text: &[u8]) -> Option<usize>
    ensures size { result ≡ division.size_to_bracket text.now }
    ensures within { IfSome result (λ n. n ≤ length text.now) }
{
    for (index, byte) in text.iter().enumerate() {
        if closes_bracket(*byte, byte_at(text, index + 1)) {
            return Some(index + 2);
        }
    }
    None
}

/// How many bytes of white space or of a comment stand at the front.
pub fn gap(text: &[u8]) -> usize
    requires { 0 < length text.now }
    ensures count { result ≡ spec.gap text.now }
    ensures within { result ≤ length text.now }
{
    let first = text[0];
    let next = byte_at(text, 1);
    if is_space(first) {
        1
    } else if first == b'-' {
        if next == b'-' {
            simple_comment_len(&text[2..])
        } else {
            0
        }
    } else if first == b'/' {
        if next == b'*' {
            bracketed_comment_len(&text[2..])
        } else {
            0
        }
    } else {
        0
    }
}

// How many bytes a simple comment has, by what stands behind its minus signs.
fn simple_comment_len(text: &[u8]) -> usize
    ensures value { result ≡ (division.simple_comment text.now).size }
    ensures within { result ≤ length text.now + 2 }
{
    match size_to(b'\n', text) {
        Some(size) => size + 2,
        None => text.len() + 2,
    }
}

// How many bytes a bracketed comment has, by what stands behind its opening; none where it isn't closed.
fn bracketed_comment_len(text: &[u8]) -> usize
    ensures value { result ≡ spec.closed_size (division.bracketed_comment text.now) }
    ensures within { result ≤ length text.now + 2 }
{
    match size_to_bracket(text) {
        Some(size) => size + 2,
        None => 0,
    }
}

#[tactic(auto, unfolding(crate::specs::Words::plain_token))]
fn plain_token(alloc: Global, text: &[u8]) -> Result<Found, AllocError>
    requires { 0 < prefix_len division.is_run_byte text.now }
    ensures within { IfOk result (λ found. IfSome found (λ p. (0 < p.1) × (p.1 ≤ length text.now))) }
    ensures token { IfOk result (IsToken (spec.plain_token text.now)) }
{
    let size = run_len(Class::Run, text);
    if size > MOST_NAME_BYTES {
        return Ok(None);
    }
    let mut letters = Vec::from_slice(alloc, &text[..size])?;
    letters.make_ascii_uppercase();
    Ok(Some((Word::Plain(Text::from_vec(letters)), size)))
}

// How many digits stand behind a point at the front.
fn fraction(text: &[u8]) -> usize
    ensures count { result ≡ spec.fraction text.now }
    ensures within { result ≤ length text.now - 1 }
{
    if byte_at(text, 0) == b'.' {
        run_len(Class::Digit, &text[1..])
    } else {
        0
    }
}

// Whether a byte goes on with a word.
fn goes_on(byte: u8) -> bool
    ensures { result ≡ spec.goes_on byte }
{
    byte.is_ascii_alphabetic() || byte == b'_'
}

#[tactic(auto, unfolding(crate::specs::Words::number_token))]
fn number_token(alloc: Global, text: &[u8]) -> Result<Found, AllocError>
    requires { 0 < prefix_len (is_in Class.Digit) text.now }
    ensures within { IfOk result (λ found. IfSome found (λ p. (0 < p.1) × (p.1 ≤ length text.now))) }
    ensures token { IfOk result (IsToken (spec.number_token text.now)) }
{
    let whole = run_len(Class::Digit, text);
    let part = fraction(&text[whole..]);
    let size = if part == 0 { whole } else { whole + (part + 1) };
    if whole + part > MOST_DIGITS || goes_on(byte_at(text, size)) {
        return Ok(None);
    }
    Ok(Some((Word::Number(Text::of(alloc, &text[..size])?), size)))
}

// How many bytes there are behind an opening quote, up to and with the one that closes.
fn quoted_size(quote: u8, text: &[u8]) -> Option<usize>
    ensures size { result ≡ spec.quoted_size quote false text.now }
    ensures within { IfSome result (λ n. (0 < n) × (n ≤ length text.now)) }
{
    let mut behind = false;
    for (index, byte) in text.iter().enumerate() {
        if *byte == quote {
            behind = !behind;
        } else if behind {
            return Some(index);
        }
    }
    if behind { Some(text.len()) } else { None }
}

// The bytes, with each doubled quote as one.
fn undoubled(alloc: Global, quote: u8, bytes: &[u8]) -> Result<Vec<u8>, AllocError>
    ensures { IfOk result (λ inside. inside.items ≡ spec.undoubled quote false bytes.now) }
{
    let mut inside = Vec::with_capacity(alloc, bytes.len())?;
    let mut doubled = false;
    for byte in bytes {
        if doubled {
            doubled = false;
        } else {
            inside.push(*byte)?;
            doubled = *byte == quote;
        }
    }
    Ok(inside)
}

// The text between quotes, of which the first stands just before, and how many bytes it has with both.
fn quoted_text(
    alloc: Global,
    quote: u8,
    text: &[u8],
) -> Result<Option<(Vec<u8>, usize)>, AllocError>
    ensures within { IfOk result (λ found. IfSome found (λ p. (0 < p.1) × (p.1 ≤ length text.now + 1))) }
    ensures text { IfOk result (IsQuoted (spec.quoted_text quote text.now)) }
{
    match quoted_size(quote, text) {
        Some(size) => {
            let inside = undoubled(alloc, quote, &text[..size - 1])?;
            if is_text(&inside) {
                Ok(Some((inside, size + 1)))
            } else {
                Ok(None)
            }
        }
        None => Ok(None),
    }
}

fn literal_token(alloc: Global, text: &[u8]) -> Result<Found, AllocError>
    ensures within { IfOk result (λ found. IfSome found (λ p. (0 < p.1) × (p.1 ≤ length text.now + 1))) }
    ensures token { IfOk result (IsToken (spec.literal_token text.now)) }
{
    match quoted_text(alloc, b'\'', text)? {
        Some((inside, size)) => Ok(Some((Word::Literal(Text::from_vec(inside)), size))),
        None => Ok(None),
    }
}

fn quoted_token(alloc: Global, text: &[u8]) -> Result<Found, AllocError>
    ensures within { IfOk result (λ found. IfSome found (λ p. (0 < p.1) × (p.1 ≤ length text.now + 1))) }
    ensures token { IfOk result (IsToken (spec.quoted_token text.now)) }
{
    match quoted_text(alloc, b'"', text)? {
        Some((inside, size)) => {
            if inside.is_empty() || inside.len() > MOST_NAME_BYTES {
                Ok(None)
            } else {
                Ok(Some((Word::Quoted(Text::from_vec(inside)), size)))
            }
        }
        None => Ok(None),
    }
}

// A symbol, and how many bytes it has.
fn found(symbol: Symbol, size: usize) -> Found
    ensures value { result ≡ Some (Word.Symbol symbol, size) }
{
    Some((Word::Symbol(symbol), size))
}

// The longest symbol that begins with a byte, by the byte behind it.
#[tactic(auto, unfolding(crate::specs::Words::symbol_at))]
fn symbol_at(byte: u8, next: u8) -> Found
    ensures within { IfSome result (λ p. (0 < p.1) × (p.1 ≤ 2) × (1 < p.1 → 0 < next)) }
    ensures token { IsToken (spec.symbol_at byte next) result }
{
    match byte {
        b'(' => found(Symbol::LeftParen, 1),
        b')' => found(Symbol::RightParen, 1),
        b',' => found(Symbol::Comma, 1),
        b'.' => found(Symbol::Period, 1),
        b';' => found(Symbol::Semicolon, 1),
        b'=' => found(Symbol::Equals, 1),
        b'<' => match next {
            b'>' => found(Symbol::NotEquals, 2),
            b'=' => found(Symbol::LessThanOrEquals, 2),
            _ => found(Symbol::LessThan, 1),
        },
        b'>' => match next {
            b'=' => found(Symbol::GreaterThanOrEquals, 2),
            _ => found(Symbol::GreaterThan, 1),
        },
        b'+' => found(Symbol::PlusSign, 1),
        b'-' => found(Symbol::MinusSign, 1),
        b'*' => found(Symbol::Asterisk, 1),
        b'/' => match next {
            b'*' => None,
            _ => found(Symbol::Solidus, 1),
        },
        b'|' => match next {
            b'|' => found(Symbol::Concatenation, 2),
            _ => None,
        },
        _ => None,
    }
}

/// The longest token at the front of a text, and how many bytes it has.
#[tactic(auto, unfolding(crate::specs::Words::token))]
pub fn token(alloc: Global, text: &[u8]) -> Result<Found, AllocError>
    requires { 0 < length text.now }
    ensures within { IfOk result (λ found. IfSome found (λ p. (0 < p.1) × (p.1 ≤ length text.now))) }
    ensures token { IfOk result (IsToken (spec.token text.now)) }
{
    let first = text[0];
    if first.is_ascii_alphabetic() {
        plain_token(alloc, text)
    } else if first.is_ascii_digit() {
        number_token(alloc, text)
    } else if first == b'\'' {
        literal_token(alloc, &text[1..])
    } else if first == b'"' {
        quoted_token(alloc, &text[1..])
    } else {
        Ok(symbol_at(first, byte_at(text, 1)))
    }
}
