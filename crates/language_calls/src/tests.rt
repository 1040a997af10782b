use crate::shop::SHOP;
use crate::statements::{REFUSED, STATEMENTS};
use crate::texts::{CONDITIONS, EXPRESSIONS, NAMES, QUERIES, STREAMS, WORDS};
use sql_grammar::{GrammarError, statement};
use sql_text::{print_body, print_expr, print_name, print_query};
use sql_tree::{Behaviour, Name, Statement, Text};
use sql_words::{Fed, Splitter, Word, WordsError, words};
use std::alloc::{AllocError, Global};
use std::process::Abort;
use std::test::Fail;

/// What the texts of a table are: a part of a statement stands between two texts that make it whole.
#[derive(Clone, Copy)]
enum Kind {
    Words,
    Stream,
    Name,
    Part(&'static str, &'static str),
}

const STATEMENT: Kind = Kind::Part("", "");

const EXPRESSION: Kind = Kind::Part("CREATE ASSERTION N CHECK (", ")");

const CONDITION: Kind = Kind::Part("CREATE DOMAIN N INTEGER CHECK (", ")");

const QUERY: Kind = Kind::Part("CREATE VIEW N AS ", "");

/// The bytes that a text stands for: a line feed for `¶`, and else each character's number.
fn bytes_of(alloc: Global, text: &str) -> Result<Text, Fail> {
    let mut bytes = Text::new(alloc);
    for c in text.chars() {
        bytes.push(if c == '¶' {
            b'\n'
        } else {
            u8::try_from(u32::from(c))?
        })?;
    }
    Ok(bytes)
}

fn utf8(text: &Text) -> &str {
    str::from_utf8(text.bytes()).unwrap_or("not UTF-8")
}

fn said(alloc: Global, text: &str) -> Result<Text, Fail> {
    Ok(Text::of(alloc, text.as_bytes())?)
}

fn put_word(alloc: Global, out: &mut Text, word: &Word) -> Result<(), Fail> {
    let (front, text, back): (&[u8], &Text, &[u8]) = match word {
        Word::Plain(text) => (b"", text, b""),
        Word::Quoted(text) => (b"\"", text, b"\""),
        Word::Literal(text) => (b"'", text, b"'"),
        Word::Number(text) => (b"#", text, b""),
        Word::Symbol(symbol) => {
            out.push_all(format!(in alloc; "{symbol:?}")?.as_bytes())?;
            return Ok(());
        }
    };
    out.push_all(front)?;
    out.push_all(text.bytes())?;
    out.push_all(back)?;
    Ok(())
}

fn told_words(alloc: Global, text: &[u8]) -> Result<Text, Fail> {
    let mut out = Text::new(alloc);
    match words(alloc, text) {
        Ok(found) => {
            for word in &found {
                if !out.bytes().is_empty() {
                    out.push(b' ')?;
                }
                put_word(alloc, &mut out, word)?;
            }
        }
        Err(WordsError::BadToken { offset }) => {
            out.push_all(format!(in alloc; "bad at {offset}")?.as_bytes())?;
        }
        Err(WordsError::Memory) => return Err("memory")?,
    }
    Ok(out)
}

/// The texts that end in a stream of two pieces, each in angle brackets, and what is held at its end.
fn divided(alloc: Global, pieces: [&[u8]; 2]) -> Result<Text, Fail> {
    let mut splitter = Splitter::new(alloc)?;
    let mut out = Text::new(alloc);
    for piece in pieces {
        let mut left = piece;
        for _turn in 0..piece.len() {
            let Fed::Statement { used } = splitter.feed(left) else {
                break;
            };
            out.push(b'<')?;
            out.push_all(splitter.statement())?;
            out.push(b'>')?;
            left = &left[used..];
        }
    }
    out.push_all(if splitter.blank() { b"blank" } else { b"held" })?;
    Ok(out)
}

/// How a stream is divided, where it is divided alike at each cut.
fn told_stream(alloc: Global, stream: &[u8]) -> Result<Text, Fail> {
    let whole = divided(alloc, [stream, b""])?;
    for at in 0..stream.len() {
        let (front, back) = stream.split_at(at);
        if divided(alloc, [front, back])?.bytes() != whole.bytes() {
            return said(alloc, "another division");
        }
    }
    Ok(whole)
}

fn told_name(alloc: Global, text: &[u8]) -> Result<Text, Fail> {
    match Name::of(alloc, text)? {
        Some(name) => Ok(print_name(alloc, &name.copy()?)?),
        None => said(alloc, "no name"),
    }
}

/// The behaviour of a statement, or the query, condition or body that it defines.
fn shown(alloc: Global, tree: &Statement) -> Result<Text, AllocError> {
    match tree {
        Statement::CreateView(view) => print_query(alloc, &view.query),
        Statement::CreateAssertion(assertion) => print_expr(alloc, &assertion.condition),
        Statement::CreateFunction(function) => print_body(alloc, &function.body),
        Statement::CreateProcedure(procedure) => print_body(alloc, &procedure.body),
        Statement::CreateDomain(domain) => match domain.checks.as_slice() {
            [check, ..] => print_expr(alloc, &check.condition),
            [] => Text::of(alloc, b"tree"),
        },
        Statement::DropObject(dropped) => shown_behaviour(alloc, dropped.behaviour),
        Statement::DropSchema { behaviour, .. } => shown_behaviour(alloc, *behaviour),
        _ => Text::of(alloc, b"tree"),
    }
}

fn shown_behaviour(alloc: Global, behaviour: Behaviour) -> Result<Text, AllocError> {
    match behaviour {
        Behaviour::Restrict => Text::of(alloc, b"RESTRICT"),
        Behaviour::Cascade => Text::of(alloc, b"CASCADE"),
    }
}

fn told_tree(alloc: Global, tree: &Statement) -> Result<Text, Fail> {
    Ok(shown(alloc, tree)?)
}

/// What a statement's tree shows, or the refusal.
fn told_statement(alloc: Global, text: &[u8]) -> Result<Text, Fail> {
    let Ok(found) = words(alloc, text) else {
        return Err("no words")?;
    };
    match statement(alloc, &found) {
        Ok(tree) => told_tree(alloc, &tree),
        Err(GrammarError::Syntax) => said(alloc, "syntax"),
        Err(GrammarError::NotInProfile) => said(alloc, "not in profile"),
        Err(GrammarError::Memory) => Err("memory")?,
    }
}

fn told_part(alloc: Global, front: &str, text: &[u8], back: &str) -> Result<Text, Fail> {
    let mut whole = Text::new(alloc);
    whole.push_all(front.as_bytes())?;
    whole.push_all(text)?;
    whole.push_all(back.as_bytes())?;
    told_statement(alloc, whole.bytes())
}

fn told(alloc: Global, kind: Kind, text: &[u8]) -> Result<Text, Fail> {
    match kind {
        Kind::Words => told_words(alloc, text),
        Kind::Stream => told_stream(alloc, text),
        Kind::Name => told_name(alloc, text),
        Kind::Part(front, back) => told_part(alloc, front, text, back),
    }
}

/// Each text of a table gives what stands behind it, or itself.
fn hold(rt: &impl Abort, alloc: Global, kind: Kind, rows: &str) -> Result<(), Fail> {
    for row in rows.lines() {
        let (text, gives) = row.split_once(" => ").unwrap_or((row, row));
        let found = told(alloc, kind, bytes_of(alloc, text)?.bytes())?;
        assert_eq!(rt; utf8(&found), utf8(&bytes_of(alloc, gives)?), "{text}");
    }
    Ok(())
}

#[test]
fn texts_have_their_words_and_ends(rt: HostRuntime) -> Result<(), Fail> {
    hold(&rt, rt.alloc(), Kind::Words, WORDS)?;
    hold(&rt, rt.alloc(), Kind::Stream, STREAMS)
}

#[test]
fn names_expressions_and_queries_are_printed(rt: HostRuntime) -> Result<(), Fail> {
    hold(&rt, rt.alloc(), Kind::Name, NAMES)?;
    hold(&rt, rt.alloc(), EXPRESSION, EXPRESSIONS)?;
    hold(&rt, rt.alloc(), CONDITION, CONDITIONS)?;
    hold(&rt, rt.alloc(), QUERY, QUERIES)
}

#[test]
fn each_kind_of_statement_has_a_tree(rt: HostRuntime) -> Result<(), Fail> {
    hold(&rt, rt.alloc(), STATEMENT, STATEMENTS)
}

#[test]
fn a_broken_rule_is_refused(rt: HostRuntime) -> Result<(), Fail> {
    hold(&rt, rt.alloc(), STATEMENT, REFUSED)
}

/// What is nested in itself: what opens it, what stands inside, what closes it, and how often that may be in a CHECK.
const NESTS: [(&str, &str, &str, usize); 11] = [
    ("(", "A", ")", 63),
    ("F(", "A", ")", 63),
    ("MAX(", "A", ")", 63),
    ("- (", "A OR (B)", ") AND (C)", 62),
    ("A IN (", "A", ")", 63),
    ("CASE WHEN A THEN ", "A", " END", 63),
    ("CAST(", "A", " AS TIME(0))", 62),
    ("(SELECT A FROM T WHERE ", "A", ")", 63),
    ("(", "COUNT(*)", ")", 62),
    ("(", "CAST(A AS TIME)", ")", 62),
    ("(", "CAST(A AS TIME(0))", ")", 61),
];

/// What a text gives that is nested so many times.
fn nested(alloc: Global, times: usize, parts: [&str; 3]) -> Result<Text, Fail> {
    let mut text = Text::new(alloc);
    for _ in 0..times {
        text.push_all(parts[0].as_bytes())?;
    }
    text.push_all(parts[1].as_bytes())?;
    for _ in 0..times {
        text.push_all(parts[2].as_bytes())?;
    }
    told(alloc, EXPRESSION, text.bytes())
}

#[test]
fn a_65th_open_bracket_is_refused(rt: HostRuntime) -> Result<(), Fail> {
    let alloc = rt.alloc();
    for (open, inner, close, most) in NESTS {
        let fits = nested(alloc, most, [open, inner, close])?;
        let over = nested(alloc, most + 1, [open, inner, close])?;
        let refused = [utf8(&fits) == "syntax", utf8(&over) == "syntax"];
        assert_eq!(rt; refused, [false, true], "{open}");
    }
    Ok(())
}

/// How many statements a script has before the first that is refused.
fn trees_of(alloc: Global, script: &[u8]) -> Result<usize, Fail> {
    let mut splitter = Splitter::new(alloc)?;
    let mut rest = script;
    for count in 0..script.len() {
        let Fed::Statement { used } = splitter.feed(rest) else {
            return Ok(count);
        };
        if utf8(&told_statement(alloc, splitter.statement())?) == "syntax" {
            return Ok(count);
        }
        rest = &rest[used..];
    }
    Ok(script.len())
}

#[test]
fn each_statement_of_a_shop_has_a_tree(rt: HostRuntime) -> Result<(), Fail> {
    assert_eq!(rt; trees_of(rt.alloc(), SHOP.as_bytes())?, 40);
    Ok(())
}
