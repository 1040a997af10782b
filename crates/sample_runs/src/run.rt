//! The run of a sample.

ghost use Rattle.std.specs.Prelude.{◌≡◌, ◌≢◌, ◌≤◌, ◌∷◌, [], length, All, AllPairs, IfOk};
ghost use Rattle.cat_items.specs.Shape.{IsAuthorizationName};
ghost use Rattle.sessions.specs.EngineRuns.{missed};
ghost use Rattle.sessions.specs.Calls.{IsApplied};
ghost use Rattle.sessions.specs.Runs.{Run};
ghost use Rattle.svc_io.specs.Faults.{Rose};
ghost use Rattle.sample_runs.specs.Sampled.{IsSummary, Sampled};

use crate::summary::summary;
use cat_items::Limits;
use sample_texts::sample_texts;
use sessions::{Answerer, Book, Reply, Status};
use sql_tree::{Name, Text};
use std::alloc::{AllocError, Global};
use svc_io::{Sink, put_all};

// Answers a text of session 0.
fn run_text(book: &mut Book, text: &[u8]) -> Result<Reply, AllocError>
    requires { length text.now ≤ 65535 }
    ensures step { IfOk result (λ reply. IsApplied book.old text.now reply book.new) }
    ensures enough { IfOk result (λ reply. missed (reply ∷ []) ≡ 0) }
{
    match book.answer(&(), text) {
        Reply::OutOfMemory => Err(AllocError),
        reply => Ok(reply),
    }
}

// Answers these texts, one after the other.
fn run_all(alloc: Global, book: &mut Book, texts: &[Text]) -> Result<Vec<Reply>, AllocError>
    requires { All (λ text. length text ≤ 65535) texts.now }
    ensures run { IfOk result (λ replies. Run IsApplied book.old texts.now replies.items book.new) }
    ensures enough { IfOk result (λ replies. missed replies.items ≡ 0) }
{
    let mut replies = Vec::new(alloc);
    for text in texts {
        replies.push(run_text(book, text.bytes())?)?;
    }
    Ok(replies)
}

// Runs the script of a sample on a book of its own.
fn summary_of(alloc: Global, users: &Vec<Name>, seed: u64, count: u32) -> Result<Text, AllocError>
    requires some { 1 ≤ length users.now.items }
    requires distinct { AllPairs (λ a b. a ≢ b) users.now.items }
    requires allowed { All IsAuthorizationName users.now.items }
    ensures { IfOk result (IsSummary users.now.items seed count) }
{
    let script = sample_texts(alloc, users.as_slice(), seed, count)?;
    let mut book = Book::new(alloc, users, Limits::standard())?;
    let replies = run_all(alloc, &mut book, script.texts())?;
    summary(alloc, replies.as_slice(), book.catalogue().items().len())
}

/// Runs the script of a sample (`sample_texts`) on a book of these users, under the standard limits, and writes how it went: six lines,
/// with the number of its statements, of its replies of each kind, and of the items of the catalogue behind it.
///
/// `OutOfMemory` comes where memory ran out, for a statement too, with nothing written; `WriteFault` where the sink failed.
pub fn sample<W: Sink>(
    alloc: Global,
    users: &Vec<Name>,
    seed: u64,
    count: u32,
    sink: &mut W,
) -> Status
    requires some { 1 ≤ length users.now.items }
    requires distinct { AllPairs (λ a b. a ≢ b) users.now.items }
    requires allowed { All IsAuthorizationName users.now.items }
    ensures sampled { Sampled users.now.items seed count result (W.given sink.old) (W.given sink.new) }
    ensures still { result ≡ Status.OutOfMemory → sink.new ≡ sink.old }
    ensures fault { result ≡ Status.WriteFault → Rose (W.faults sink.old) (W.faults sink.new) }
{
    match summary_of(alloc, users, seed, count) {
        Ok(text) => match put_all(sink, text.bytes()) {
            Ok(()) => Status::Done,
            Err(_) => Status::WriteFault,
        },
        Err(_) => Status::OutOfMemory,
    }
}
