ghost use Rattle.std.specs.Prelude.{◌≡◌, ◌≤◌, ◌<◌, ◌+◌, ◌^◌, ◌∷◌, [], length, None, take, OnOk, OnErr, IfOk, IfErr};
ghost use Rattle.cat_engine.specs.Runs.{missed};
ghost use Rattle.cat_items.specs.Good.{IsGood};
ghost use Rattle.sql_words.specs.Stream.{rest_from};
ghost use Rattle.sessions.specs.Calls.{IsApplied};
ghost use Rattle.sessions.specs.Runs as runs;
ghost use Rattle.sessions.specs.Runs.{Answered, Broke, Overran};
ghost use Rattle.sessions.specs.Script.{ScriptCompletes, Script, io};
ghost use Rattle.sessions.specs.Stops.{Stops};
ghost use Rattle.svc_io.specs.Bytes.{Gave, IsEmpty};
ghost use Rattle.svc_io.specs.Faults.{HasCause, Rose};

use crate::answerer::Answerer;
use crate::print::write_reply;
use cat_engine::{Book, Reply};
use cat_items::Limits;
use sql_words::{Fed, Splitter};
use svc_io::{Failed, Sink, Source};

/// How many bytes are taken at a time.
pub const PIECE: usize = 4096;

/// How a script or a session ended.
#[derive(Clone, Copy, Debug, PartialEq, Eq)]
pub enum Ended {
    Done,
    ReadFault,
    WriteFault,
    TooLong,
    Unfinished,
}

/// How a script ended, and how many of its statements memory ran out for.
#[derive(Clone, Copy, Debug, PartialEq, Eq)]
pub struct Ran {
    pub ended: Ended,
    pub missed: u64,
}

// How many statements a reply counts for that memory ran out for.
fn misses(reply: &Reply) -> u64
    ensures count { result ≡ missed (reply.now ∷ []) }
    ensures few { result ≤ 1 }
{
    match reply {
        Reply::OutOfMemory => 1,
        Reply::Ok
        | Reply::Warn(_)
        | Reply::Rows(_)
        | Reply::Refused(_)
        | Reply::JournalFull { .. } => 0,
    }
}

// Runs one text, and writes its reply.
fn run_text<With, A: Answerer<With>, W: Sink>(
    answerer: &mut A,
    with: &With,
    text: &[u8],
    sink: &mut W,
    missed: &mut u64,
) -> Result<(), Failed>
    requires fits { A.fits with.now answerer.old }
    requires short { length text.now ≤ 65535 }
    requires room { missed.old + 1 < 2 ^ 64 }
    ensures fits { A.fits with.now answerer.new }
    ensures answered { Answered A.steps answerer.old text.now answerer.new (W.given sink.old) (W.given sink.new) missed.old missed.new result }
    ensures count { (missed.old ≤ missed.new) × (missed.new ≤ missed.old + 1) }
    ensures cause { HasCause (W.faults sink.old) (W.faults sink.new) result }
    ensures beside { W.beside sink.new ≡ W.beside sink.old }
{
    let reply = answerer.answer(with, text);
    *missed += misses(&reply);
    write_reply(sink, &reply)
}

// Runs the texts that end in a piece.
pub fn run_piece<With, A: Answerer<With>, W: Sink>(
    answerer: &mut A,
    with: &With,
    splitter: &mut Splitter,
    sink: &mut W,
    piece: &[u8],
    missed: &mut u64,
) -> Result<(), Ended>
    requires fits { A.fits with.now answerer.old }
    requires room { missed.old + length piece.now < 2 ^ 64 }
    ensures fits { A.fits with.now answerer.new }
    ensures ok { OnOk result (runs.Ran A.steps answerer.old splitter.old.held piece.now answerer.new (W.given sink.old) (W.given sink.new) missed.old missed.new) }
    ensures rest { OnOk result (splitter.new.held ≡ rest_from splitter.old.held piece.now) }
    ensures stop { IfErr result (λ ended. Stops ended (Overran A.steps answerer.old splitter.old.held piece.now answerer.new (W.given sink.old) (W.given sink.new) missed.old missed.new)
        (Broke A.steps answerer.old splitter.old.held piece.now answerer.new (W.given sink.old) (W.given sink.new) missed.old missed.new)) }
    ensures fault { IfErr result (λ ended. ended ≡ Ended.WriteFault → Rose (W.faults sink.old) (W.faults sink.new)) }
    ensures count { (missed.old ≤ missed.new) × (missed.new ≤ missed.old + length piece.now) }
    ensures later { W.faults sink.old ≤ W.faults sink.new }
    ensures beside { W.beside sink.new ≡ W.beside sink.old }
{
    let mut at = 0;
    while at < piece.len() {
        match splitter.feed(&piece[at..]) {
            Fed::Statement { used } => {
                if let Err(_) = run_text(answerer, with, splitter.statement(), sink, missed) {
                    return Err(Ended::WriteFault);
                }
                at += used;
            }
            Fed::NeedMore => return Ok(()),
            Fed::TooLong => return Err(Ended::TooLong),
        }
    }
    Ok(())
}

// Takes a piece, of at most one byte more than there is room for.
pub fn take_piece<S: Source>(source: &mut S, buffer: &mut [u8], room: u64) -> Result<usize, Failed>
    requires { 0 < length buffer.old }
    ensures bound { IfOk result (λ count. (count ≤ length buffer.new) × (count ≤ room + 1)) }
    ensures bytes { IfOk result (λ count. Gave (S.left source.old) (take count buffer.new) (S.left source.new)) }
    ensures end { IfOk result (λ count. count ≡ 0 → IsEmpty (S.left source.new)) }
    ensures err { OnErr result (S.left source.new ≡ S.left source.old) }
    ensures cause { HasCause (S.faults source.old) (S.faults source.new) result }
    ensures beside { S.beside source.new ≡ S.beside source.old }
{
    let most = room.saturating_add(1).min(buffer.len() as u64) as usize;
    source.take(&mut buffer[..most])
}

// Runs the statements of a source to one of the ends of a script.
fn run_stream<S: Source, W: Sink>(
    book: &mut Book,
    splitter: &mut Splitter,
    source: &mut S,
    sink: &mut W,
    limits: &Limits,
) -> Ran
    requires { splitter.old ≡ record { held = []; last = None } }
    ensures script { Script IsApplied result.ended limits.now.stream book.old book.new
        (io (S.left source.old) (W.given sink.old)) (io (S.left source.new) (W.given sink.new)) result.missed }
    ensures read_fault { result.ended ≡ Ended.ReadFault → Rose (S.faults source.old) (S.faults source.new) }
    ensures write_fault { result.ended ≡ Ended.WriteFault → Rose (W.faults sink.old) (W.faults sink.new) }
    ensures source_later { S.faults source.old ≤ S.faults source.new }
    ensures sink_later { W.faults sink.old ≤ W.faults sink.new }
    ensures source_beside { S.beside source.new ≡ S.beside source.old }
    ensures sink_beside { W.beside sink.new ≡ W.beside sink.old }
{
    let mut buffer = [0u8; PIECE];
    let mut missed = 0;
    let mut room = limits.stream;
    loop {
        let count = match take_piece(source, &mut buffer, room) {
            Ok(count) => count,
            Err(_) => return Ran {
                ended: Ended::ReadFault,
                missed,
            },
        };
        if count == 0 {
            if splitter.blank() {
                return Ran {
                    ended: Ended::Done,
                    missed,
                };
            }
            return Ran {
                ended: Ended::Unfinished,
                missed,
            };
        }
        let kept = (count as u64).min(room);
        match run_piece(
            book,
            &(),
            splitter,
            sink,
            &buffer[..kept as usize],
            &mut missed,
        ) {
            Ok(()) => {}
            Err(ended) => return Ran { ended, missed },
        }
        if kept < count as u64 {
            return Ran {
                ended: Ended::TooLong,
                missed,
            };
        }
        room -= kept;
    }
}

/// Runs the statements of a source, as session 0, and writes each reply before it takes more. Beside
/// what each statement takes it needs no memory.
///
/// A statement has at most 65,536 bytes with its semicolon, and a stream as many as `limits` say: where
/// a byte comes for which there is no room, the script ends with `TooLong`, and what stands before the
/// place was run and answered. It ends with `Unfinished` where more than white space stands after the
/// last semicolon.
pub fn run_script<S: Source, W: Sink>(
    book: &mut Book,
    splitter: &mut Splitter,
    source: &mut S,
    sink: &mut W,
    limits: &Limits,
) -> Ran
    requires { splitter.old ≡ record { held = []; last = None } }
    ensures script { Script IsApplied result.ended limits.now.stream book.old book.new
        (io (S.left source.old) (W.given sink.old)) (io (S.left source.new) (W.given sink.new)) result.missed }
    ensures read_fault { result.ended ≡ Ended.ReadFault → Rose (S.faults source.old) (S.faults source.new) }
    ensures write_fault { result.ended ≡ Ended.WriteFault → Rose (W.faults sink.old) (W.faults sink.new) }
    ensures complete { ScriptCompletes result.ended limits.now.stream (S.left source.old)
        (Rose (S.faults source.old) (S.faults source.new)) (Rose (W.faults sink.old) (W.faults sink.new)) }
    ensures source_later { S.faults source.old ≤ S.faults source.new }
    ensures sink_later { W.faults sink.old ≤ W.faults sink.new }
    ensures source_beside { S.beside source.new ≡ S.beside source.old }
    ensures sink_beside { W.beside sink.new ≡ W.beside sink.old }
    ensures good { IsGood book.new.content.catalogue }
{
    let ran = run_stream(book, splitter, source, sink, limits);
    let _good = book.catalogue();
    ran
}
