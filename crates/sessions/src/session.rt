//! One session: the texts of a connection, answered by a book that sessions share.

ghost use Rattle.std.specs.Prelude.{◌≡◌, ◌≤◌, ◌<◌, ◌+◌, ◌^◌, [], length, None, take, OnOk, OnErr, IfOk, IfErr};
ghost use Rattle.sql_words.specs.Stream.{rest_from};
ghost use Rattle.svc_io.specs.Bytes.{Gave, IsEmpty};
ghost use Rattle.svc_io.specs.Faults.{HasCause, Rose};
ghost use Rattle.sessions.specs.Runs as runs;
ghost use Rattle.sessions.specs.Runs.{Broke, Overran};
ghost use Rattle.sessions.specs.Script.{Script, io};
ghost use Rattle.sessions.specs.Sessions.{IsServed};
ghost use Rattle.sessions.specs.Stops.{Stops};

use crate::answerer::{Answerer, Turn};
use crate::script::{Ended, PIECE, Ran, run_piece, take_piece};
use cat_engine::Book;
use cat_items::Limits;
use catalog_lock::{Pass, Shared};
use sql_words::Splitter;
use std::sync::Wait;
use svc_io::{Failed, Line};

// Takes a piece of a connection, which leaves what its sink was given.
fn take_from<C: Line>(conn: &mut C, buffer: &mut [u8], room: u64) -> Result<usize, Failed>
    requires { 0 < length buffer.old }
    ensures bound { IfOk result (λ count. (count ≤ length buffer.new) × (count ≤ room + 1)) }
    ensures bytes { IfOk result (λ count. Gave (C.left conn.old) (take count buffer.new) (C.left conn.new)) }
    ensures end { IfOk result (λ count. count ≡ 0 → IsEmpty (C.left conn.new)) }
    ensures err { OnErr result (C.left conn.new ≡ C.left conn.old) }
    ensures cause { HasCause (C.Source.faults conn.old) (C.Source.faults conn.new) result }
    ensures given { C.given conn.new ≡ C.given conn.old }
    ensures put_faults { C.Sink.faults conn.new ≡ C.Sink.faults conn.old }
{
    conn.apart();
    let taken = take_piece(conn, buffer, room);
    conn.apart();
    taken
}

// Runs the texts that end in a piece of a connection, which leaves what its source has left.
fn run_on<With, A: Answerer<With>, C: Line>(
    answerer: &mut A,
    with: &With,
    splitter: &mut Splitter,
    conn: &mut C,
    piece: &[u8],
    missed: &mut u64,
) -> Result<(), Ended>
    requires fits { A.fits with.now answerer.old }
    requires room { missed.old + length piece.now < 2 ^ 64 }
    ensures fits { A.fits with.now answerer.new }
    ensures ok { OnOk result (runs.Ran A.steps answerer.old splitter.old.held piece.now answerer.new (C.given conn.old) (C.given conn.new) missed.old missed.new) }
    ensures rest { OnOk result (splitter.new.held ≡ rest_from splitter.old.held piece.now) }
    ensures stop { IfErr result (λ ended. Stops ended (Overran A.steps answerer.old splitter.old.held piece.now answerer.new (C.given conn.old) (C.given conn.new) missed.old missed.new)
        (Broke A.steps answerer.old splitter.old.held piece.now answerer.new (C.given conn.old) (C.given conn.new) missed.old missed.new)) }
    ensures fault { IfErr result (λ ended. ended ≡ Ended.WriteFault → Rose (C.Sink.faults conn.old) (C.Sink.faults conn.new)) }
    ensures count { (missed.old ≤ missed.new) × (missed.new ≤ missed.old + length piece.now) }
    ensures later { C.Sink.faults conn.old ≤ C.Sink.faults conn.new }
    ensures left { C.left conn.new ≡ C.left conn.old }
    ensures take_faults { C.Source.faults conn.new ≡ C.Source.faults conn.old }
{
    conn.apart();
    let ran = run_piece(answerer, with, splitter, conn, piece, missed);
    conn.apart();
    ran
}

// Runs the texts of a connection to one of the ends of a session.
fn run_line<With, A: Answerer<With>, C: Line>(
    answerer: &mut A,
    with: &With,
    splitter: &mut Splitter,
    conn: &mut C,
    limits: &Limits,
) -> Ran
    requires fits { A.fits with.now answerer.old }
    requires splitter { splitter.old ≡ record { held = []; last = None } }
    ensures script { Script A.steps result.ended limits.now.stream answerer.old answerer.new
        (io (C.left conn.old) (C.given conn.old)) (io (C.left conn.new) (C.given conn.new)) result.missed }
    ensures read_fault { result.ended ≡ Ended.ReadFault → Rose (C.Source.faults conn.old) (C.Source.faults conn.new) }
    ensures write_fault { result.ended ≡ Ended.WriteFault → Rose (C.Sink.faults conn.old) (C.Sink.faults conn.new) }
    ensures take_later { C.Source.faults conn.old ≤ C.Source.faults conn.new }
    ensures put_later { C.Sink.faults conn.old ≤ C.Sink.faults conn.new }
{
    let mut buffer = [0u8; PIECE];
    let mut missed = 0;
    let mut room = limits.stream;
    loop {
        let count = match take_from(conn, &mut buffer, room) {
            Ok(count) => count,
            Err(_) => return Ran {
                ended: Ended::ReadFault,
                missed,
            },
        };
        if count == 0 {
            if splitter.blank() {
                return Ran {
                    ended: Ended::Done,
                    missed,
                };
            }
            return Ran {
                ended: Ended::Unfinished,
                missed,
            };
        }
        let kept = (count as u64).min(room);
        match run_on(
            answerer,
            with,
            splitter,
            conn,
            &buffer[..kept as usize],
            &mut missed,
        ) {
            Ok(()) => {}
            Err(ended) => return Ran { ended, missed },
        }
        if kept < count as u64 {
            return Ran {
                ended: Ended::TooLong,
                missed,
            };
        }
        room -= kept;
    }
}

/// Runs the statements of a connection, as the session of the pass, and writes each reply before it takes more. Each
/// statement waits for the turn of the shared book, and the turn is given up before its reply is written. Beside what
/// each statement takes it needs no memory.
///
/// The session ends as a script does (`run_script`).
pub fn serve_session<R: Wait, C: Line>(
    rt: &R,
    shared: &Shared<Book>,
    pass: &mut Pass<Book>,
    splitter: &mut Splitter,
    conn: &mut C,
    limits: &Limits,
) -> Ended
    requires table { pass.old.table ≡ shared.now }
    requires splitter { splitter.old ≡ record { held = []; last = None } }
    ensures { IsServed C.left C.given C.Source.faults C.Sink.faults limits.now pass.old conn.old pass.new conn.new result }
{
    let turn = Turn { rt, shared };
    let ran = run_line(pass, &turn, splitter, conn, limits);
    ran.ended
}
