ghost use Rattle.std.specs.Prelude.{◌≡◌, ◌≢◌, ◌≤◌, IfOk, OnErr, map};
ghost use Rattle.std.specs.String.{string_bytes};
ghost use Rattle.sample_runs.specs.Sampled.{Sampled};
ghost use Rattle.sample_runs.specs.Script.{io};
ghost use Rattle.ddl_service.specs.Top as spec;
ghost use Rattle.ddl_service.specs.Users.{AreUsers};
ghost use Rattle.svc_io.specs.Faults.{Rose};

use crate::command_line::{Asked, Command, asked_by};
use crate::finish::finish;
use cat_items::Limits;
use sample_runs::{Book, Ended, Status, listen, run_script, sample};
use sql_tree::Name;
use sql_words::Splitter;
use std::alloc::{AllocError, Global};
use std::sync::Wait;
use std::thread::Threads;
use svc_io::{Listener, Sink, Source};

fn status_of(ended: Ended) -> Status
    ensures { result ≡ spec.status_of ended }
{
    match ended {
        Ended::Done => Status::Done,
        Ended::ReadFault => Status::ReadFault,
        Ended::WriteFault => Status::WriteFault,
        Ended::TooLong => Status::TooLong,
        Ended::Unfinished => Status::Unfinished,
    }
}

// Runs the script of these users.
fn script<S: Source, W: Sink>(
    alloc: Global,
    users: &Vec<Name>,
    definition: bool,
    source: &mut S,
    sink: &mut W,
) -> Result<Status, AllocError>
    requires { AreUsers users.now.items }
    ensures ok { IfOk result (λ status. spec.RanScript definition status users.now.items
        (io (S.left source.old) (W.given sink.old)) (io (S.left source.new) (W.given sink.new))) }
    ensures err { OnErr result (spec.Untouched source.old source.new sink.old sink.new) }
    ensures complete { IfOk result (λ status. spec.IsDoneOver status (S.left source.old)
        (Rose (S.faults source.old) (S.faults source.new)) (Rose (W.faults sink.old) (W.faults sink.new))) }
    ensures read_fault { IfOk result (λ status. status ≡ Status.ReadFault → Rose (S.faults source.old) (S.faults source.new)) }
    ensures write_fault { IfOk result (λ status. status ≡ Status.WriteFault → Rose (W.faults sink.old) (W.faults sink.new)) }
    ensures quiet { IfOk result (λ status. status ≢ Status.ListenFault) }
{
    let limits = Limits::standard();
    let mut book = Book::new(alloc, users, limits)?;
    let mut splitter = Splitter::new(alloc)?;
    let ran = run_script(&mut book, &mut splitter, source, sink, &limits);
    let end = status_of(ran.ended);
    Ok(finish(alloc, definition, end, &book, sink))
}

// Serves so many connections at a port, of these users.
fn server<R: Threads + Wait + Sync, W: Sink, L: Listener>(
    rt: &R,
    alloc: Global,
    asked: &Asked,
    sink: &mut W,
    listener: &mut L,
    port: u16,
    connections: u16,
) -> Result<Status, AllocError>
    requires users { AreUsers asked.now.users.items }
    requires few { connections ≤ 1000 }
    ensures ok { IfOk result (λ status. spec.RanServer L.Conn.left L.Conn.given L.Conn.Source.faults L.Conn.Sink.faults asked.now.definition status asked.now.users.items connections
        (L.left listener.old) (L.left listener.new) (L.returned listener.old) (L.returned listener.new) (L.out listener.old) (L.out listener.new)
        (W.given sink.old) (W.given sink.new)) }
    ensures err { OnErr result ((listener.new ≡ listener.old) × (sink.new ≡ sink.old)) }
    ensures quiet { IfOk result (λ status. status ≡ Status.Done → L.faults listener.new ≡ L.faults listener.old) }
    ensures fault { IfOk result (λ status. status ≡ Status.ListenFault → Rose (L.faults listener.old) (L.faults listener.new)) }
    ensures write_fault { IfOk result (λ status. status ≡ Status.WriteFault → Rose (W.faults sink.old) (W.faults sink.new)) }
    ensures halts { IfOk result (λ status. status ≢ Status.ReadFault) }
{
    let limits = Limits::standard();
    let book = Book::new(alloc, &asked.users, limits)?;
    let (end, book) = listen(rt, alloc, book, listener, port, connections as u32, &limits);
    Ok(finish(alloc, asked.definition, end, &book, sink))
}

/// All that the program does, from the words of the command line on.
pub fn top<R: Threads + Wait + Sync, S: Source, W: Sink, L: Listener>(
    rt: &R,
    alloc: Global,
    words: &Vec<String>,
    source: &mut S,
    sink: &mut W,
    listener: &mut L,
) -> Status
    // The words decide, and what they ask for is done of their users from the opening to its end. A script leaves the listener, a
    // server the source, and a sample both; what a server gives the sink is the Definition Schema alone.
    ensures ends { spec.Ends (map (λ word. string_bytes word) words.now.items) result
        (spec.Untouched source.old source.new sink.old sink.new × (listener.new ≡ listener.old))
        (λ definition users. spec.RanScript definition result users (io (S.left source.old) (W.given sink.old)) (io (S.left source.new) (W.given sink.new)) × (listener.new ≡ listener.old))
        (λ definition users connections. spec.RanServer L.Conn.left L.Conn.given L.Conn.Source.faults L.Conn.Sink.faults definition result users connections
        (L.left listener.old) (L.left listener.new) (L.returned listener.old) (L.returned listener.new) (L.out listener.old) (L.out listener.new)
        (W.given sink.old) (W.given sink.new)
        × (result ≡ Status.Done → L.faults listener.new ≡ L.faults listener.old) × (source.new ≡ source.old))
        (λ users seed count. Sampled users seed count result (W.given sink.old) (W.given sink.new) × (source.new ≡ source.old) × (listener.new ≡ listener.old)) }
    ensures script { spec.ScriptIsDone (map (λ word. string_bytes word) words.now.items) result (S.left source.old)
        (Rose (S.faults source.old) (S.faults source.new)) (Rose (W.faults sink.old) (W.faults sink.new)) }
    ensures read_fault { result ≡ Status.ReadFault → Rose (S.faults source.old) (S.faults source.new) }
    ensures write_fault { result ≡ Status.WriteFault → Rose (W.faults sink.old) (W.faults sink.new) }
    ensures listen_fault { result ≡ Status.ListenFault → Rose (L.faults listener.old) (L.faults listener.new) }
{
    let asked = match asked_by(alloc, words) {
        Ok(Some(asked)) => asked,
        Ok(None) => return Status::Usage,
        Err(_) => return Status::OutOfMemory,
    };
    match asked.command {
        Command::Script => match script(alloc, &asked.users, asked.definition, source, sink) {
            Ok(status) => status,
            Err(_) => Status::OutOfMemory,
        },
        Command::Serve { port, connections } => {
            match server(rt, alloc, &asked, sink, listener, port, connections) {
                Ok(status) => status,
                Err(_) => Status::OutOfMemory,
            }
        }
        Command::Sample { seed, count } => {
            sample(alloc, &asked.users, seed as u64, count as u32, sink)
        }
    }
}
