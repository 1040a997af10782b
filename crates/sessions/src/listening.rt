//! The server's command, from the port to the last connection that is handed back.
ghost use Rattle.std.specs.Prelude.{◌≡◌, ◌≤◌, ◌+◌, ◌⊎◌, [], length, map};
ghost use Rattle.cat_engine.specs.Shared.{history_of, origin_of};
ghost use Rattle.svc_io.specs.Faults.{Rose};
ghost use Rattle.sessions.specs.Serving.{GotAll, RanServe};

use crate::server::{Over, Served, serve};
use crate::status::Status;
use cat_engine::Book;
use cat_items::Limits;
use std::alloc::Global;
use std::sync::Wait;
use std::thread::Threads;
use svc_io::Listener;

// Hands connections back, in order.
fn give_all<L: Listener>(listener: &mut L, sessions: Vec<Over<L::Conn>>)
    requires { length sessions.items ≤ L.out listener.old }
    ensures left { L.left listener.new ≡ L.left listener.old }
    ensures returned { GotAll (L.returned listener.old) (map (λ over. over.conn) sessions.items) (L.returned listener.new) }
    ensures out { L.out listener.new + length sessions.items ≡ L.out listener.old }
    ensures faults { L.faults listener.new ≡ L.faults listener.old }
{
    for over in sessions {
        let Over {
            conn,
            number: _,
            ended: _,
        } = over;
        listener.give_back(conn);
    }
}

/// Begins to listen at a port, serves so many connections, at most 1,000, and hands each back in order of accepting.
///
/// `ListenFault` comes where `begin` or an `accept` failed, the first with nothing accepted; else the status is that of `serve`.
pub fn listen<R: Threads + Wait + Sync, L: Listener>(
    rt: &R,
    alloc: Global,
    book: Book,
    listener: &mut L,
    port: u16,
    connections: u32,
    limits: &Limits,
) -> (Status, Book)
    requires new { book.journal ≡ [] }
    requires few { connections ≤ 1000 }
    ensures made { origin_of result.1 ≡ origin_of book }
    ensures ran { ((result.0 ≡ Status.ListenFault) × (result.1 ≡ book) × (L.left listener.new ≡ L.left listener.old) × (L.returned listener.new ≡ L.returned listener.old) × (L.out listener.new ≡ L.out listener.old))
        ⊎ RanServe L.Conn.left L.Conn.given L.Conn.Source.faults L.Conn.Sink.faults limits.now (origin_of book) (history_of result.1) result.0 connections
        (L.left listener.old) (L.left listener.new) (L.returned listener.old) (L.returned listener.new) (L.out listener.old) (L.out listener.new) }
    ensures quiet { result.0 ≡ Status.Done → L.faults listener.new ≡ L.faults listener.old }
    ensures fault { result.0 ≡ Status.ListenFault → Rose (L.faults listener.old) (L.faults listener.new) }
{
    match listener.begin(port) {
        Ok(()) => {}
        Err(_) => return (Status::ListenFault, book),
    }
    let served = serve(rt, alloc, book, listener, connections, limits);
    let Served {
        status,
        book,
        sessions,
    } = served;
    give_all(listener, sessions);
    (status, book)
}
