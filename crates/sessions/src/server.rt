//! Sessions on the connections that a listener gives.
ghost use Rattle.std.specs.Prelude.{None, ◌≡◌, ◌≢◌, ◌≤◌, ◌<◌, [], ℕ, List, length, vec_capacity, MatchResult, IfOk, IfErr, OnOk, OnErr};
ghost use Rattle.catalog_lock.specs.Passes.{Shown, TableId, AreAllJoined, after_split};
ghost use Rattle.cat_engine.specs.Shared.{history_of, origin_of};
ghost use Rattle.cat_engine.specs.declared.machine.Origin.{Origin};
ghost use Rattle.svc_io.specs.Connections.{Gives};
ghost use Rattle.svc_io.specs.Faults.{Rose, raised};
ghost use Rattle.sessions.specs.Sessions.{IsServed};
ghost use Rattle.sessions.specs.Serving.{AreFrom, AreNumbered, HasAccepted, HasBegun, HasJoinedAll, Halts, IsBeside, IsLegalHistory, IsOver, IsSpared, WasServed};

use crate::script::Ended;
use crate::status::Status;
use crate::threads::{Session, finish, start};
use cat_engine::Book;
use cat_items::Limits;
use catalog_lock::{Pass, Shared};
use sql_words::Splitter;
use std::alloc::Global;
use std::snapshot::Snapshot;
use std::sync::Wait;
use std::thread;
use std::thread::{Scope, Threads};
use svc_io::{Line, Listener};

/// A session that ended: its connection as the session left it, its number, which is its place in order of accepting, counted from 1, and how it ended.
#[derive(Drop)]
pub struct Over<C: Drop> {
    pub conn: C,
    pub number: u32,
    pub ended: Ended,
}

/// What a server leaves: why it accepted no further connection, the book that all sessions shared, and the sessions in order of accepting.
#[derive(Drop)]
pub struct Served<C: Drop> {
    pub status: Status,
    pub book: Book,
    pub sessions: Vec<Over<C>>,
}

// Accepts a connection, and starts its session. All that can fail is taken before.
fn accept_one<'s, E, R: Threads + Wait + Sync, L: Listener>(
    rt: &'s R,
    scope: &'s Scope<'s, E>,
    alloc: Global,
    shared: &'s Shared<Book>,
    pass: &mut Pass<Book>,
    listener: &mut L,
    limits: Limits,
) -> Result<Session<L::Conn>, Status>
where
    L::Conn: 's,
    requires table { pass.old.table ≡ shared.now }
    requires first { (pass.old.number ≡ 0) × (0 < pass.old.next) × (pass.old.next < 4294967295) }
    ensures ok { IfOk result (λ session. (conn : L.Conn) × (before : Shown Origin) × Gives (L.left listener.old) conn (L.left listener.new)
        × HasBegun pass.old.table pass.old.made pass.old.next before
        × MatchResult session (λ child. (child.promise.limits ≡ limits) × (child.promise.pass.value ≡ before) × (child.promise.conn.value ≡ conn))
        (λ past. IsServed L.Conn.left L.Conn.given L.Conn.Source.faults L.Conn.Sink.faults limits before conn past.0 past.1 past.2)) }
    ensures split { OnOk result (pass.new ≡ after_split pass.old) }
    ensures out { OnOk result (L.out listener.new ≡ raised (L.out listener.old)) }
    ensures spared { OnErr result (IsSpared pass.old pass.new) }
    ensures left { OnErr result (L.left listener.new ≡ L.left listener.old) }
    ensures none_out { OnErr result (L.out listener.new ≡ L.out listener.old) }
    ensures returned { L.returned listener.new ≡ L.returned listener.old }
    ensures unfailed { OnOk result (L.faults listener.new ≡ L.faults listener.old) }
    ensures later { L.faults listener.old ≤ L.faults listener.new }
    ensures halts { IfErr result (λ status. Halts status) }
    ensures status { IfErr result (λ status. (status ≢ Status.Done) × (status ≡ Status.ListenFault → Rose (L.faults listener.old) (L.faults listener.new))) }
{
    let Ok(splitter) = Splitter::new(alloc) else {
        return Err(Status::OutOfMemory);
    };
    let one = shared.split(pass);
    match listener.accept() {
        Ok(conn) => Ok(start(rt, scope, shared, one, splitter, conn, limits)),
        Err(_) => {
            shared.join(pass, one);
            Err(Status::ListenFault)
        }
    }
}

// Accepts connections, and starts a session for each, until there are as many as wanted or no more can be.
fn accept_all<'s, E, R: Threads + Wait + Sync, L: Listener>(
    rt: &'s R,
    scope: &'s Scope<'s, E>,
    alloc: Global,
    shared: &'s Shared<Book>,
    pass: &mut Pass<Book>,
    listener: &mut L,
    connections: u32,
    limits: Limits,
    sessions: &mut Vec<Session<L::Conn>>,
) -> Status
where
    L::Conn: 's,
    requires table { pass.old.table ≡ shared.now }
    requires first { (pass.old.number ≡ 0) × (pass.old.next ≡ 1) × (pass.old.joined ≡ []) }
    requires room { (sessions.old.items ≡ []) × (connections ≤ vec_capacity sessions.old) × (connections ≤ 1000) }
    ensures accepted { HasAccepted (λ number conn session. (before : Shown Origin) × HasBegun pass.old.table pass.old.made number before
        × MatchResult session (λ child. (child.promise.limits ≡ limits) × (child.promise.pass.value ≡ before) × (child.promise.conn.value ≡ conn))
        (λ past. IsServed L.Conn.left L.Conn.given L.Conn.Source.faults L.Conn.Sink.faults limits before conn past.0 past.1 past.2))
        (L.left listener.old) (L.left listener.new) (L.out listener.old) (L.out listener.new) sessions.new.items }
    ensures beside { IsBeside (length sessions.new.items) pass.old pass.new }
    ensures few { length sessions.new.items ≤ connections }
    ensures halts { Halts result }
    ensures done { result ≡ Status.Done → length sessions.new.items ≡ connections }
    ensures quiet { result ≡ Status.Done → L.faults listener.new ≡ L.faults listener.old }
    ensures returned { L.returned listener.new ≡ L.returned listener.old }
    ensures fault { result ≡ Status.ListenFault → Rose (L.faults listener.old) (L.faults listener.new) }
    ensures later { L.faults listener.old ≤ L.faults listener.new }
{
    for _accepted in 0..connections {
        match accept_one(rt, scope, alloc, shared, pass, listener, limits) {
            Ok(session) => sessions.push_reserved(session),
            Err(status) => return status,
        }
    }
    Status::Done
}

// Accepts connections, runs their sessions, and joins them.
fn run_all<'s, E, R: Threads + Wait + Sync, L: Listener>(
    rt: &'s R,
    scope: &'s Scope<'s, E>,
    alloc: Global,
    shared: &'s Shared<Book>,
    mut pass: Pass<Book>,
    listener: &mut L,
    connections: u32,
    limits: Limits,
    mut sessions: Vec<Session<L::Conn>>,
    mut overs: Vec<Over<L::Conn>>,
) -> (Pass<Book>, Status, Vec<Over<L::Conn>>)
where
    L::Conn: 's,
    requires table { pass.table ≡ shared.now }
    requires first { (pass.number ≡ 0) × (pass.next ≡ 1) × (pass.joined ≡ []) }
    requires room { (sessions.items ≡ []) × (connections ≤ vec_capacity sessions) × (overs.items ≡ []) × (connections ≤ vec_capacity overs) × (connections ≤ 1000) }
    ensures sessions { HasAccepted (λ number conn over. IsOver L.Conn.left L.Conn.given L.Conn.Source.faults L.Conn.Sink.faults
        limits pass.made result.0.seen result.0.joined number conn over.conn over.number over.ended)
        (L.left listener.old) (L.left listener.new) (L.out listener.old) (L.out listener.new) result.2.items }
    ensures pass { HasJoinedAll (length result.2.items) pass result.0 }
    ensures few { length result.2.items ≤ connections }
    ensures halts { Halts result.1 }
    ensures done { result.1 ≡ Status.Done → length result.2.items ≡ connections }
    ensures quiet { result.1 ≡ Status.Done → L.faults listener.new ≡ L.faults listener.old }
    ensures returned { L.returned listener.new ≡ L.returned listener.old }
    ensures fault { result.1 ≡ Status.ListenFault → Rose (L.faults listener.old) (L.faults listener.new) }
    ensures later { L.faults listener.old ≤ L.faults listener.new }
{
    let status = accept_all(
        rt,
        scope,
        alloc,
        shared,
        &mut pass,
        listener,
        connections,
        limits,
        &mut sessions,
    );
    for session in sessions {
        let past = finish(rt, session);
        let (one, conn, ended) = past;
        let number = one.number();
        shared.join(&mut pass, one);
        overs.push_reserved(Over {
            conn,
            number,
            ended,
        });
    }
    (pass, status, overs)
}

/// Accepts so many connections, at most 1,000, serves each by a session on a thread of its own, and waits for all of them.
///
/// The memory of a session is taken before its connection is accepted. `ListenFault` comes where an `accept` failed, and `OutOfMemory`
/// where memory ran out: then no further connection is accepted, and the sessions that run are waited for. A fault of a connection ends
/// its own session alone. Where no thread can be started the session runs on the caller's, which accepts none meanwhile.
pub fn serve<R: Threads + Wait + Sync, L: Listener>(
    rt: &R,
    alloc: Global,
    book: Book,
    listener: &mut L,
    connections: u32,
    limits: &Limits,
) -> Served<L::Conn>
    requires new { book.journal ≡ [] }
    requires few { connections ≤ 1000 }
    ensures made { origin_of result.book ≡ origin_of book }
    ensures legal { IsLegalHistory (origin_of book) (history_of result.book) }
    ensures numbered { AreNumbered (length result.sessions.items) (history_of result.book) }
    ensures sessions { HasAccepted (λ number conn over. (over.number ≡ number) × WasServed L.Conn.left L.Conn.given L.Conn.Source.faults L.Conn.Sink.faults
        limits.now (origin_of book) (history_of result.book) number conn over.conn over.ended)
        (L.left listener.old) (L.left listener.new) (L.out listener.old) (L.out listener.new) result.sessions.items }
    ensures few { length result.sessions.items ≤ connections }
    ensures halts { Halts result.status }
    ensures enough { length result.sessions.items ≤ L.out listener.new }
    ensures done { result.status ≡ Status.Done → length result.sessions.items ≡ connections }
    ensures quiet { result.status ≡ Status.Done → L.faults listener.new ≡ L.faults listener.old }
    ensures returned { L.returned listener.new ≡ L.returned listener.old }
    ensures fault { result.status ≡ Status.ListenFault → Rose (L.faults listener.old) (L.faults listener.new) }
    ensures later { L.faults listener.old ≤ L.faults listener.new }
{
    let limits = *limits;
    let Ok(sessions) = Vec::with_capacity(alloc, connections as usize) else {
        return Served {
            status: Status::OutOfMemory,
            book,
            sessions: Vec::new(alloc),
        };
    };
    let Ok(overs) = Vec::with_capacity(alloc, connections as usize) else {
        return Served {
            status: Status::OutOfMemory,
            book,
            sessions: Vec::new(alloc),
        };
    };
    let (shared, pass) = match Shared::new(alloc, book) {
        Ok(both) => both,
        Err(book) => return Served {
            status: Status::OutOfMemory,
            book,
            sessions: overs,
        },
    };
    let lock = &shared;
    let before: Snapshot<Pass<Book>> = Snapshot::of(&pass);
    let (pass, status, sessions, _listener) = thread::scope(
        thread::scope_env(),
        rt,
        move |scope| -> (Pass<Book>, Status, Vec<Over<L::Conn>>, &mut L)
            requires { (pass.table ≡ lock.now) × (pass.number ≡ 0) × (pass.next ≡ 1) × (pass.joined ≡ []) × (before.value ≡ pass) × (sessions.items ≡ []) × (connections ≤ vec_capacity sessions) × (overs.items ≡ []) × (connections ≤ vec_capacity overs) × (connections ≤ 1000) }
            ensures same { result.3.ghost_name ≡ listener.entry.ghost_name }
            ensures sessions { HasAccepted (λ number conn over. IsOver L.Conn.left L.Conn.given L.Conn.Source.faults L.Conn.Sink.faults
                limits before.value.made result.0.seen result.0.joined number conn over.conn over.number over.ended)
                (L.left listener.entry.now) (L.left result.3.now) (L.out listener.entry.now) (L.out result.3.now) result.2.items }
            ensures pass { HasJoinedAll (length result.2.items) before.value result.0 }
            ensures few { length result.2.items ≤ connections }
            ensures halts { Halts result.1 }
            ensures done { result.1 ≡ Status.Done → length result.2.items ≡ connections }
            ensures quiet { result.1 ≡ Status.Done → L.faults result.3.now ≡ L.faults listener.entry.now }
            ensures returned { L.returned result.3.now ≡ L.returned listener.entry.now }
            ensures fault { result.1 ≡ Status.ListenFault → Rose (L.faults listener.entry.now) (L.faults result.3.now) }
            ensures later { L.faults listener.entry.now ≤ L.faults result.3.now }
        {
            let _before = &before;
            let (pass, status, overs) = run_all(
                rt,
                scope,
                alloc,
                lock,
                pass,
                &mut *listener,
                connections,
                limits,
                sessions,
                overs,
            );
            (pass, status, overs, listener)
        },
    );
    Served {
        status,
        book: shared.close(pass),
        sessions,
    }
}
