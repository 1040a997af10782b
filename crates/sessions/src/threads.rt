//! A session on a thread of its own, or, where none can be started, on the thread that starts it.
ghost use Rattle.std.specs.Prelude.{◌≡◌, [], ℕ, None, MatchResult};
ghost use Rattle.catalog_lock.specs.Passes.{Shown};
ghost use Rattle.cat_engine.specs.declared.machine.Origin.{Origin};
ghost use Rattle.cat_items.specs.declared.limits.Limits as limit;
ghost use Rattle.sessions.specs.Sessions.{IsServed};

use crate::script::Ended;
use crate::session::serve_session;
use cat_engine::Book;
use cat_items::Limits;
use catalog_lock::{Pass, Shared};
use sql_words::Splitter;
use std::snapshot::Snapshot;
use std::sync::Wait;
use std::thread::{Promise, PromisedHandle, Scope, Threads};
use svc_io::Line;

// What a session gives back: its pass, its connection and how it ended.
pub type Past<C> = (Pass<Book>, C, Ended);

// What a session begins with.
#[derive(Drop)]
pub struct Begun<C: Line> {
    pub pass: Snapshot<Pass<Book>>,
    pub conn: Snapshot<C>,
    pub limits: Limits,
}

impl<C: Line + Drop> Promise<Past<C>> for Begun<C> {
    ghost kept_by = { λ begun past. IsServed C.left C.given C.Source.faults C.Sink.faults begun.limits begun.pass.value begun.conn.value past.0 past.1 past.2 };
}

// A session that runs, or what one gave back for which no thread could be started.
pub type Session<C> = Result<PromisedHandle<Past<C>, Begun<C>>, Past<C>>;

fn run<R: Wait, C: Line + Drop>(
    rt: &R,
    shared: &Shared<Book>,
    mut pass: Pass<Book>,
    mut splitter: Splitter,
    mut conn: C,
    limits: Limits,
) -> Past<C>
    requires table { pass.table ≡ shared.now }
    requires splitter { splitter ≡ record { held = []; last = None } }
    ensures { IsServed C.left C.given C.Source.faults C.Sink.faults limits pass conn result.0 result.1 result.2 }
{
    let ended = serve_session(rt, shared, &mut pass, &mut splitter, &mut conn, &limits);
    (pass, conn, ended)
}

pub fn start<'s, E, R: Threads + Wait + Sync, C: Line + Send + Drop + 's>(
    rt: &'s R,
    scope: &'s Scope<'s, E>,
    shared: &'s Shared<Book>,
    pass: Pass<Book>,
    splitter: Splitter,
    conn: C,
    limits: Limits,
) -> Session<C>
    requires table { pass.table ≡ shared.now }
    requires splitter { splitter ≡ record { held = []; last = None } }
    ensures { MatchResult result (λ child. (child.promise.limits ≡ limits) × (child.promise.pass.value ≡ pass) × (child.promise.conn.value ≡ conn))
        (λ past. IsServed C.left C.given C.Source.faults C.Sink.faults limits pass conn past.0 past.1 past.2) }
{
    let begun = Begun {
        pass: Snapshot::of(&pass),
        conn: Snapshot::of(&conn),
        limits,
    };
    let before: Snapshot<Pass<Book>> = Snapshot::of(&pass);
    let first: Snapshot<C> = Snapshot::of(&conn);
    let session = move || -> Past<C>
        requires table { pass.table ≡ shared.now }
        requires splitter { splitter ≡ record { held = []; last = None } }
        requires before { (before.value ≡ pass) × (first.value ≡ conn) }
        ensures { IsServed C.left C.given C.Source.faults C.Sink.faults limits before.value first.value result.0 result.1 result.2 }
    {
        let _before = &before;
        let _first = &first;
        run(rt, shared, pass, splitter, conn, limits)
    };
    match scope.spawn_with(begun, session) {
        Ok(child) => Ok(child),
        Err(refused) => Err((refused.value)()),
    }
}

pub fn finish<R: Threads, C: Line + Drop>(rt: &R, session: Session<C>) -> Past<C>
    ensures { (limits : limit.Limits) (before : Shown Origin) (first : C)
        → MatchResult session (λ child. (child.promise.limits ≡ limits) × (child.promise.pass.value ≡ before) × (child.promise.conn.value ≡ first))
        (λ past. IsServed C.left C.given C.Source.faults C.Sink.faults limits before first past.0 past.1 past.2)
        → IsServed C.left C.given C.Source.faults C.Sink.faults limits before first result.0 result.1 result.2 }
{
    match session {
        Ok(child) => child.join(rt),
        Err(past) => past,
    }
}
