//! A counter that sessions share, each on a thread of its own.
ghost use Rattle.std.specs.Prelude.{◌≡◌, ◌<◌, ℕ, length, slice_index_or};

use super::counter::{Call, Counter};
use catalog_lock::{Pass, Shared};
use std::alloc::{AllocError, Global};
use std::mem::size_of;
use std::sync::Wait;
use std::test::Fail;
use std::thread::{Threads, for_each_mut};

const SESSIONS: usize = 8;

// The calls of a session, whose texts are the numbers from 0 on, each in 4 bytes, the lowest first.
const CALLS: u32 = 10_000;

// The first byte of a text that isn't counted, as in 40 of those numbers.
const SKIPPED: u8 = 0;

const COUNTED: usize = 9_960;

const _: () = prove!(size_of::<Pass<Counter>>() == 8);

/// A session's pass, and what its calls were answered.
#[derive(Drop)]
struct Session {
    pass: Pass<Counter>,
    replies: Vec<Option<u64>>,
}

fn make_calls<R: Wait>(rt: &R, shared: &Shared<Counter>, session: &mut Session)
    requires { session.old.pass.table ≡ shared.now }
    ensures { (session.new.pass.table ≡ shared.now) × (session.new.pass.number ≡ session.old.pass.number) }
{
    for i in 0..CALLS {
        let reply = shared.call(rt, &mut session.pass, &i.to_le_bytes());
        if session.replies.push(reply).is_err() {
            return;
        }
    }
}

/// Makes the calls of all sessions at once.
fn make_all<R: Threads + Wait + Sync>(rt: &R, shared: &Shared<Counter>, sessions: &mut Vec<Session>)
    requires { (i : ℕ) (d : Session) → i < length sessions.old.items → (slice_index_or sessions.old.items i d).pass.table ≡ shared.now }
    ensures len { length sessions.new.items ≡ length sessions.old.items }
    ensures each { (i : ℕ) (d : Session) → i < length sessions.old.items
        → ((slice_index_or sessions.new.items i d).pass.table ≡ shared.now) × ((slice_index_or sessions.new.items i d).pass.number ≡ (slice_index_or sessions.old.items i d).pass.number) }
{
    let calls = move |_i: usize, session: &mut Session|
        requires { session.old.pass.table ≡ shared.now }
        ensures { (session.new.pass.table ≡ shared.entry.now) × (session.new.pass.number ≡ session.old.pass.number) }
    { make_calls(rt, shared, session) };
    for_each_mut(rt, sessions.as_mut_slice(), SESSIONS, &calls);
}

/// The counter after all calls, and what each session was answered.
fn called<R: Threads + Wait + Sync>(
    rt: &R,
    alloc: Global,
) -> Result<(Counter, Vec<Vec<Option<u64>>>), AllocError> {
    let mut sessions = Vec::with_capacity(alloc, SESSIONS)?;
    let mut answers = Vec::with_capacity(alloc, SESSIONS)?;
    let Ok((shared, mut pass)) = Shared::new(alloc, Counter::new(alloc, SKIPPED)) else {
        return Err(AllocError);
    };
    for _started in 0..SESSIONS {
        let one = shared.split(&mut pass);
        let replies = Vec::new(alloc);
        sessions.push_reserved(Session { pass: one, replies });
    }
    make_all(rt, &shared, &mut sessions);
    for session in sessions {
        let Session {
            pass: ended,
            replies,
        } = session;
        shared.join(&mut pass, ended);
        answers.push_reserved(replies);
    }
    Ok((shared.close(pass), answers))
}

/// Whether an answer tells the place of its call, behind the last one of its session; texts with a byte that is skipped get none.
fn is_told(calls: &[Call], session: u32, text: [u8; 4], last: u64, reply: Option<u64>) -> bool {
    let Some(place) = reply else {
        return text[0] == SKIPPED;
    };
    match calls.get((place as usize).saturating_sub(1)) {
        Some(call) => last < place
            && call.session == session
            && call.text.as_slice() == text.as_slice(),
        None => false,
    }
}

#[test]
fn each_call_stands_once_where_its_answer_says(rt: HostRuntime) -> Result<(), Fail> {
    let (counter, answers) = called(&rt, rt.alloc())?;
    assert_eq!(rt;
        (counter.calls.len(), answers.len()),
        (SESSIONS * COUNTED, SESSIONS)
    );
    for (session, replies) in (1..).zip(&answers) {
        let mut last = 0;
        assert_eq!(rt; replies.len(), CALLS as usize);
        for (i, reply) in (0u32..).zip(replies) {
            let told = is_told(&counter.calls, session, i.to_le_bytes(), last, *reply);
            assert!(rt; told, "call {i} of {session}");
            last = reply.unwrap_or(last);
        }
    }
    Ok(())
}
