//! Servers and their sessions, over connections of a test's own, in memory, and over the loopback address.

ghost use Rattle.std.specs.Prelude.{◌≡◌, ◌≤◌, ◌<◌, None, IfOk, OnOk, OnErr, length};
ghost use Rattle.svc_io.specs.Faults.{HasCause, beside_of};

use super::book;
use cat_items::Limits;
use catalog_lock::Shared;
use ddl_service::{Ended, Reply, Status, serve, top};
use std::alloc::{AllocError, Global};
use std::hint::spin_loop;
use std::io::{Read, Write};
use std::net::{Ipv4Addr, SocketAddr, TcpStream};
use std::sync::atomic::{AtomicU64, Ordering};
use std::test::Fail;
use std::thread::{join, yield_now};
use svc_io::{
    Failed, Line, Listener, MemConn, MemListener, MemSink, MemSource, Sink, Source, TcpDoor,
};

#[test]
fn a_pass_of_a_shared_book_makes_an_entry(rt: HostRuntime) -> Result<(), Fail> {
    let alloc = rt.alloc();
    let Ok((shared, mut first)) = Shared::new(alloc, book(alloc, Limits::standard())?) else {
        return Err("no memory".into());
    };
    let mut one = shared.split(&mut first);
    let reply = shared.call(&rt, &mut one, b"CONNECT TO 'D' USER 'ALICE'");
    shared.join(&mut first, one);
    let book = shared.close(first);
    assert!(rt; matches!(reply, Reply::Ok));
    assert_eq!(rt; book.journal().len(), 1);
    assert_eq!(rt; book.journal()[0].session, 1);
    Ok(())
}

/// How often a source looks whether it may give its next statement.
const LOOKS: u32 = 200_000_000;

/// A connection that gives two pieces. The first connection gives its second one only once the other has got a reply.
#[derive(Drop)]
struct Held<'a> {
    replied: &'a AtomicU64,
    is_first: bool,
    pieces: u32,
    faults: u64,
}

fn is_set(word: &AtomicU64) -> bool {
    for _look in 0..LOOKS {
        if word.load(Ordering::SeqCst) == 1 {
            return true;
        }
        spin_loop();
    }
    false
}

impl Source for Held<'_> {
    ghost left = { λ _. None };

    ghost faults = { λ c. c.faults };

    ghost beside = { λ c. beside_of None 0 };

    fn take(&mut self, into: &mut [u8]) -> Result<usize, Failed> {
        let piece: &[u8] = match self.pieces {
            0 => b"CONNECT TO 'D' USER 'ALICE';",
            1 => b"SET SCHEMA 'S';",
            _ => return Ok(0),
        };
        if self.is_first && self.pieces == 1 && !is_set(self.replied) {
            self.faults = self.faults.saturating_add(1);
            return Err(Failed);
        }
        self.pieces = self.pieces.saturating_add(1);
        let count = piece.len().min(into.len());
        into[..count].copy_from_slice(&piece[..count]);
        Ok(count)
    }
}

impl Sink for Held<'_> {
    ghost given = { λ _. None };

    ghost faults = { λ _. 0 };

    ghost beside = { λ c. beside_of None c.faults };

    fn put(&mut self, piece: &[u8]) -> Result<usize, Failed> {
        if !self.is_first {
            self.replied.store(1, Ordering::SeqCst);
        }
        Ok(piece.len())
    }
}

impl Line for Held<'_> {
    fn apart(&self) {}
}

/// It gives such connections, the first of them first.
#[derive(Drop)]
struct Holding<'a> {
    replied: &'a AtomicU64,
    out: u64,
}

impl<'a> Listener for Holding<'a> {
    type Conn = Held<'a>;

    ghost left = { λ _. None };

    ghost returned = { λ _. None };

    ghost out = { λ l. l.out };

    ghost faults = { λ _. 0 };

    fn begin(&mut self, _port: u16) -> Result<(), Failed> {
        Ok(())
    }

    fn accept(&mut self) -> Result<Held<'a>, Failed> {
        self.out = self.out.saturating_add(1);
        Ok(Held {
            replied: self.replied,
            is_first: self.out == 1,
            pieces: 0,
            faults: 0,
        })
    }

    fn give_back(&mut self, _conn: Held<'a>) {
        self.out -= 1;
    }
}

#[test]
fn sessions_run_side_by_side(rt: HostRuntime) -> Result<(), Fail> {
    let alloc = rt.alloc();
    let limits = Limits::standard();
    let replied = AtomicU64::new(0);
    let mut listener = Holding {
        replied: &replied,
        out: 0,
    };
    let served = serve(&rt, alloc, book(alloc, limits)?, &mut listener, 2, &limits);
    assert_eq!(rt; served.status, Status::Done);
    assert_eq!(rt; served.sessions.len(), 2);
    for over in &served.sessions {
        assert_eq!(rt; over.ended, Ended::Done);
    }
    assert_eq!(rt; served.book.journal().len(), 4);
    Ok(())
}

/// A connection with this input, whose take of this number fails.
fn conn_of(alloc: Global, input: &str, failing: u64) -> Result<MemConn, AllocError> {
    let mut pieces = Vec::new(alloc);
    pieces.push(Vec::from_slice(alloc, input.as_bytes())?)?;
    let sink = MemSink::new(alloc, 3, 1000, Vec::new(alloc))?;
    Ok(MemConn::new(MemSource::new(pieces, [failing].to_vec(alloc)?), sink))
}

const WHOLE: &str = "CONNECT TO 'D' USER 'ALICE'; SET SCHEMA 'S';";

const BROKEN: &str = "CONNECT TO 'D' USER 'ALICE'; SET SCH";

#[test]
fn faults_end_one_session_or_accepting(rt: HostRuntime) -> Result<(), Fail> {
    let alloc = rt.alloc();
    let limits = Limits::standard();
    let mut conns = Vec::new(alloc);
    conns.push(conn_of(alloc, BROKEN, 2)?)?;
    conns.push(conn_of(alloc, WHOLE, 9)?)?;
    let mut listener = MemListener::new(alloc, conns, Vec::new(alloc))?;
    let served = serve(&rt, alloc, book(alloc, limits)?, &mut listener, 3, &limits);
    assert_eq!(rt; served.status, Status::ListenFault);
    let ends = served.sessions.iter().map(|over| (over.number, over.ended));
    assert!(rt; ends.eq([(1, Ended::ReadFault), (2, Ended::Done)]));
    for (over, replies) in served.sessions.iter().zip(["OK\n", "OK\nOK\n"]) {
        assert_eq!(rt; over.conn.bytes(), replies.as_bytes());
    }
    assert_eq!(rt; served.book.journal().len(), 3);
    Ok(())
}

/// Twenty schemas that a session makes.
fn schemas(alloc: Global, name: char) -> Result<String, AllocError> {
    let mut input = String::from_str(alloc, "CONNECT TO 'D' USER 'ALICE';")?;
    for number in 10..30 {
        input.push_str(&format!(in alloc; " CREATE SCHEMA {name}{number};")?)?;
    }
    Ok(input)
}

#[test]
fn each_session_has_its_entries(rt: HostRuntime) -> Result<(), Fail> {
    let alloc = rt.alloc();
    let limits = Limits::standard();
    let mut conns = Vec::new(alloc);
    conns.push(conn_of(alloc, &schemas(alloc, 'S')?, 9)?)?;
    conns.push(conn_of(alloc, &schemas(alloc, 'T')?, 9)?)?;
    let mut listener = MemListener::new(alloc, conns, Vec::new(alloc))?;
    let served = serve(&rt, alloc, book(alloc, limits)?, &mut listener, 2, &limits);
    assert_eq!(rt; served.status, Status::Done);
    assert_eq!(rt; served.book.journal().len(), 42);
    for number in 1..3 {
        let entries = served.book.journal().iter();
        assert_eq!(rt; entries.filter(|entry| entry.session == number).count(), 21);
    }
    Ok(())
}

// Connects, once someone listens.
fn reach(rt: &HostRuntime, port: u16) -> Option<TcpStream> {
    for _try in 0..2_000_000 {
        if let Ok(stream) = TcpStream::connect(rt, SocketAddr::from((Ipv4Addr::LOCALHOST, port))) {
            return Some(stream);
        }
        yield_now();
    }
    None
}

// Sends a statement, and reads its reply: how long its line is.
fn ask(stream: &mut TcpStream, text: &str) -> Option<usize> {
    stream.write_all(text.as_bytes()).ok()?;
    let mut byte = [0u8; 1];
    for at in 0..100 {
        if stream.read(&mut byte).ok()? == 0 {
            return None;
        }
        if byte[0] == b'\n' {
            return Some(at);
        }
    }
    None
}

// A client that connects, and sends each statement once it has read the reply to the one before. Whether these have such lengths.
fn client(rt: &HostRuntime, port: u16, statements: [(&str, usize); 3]) -> bool {
    let Some(mut stream) = reach(rt, port) else {
        return false;
    };
    for (text, length) in statements {
        if ask(&mut stream, text) != Some(length) {
            return false;
        }
    }
    true
}

const PORT: u16 = 47_003;

const ONE: [(&str, usize); 3] = [
    ("CONNECT TO 'D' USER 'ALICE';", 2),
    ("CREATE SCHEMA S;", 2),
    ("CREATE SCHEMA S;", 14),
];

const OTHER: [(&str, usize); 3] = [
    ("CREATE SCHEMA T;", 12),
    ("CONNECT TO 'D' USER 'ALICE';", 2),
    ("CREATE SCHEMA T;", 2),
];

#[test]
fn two_clients_are_served_over_loopback(rt: HostRuntime) -> Result<(), Fail> {
    let alloc = rt.alloc();
    let words = [
        "serve",
        "--users",
        "ALICE",
        "--port",
        "47003",
        "--connections",
        "2",
    ]
    .iter()
    .map(|word| String::from_str(alloc, word))
    .try_collect(alloc)?;
    let mut door = TcpDoor::new(&rt);
    let mut source = MemSource::new(Vec::new(alloc), Vec::new(alloc));
    let mut sink = MemSink::new(alloc, 3, 100, Vec::new(alloc))?;
    let clients = &rt;
    let (answered, status) = join(
        &rt,
        move || {
            join(
                clients,
                move || client(clients, PORT, ONE),
                move || client(clients, PORT, OTHER),
            )
        },
        || top(&rt, alloc, &words, &mut source, &mut sink, &mut door),
    );
    assert_eq!(rt; status, Status::Done);
    assert_eq!(rt; answered, (true, true));
    Ok(())
}
