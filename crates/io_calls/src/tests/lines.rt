//! Ends in memory, over readers and writers that fail, and over the loopback address.

use std::alloc::{AllocError, Global};
use std::io;
use std::io::{ErrorKind, Read, Write};
use std::net::{Ipv4Addr, SocketAddr, TcpStream};
use std::test::Fail;
use svc_io::{
    Failed, Line, Listener, MemConn, MemListener, MemSink, MemSource, Nowhere, Sink, Source,
    StdSink, StdSource, TcpDoor, put_all,
};

fn source_of(alloc: Global, texts: &[&str], failing: &[u64]) -> Result<MemSource, AllocError> {
    let pieces = texts
        .iter()
        .map(|text| text.as_bytes().to_vec(alloc))
        .try_collect(alloc)?;
    Ok(MemSource::new(pieces, failing.to_vec(alloc)?))
}

/// What six takes of at most two bytes give, each with a point behind it, or `!` where it fails.
fn taken<S: Source>(alloc: Global, source: &mut S) -> Result<String, Fail> {
    let mut all = String::new(alloc);
    let mut into = [0; 2];
    for _call in 0..6 {
        match source.take(&mut into) {
            Ok(count) => all.push_str(str::from_utf8(&into[..count]).unwrap_or("?"))?,
            Err(Failed) => all.push('!')?,
        }
        all.push('.')?;
    }
    Ok(all)
}

/// A reader of the letters a, b and c, one at a call, whose second call fails.
#[derive(Drop)]
struct FailsOnce(u8);

impl Read for FailsOnce {
    fn read(&mut self, buf: &mut [u8]) -> io::Result<usize> {
        self.0 = self.0.saturating_add(1);
        if self.0 == 2 {
            return Err(io::Error::from(ErrorKind::ConnectionReset));
        }
        if buf.is_empty() || self.0 > 3 {
            return Ok(0);
        }
        buf[0] = self.0 | b'`';
        Ok(1)
    }
}

#[test]
fn takes_give_pieces_and_tell_faults(rt: HostRuntime) -> Result<(), Fail> {
    let alloc = rt.alloc();
    let mut memory = source_of(alloc, &["ab", "", "cde"], &[2])?;
    assert_eq!(rt; taken(alloc, &mut memory)?.as_str(), "ab.!.cd.e...");
    let mut reader = StdSource::new(FailsOnce(0));
    assert_eq!(rt; taken(alloc, &mut reader)?.as_str(), "a.!.c....");
    Ok(())
}

/// How many bytes of each piece a sink takes at one call, or `!` where it fails.
fn put<K: Sink>(alloc: Global, sink: &mut K, pieces: &[&str]) -> Result<String, Fail> {
    let mut all = String::new(alloc);
    for piece in pieces {
        match sink.put(piece.as_bytes()) {
            Ok(count) => all.push_str(&format!(in alloc; "{count}")?)?,
            Err(Failed) => all.push('!')?,
        }
    }
    Ok(all)
}

/// Whether all bytes of each piece go out.
fn go_out<K: Sink>(sink: &mut K, pieces: [&str; 3]) -> [bool; 3] {
    let [first, second, third] = pieces;
    [
        put_all(sink, first.as_bytes()).is_ok(),
        put_all(sink, second.as_bytes()).is_ok(),
        put_all(sink, third.as_bytes()).is_ok(),
    ]
}

/// A writer that takes nothing.
#[derive(Drop)]
struct Full;

impl Write for Full {
    fn write(&mut self, _buf: &[u8]) -> io::Result<usize> {
        Ok(0)
    }

    fn flush(&mut self) -> io::Result<()> {
        Ok(())
    }
}

#[test]
fn a_sink_in_memory_takes_what_it_has_room_for(rt: HostRuntime) -> Result<(), Fail> {
    let alloc = rt.alloc();
    let mut sink = MemSink::new(alloc, 3, 4, [2].to_vec(alloc)?)?;
    let counts = put(alloc, &mut sink, &["hello", "lo", "lo", "o", ""])?;
    assert_eq!(rt;
        (counts.as_str(), sink.bytes()),
        ("3!1!0", b"hell".as_slice())
    );
    Ok(())
}

#[test]
fn all_bytes_go_out_or_a_front_of_them(rt: HostRuntime) -> Result<(), Fail> {
    let alloc = rt.alloc();
    let mut sink = MemSink::new(alloc, 2, 9, [3].to_vec(alloc)?)?;
    let mut written = Vec::new(alloc);
    let gone = [
        go_out(&mut sink, ["abc", "def", "ghi"]),
        go_out(&mut StdSink::new(&mut written), ["abc", "", "d"]),
        go_out(&mut StdSink::new(Full), ["", "abc", ""]),
        go_out(&mut Nowhere, ["abc", "", "d"]),
    ];
    let [mended, open] = [[true, false, true], [true; 3]];
    assert_eq!(rt; gone, [mended, open, mended, open]);
    assert_eq!(rt; sink.bytes(), b"abcghi".as_slice());
    assert_eq!(rt; written.as_slice(), b"abcd".as_slice());
    Ok(())
}

/// Gives the next connection back after a byte was taken from it and put out on it.
fn echo_byte<L: Listener>(listener: &mut L) -> Result<u8, Failed> {
    let mut conn = listener.accept()?;
    let mut byte = [0];
    conn.apart();
    let taken = conn.take(&mut byte);
    let done = put_all(&mut conn, &byte);
    listener.give_back(conn);
    taken?;
    done?;
    Ok(byte[0])
}

fn conn_of(alloc: Global, text: &str) -> Result<MemConn, AllocError> {
    let source = source_of(alloc, &[text], &[])?;
    Ok(MemConn::new(source, MemSink::new(alloc, 1, 4, Vec::new(alloc))?))
}

#[test]
fn a_listener_in_memory_gives_its_connections(rt: HostRuntime) -> Result<(), Fail> {
    let alloc = rt.alloc();
    let conns = vec![in alloc; conn_of(alloc, "xy")?, conn_of(alloc, "z")?]?;
    let mut listener = MemListener::new(alloc, conns, [2].to_vec(alloc)?)?;
    let begun = listener.begin(7003);
    let echoed = [0; 4].map(|_| echo_byte(&mut listener).unwrap_or(b'!'));
    assert_eq!(rt; (begun, echoed), (Ok(()), *b"!xz!"));
    for (conn, want) in listener.returned().iter().zip(["x", "z"]) {
        assert_eq!(rt; conn.bytes(), want.as_bytes());
    }
    assert_eq!(rt; listener.returned().len(), 2);
    Ok(())
}

/// Begins to listen at the first of some ports that is free.
fn begin_somewhere<L: Listener>(listener: &mut L) -> Option<u16> {
    for port in 47_001..47_101 {
        if listener.begin(port).is_ok() {
            return Some(port);
        }
    }
    None
}

#[test]
fn a_byte_sent_over_loopback_comes_back(rt: HostRuntime) -> Result<(), Fail> {
    let mut door = TcpDoor::new(&rt);
    assert!(rt; echo_byte(&mut door).is_err());
    let port = begin_somewhere(&mut door).ok_or("a port")?;
    assert!(rt; TcpDoor::new(&rt).begin(port).is_err(), "the port is taken");
    let address = SocketAddr::from((Ipv4Addr::LOCALHOST, port));
    let mut client = TcpStream::connect(&rt, address)?;
    client.write_all(b"q")?;
    assert_eq!(rt; echo_byte(&mut door), Ok(b'q'));
    // The connection was closed where it was given back, so the client comes to its end.
    let mut answer = Vec::new(rt.alloc());
    client.read_to_end(&mut answer)?;
    assert_eq!(rt; answer.as_slice(), b"q".as_slice());
    Ok(())
}
