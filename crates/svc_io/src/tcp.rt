ghost use Rattle.std.specs.Prelude.{◌≡◌, ◌≤◌, ◌<◌, None, IfOk, IsNone, IsSome, OnOk, length};
ghost use Rattle.std.specs.Io.KnownBytes.{ReadConsumes, WriteAppends};
ghost use Rattle.svc_io.specs.Faults.{HasCause, beside_of};
ghost use Rattle.svc_io.specs.Tcp.{stream_of, take_faults, put_faults, listener_of, out_of, listener_faults};

use crate::standard::{read_from, write_to};
use crate::traits::fault;
use crate::{Failed, Line, Listener, Sink, Source};
use std::io::{Read, Write};
use std::net::{Ipv4Addr, Net, OpenListener, OpenStream, SocketAddr};

/// A connection over a stream, as one of TCP. It tells no bytes. Each error of the stream is a
/// fault, counted for `take` and for `put` on their own, and is not tried again. Both may wait for
/// the peer. The stream is closed where the connection is dropped.
#[derive(Drop)]
pub struct TcpConn<S: Read + Write> {
    stream: S,
    take_faults: u64,
    put_faults: u64,
}

impl<S: Read + Write> Source for TcpConn<S> {
    ghost left = { λ _. None };

    ghost faults = { take_faults };

    ghost beside = { λ c. beside_of None (put_faults c) };

    fn take(&mut self, into: &mut [u8]) -> Result<usize, Failed>
        // Where the stream itself tells its bytes, this call reads them.
        ensures read { ReadConsumes
            (S.remaining (stream_of self.old)) (S.remaining (stream_of self.new)) result into.new }
        ensures apart { put_faults self.new ≡ put_faults self.old }

        ensures bound { IfOk result (λ count. count ≤ length into.new) }
        ensures cause { HasCause (take_faults self.old) (take_faults self.new) result }
        ensures unfailed { OnOk result (take_faults self.new ≡ take_faults self.old) }
    {
        read_from(&mut self.stream, into, &mut self.take_faults)
    }
}

impl<S: Read + Write> Sink for TcpConn<S> {
    ghost given = { λ _. None };

    ghost faults = { put_faults };

    ghost beside = { λ c. beside_of None (take_faults c) };

    fn put(&mut self, piece: &[u8]) -> Result<usize, Failed>
        // Where the stream itself tells its bytes, this call writes them.
        ensures written { WriteAppends
            (S.contents (stream_of self.old)) (S.contents (stream_of self.new)) result piece.now }
        ensures apart { take_faults self.new ≡ take_faults self.old }

        ensures bound { IfOk result (λ count. count ≤ length piece.now) }
        ensures some { IfOk result (λ count. 0 < length piece.now → 0 < count) }
        ensures cause { HasCause (put_faults self.old) (put_faults self.new) result }
        ensures unfailed { OnOk result (put_faults self.new ≡ put_faults self.old) }
    {
        write_to(&mut self.stream, piece, &mut self.put_faults)
    }
}

impl<S: Read + Write> Line for TcpConn<S> {
    fn apart(&self) {}
}

/// A listener over TCP on the loopback address, 127.0.0.1, alone. It tells no connections. Each
/// error of the system is a fault, and so is `accept` before `begin`. A connection is closed where
/// it is given back.
#[derive(Drop)]
pub struct TcpDoor<'a, R: Net> {
    net: &'a R,
    listener: Option<R::Listener>,
    out: u64,
    faults: u64,
}

impl<'a, R: Net> TcpDoor<'a, R> {
    /// A listener that hasn't begun yet. It takes no memory.
    pub fn new(net: &'a R) -> Self
        ensures listener { IsNone (listener_of result) }
        ensures out { out_of result ≡ 0 }
        ensures faults { listener_faults result ≡ 0 }
    {
        TcpDoor {
            net,
            listener: None,
            out: 0,
            faults: 0,
        }
    }
}

impl<R: Net> Listener for TcpDoor<'_, R>
where
    R::Stream: Send,
{
    type Conn = TcpConn<R::Stream>;

    ghost left = { λ _. None };

    ghost returned = { λ _. None };

    ghost out = { out_of };

    ghost faults = { listener_faults };

    fn begin(&mut self, port: u16) -> Result<(), Failed>
        ensures listens { OnOk result (IsSome (listener_of self.new)) }

        ensures out { out_of self.new ≡ out_of self.old }
        ensures cause { HasCause (listener_faults self.old) (listener_faults self.new) result }
        ensures unfailed { OnOk result (listener_faults self.new ≡ listener_faults self.old) }
    {
        match self.net.bind(SocketAddr::from((Ipv4Addr::LOCALHOST, port))) {
            Ok(listener) => {
                self.listener = Some(listener);
                Ok(())
            }
            Err(_) => Err(fault(&mut self.faults)),
        }
    }

    fn accept(&mut self) -> Result<TcpConn<R::Stream>, Failed> {
        let Some(listener) = &self.listener else {
            return Err(fault(&mut self.faults));
        };
        match listener.accept() {
            Ok((stream, _)) => {
                let _ = stream.set_nodelay(true);
                self.out = self.out.saturating_add(1);
                Ok(TcpConn {
                    stream,
                    take_faults: 0,
                    put_faults: 0,
                })
            }
            Err(_) => Err(fault(&mut self.faults)),
        }
    }

    fn give_back(&mut self, conn: TcpConn<R::Stream>) {
        self.out -= 1;
        drop(conn);
    }
}
