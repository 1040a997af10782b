ghost use Rattle.std.specs.Prelude.{◌≡◌, ◌≤◌, ◌<◌, ◌↔◌, ◌∷◌, [], ◌⊎◌, Some, IsErr, IfOk, OnOk, OnErr, length, take};
ghost use Rattle.svc_io.specs.Bytes.{Gave, Got, IsEmpty};
ghost use Rattle.svc_io.specs.Calls.{NextFails, first_calls};
ghost use Rattle.svc_io.specs.Faults.{HasCause, beside_of};
ghost use Rattle.svc_io.specs.Memory.{TakesFront, PutsFront, bytes_left, bytes_given};
ghost use Rattle.svc_io.specs.Listening.{listener_began, listener_gave, listener_failed, listener_got};

use crate::calls::Calls;
use crate::{Failed, Line, Listener, MemSink, MemSource, Sink, Source};
use std::alloc::{AllocError, Global};
use std::marker::Model;
use std::vec::IntoIter;

/// A connection in memory: a source and a sink, each with its own calls and faults.
#[derive(Drop)]
pub struct MemConn {
    source: MemSource,
    sink: MemSink,
}

impl Model for MemConn {
    ghost use Rattle.svc_io.specs.Memory.{ConnState};

    ghost Value = { ConnState };

    ghost view = { λ c. record { source = c.source; sink = c.sink } };
}

impl MemConn {
    /// A connection of these two. It takes no memory.
    pub fn new(source: MemSource, sink: MemSink) -> MemConn
        ensures source { result.source ≡ source }
        ensures sink { result.sink ≡ sink }
    {
        MemConn { source, sink }
    }

    /// The bytes that its sink was given. It takes no memory.
    pub fn bytes(&self) -> &[u8]
        ensures { result.now ≡ self.now.sink.given }
    {
        self.sink.bytes()
    }
}

impl Source for MemConn {
    ghost left = { λ c. bytes_left c.source };

    ghost faults = { λ c. c.source.calls.faults };

    ghost beside = { λ c. beside_of (bytes_given c.sink) c.sink.calls.faults };

    fn take(&mut self, into: &mut [u8]) -> Result<usize, Failed>
        ensures takes { TakesFront self.old.source into.old into.new self.new.source result }
        ensures apart { self.new.sink ≡ self.old.sink }

        ensures bound { IfOk result (λ count. count ≤ length into.new) }
        ensures bytes { IfOk result (λ count.
            Gave (bytes_left self.old.source) (take count into.new) (bytes_left self.new.source)) }
        ensures end { IfOk result (λ count.
            count ≡ 0 → 0 < length into.new → IsEmpty (bytes_left self.new.source)) }
        ensures err { OnErr result (bytes_left self.new.source ≡ bytes_left self.old.source) }
        ensures cause { HasCause self.old.source.calls.faults self.new.source.calls.faults result }
        ensures unfailed { OnOk result (self.new.source.calls.faults ≡ self.old.source.calls.faults) }
    {
        self.source.take(into)
    }
}

impl Sink for MemConn {
    ghost given = { λ c. bytes_given c.sink };

    ghost faults = { λ c. c.sink.calls.faults };

    ghost beside = { λ c. beside_of (bytes_left c.source) c.source.calls.faults };

    fn put(&mut self, piece: &[u8]) -> Result<usize, Failed>
        ensures puts { PutsFront self.old.sink piece.now self.new.sink result }
        ensures apart { self.new.source ≡ self.old.source }

        ensures bound { IfOk result (λ count. count ≤ length piece.now) }
        ensures some { IfOk result (λ count. 0 < length piece.now → 0 < count) }
        ensures bytes { IfOk result (λ count.
            Got (bytes_given self.old.sink) (take count piece.now) (bytes_given self.new.sink)) }
        ensures err { OnErr result (bytes_given self.new.sink ≡ bytes_given self.old.sink) }
        ensures cause { HasCause self.old.sink.calls.faults self.new.sink.calls.faults result }
        ensures unfailed { OnOk result (self.new.sink.calls.faults ≡ self.old.sink.calls.faults) }
    {
        self.sink.put(piece)
    }
}

impl Line for MemConn {
    fn apart(&self) {}
}

/// A listener in memory. It gives its connections in order. It fails at the calls of `begin` and
/// `accept` that are listed, which are numbered together from 1, and where none is left to
/// `accept`, and at no other.
#[derive(Drop)]
pub struct MemListener {
    conns: IntoIter<MemConn>,
    returned: Vec<MemConn>,
    out: usize,
    calls: Calls,
}

impl Model for MemListener {
    ghost use Rattle.std.specs.Prelude.{◌≤◌, ◌+◌, vec_len, vec_capacity};
    ghost use Rattle.std.specs.Vec.Iter.{into_iter_items, into_iter_len};
    ghost use Rattle.svc_io.specs.Listening.{ListenerState};

    ghost Value = { ListenerState };

    ghost view = { λ l. record {
      left = into_iter_items l.conns;
      returned = l.returned.items;
      out = l.out;
      calls = l.calls;
    } };

    // There is room for each connection that is out or may come out.
    ghost invariant = { λ l. into_iter_len l.conns + l.out + vec_len l.returned ≤ vec_capacity l.returned };
}

impl MemListener {
    /// A listener that gives these connections. It reserves the room for those that come back, so
    /// that `give_back` takes no memory.
    pub fn new(
        alloc: Global,
        conns: Vec<MemConn>,
        failing: Vec<u64>,
    ) -> Result<MemListener, AllocError>
        ensures left { IfOk result (λ listener. listener.left ≡ conns.items) }
        ensures returned { IfOk result (λ listener. listener.returned ≡ []) }
        ensures out { IfOk result (λ listener. listener.out ≡ 0) }
        ensures calls { IfOk result (λ listener. listener.calls ≡ first_calls failing.items) }
    {
        Ok(MemListener {
            returned: Vec::with_capacity(alloc, conns.len())?,
            conns: conns.into_iter(),
            out: 0,
            calls: Calls::new(failing),
        })
    }

    /// The connections that were given back, in order. It takes no memory.
    pub fn returned(&self) -> &[MemConn]
        ensures { result.now ≡ self.now.returned }
    {
        &self.returned
    }
}

impl Listener for MemListener {
    type Conn = MemConn;

    ghost left = { λ l. Some l.left };

    ghost returned = { λ l. Some l.returned };

    ghost out = { λ l. l.out };

    ghost faults = { λ l. l.calls.faults };

    fn begin(&mut self, _port: u16) -> Result<(), Failed>
        ensures fails { IsErr result ↔ NextFails self.old.calls }
        ensures began { OnOk result (self.new ≡ listener_began self.old) }
        ensures failed { OnErr result (self.new ≡ listener_failed self.old) }
        ensures cause { HasCause self.old.calls.faults self.new.calls.faults result }
    {
        self.calls.make()
    }

    fn accept(&mut self) -> Result<MemConn, Failed>
        ensures fails { IsErr result ↔ (NextFails self.old.calls ⊎ (self.old.left ≡ [])) }
        ensures first { IfOk result (λ conn. self.old.left ≡ conn ∷ self.new.left) }
        ensures gave { OnOk result (self.new ≡ listener_gave self.old) }
        ensures failed { OnErr result (self.new ≡ listener_failed self.old) }
        ensures cause { HasCause self.old.calls.faults self.new.calls.faults result }
    {
        self.calls.make()?;
        match self.conns.next() {
            Some(conn) => {
                self.out += 1;
                Ok(conn)
            }
            None => Err(self.calls.fail()),
        }
    }

    fn give_back(&mut self, conn: MemConn)
        requires { 0 < self.old.out }
        ensures { self.new ≡ listener_got conn self.old }
    {
        self.out -= 1;
        self.returned.push_reserved(conn);
    }
}
