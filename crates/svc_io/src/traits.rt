ghost use Rattle.std.specs.Prelude.{◌≡◌, ◌≤◌, ◌<◌, ◌-◌, List, ℕ, Option, length, take, IfOk, OnOk, OnErr};
ghost use Rattle.svc_io.specs.Bytes.{Gave, Got, IsEmpty};
ghost use Rattle.svc_io.specs.Connections.{Gives, GetsBack};
ghost use Rattle.svc_io.specs.Faults.{Beside, HasCause, beside_of, raised};

/// A fault of a source, a sink or a listener. The object that answers it has counted it.
#[derive(Clone, Copy, Debug, PartialEq, Eq)]
pub struct Failed;

// A fault, which this counts.
pub(crate) fn fault(count: &mut u64) -> Failed
    ensures raised { count.new ≡ raised count.old }
    ensures later { count.old ≤ count.new }
{
    *count = count.saturating_add(1);
    Failed
}

/// An object that gives bytes.
///
/// It may tell which bytes are left. Where it does, they are a finite list, and each call that
/// gives bytes takes them off its front: so the end comes after finitely many calls.
pub trait Source {
    /// The bytes that are left, where the source tells them.
    ghost left: { Self → Option (List ℕ) };

    /// How often it has failed.
    ghost faults: { Self → ℕ };

    /// What stands beside it, where it is a sink too.
    ghost beside: { Self → Beside };

    /// Puts bytes at the front of `into`, and answers how many. 0 for a nonempty `into` is the end
    /// of input. A call that fails gives nothing, and a later call may give bytes again.
    fn take(&mut self, into: &mut [u8]) -> Result<usize, Failed>
        ensures bound { IfOk result (λ count. count ≤ length into.new) }
        ensures bytes { IfOk result (λ count.
            Gave (left self.old) (take count into.new) (left self.new)) }
        ensures end { IfOk result (λ count.
            count ≡ 0 → 0 < length into.new → IsEmpty (left self.new)) }
        ensures err { OnErr result (left self.new ≡ left self.old) }
        ensures cause { HasCause (faults self.old) (faults self.new) result }
        ensures unfailed { OnOk result (faults self.new ≡ faults self.old) }
        ensures beside { beside self.new ≡ beside self.old };
}

/// An object that takes bytes.
pub trait Sink {
    /// The bytes that it was given, where the sink tells them.
    ghost given: { Self → Option (List ℕ) };

    /// How often it has failed.
    ghost faults: { Self → ℕ };

    /// What stands beside it, where it is a source too.
    ghost beside: { Self → Beside };

    /// Takes bytes from the front of `piece`, and answers how many: at least one of a nonempty
    /// piece. A call that fails takes nothing, and a later call may take bytes again.
    fn put(&mut self, piece: &[u8]) -> Result<usize, Failed>
        ensures bound { IfOk result (λ count. count ≤ length piece.now) }
        ensures some { IfOk result (λ count. 0 < length piece.now → 0 < count) }
        ensures bytes { IfOk result (λ count.
            Got (given self.old) (take count piece.now) (given self.new)) }
        ensures err { OnErr result (given self.new ≡ given self.old) }
        ensures cause { HasCause (faults self.old) (faults self.new) result }
        ensures unfailed { OnOk result (faults self.new ≡ faults self.old) }
        ensures beside { beside self.new ≡ beside self.old };
}

/// One object that is a source and a sink, as a connection is.
pub trait Line: Source + Sink {
    /// Says that what stands beside the source is what the sink tells, and the sink's count of
    /// faults, and the other way round. So `take` leaves what the sink was given, and `put` leaves
    /// what the source has left. It does nothing, and takes no memory.
    fn apart(&self)
        ensures source { Self.Source.beside self.now
            ≡ beside_of (Self.given self.now) (Self.Sink.faults self.now) }
        ensures sink { Self.Sink.beside self.now
            ≡ beside_of (Self.left self.now) (Self.Source.faults self.now) };
}

/// An object that gives connections.
pub trait Listener {
    type Conn: Line + Send + Drop;

    /// The connections that are left to give, in order, where the listener tells them.
    ghost left: { Self → Option (List Self.Conn) };

    /// The connections that were given back, in order, where the listener tells them.
    ghost returned: { Self → Option (List Self.Conn) };

    /// How many connections are out: given, and not given back.
    ghost out: { Self → ℕ };

    /// How often it has failed.
    ghost faults: { Self → ℕ };

    /// Begins to listen at a port.
    fn begin(&mut self, port: u16) -> Result<(), Failed>
        ensures left { left self.new ≡ left self.old }
        ensures returned { returned self.new ≡ returned self.old }
        ensures out { out self.new ≡ out self.old }
        ensures cause { HasCause (faults self.old) (faults self.new) result }
        ensures unfailed { OnOk result (faults self.new ≡ faults self.old) };

    /// Gives the next connection, and waits for one where none has come yet. How many are out is
    /// counted in 64 bits, and the count stands still at their end.
    fn accept(&mut self) -> Result<Self::Conn, Failed>
        ensures first { IfOk result (λ conn. Gives (left self.old) conn (left self.new)) }
        ensures left { OnErr result (left self.new ≡ left self.old) }
        ensures returned { returned self.new ≡ returned self.old }
        ensures one_out { OnOk result (out self.new ≡ raised (out self.old)) }
        ensures out { OnErr result (out self.new ≡ out self.old) }
        ensures cause { HasCause (faults self.old) (faults self.new) result }
        ensures unfailed { OnOk result (faults self.new ≡ faults self.old) };

    /// Takes a connection back. It can't fail, and takes no memory.
    fn give_back(&mut self, conn: Self::Conn)
        requires { 0 < out self.old }
        ensures left { left self.new ≡ left self.old }
        ensures returned { GetsBack (returned self.old) conn (returned self.new) }
        ensures out { out self.new ≡ out self.old - 1 }
        ensures faults { faults self.new ≡ faults self.old };
}
