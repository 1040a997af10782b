ghost use Rattle.std.specs.Prelude.{◌≡◌, ◌≤◌, ◌<◌, Option, None, Some, IfOk, OnOk, OnErr, Ok, length, take};
ghost use Rattle.std.specs.Io.KnownBytes.{ReadConsumes, WriteAppends};
ghost use Rattle.svc_io.specs.Bytes.{Gave, Got, IsEmpty};
ghost use Rattle.svc_io.specs.Standard.{reader_of, read_faults, writer_of, write_faults};
ghost use Rattle.svc_io.specs.Faults.{HasCause, nothing_beside, raised};

use crate::traits::fault;
use crate::{Failed, Sink, Source};
use std::io::{Read, Write};

// Reads once, and counts an error.
pub(crate) fn read_from<R: Read>(
    reader: &mut R,
    into: &mut [u8],
    faults: &mut u64,
) -> Result<usize, Failed>
    ensures read { ReadConsumes (R.remaining reader.old) (R.remaining reader.new) result into.new }
    ensures bound { IfOk result (λ count. count ≤ length into.new) }
    ensures cause { HasCause faults.old faults.new result }
    ensures unfailed { OnOk result (faults.new ≡ faults.old) }
    ensures failed { OnErr result (faults.new ≡ raised faults.old) }
{
    match reader.read(into) {
        Ok(count) => Ok(count),
        Err(_) => Err(fault(faults)),
    }
}

// Writes once, and counts an error. That none of a nonempty piece was written is one.
pub(crate) fn write_to<W: Write>(
    writer: &mut W,
    piece: &[u8],
    faults: &mut u64,
) -> Result<usize, Failed>
    ensures written { WriteAppends (W.contents writer.old) (W.contents writer.new) result piece.now }
    ensures bound { IfOk result (λ count. count ≤ length piece.now) }
    ensures some { IfOk result (λ count. 0 < length piece.now → 0 < count) }
    ensures cause { HasCause faults.old faults.new result }
    ensures unfailed { OnOk result (faults.new ≡ faults.old) }
    ensures failed { OnErr result (faults.new ≡ raised faults.old) }
{
    match writer.write(piece) {
        Ok(count) if count > 0 || piece.is_empty() => Ok(count),
        _ => Err(fault(faults)),
    }
}

/// A source over any reader, as standard input. It tells no bytes. Each error of the reader is a
/// fault, an interrupted call too, and is not tried again.
#[derive(Drop)]
pub struct StdSource<R: Read> {
    reader: R,
    faults: u64,
}

impl<R: Read> StdSource<R> {
    /// A source over this reader. It takes no memory.
    pub fn new(reader: R) -> Self
        ensures reader { reader_of result ≡ reader }
        ensures faults { read_faults result ≡ 0 }
    {
        StdSource { reader, faults: 0 }
    }
}

impl<R: Read> Source for StdSource<R> {
    ghost left = { λ _. None };

    ghost faults = { read_faults };

    ghost beside = { λ _. nothing_beside };

    fn take(&mut self, into: &mut [u8]) -> Result<usize, Failed>
        // Where the reader itself tells its bytes, this call reads them.
        ensures read { ReadConsumes
            (R.remaining (reader_of self.old)) (R.remaining (reader_of self.new)) result into.new }

        ensures bound { IfOk result (λ count. count ≤ length into.new) }
        ensures cause { HasCause (read_faults self.old) (read_faults self.new) result }
        ensures unfailed { OnOk result (read_faults self.new ≡ read_faults self.old) }
        ensures failed { OnErr result (read_faults self.new ≡ raised (read_faults self.old)) }
    {
        read_from(&mut self.reader, into, &mut self.faults)
    }
}

/// A sink over any writer, as standard output. It tells no bytes. Each error of the writer is a
/// fault, an interrupted call too, and is not tried again; so is a write that takes none of a
/// nonempty piece. It doesn't flush: give it a writer that keeps nothing back.
#[derive(Drop)]
pub struct StdSink<W: Write> {
    writer: W,
    faults: u64,
}

impl<W: Write> StdSink<W> {
    /// A sink over this writer. It takes no memory.
    pub fn new(writer: W) -> Self
        ensures writer { writer_of result ≡ writer }
        ensures faults { write_faults result ≡ 0 }
    {
        StdSink { writer, faults: 0 }
    }
}

impl<W: Write> Sink for StdSink<W> {
    ghost given = { λ _. None };

    ghost faults = { write_faults };

    ghost beside = { λ _. nothing_beside };

    fn put(&mut self, piece: &[u8]) -> Result<usize, Failed>
        // Where the writer itself tells its bytes, this call writes them.
        ensures written { WriteAppends
            (W.contents (writer_of self.old)) (W.contents (writer_of self.new)) result piece.now }

        ensures bound { IfOk result (λ count. count ≤ length piece.now) }
        ensures some { IfOk result (λ count. 0 < length piece.now → 0 < count) }
        ensures cause { HasCause (write_faults self.old) (write_faults self.new) result }
        ensures unfailed { OnOk result (write_faults self.new ≡ write_faults self.old) }
        ensures failed { OnErr result (write_faults self.new ≡ raised (write_faults self.old)) }
    {
        write_to(&mut self.writer, piece, &mut self.faults)
    }
}

/// A sink that takes every byte, never fails and keeps nothing. It tells no bytes.
#[derive(Clone, Copy, Debug, PartialEq, Eq)]
pub struct Nowhere;

impl Sink for Nowhere {
    ghost given = { λ _. None };

    ghost faults = { λ _. 0 };

    ghost beside = { λ _. nothing_beside };

    fn put(&mut self, piece: &[u8]) -> Result<usize, Failed>
        ensures all { result ≡ Ok (length piece.now) }
    {
        Ok(piece.len())
    }
}
