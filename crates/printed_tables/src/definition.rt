//! The Definition Schema of a catalogue.

ghost use Rattle.std.specs.Prelude.{◌≡◌, IfErr};
ghost use Rattle.svc_io.specs.Faults.{Rose};
ghost use Rattle.printed_tables.specs.Written.{IsWritten};

use crate::tables::write_tables;
use cat_items::Catalogue;
use definition_schema::tables;
use std::alloc::Global;
use svc_io::Sink;

/// Why tables weren't written whole.
#[derive(Clone, Copy, Debug, PartialEq, Eq)]
pub enum Unwritten {
    /// Memory ran out before anything was written.
    Memory,
    /// The sink failed.
    Failed,
}

/// Writes the tables of the Definition Schema of a catalogue, with nothing hidden.
pub fn write_definition<W: Sink>(
    alloc: Global,
    c: &Catalogue,
    sink: &mut W,
) -> Result<(), Unwritten>
    ensures bytes { IsWritten c.now.items (W.given sink.old) (W.given sink.new) result }
    ensures memory { IfErr result (λ why. why ≡ Unwritten.Memory → sink.new ≡ sink.old) }
    ensures failed { IfErr result (λ why. why ≡ Unwritten.Failed → Rose (W.faults sink.old) (W.faults sink.new)) }
    ensures beside { W.beside sink.new ≡ W.beside sink.old }
{
    match tables(alloc, c) {
        Ok(rows) => match write_tables(sink, &rows) {
            Ok(()) => Ok(()),
            Err(_) => Err(Unwritten::Failed),
        },
        Err(_) => Err(Unwritten::Memory),
    }
}
