//! What stands behind a script or a server.

ghost use Rattle.std.specs.Prelude.{◌≡◌, ◌≢◌, ◌⊎◌};
ghost use Rattle.cat_items.specs.Good.{IsGood};
ghost use Rattle.ddl_service.specs.Finish.{Finishes};
ghost use Rattle.svc_io.specs.Faults.{Rose};

use printed_tables::{Unwritten, write_definition};
use sample_runs::{Book, Status};
use std::alloc::Global;
use svc_io::Sink;

/// Writes the Definition Schema of a book, where it is asked for and all was done, and gives the status of it all.
pub fn finish<W: Sink>(
    alloc: Global,
    definition: bool,
    end: Status,
    book: &Book,
    sink: &mut W,
) -> Status
    ensures finishes { Finishes definition end book.now result (W.given sink.old) (W.given sink.new) }
    ensures good { IsGood book.now.content.catalogue }
    ensures status { (result ≡ end) ⊎ ((end ≡ Status.Done) × ((result ≡ Status.WriteFault) ⊎ (result ≡ Status.OutOfMemory))) }
    ensures still { end ≢ Status.Done → (result ≡ end) × (sink.new ≡ sink.old) }
    ensures fault { end ≡ Status.Done → result ≡ Status.WriteFault → Rose (W.faults sink.old) (W.faults sink.new) }
{
    let catalogue = book.catalogue();
    match end {
        Status::Done => {
            if !definition {
                return Status::Done;
            }
            match write_definition(alloc, catalogue, sink) {
                Ok(()) => Status::Done,
                Err(Unwritten::Failed) => Status::WriteFault,
                Err(Unwritten::Memory) => Status::OutOfMemory,
            }
        }
        other => other,
    }
}
