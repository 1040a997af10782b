ghost use Rattle.std.specs.Prelude.{◌≡◌, OnOk};
ghost use Rattle.svc_io.specs.Bytes.{Puts};
ghost use Rattle.svc_io.specs.Faults.{HasCause};

use crate::{Failed, Sink};

/// Puts all these bytes out, or a front of them where the sink fails. It takes no memory.
pub fn put_all<W: Sink>(sink: &mut W, bytes: &[u8]) -> Result<(), Failed>
    ensures bytes { Puts (W.given sink.old) bytes.now (W.given sink.new) result }
    ensures cause { HasCause (W.faults sink.old) (W.faults sink.new) result }
    ensures unfailed { OnOk result (W.faults sink.new ≡ W.faults sink.old) }
    ensures beside { W.beside sink.new ≡ W.beside sink.old }
{
    let mut at = 0;
    while at < bytes.len() {
        match sink.put(&bytes[at..]) {
            Ok(count) => at += count,
            Err(failed) => return Err(failed),
        }
    }
    Ok(())
}
