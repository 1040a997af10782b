//! Replies.

ghost use Rattle.std.specs.Prelude.{◌≡◌, ◌++◌, ◌∷◌, [], codes, decimal, length};
ghost use Rattle.printed_rows.specs.RowTexts.{rows_text};
ghost use Rattle.svc_io.specs.Bytes.{Puts};
ghost use Rattle.svc_io.specs.Faults.{HasCause};
ghost use Rattle.sessions.specs.Printed as printed;

use cat_engine::{Reply, Warning};
use cat_items::{Refusal, Row};
use item_texts::{write_item, write_name, write_need, write_path};
use printed_rows::{write_number, write_rows};
use svc_io::{Failed, Sink, put_all};

fn code_bytes(refusal: &Refusal) -> &'static [u8]
    ensures { result.now ≡ printed.code_text refusal.now }
{
    match refusal {
        Refusal::BadToken { .. } => b"00 42000 ",
        Refusal::Syntax => b"01 42000",
        Refusal::NotInProfile => b"02 Y0002",
        Refusal::NotConnected => b"03 08003",
        Refusal::ConnectionInUse => b"04 08002",
        Refusal::UnknownUser => b"05 28000",
        Refusal::UnknownName { .. } => b"06 42000 ",
        Refusal::NotOwner { .. } => b"07 42000 ",
        Refusal::NoPrivilege { .. } => b"08 42000 ",
        Refusal::StillNeeded {
            by_rights: true,
            ..
        } => b"09 2B000 ",
        Refusal::StillNeeded {
            by_rights: false,
            ..
        } => b"09 42000 ",
        Refusal::NameExists { .. } => b"10 42000 ",
        Refusal::RoleCycle => b"11 42000",
        Refusal::InvalidRole { current: true } => b"12 0L000",
        Refusal::InvalidRole { current: false } => b"12 0P000",
        Refusal::TypeMismatch => b"13 42000",
        Refusal::NoSuchKey => b"14 42000",
        Refusal::OnlyColumn => b"15 42000",
        Refusal::Repeated { .. } => b"16 42000 ",
        Refusal::NameReserved => b"17 42000",
        Refusal::Ambiguous { .. } => b"18 42000 ",
        Refusal::CatalogFull { .. } => b"19 Y0019 ",
    }
}

fn write_carried<W: Sink>(sink: &mut W, refusal: &Refusal) -> Result<(), Failed>
    ensures bytes { Puts (W.given sink.old) (printed.carried_text refusal.now) (W.given sink.new) result }
    ensures cause { HasCause (W.faults sink.old) (W.faults sink.new) result }
    ensures beside { W.beside sink.new ≡ W.beside sink.old }
{
    match refusal {
        Refusal::BadToken { offset } => write_number(sink, *offset as u64),
        Refusal::UnknownName { path } | Refusal::NameExists { path } | Refusal::Repeated { path } =>
            write_path(sink, path),
        Refusal::NotOwner { schema: name } | Refusal::Ambiguous { name } => write_name(sink, name),
        Refusal::NoPrivilege { need } => write_need(sink, need),
        Refusal::StillNeeded { item, .. } => write_item(sink, item),
        Refusal::CatalogFull { count } => write_number(sink, *count),
        _ => Ok(()),
    }
}

fn write_refusal<W: Sink>(sink: &mut W, refusal: &Refusal) -> Result<(), Failed>
    ensures bytes { Puts (W.given sink.old) (codes "ERR " ++ printed.code_text refusal.now ++ printed.carried_text refusal.now ++ 10 ∷ []) (W.given sink.new) result }
    ensures cause { HasCause (W.faults sink.old) (W.faults sink.new) result }
    ensures beside { W.beside sink.new ≡ W.beside sink.old }
{
    if let Err(failed) = put_all(sink, b"ERR ") {
        return Err(failed);
    }
    if let Err(failed) = put_all(sink, code_bytes(refusal)) {
        return Err(failed);
    }
    if let Err(failed) = write_carried(sink, refusal) {
        return Err(failed);
    }
    put_all(sink, b"\n")
}

/// Writes a line of a front and a number.
fn write_counted<W: Sink>(sink: &mut W, front: &[u8], count: u64) -> Result<(), Failed>
    ensures bytes { Puts (W.given sink.old) (front.now ++ decimal count ++ 10 ∷ []) (W.given sink.new) result }
    ensures cause { HasCause (W.faults sink.old) (W.faults sink.new) result }
    ensures beside { W.beside sink.new ≡ W.beside sink.old }
{
    if let Err(failed) = put_all(sink, front) {
        return Err(failed);
    }
    if let Err(failed) = write_number(sink, count) {
        return Err(failed);
    }
    put_all(sink, b"\n")
}

/// Writes how many rows there are, and then a line for each.
fn write_found<W: Sink>(sink: &mut W, rows: &[Row]) -> Result<(), Failed>
    ensures bytes { Puts (W.given sink.old) ((codes "ROWS " ++ decimal (length rows.now) ++ 10 ∷ []) ++ rows_text rows.now) (W.given sink.new) result }
    ensures cause { HasCause (W.faults sink.old) (W.faults sink.new) result }
    ensures beside { W.beside sink.new ≡ W.beside sink.old }
{
    if let Err(failed) = write_counted(sink, b"ROWS ", rows.len() as u64) {
        return Err(failed);
    }
    write_rows(sink, rows)
}

/// Writes the line of a reply: all of it, or a front where the sink fails. It takes no memory.
pub fn write_reply<W: Sink>(sink: &mut W, reply: &Reply) -> Result<(), Failed>
    ensures bytes { Puts (W.given sink.old) (printed.reply_text reply.now) (W.given sink.new) result }
    ensures cause { HasCause (W.faults sink.old) (W.faults sink.new) result }
    ensures beside { W.beside sink.new ≡ W.beside sink.old }
{
    match reply {
        Reply::Ok => put_all(sink, b"OK\n"),
        Reply::Warn(Warning::NotRevoked) => put_all(sink, b"WARN 01006\n"),
        Reply::Warn(Warning::NotGranted) => put_all(sink, b"WARN 01007\n"),
        Reply::Rows(found) => write_found(sink, found.rows.as_slice()),
        Reply::Refused(refusal) => write_refusal(sink, refusal),
        Reply::JournalFull { held } => write_counted(sink, b"ERR 20 Y0020 ", *held),
        Reply::OutOfMemory => put_all(sink, b"ERR 21 Y0021\n"),
    }
}
