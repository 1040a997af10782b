//! The tables of the Definition Schema as they are written. Each `write_` function writes all of its text, or a front of it where the sink
//! fails, and takes no memory.

ghost use Rattle.std.specs.Prelude.{◌≡◌, length};
ghost use Rattle.svc_io.specs.Bytes.{Puts};
ghost use Rattle.svc_io.specs.Faults.{HasCause};
ghost use Rattle.printed_tables.specs.TableTexts as texts;

use definition_schema::{DefRows, DefTable};
use printed_rows::{write_number, write_rows};
use sql_tree::Name;
use svc_io::{Failed, Sink, put_all};

fn write_count<W: Sink>(sink: &mut W, count: u64) -> Result<(), Failed>
    ensures bytes { Puts (W.given sink.old) (texts.count_text count) (W.given sink.new) result }
    ensures cause { HasCause (W.faults sink.old) (W.faults sink.new) result }
    ensures beside { W.beside sink.new ≡ W.beside sink.old }
{
    if let Err(failed) = put_all(sink, b" ") {
        return Err(failed);
    }
    if let Err(failed) = write_number(sink, count) {
        return Err(failed);
    }
    put_all(sink, b"\n")
}

fn write_head<W: Sink>(sink: &mut W, name: &Name, count: u64) -> Result<(), Failed>
    ensures bytes { Puts (W.given sink.old) (texts.head_text name.now count) (W.given sink.new) result }
    ensures cause { HasCause (W.faults sink.old) (W.faults sink.new) result }
    ensures beside { W.beside sink.new ≡ W.beside sink.old }
{
    if let Err(failed) = put_all(sink, b"TABLE ") {
        return Err(failed);
    }
    if let Err(failed) = put_all(sink, name.bytes()) {
        return Err(failed);
    }
    write_count(sink, count)
}

fn write_table<W: Sink>(sink: &mut W, table: &DefTable) -> Result<(), Failed>
    ensures bytes { Puts (W.given sink.old) (texts.table_text table.now.name table.now.rows.items) (W.given sink.new) result }
    ensures cause { HasCause (W.faults sink.old) (W.faults sink.new) result }
    ensures beside { W.beside sink.new ≡ W.beside sink.old }
{
    let rows = table.rows.as_slice();
    if let Err(failed) = write_head(sink, &table.name, rows.len() as u64) {
        return Err(failed);
    }
    write_rows(sink, rows)
}

/// Writes tables: for each a line `TABLE`, its name and how many rows it has, and then the lines of its rows. It takes no memory.
pub fn write_tables<W: Sink>(sink: &mut W, rows: &DefRows) -> Result<(), Failed>
    ensures bytes { Puts (W.given sink.old) (texts.tables_text rows.now.tables.items) (W.given sink.new) result }
    ensures cause { HasCause (W.faults sink.old) (W.faults sink.new) result }
    ensures beside { W.beside sink.new ≡ W.beside sink.old }
{
    for table in &rows.tables {
        if let Err(failed) = write_table(sink, table) {
            return Err(failed);
        }
    }
    Ok(())
}
