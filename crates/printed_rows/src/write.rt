//! Each `write_` function writes all of its text, or a front of it where the sink fails, and takes no memory.

ghost use Rattle.std.specs.Prelude.{◌≡◌, ◌++◌, ◌∷◌, [], decimal, flat_map};
ghost use Rattle.printed_rows.specs.RowTexts as texts;
ghost use Rattle.svc_io.specs.Bytes.{Puts};
ghost use Rattle.svc_io.specs.Faults.{HasCause};

use cat_items::{Cell, Row};
use itoa::Buffer;
use svc_io::{Failed, Sink, put_all};

/// Writes a number in decimal digits.
pub fn write_number<W: Sink>(sink: &mut W, number: u64) -> Result<(), Failed>
    ensures bytes { Puts (W.given sink.old) (decimal number) (W.given sink.new) result }
    ensures cause { HasCause (W.faults sink.old) (W.faults sink.new) result }
    ensures beside { W.beside sink.new ≡ W.beside sink.old }
{
    let mut buffer = Buffer::new();
    put_all(sink, buffer.format(number).as_bytes())
}

fn write_byte<W: Sink>(sink: &mut W, byte: u8) -> Result<(), Failed>
    ensures bytes { Puts (W.given sink.old) (texts.escaped byte) (W.given sink.new) result }
    ensures cause { HasCause (W.faults sink.old) (W.faults sink.new) result }
    ensures beside { W.beside sink.new ≡ W.beside sink.old }
{
    match byte {
        b'\\' => put_all(sink, b"\\\\"),
        b'\t' => put_all(sink, b"\\t"),
        b'\n' => put_all(sink, b"\\n"),
        b'\r' => put_all(sink, b"\\r"),
        _ => put_all(sink, &[byte]),
    }
}

fn write_words<W: Sink>(sink: &mut W, bytes: &[u8]) -> Result<(), Failed>
    ensures bytes { Puts (W.given sink.old) (flat_map texts.escaped bytes.now) (W.given sink.new) result }
    ensures cause { HasCause (W.faults sink.old) (W.faults sink.new) result }
    ensures beside { W.beside sink.new ≡ W.beside sink.old }
{
    for byte in bytes {
        if let Err(failed) = write_byte(sink, *byte) {
            return Err(failed);
        }
    }
    Ok(())
}

fn write_cell<W: Sink>(sink: &mut W, cell: &Cell) -> Result<(), Failed>
    ensures bytes { Puts (W.given sink.old) (texts.cell_text cell.now) (W.given sink.new) result }
    ensures cause { HasCause (W.faults sink.old) (W.faults sink.new) result }
    ensures beside { W.beside sink.new ≡ W.beside sink.old }
{
    match cell {
        Cell::Null => put_all(sink, b"\\N"),
        Cell::Number(number) => write_number(sink, *number),
        Cell::Words(text) => write_words(sink, text.bytes()),
    }
}

fn write_further<W: Sink>(sink: &mut W, cell: &Cell) -> Result<(), Failed>
    ensures bytes { Puts (W.given sink.old) (texts.further_text cell.now) (W.given sink.new) result }
    ensures cause { HasCause (W.faults sink.old) (W.faults sink.new) result }
    ensures beside { W.beside sink.new ≡ W.beside sink.old }
{
    if let Err(failed) = put_all(sink, b"\t") {
        return Err(failed);
    }
    write_cell(sink, cell)
}

fn write_furthers<W: Sink>(sink: &mut W, cells: &[Cell]) -> Result<(), Failed>
    ensures bytes { Puts (W.given sink.old) (flat_map texts.further_text cells.now) (W.given sink.new) result }
    ensures cause { HasCause (W.faults sink.old) (W.faults sink.new) result }
    ensures beside { W.beside sink.new ≡ W.beside sink.old }
{
    for cell in cells {
        if let Err(failed) = write_further(sink, cell) {
            return Err(failed);
        }
    }
    Ok(())
}

fn write_cells<W: Sink>(sink: &mut W, cells: &[Cell]) -> Result<(), Failed>
    ensures bytes { Puts (W.given sink.old) (texts.cells_text cells.now) (W.given sink.new) result }
    ensures cause { HasCause (W.faults sink.old) (W.faults sink.new) result }
    ensures beside { W.beside sink.new ≡ W.beside sink.old }
{
    match cells {
        [] => Ok(()),
        [first, rest @ ..] => {
            if let Err(failed) = write_cell(sink, first) {
                return Err(failed);
            }
            write_furthers(sink, rest)
        }
    }
}

fn write_row<W: Sink>(sink: &mut W, row: &Row) -> Result<(), Failed>
    ensures bytes { Puts (W.given sink.old) (texts.row_text row.now) (W.given sink.new) result }
    ensures cause { HasCause (W.faults sink.old) (W.faults sink.new) result }
    ensures beside { W.beside sink.new ≡ W.beside sink.old }
{
    if let Err(failed) = write_cells(sink, row.as_slice()) {
        return Err(failed);
    }
    put_all(sink, b"\n")
}

/// Writes rows: a line for each, its values with tabs between them. It takes no memory.
pub fn write_rows<W: Sink>(sink: &mut W, rows: &[Row]) -> Result<(), Failed>
    ensures bytes { Puts (W.given sink.old) (texts.rows_text rows.now) (W.given sink.new) result }
    ensures cause { HasCause (W.faults sink.old) (W.faults sink.new) result }
    ensures beside { W.beside sink.new ≡ W.beside sink.old }
{
    for row in rows {
        if let Err(failed) = write_row(sink, row) {
            return Err(failed);
        }
    }
    Ok(())
}
