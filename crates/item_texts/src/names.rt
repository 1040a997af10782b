//! Names as replies tell them. Each `write_` function writes all of its text, or a front of it where the sink fails.

ghost use Rattle.std.specs.Prelude.{◌≡◌, ◌++◌, codes};
ghost use Rattle.std.specs.Option.{option_copied};
ghost use Rattle.cat_items.specs.ItemTexts as items;
ghost use Rattle.sql_spelling.specs.Texts as texts;
ghost use Rattle.svc_io.specs.Bytes.{Puts};
ghost use Rattle.svc_io.specs.Faults.{HasCause};
ghost use Rattle.item_texts.specs.Parts as spec;

use sql_spelling::is_bare;
use sql_tree::{Name, Object, Path};
use svc_io::{Failed, Sink, put_all};

fn put_doubled<W: Sink>(sink: &mut W, byte: u8) -> Result<(), Failed>
    ensures bytes { Puts (W.given sink.old) (spec.doubled byte) (W.given sink.new) result }
    ensures cause { HasCause (W.faults sink.old) (W.faults sink.new) result }
    ensures beside { W.beside sink.new ≡ W.beside sink.old }
{
    if byte == b'"' {
        put_all(sink, b"\"\"")
    } else {
        put_all(sink, &[byte])
    }
}

fn write_quoted<W: Sink>(sink: &mut W, name: &[u8]) -> Result<(), Failed>
    ensures bytes { Puts (W.given sink.old) (texts.quoted 34 name.now) (W.given sink.new) result }
    ensures cause { HasCause (W.faults sink.old) (W.faults sink.new) result }
    ensures beside { W.beside sink.new ≡ W.beside sink.old }
{
    if let Err(failed) = put_all(sink, b"\"") {
        return Err(failed);
    }
    for byte in name {
        if let Err(failed) = put_doubled(sink, *byte) {
            return Err(failed);
        }
    }
    put_all(sink, b"\"")
}

/// Writes a name as it is told: bare, or in double quotes.
#[tactic(auto, unfolding(sql_spelling::specs::Texts::name_text))]
pub fn write_name<W: Sink>(sink: &mut W, name: &Name) -> Result<(), Failed>
    ensures bytes { Puts (W.given sink.old) (texts.name_text name.now) (W.given sink.new) result }
    ensures cause { HasCause (W.faults sink.old) (W.faults sink.new) result }
    ensures beside { W.beside sink.new ≡ W.beside sink.old }
{
    let bytes = name.bytes();
    if is_bare(bytes) {
        put_all(sink, bytes)
    } else {
        write_quoted(sink, bytes)
    }
}

fn write_first<W: Sink>(sink: &mut W, name: Option<&Name>) -> Result<(), Failed>
    ensures bytes { Puts (W.given sink.old) (spec.first_text (option_copied name.entry)) (W.given sink.new) result }
    ensures cause { HasCause (W.faults sink.old) (W.faults sink.new) result }
    ensures beside { W.beside sink.new ≡ W.beside sink.old }
{
    match name {
        None => Ok(()),
        Some(name) => write_name(sink, name),
    }
}

fn write_point<W: Sink>(sink: &mut W, name: &Name) -> Result<(), Failed>
    ensures bytes { Puts (W.given sink.old) (codes "." ++ texts.name_text name.now) (W.given sink.new) result }
    ensures cause { HasCause (W.faults sink.old) (W.faults sink.new) result }
    ensures beside { W.beside sink.new ≡ W.beside sink.old }
{
    if let Err(failed) = put_all(sink, b".") {
        return Err(failed);
    }
    write_name(sink, name)
}

/// Writes a point and a name, where there is one.
pub fn write_dotted<W: Sink>(sink: &mut W, name: Option<&Name>) -> Result<(), Failed>
    ensures bytes { Puts (W.given sink.old) (items.column_text (option_copied name.entry)) (W.given sink.new) result }
    ensures cause { HasCause (W.faults sink.old) (W.faults sink.new) result }
    ensures beside { W.beside sink.new ≡ W.beside sink.old }
{
    match name {
        None => Ok(()),
        Some(name) => write_point(sink, name),
    }
}

/// Writes the names of a path, with points between them.
pub fn write_path<W: Sink>(sink: &mut W, path: &Path) -> Result<(), Failed>
    ensures bytes { Puts (W.given sink.old) (items.path_text path.now) (W.given sink.new) result }
    ensures cause { HasCause (W.faults sink.old) (W.faults sink.new) result }
    ensures beside { W.beside sink.new ≡ W.beside sink.old }
{
    let len = path.len();
    prove!(len <= 3);
    if let Err(failed) = write_first(sink, path.get(0)) {
        return Err(failed);
    }
    if let Err(failed) = write_dotted(sink, path.get(1)) {
        return Err(failed);
    }
    write_dotted(sink, path.get(2))
}

/// Writes `schema.name`.
pub fn write_object<W: Sink>(sink: &mut W, object: &Object) -> Result<(), Failed>
    ensures bytes { Puts (W.given sink.old) (texts.object_text object.now) (W.given sink.new) result }
    ensures cause { HasCause (W.faults sink.old) (W.faults sink.new) result }
    ensures beside { W.beside sink.new ≡ W.beside sink.old }
{
    if let Err(failed) = write_name(sink, &object.schema) {
        return Err(failed);
    }
    if let Err(failed) = put_all(sink, b".") {
        return Err(failed);
    }
    write_name(sink, &object.name)
}
