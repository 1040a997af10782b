//! The printed text of names, types and defaults.
//!
//! Each function puts a text at the end of `out`. After `Err` nothing is said of what `out` has.

ghost use Rattle.std.specs.Prelude.{◌≡◌, ◌++◌, OnOk, IfOk, decimal};
ghost use Rattle.std.specs.List.{list_all};
ghost use Rattle.sql_spelling.specs.Texts as spec;

use crate::kind::is_reserved_word;
use itoa::Buffer;
use sql_names::{
    Default, Name, Object, ObjectName, Reference, Special, SqlType, TableReference, Text,
};
use std::alloc::{AllocError, Global};

#[tactic(auto, unfolding(crate::specs::Texts::quoted))]
fn put_quoted(out: &mut Text, quote: u8, bytes: &[u8]) -> Result<(), AllocError>
    ensures { OnOk result (out.new ≡ out.old ++ spec.quoted quote bytes.now) }
{
    out.push(quote)?;
    for &byte in bytes {
        if byte == quote {
            out.push(quote)?;
        }
        out.push(byte)?;
    }
    out.push(quote)
}

fn continues(byte: u8) -> bool
    ensures { result ≡ spec.continues byte }
{
    byte.is_ascii_uppercase() || byte.is_ascii_digit() || byte == b'_'
}

fn all_continue(bytes: &[u8]) -> bool
    ensures { result ≡ list_all spec.continues bytes.now }
{
    bytes.iter().all(|byte| continues(*byte))
}

/// Whether a name stands without quotes: a regular identifier in upper case that isn't reserved (SQL:2003 part 2, 5.2).
#[tactic(auto, unfolding(crate::specs::Texts::is_bare))]
pub fn is_bare(bytes: &[u8]) -> bool
    ensures { result ≡ spec.is_bare bytes.now }
{
    match bytes {
        [] => false,
        [first, rest @ ..] => {
            first.is_ascii_uppercase() && all_continue(rest) && !is_reserved_word(bytes)
        }
    }
}

/// A name: bare where it is a regular identifier that isn't reserved, else between double quotes.
#[tactic(auto, unfolding(crate::specs::Texts::name_text))]
pub fn put_name(out: &mut Text, name: &Name) -> Result<(), AllocError>
    ensures { OnOk result (out.new ≡ out.old ++ spec.name_text name.now) }
{
    if is_bare(name.bytes()) {
        out.push_all(name.bytes())
    } else {
        put_quoted(out, b'"', name.bytes())
    }
}

/// The text of a name, as `put_name` puts it.
pub fn print_name(alloc: Global, name: &Name) -> Result<Text, AllocError>
    ensures { IfOk result (λ text. text ≡ spec.name_text name.now) }
{
    let mut out = Text::new(alloc);
    put_name(&mut out, name)?;
    Ok(out)
}

/// A literal between single quotes.
#[tactic(auto, unfolding(crate::specs::Texts::literal_text))]
pub fn put_literal(out: &mut Text, text: &Text) -> Result<(), AllocError>
    ensures { OnOk result (out.new ≡ out.old ++ spec.literal_text text.now) }
{
    put_quoted(out, b'\'', text.bytes())
}

/// An object, as `schema.name`.
pub fn put_object(out: &mut Text, object: &Object) -> Result<(), AllocError>
    ensures { OnOk result (out.new ≡ out.old ++ spec.object_text object.now) }
{
    put_name(out, &object.schema)?;
    out.push_all(b".")?;
    put_name(out, &object.name)
}

/// An object's name, with its schema where it has one.
pub fn put_object_name(out: &mut Text, object: &ObjectName) -> Result<(), AllocError>
    ensures { OnOk result (out.new ≡ out.old ++ spec.object_name_text object.now) }
{
    match object {
        ObjectName::Unqualified(name) => put_name(out, name),
        ObjectName::Qualified(object) => put_object(out, object),
    }
}

/// A reference to a column or a parameter.
pub fn put_reference(out: &mut Text, reference: &Reference) -> Result<(), AllocError>
    ensures { OnOk result (out.new ≡ out.old ++ spec.reference_text reference.now) }
{
    match reference {
        Reference::Unqualified(name) | Reference::Param { name } => put_name(out, name),
        Reference::Qualified { qualifier, name }
        | Reference::Cell {
            qualifier,
            name,
            ..
        } => {
            put_name(out, qualifier)?;
            out.push_all(b".")?;
            put_name(out, name)
        }
        Reference::Own { table, name } => {
            put_object(out, table)?;
            out.push_all(b".")?;
            put_name(out, name)
        }
    }
}

/// ` AS name`, where there is one.
pub fn put_alias(out: &mut Text, name: &Option<Name>) -> Result<(), AllocError>
    ensures { OnOk result (out.new ≡ out.old ++ spec.alias_text name.now) }
{
    match name {
        None => Ok(()),
        Some(name) => {
            out.push_all(b" AS ")?;
            put_name(out, name)
        }
    }
}

/// A table of a FROM, with the name by which it is known.
pub fn put_table(out: &mut Text, table: &TableReference) -> Result<(), AllocError>
    ensures { OnOk result (out.new ≡ out.old ++ spec.table_text table.now) }
{
    put_object_name(out, &table.table)?;
    put_alias(out, &table.correlation)
}

fn put_decimal(out: &mut Text, number: u32) -> Result<(), AllocError>
    ensures { OnOk result (out.new ≡ out.old ++ decimal number) }
{
    let mut buffer = Buffer::new();
    out.push_all(buffer.format(number).as_bytes())
}

/// `word(number)`
fn put_length(out: &mut Text, word: &[u8], number: u32) -> Result<(), AllocError>
    ensures { OnOk result (out.new ≡ out.old ++ spec.length_text word.now number) }
{
    out.push_all(word)?;
    out.push_all(b"(")?;
    put_decimal(out, number)?;
    out.push_all(b")")
}

/// `word(precision, scale)`
fn put_scale(out: &mut Text, word: &[u8], precision: u32, scale: u32) -> Result<(), AllocError>
    ensures { OnOk result (out.new ≡ out.old ++ spec.scale_text word.now precision scale) }
{
    out.push_all(word)?;
    out.push_all(b"(")?;
    put_decimal(out, precision)?;
    out.push_all(b", ")?;
    put_decimal(out, scale)?;
    out.push_all(b")")
}

/// A data type, with all its numbers.
pub fn put_type(out: &mut Text, sort: SqlType) -> Result<(), AllocError>
    ensures { OnOk result (out.new ≡ out.old ++ spec.type_text sort) }
{
    match sort {
        SqlType::Character { length } => put_length(out, b"CHARACTER", length),
        SqlType::CharacterVarying { length } => put_length(out, b"CHARACTER VARYING", length),
        SqlType::Numeric { precision, scale } => put_scale(out, b"NUMERIC", precision, scale),
        SqlType::Decimal { precision, scale } => put_scale(out, b"DECIMAL", precision, scale),
        SqlType::Smallint => out.push_all(b"SMALLINT"),
        SqlType::Integer => out.push_all(b"INTEGER"),
        SqlType::Bigint => out.push_all(b"BIGINT"),
        SqlType::Boolean => out.push_all(b"BOOLEAN"),
        SqlType::Date => out.push_all(b"DATE"),
        SqlType::Time { precision } => put_length(out, b"TIME", precision),
        SqlType::Timestamp { precision } => put_length(out, b"TIMESTAMP", precision),
    }
}

/// A value of the session or the clock.
pub fn put_special(out: &mut Text, special: Special) -> Result<(), AllocError>
    ensures { OnOk result (out.new ≡ out.old ++ spec.special_text special) }
{
    match special {
        Special::CurrentUser => out.push_all(b"CURRENT_USER"),
        Special::CurrentDate => out.push_all(b"CURRENT_DATE"),
        Special::CurrentTime => out.push_all(b"CURRENT_TIME"),
        Special::CurrentTimestamp => out.push_all(b"CURRENT_TIMESTAMP"),
    }
}

/// `- `, where a minus stands before a number or an operand.
pub fn put_minus(out: &mut Text, minus: bool) -> Result<(), AllocError>
    ensures { OnOk result (out.new ≡ out.old ++ spec.minus_text minus) }
{
    if minus { out.push_all(b"- ") } else { Ok(()) }
}

/// The value after DEFAULT.
pub fn put_default(out: &mut Text, default: &Default) -> Result<(), AllocError>
    ensures { OnOk result (out.new ≡ out.old ++ spec.default_text default.now) }
{
    match default {
        Default::Literal(text) => put_literal(out, text),
        Default::Number { minus, text } => {
            put_minus(out, *minus)?;
            out.push_all(text.bytes())
        }
        Default::True => out.push_all(b"TRUE"),
        Default::False => out.push_all(b"FALSE"),
        Default::Null => out.push_all(b"NULL"),
        Default::Special(special) => put_special(out, *special),
    }
}
