//! The statements of a sample.

ghost use Rattle.std.specs.Prelude.{◌≡◌, ◌≤◌, decimal, flat_map, length, IfOk};
ghost use Rattle.sql_spelling.specs.Texts.{literal_text, name_text};
ghost use Rattle.sample_texts.specs.Statements as spec;

use itoa::Buffer;
use sql_names::{Name, Text};
use sql_spelling::{print_name, put_literal};
use std::alloc::{AllocError, Global};

// A user's name as a literal.
#[tactic(auto, using(crate::proofs::Lengths::literal_short))]
fn literal(alloc: Global, user: &Name) -> Result<Text, AllocError>
    ensures text { IfOk result (λ text. text ≡ literal_text user.now) }
    ensures short { IfOk result (λ text. length text ≤ 258) }
{
    let text = Text::of(alloc, user.bytes())?;
    let mut out = Text::new(alloc);
    put_literal(&mut out, &text)?;
    Ok(out)
}

// A user's name as it stands outside of literals.
#[tactic(auto, using(crate::proofs::Lengths::name_short))]
fn spelled(alloc: Global, user: &Name) -> Result<Text, AllocError>
    ensures text { IfOk result (λ text. text ≡ name_text user.now) }
    ensures short { IfOk result (λ text. length text ≤ 258) }
{
    let _bytes = user.bytes();
    print_name(alloc, user)
}

#[tactic(auto, using(crate::proofs::Lengths::decimal_short))]
fn digits(alloc: Global, number: u32) -> Result<Text, AllocError>
    ensures text { IfOk result (λ text. text ≡ decimal number) }
    ensures short { IfOk result (λ text. length text ≤ 10) }
{
    let mut buffer = Buffer::new();
    Text::of(alloc, buffer.format(number).as_bytes())
}

// These bytes, one after the other.
fn joined(alloc: Global, parts: &[&[u8]]) -> Result<Text, AllocError>
    ensures { IfOk result (λ text. text ≡ flat_map (λ part. part.now) parts.now) }
{
    let mut out = Text::new(alloc);
    for part in parts {
        out.push_all(part)?;
    }
    Ok(out)
}

#[tactic(auto, unfolding(crate::specs::Statements::connect))]
pub fn connect(alloc: Global, user: &Name) -> Result<Text, AllocError>
    ensures text { IfOk result (λ text. text ≡ spec.connect user.now) }
    ensures short { IfOk result (λ text. length text ≤ 65535) }
{
    let user = literal(alloc, user)?;
    joined(
        alloc,
        &[b"CONNECT TO 'D' AS ", user.bytes(), b" USER ", user.bytes()],
    )
}

#[tactic(auto, unfolding(crate::specs::Statements::create_schema))]
pub fn create_schema(alloc: Global, user: &Name) -> Result<Text, AllocError>
    ensures text { IfOk result (λ text. text ≡ spec.create_schema user.now) }
    ensures short { IfOk result (λ text. length text ≤ 65535) }
{
    let user = spelled(alloc, user)?;
    joined(alloc, &[b"CREATE SCHEMA ", user.bytes()])
}

#[tactic(auto, unfolding(crate::specs::Statements::use_connection))]
pub fn use_connection(alloc: Global, user: &Name) -> Result<Text, AllocError>
    ensures text { IfOk result (λ text. text ≡ spec.use_connection user.now) }
    ensures short { IfOk result (λ text. length text ≤ 65535) }
{
    let user = literal(alloc, user)?;
    joined(alloc, &[b"SET CONNECTION ", user.bytes()])
}

#[tactic(auto, unfolding(crate::specs::Statements::create_table))]
pub fn create_table(alloc: Global, number: u32) -> Result<Text, AllocError>
    ensures text { IfOk result (λ text. text ≡ spec.create_table number) }
    ensures short { IfOk result (λ text. length text ≤ 65535) }
{
    let number = digits(alloc, number)?;
    joined(
        alloc,
        &[
            b"CREATE TABLE T",
            number.bytes(),
            b" (A INTEGER NOT NULL, B VARCHAR(20), PRIMARY KEY (A))",
        ],
    )
}

#[tactic(auto, unfolding(crate::specs::Statements::grant_table))]
pub fn grant_table(alloc: Global, number: u32, grantee: &Name) -> Result<Text, AllocError>
    ensures text { IfOk result (λ text. text ≡ spec.grant_table number grantee.now) }
    ensures short { IfOk result (λ text. length text ≤ 65535) }
{
    let number = digits(alloc, number)?;
    let grantee = spelled(alloc, grantee)?;
    joined(
        alloc,
        &[
            b"GRANT SELECT ON T",
            number.bytes(),
            b" TO ",
            grantee.bytes(),
            b" WITH GRANT OPTION",
        ],
    )
}

// A table's name behind its schema's, which is called like its owner.
#[tactic(auto, unfolding(crate::specs::Statements::table_of))]
fn qualified(alloc: Global, owner: &Name, number: u32) -> Result<Text, AllocError>
    ensures text { IfOk result (λ text. text ≡ spec.table_of owner.now number) }
    ensures short { IfOk result (λ text. length text ≤ 270) }
{
    let owner = spelled(alloc, owner)?;
    let number = digits(alloc, number)?;
    joined(alloc, &[owner.bytes(), b".T", number.bytes()])
}

#[tactic(auto, unfolding(crate::specs::Statements::create_view))]
pub fn create_view(alloc: Global, number: u32, owner: &Name) -> Result<Text, AllocError>
    ensures text { IfOk result (λ text. text ≡ spec.create_view number owner.now) }
    ensures short { IfOk result (λ text. length text ≤ 65535) }
{
    let table = qualified(alloc, owner, number)?;
    let number = digits(alloc, number)?;
    joined(
        alloc,
        &[
            b"CREATE VIEW V",
            number.bytes(),
            b" AS SELECT A, B FROM ",
            table.bytes(),
        ],
    )
}

#[tactic(auto, unfolding(crate::specs::Statements::grant_view))]
pub fn grant_view(alloc: Global, number: u32, reader: &Name) -> Result<Text, AllocError>
    ensures text { IfOk result (λ text. text ≡ spec.grant_view number reader.now) }
    ensures short { IfOk result (λ text. length text ≤ 65535) }
{
    let number = digits(alloc, number)?;
    let reader = spelled(alloc, reader)?;
    joined(
        alloc,
        &[
            b"GRANT SELECT ON V",
            number.bytes(),
            b" TO ",
            reader.bytes(),
        ],
    )
}

#[tactic(auto, unfolding(crate::specs::Statements::revoke_table))]
pub fn revoke_table(alloc: Global, number: u32, grantee: &Name) -> Result<Text, AllocError>
    ensures text { IfOk result (λ text. text ≡ spec.revoke_table number grantee.now) }
    ensures short { IfOk result (λ text. length text ≤ 65535) }
{
    let number = digits(alloc, number)?;
    let grantee = spelled(alloc, grantee)?;
    joined(
        alloc,
        &[
            b"REVOKE SELECT ON T",
            number.bytes(),
            b" FROM ",
            grantee.bytes(),
            b" CASCADE",
        ],
    )
}

#[tactic(auto, unfolding(crate::specs::Statements::drop_table))]
pub fn drop_table(alloc: Global, number: u32) -> Result<Text, AllocError>
    ensures text { IfOk result (λ text. text ≡ spec.drop_table number) }
    ensures short { IfOk result (λ text. length text ≤ 65535) }
{
    let number = digits(alloc, number)?;
    joined(alloc, &[b"DROP TABLE T", number.bytes(), b" CASCADE"])
}
