//! Walks through scripts, both ways.

ghost use Rattle.std.specs.Prelude.{◌≡◌, IsTrue};
ghost use Rattle.catalogue_changes.specs.Widths.{IsNarrow};
ghost use Rattle.catalogue_edits.specs.Statements.{IsBuiltEdit};
ghost use Rattle.statement_forms.specs.Written.{IsWritten};

use crate::plain::{Outcome, agrees, plain_outcome, told};
use crate::reading::{name, opening, read, who_is};
use cat_items::{Limits, Who};
use catalogue_edits::{Store, is_edit, revise};
use item_index::Steps;
use new_catalogues::columns_beyond;
use sql_tree::{Name, Statement, Text};
use std::alloc::Global;
use std::marker::Brand;
use std::sync::ledger::{Blank, Ledger};
use std::test::Fail;

/// Whether no table or view of a store has more columns.
fn is_narrow(store: &Store, most: u32) -> bool
    ensures { IsTrue result → IsNarrow store.now most }
{
    match columns_beyond(store.catalogue(), most) {
        None => true,
        Some(_) => false,
    }
}

/// Whether a statement makes of a store what the plain program made of its catalogue. Its look-ups have a count of their own.
fn goes<L: Ledger>(
    alloc: Global,
    limits: &Limits,
    store: &mut Store,
    who: &Who,
    statement: &Statement,
    outcome: &Outcome,
    blank: Blank,
) -> bool
    requires name { blank.name ≡ L.name }
    requires parts { blank.parts ≡ L.parts }
    requires whole { blank.parts ≡ 1 }
    requires narrow { IsNarrow store.old limits.now.columns }
    requires built { IsBuiltEdit statement.now }
    requires written { IsWritten statement.now }
{
    let mut steps: Steps<L> = Steps::new(blank);
    let made = revise(alloc, limits, store, who, statement, &mut steps);
    agrees(outcome, &made, store.catalogue())
}

/// What is told of a statement of which both ways make the same.
fn both(alloc: Global, store: &mut Store, who: &Who, statement: &Statement) -> Result<Text, Fail>
    requires { IsWritten statement.now }
{
    let limits = Limits::standard();
    if !is_edit(statement) || !is_narrow(store, limits.columns) {
        return Err("no edit, or too many columns")?;
    }
    let outcome = plain_outcome(alloc, store.catalogue(), who, statement)?;
    let told = told(alloc, store.catalogue(), &outcome)?;
    match goes::<Brand>(
        alloc,
        &limits,
        store,
        who,
        statement,
        &outcome,
        Blank::new(1),
    ) {
        true => Ok(told),
        false => Ok(Text::of(alloc, b"the ways part")?),
    }
}

/// The user whose connection a statement makes the current one.
fn user_of(statement: &Statement) -> Option<&Name> {
    match statement {
        Statement::Connect(parts) => Some(&parts.user),
        Statement::SetConnection(user) => Some(user),
        _ => None,
    }
}

/// A text, and behind it what is told of its statement, where it doesn't only say whose turn it is.
fn put_told(
    alloc: Global,
    out: &mut Text,
    store: &mut Store,
    who: &mut Who,
    text: &str,
) -> Result<(), Fail> {
    out.push_all(text.as_bytes())?;
    let statement = read(alloc, text.as_bytes())?;
    match user_of(&statement) {
        Some(user) => *who = who_is(user)?,
        None => {
            out.push_all(b" => ")?;
            out.push_all(both(alloc, store, who, &statement)?.bytes())?;
        }
    }
    out.push(b'\n')?;
    Ok(())
}

/// A script that ALICE begins, a statement a line, with what is told of each behind ` => `. What the script has there is passed over.
pub fn walked(alloc: Global, script: &str) -> Result<Text, Fail> {
    let mut who = who_is(&name(alloc, b"ALICE")?)?;
    let mut store = opening(alloc)?;
    let mut out = Text::new(alloc);
    for row in script.lines() {
        let (text, _) = row.split_once(" => ").unwrap_or((row, ""));
        put_told(alloc, &mut out, &mut store, &mut who, text)?;
    }
    Ok(out)
}
