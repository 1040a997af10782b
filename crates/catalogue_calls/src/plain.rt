//! What the plain program makes of a statement, and whether that is what was made of the store.

ghost use Rattle.cat_items.specs.Catalogues.{IsInOrder};
ghost use Rattle.cat_items.specs.Good.{IsGood};
ghost use Rattle.catalogue_edits.specs.Statements.{IsBuiltEdit};
ghost use Rattle.edit_laws.specs.Sound.{IsSound};
ghost use Rattle.statement_forms.specs.Written.{IsWritten};

use cat_items::{Catalogue, EditError, Item, Refusal, Who, same_item};
use catalogue_edits::{Plan, Warning, plan_of};
use item_texts::item_text;
use new_catalogues::{further, has, new_catalogue};
use sql_tree::{Statement, Text};
use std::alloc::{AllocError, Global};
use std::test::Fail;

/// What the plain program makes of a statement.
#[derive(Drop)]
pub enum Outcome {
    /// It is refused by the catalogue as it is.
    Refused,
    /// RESTRICT refuses it: this further item is needed, the least of all.
    Needed(Item),
    /// The new catalogue.
    Made(Catalogue),
}

/// What the plain program makes of an edit, over the whole catalogue.
fn outcome_of(alloc: Global, c: &Catalogue, plan: &Plan) -> Result<Outcome, AllocError>
    requires { IsSound c.now.items plan.now.edit }
{
    let new = new_catalogue(alloc, c, &plan.edit)?;
    match further(c, &plan.edit, &new) {
        Some(item) if plan.restrict.is_some() => Ok(Outcome::Needed(item.copy()?)),
        _ => Ok(Outcome::Made(new)),
    }
}

/// What the plain program makes of a statement.
pub fn plain_outcome(
    alloc: Global,
    c: &Catalogue,
    who: &Who,
    statement: &Statement,
) -> Result<Outcome, AllocError>
    requires good { IsGood c.now.items }
    requires built { IsBuiltEdit statement.now }
    requires written { IsWritten statement.now }
{
    match plan_of(alloc, c, who, statement) {
        Ok(plan) => outcome_of(alloc, c, &plan),
        Err(EditError::Refused(_)) => Ok(Outcome::Refused),
        Err(EditError::Memory) => Err(AllocError),
    }
}

/// How many of these items aren't among the others.
fn missing(items: &[Item], others: &[Item]) -> usize
    requires { IsInOrder others.now }
{
    items.iter().filter(|x| !has(others, x)).count()
}

/// What is told of that: how many items come and go, or what RESTRICT needs.
pub fn told(alloc: Global, c: &Catalogue, outcome: &Outcome) -> Result<Text, Fail> {
    let mut out = Text::new(alloc);
    match outcome {
        Outcome::Refused => out.push_all(b"refused")?,
        Outcome::Needed(item) => {
            out.push_all(b"needs ")?;
            out.push_all(item_text(alloc, item)?.bytes())?;
        }
        Outcome::Made(new) => {
            let come = missing(new.items(), c.items());
            let gone = missing(c.items(), new.items());
            out.push_all(format!(in alloc; "+{come} -{gone}")?.as_bytes())?;
        }
    }
    Ok(out)
}

fn same_items(a: &[Item], b: &[Item]) -> bool {
    a.len() == b.len() && a.iter().zip(b).all(|(x, y)| same_item(x, y))
}

/// Whether that is such a refusal.
fn is_refused(outcome: &Outcome, refusal: &Refusal) -> bool {
    match (outcome, refusal) {
        (Outcome::Needed(item), Refusal::StillNeeded { item: other, .. }) => same_item(item, other),
        (Outcome::Refused, refusal) => !matches!(refusal, Refusal::StillNeeded { .. }),
        _ => false,
    }
}

/// Whether that is what was made of the store, item by item; `now` is the store's catalogue.
pub fn agrees(
    outcome: &Outcome,
    made: &Result<Option<Warning>, EditError>,
    now: &Catalogue,
) -> bool {
    match (outcome, made) {
        (Outcome::Made(new), Ok(_)) => same_items(new.items(), now.items()),
        (outcome, Err(EditError::Refused(refusal))) => is_refused(outcome, refusal),
        _ => false,
    }
}
