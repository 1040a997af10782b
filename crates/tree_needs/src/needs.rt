//! Needs of what is mentioned, in order and each once (access rules, SQL:2003 part 2, 6.6, 6.7 and 10.4).

ghost use Rattle.std.specs.Prelude.{◌≡◌, [], ◌∷◌, IfOk, OnOk};
ghost use Rattle.std.specs.List.{Contains};
ghost use Rattle.cat_items.specs.Mentions as mentions;
ghost use Rattle.cat_items.specs.Needs as spec;
ghost use Rattle.cat_items.specs.Needs.{AreNeeds};
ghost use Rattle.tree_needs.specs.Ordered.{AreInOrder, Gains};

use crate::mention::{Mention, MentionKind};
use crate::mentioning::{put_expr, put_query};
use cat_items::Need;
use sql_tree::{Action, Expr, Items, Name, Object, Path, Query};
use std::alloc::{AllocError, Global};

/// Puts in a need at its place in the order, if it isn't there.
fn put_need(needs: &mut Vec<Need>, need: Need) -> Result<(), AllocError>
    requires { AreInOrder needs.old.items }
    ensures order { OnOk result (AreInOrder needs.new.items) }
    ensures members { OnOk result (Gains needs.old.items needs.new.items (need ∷ [])) }
{
    if let Err(at) = needs.as_slice().binary_search(&need) {
        needs.insert(at, need)?;
    }
    Ok(())
}

fn path_of(object: &Object) -> Result<Path, AllocError>
    ensures { IfOk result (λ path. path ≡ object.now.schema ∷ object.now.name ∷ []) }
{
    Ok(Path::two(object.schema.copy()?, object.name.copy()?))
}

fn object_need(action: Action, object: &Object) -> Result<Need, AllocError>
    ensures { IfOk result (λ need. need ≡ spec.object_need action object.now) }
{
    Ok(Need {
        action,
        on: path_of(object)?,
        column: None,
    })
}

fn column_need(action: Action, object: &Object, name: &Name) -> Result<Need, AllocError>
    ensures { IfOk result (λ need. need ≡ spec.column_need action object.now name.now) }
{
    Ok(Need {
        action,
        on: path_of(object)?,
        column: Some(name.copy()?),
    })
}

/// Puts in what a mention needs. A column of a FROM that isn't there needs nothing.
fn put_mention(needs: &mut Vec<Need>, mention: &Mention, reading: Action) -> Result<(), AllocError>
    requires { AreInOrder needs.old.items }
    ensures order { OnOk result (AreInOrder needs.new.items) }
    ensures members { OnOk result (Gains needs.old.items needs.new.items (spec.mention_needs reading mention.now)) }
{
    match &mention.kind {
        MentionKind::Cell { .. } => Ok(()),
        MentionKind::Column { table, name } => put_need(needs, column_need(reading, table, name)?),
        MentionKind::Table(table) => put_need(needs, object_need(reading, table)?),
        MentionKind::Routine(routine) => put_need(needs, object_need(Action::Execute, routine)?),
    }
}

/// The needs of all these, in order and each once.
fn needs_of_mentions(
    alloc: Global,
    all: &[Mention],
    reading: Action,
) -> Result<Items<Need>, AllocError>
    ensures { IfOk result (λ needs. AreNeeds needs (λ need. Contains (spec.needs_of_mentions reading all.now) need)) }
{
    let mut needs = Vec::new(alloc);
    for one in all {
        put_mention(&mut needs, one, reading)?;
    }
    Ok(Items::from_vec(needs))
}

/// What a query needs where it reads by this action: that action on each column that it uses at any depth, and on the table of
/// each FROM entry no column of which is used; EXECUTE on each routine that it calls. Sorted, each once. A reference, a table or
/// a call that isn't resolved needs nothing. `Err` is want of memory.
pub fn needs_of_query(
    alloc: Global,
    query: &Query,
    reading: Action,
) -> Result<Items<Need>, AllocError>
    ensures { IfOk result (λ needs. AreNeeds needs (λ need. Contains (spec.needs_of_mentions reading (mentions.query_mentions query.now)) need)) }
{
    let mut all = Items::new(alloc);
    put_query(alloc, &mut all, query)?;
    needs_of_mentions(alloc, all.as_slice(), reading)
}

/// What an expression needs where it reads by this action, as of a query; the columns that it uses of the table that it is on count
/// too. Sorted, each once. `Err` is want of memory.
pub fn needs_of_expr(alloc: Global, expr: &Expr, reading: Action) -> Result<Items<Need>, AllocError>
    ensures { IfOk result (λ needs. AreNeeds needs (λ need. Contains (spec.needs_of_mentions reading (mentions.expr_mentions expr.now)) need)) }
{
    let mut all = Items::new(alloc);
    put_expr(alloc, &mut all, expr)?;
    needs_of_mentions(alloc, all.as_slice(), reading)
}
