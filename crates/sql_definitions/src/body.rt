//! Bodies of procedures.

ghost use Rattle.std.specs.Prelude.{◌≡◌, false};
ghost use Rattle.sql_spelling.specs.declared.kind.Kind.TheVariants as k;
ghost use Rattle.sql_definitions.specs.BodyParsers as spec;
ghost use Rattle.sql_expressions.specs.ExpressionParsers.{expr_within};
ghost use Rattle.sql_phrases.specs.Parsers.{Reads, separated};

use crate::condition::MOST_OPEN;
use sql_expressions::{expr, query};
use sql_phrases::{GrammarError, Reader, columns, identifier, object_name};
use sql_tree::{Act, AssignedValue, Assignment, Expr, InsertSource, Items};
use sql_words::Kind;
use std::alloc::Global;

#[tactic(auto, unfolding(crate::specs::BodyParsers::assigned_value))]
fn assigned_value(
    alloc: Global,
    words: &mut Reader<'_>,
    depth: usize,
) -> Result<AssignedValue, GrammarError>
    ensures { Reads (spec.assigned_value depth words.old) result words.new }
{
    match words.peek() {
        Kind::Null => {
            words.take();
            Ok(AssignedValue::Null)
        }
        Kind::Default => {
            words.take();
            Ok(AssignedValue::Default)
        }
        _ => Ok(AssignedValue::Expr(expr(alloc, words, depth, false)?)),
    }
}

#[tactic(auto, unfolding(crate::specs::BodyParsers::assignment))]
fn assignment(alloc: Global, words: &mut Reader<'_>) -> Result<Assignment, GrammarError>
    ensures { Reads (spec.assignment words.old) result words.new }
{
    let column = identifier(alloc, words)?;
    words.expect(Kind::Equals)?;
    let value = assigned_value(alloc, words, MOST_OPEN)?;
    Ok(Assignment { column, value })
}

#[tactic(auto, unfolding(sql_phrases::specs::Parsers::separated), using(sql_phrases::proofs::Turns::separated_step, sql_phrases::proofs::Turns::separated_done))]
fn assignments(alloc: Global, words: &mut Reader<'_>) -> Result<Items<Assignment>, GrammarError>
    ensures { Reads (separated k.Comma spec.assignment words.old) result words.new }
{
    let mut found = Items::new(alloc);
    for _turn in 0..words.len() {
        found.push(assignment(alloc, words)?)?;
        if !words.eat(Kind::Comma) {
            return Ok(found);
        }
    }
    Err(GrammarError::Syntax)
}

#[tactic(auto, unfolding(sql_phrases::specs::Parsers::separated), using(sql_phrases::proofs::Turns::separated_step, sql_phrases::proofs::Turns::separated_done))]
fn values(alloc: Global, words: &mut Reader<'_>) -> Result<Items<AssignedValue>, GrammarError>
    ensures { Reads (separated k.Comma (spec.assigned_value 63) words.old) result words.new }
{
    let mut found = Items::new(alloc);
    for _turn in 0..words.len() {
        found.push(assigned_value(alloc, words, MOST_OPEN - 1)?)?;
        if !words.eat(Kind::Comma) {
            return Ok(found);
        }
    }
    Err(GrammarError::Syntax)
}

// What stands after VALUES.
#[tactic(auto, unfolding(crate::specs::BodyParsers::value_list))]
fn value_list(alloc: Global, words: &mut Reader<'_>) -> Result<Items<AssignedValue>, GrammarError>
    ensures { Reads (spec.value_list words.old) result words.new }
{
    words.expect(Kind::LeftParen)?;
    let found = values(alloc, words)?;
    words.expect(Kind::RightParen)?;
    Ok(found)
}

#[tactic(auto, unfolding(crate::specs::BodyParsers::insert_source))]
fn insert_source(alloc: Global, words: &mut Reader<'_>) -> Result<InsertSource, GrammarError>
    ensures { Reads (spec.insert_source words.old) result words.new }
{
    if words.eat(Kind::Values) {
        Ok(InsertSource::Values(value_list(alloc, words)?))
    } else {
        Ok(InsertSource::Query(query(alloc, words, MOST_OPEN, false)?))
    }
}

#[tactic(auto, unfolding(sql_phrases::specs::Parsers::separated), using(sql_phrases::proofs::Turns::separated_step, sql_phrases::proofs::Turns::separated_done))]
fn exprs(alloc: Global, words: &mut Reader<'_>) -> Result<Items<Expr>, GrammarError>
    ensures { Reads (separated k.Comma (expr_within false 63) words.old) result words.new }
{
    let mut found = Items::new(alloc);
    for _turn in 0..words.len() {
        found.push(expr(alloc, words, MOST_OPEN - 1, false)?)?;
        if !words.eat(Kind::Comma) {
            return Ok(found);
        }
    }
    Err(GrammarError::Syntax)
}

// `([expression, ..])`
#[tactic(auto, unfolding(crate::specs::BodyParsers::arguments))]
fn arguments(alloc: Global, words: &mut Reader<'_>) -> Result<Items<Expr>, GrammarError>
    ensures { Reads (spec.arguments words.old) result words.new }
{
    words.expect(Kind::LeftParen)?;
    if words.eat(Kind::RightParen) {
        return Ok(Items::new(alloc));
    }
    let found = exprs(alloc, words)?;
    words.expect(Kind::RightParen)?;
    Ok(found)
}

// `[WHERE condition]`
#[tactic(auto, unfolding(crate::specs::BodyParsers::filter, sql_phrases::specs::Parsers::optional))]
fn filter(alloc: Global, words: &mut Reader<'_>) -> Result<Option<Expr>, GrammarError>
    ensures { Reads (spec.filter words.old) result words.new }
{
    if words.eat(Kind::Where) {
        Ok(Some(expr(alloc, words, MOST_OPEN, false)?))
    } else {
        Ok(None)
    }
}

#[tactic(auto, unfolding(crate::specs::BodyParsers::insert))]
fn insert(alloc: Global, words: &mut Reader<'_>) -> Result<Act, GrammarError>
    ensures { Reads (spec.insert words.old) result words.new }
{
    words.expect(Kind::Into)?;
    let table = object_name(alloc, words)?;
    let columns = columns(alloc, words)?;
    let source = insert_source(alloc, words)?;
    Ok(Act::Insert {
        table,
        columns,
        source,
    })
}

#[tactic(auto, unfolding(crate::specs::BodyParsers::update))]
fn update(alloc: Global, words: &mut Reader<'_>) -> Result<Act, GrammarError>
    ensures { Reads (spec.update words.old) result words.new }
{
    let table = object_name(alloc, words)?;
    words.expect(Kind::Set)?;
    let assignments = assignments(alloc, words)?;
    let filter = filter(alloc, words)?;
    Ok(Act::Update {
        table,
        assignments,
        filter,
    })
}

#[tactic(auto, unfolding(crate::specs::BodyParsers::delete))]
fn delete(alloc: Global, words: &mut Reader<'_>) -> Result<Act, GrammarError>
    ensures { Reads (spec.delete words.old) result words.new }
{
    words.expect(Kind::From)?;
    let table = object_name(alloc, words)?;
    let filter = filter(alloc, words)?;
    Ok(Act::Delete { table, filter })
}

#[tactic(auto, unfolding(crate::specs::BodyParsers::call))]
fn call(alloc: Global, words: &mut Reader<'_>) -> Result<Act, GrammarError>
    ensures { Reads (spec.call words.old) result words.new }
{
    let routine = object_name(alloc, words)?;
    let arguments = arguments(alloc, words)?;
    Ok(Act::Call { routine, arguments })
}

#[tactic(auto, unfolding(crate::specs::BodyParsers::act))]
fn act(alloc: Global, words: &mut Reader<'_>) -> Result<Act, GrammarError>
    ensures { Reads (spec.act words.old) result words.new }
{
    match words.peek() {
        Kind::Insert => {
            words.take();
            Ok(insert(alloc, words)?)
        }
        Kind::Update => {
            words.take();
            Ok(update(alloc, words)?)
        }
        Kind::Delete => {
            words.take();
            Ok(delete(alloc, words)?)
        }
        Kind::Call => {
            words.take();
            Ok(call(alloc, words)?)
        }
        _ => Err(GrammarError::Syntax),
    }
}

#[tactic(auto, unfolding(crate::specs::BodyParsers::ended_act))]
fn ended_act(alloc: Global, words: &mut Reader<'_>) -> Result<Act, GrammarError>
    ensures { Reads (spec.ended_act words.old) result words.new }
{
    let found = act(alloc, words)?;
    words.expect(Kind::Semicolon)?;
    Ok(found)
}

fn begins_act(kind: Kind) -> bool
    ensures { result ≡ spec.begins_act kind }
{
    matches!(
        kind,
        Kind::Insert | Kind::Update | Kind::Delete | Kind::Call
    )
}

#[tactic(auto, unfolding(crate::specs::BodyParsers::ended_acts, sql_phrases::specs::Parsers::repeated), using(sql_phrases::proofs::Turns::repeated_step, sql_phrases::proofs::Turns::repeated_done))]
fn ended_acts(alloc: Global, words: &mut Reader<'_>) -> Result<Items<Act>, GrammarError>
    ensures { Reads (spec.ended_acts words.old) result words.new }
{
    let mut found = Items::new(alloc);
    for _turn in 0..words.len() {
        if !begins_act(words.peek()) {
            return Ok(found);
        }
        found.push(ended_act(alloc, words)?)?;
    }
    Ok(found)
}

/// One or more acts, each with a semicolon behind it.
#[tactic(auto, unfolding(crate::specs::BodyParsers::acts_in_order))]
pub fn acts(alloc: Global, words: &mut Reader<'_>) -> Result<Items<Act>, GrammarError>
    ensures { Reads (spec.acts_in_order words.old) result words.new }
{
    let found = ended_acts(alloc, words)?;
    if found.is_empty() {
        return Err(GrammarError::Syntax);
    }
    Ok(found)
}
