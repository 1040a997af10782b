//! Tables: columns and constraints.

ghost use Rattle.std.specs.Prelude.{◌≡◌, ◌∷◌};
ghost use Rattle.sql_spelling.specs.declared.kind.Kind.TheVariants as k;
ghost use Rattle.sql_phrases.specs.Parsers.{Reads, separated};
ghost use Rattle.sql_definitions.specs.TableParsers as spec;
ghost use Rattle.sql_definitions.specs.TableRules as rules;

use crate::condition::{check, constraint_name};
use sql_phrases::{
    GrammarError, Reader, columns, default, identifier, identifiers, object_name, sees_name,
    sql_type,
};
use sql_tree::{
    ColumnConstraint, ColumnDefinition, ColumnOption, ColumnType, Items, Matching, Name,
    References, Rule, TableConstraint, TableConstraintKind, TableElement,
};
use sql_words::Kind;
use std::alloc::Global;

#[tactic(auto, unfolding(crate::specs::TableParsers::set_rule))]
fn set_rule(words: &mut Reader<'_>) -> Result<Rule, GrammarError>
    ensures { Reads (spec.set_rule words.old) result words.new }
{
    if words.eat(Kind::Null) {
        return Ok(Rule::SetNull);
    }
    words.expect(Kind::Default)?;
    Ok(Rule::SetDefault)
}

#[tactic(auto, unfolding(crate::specs::TableParsers::rule))]
fn rule(words: &mut Reader<'_>) -> Result<Rule, GrammarError>
    ensures { Reads (spec.rule words.old) result words.new }
{
    match words.peek() {
        Kind::Cascade => {
            words.take();
            Ok(Rule::Cascade)
        }
        Kind::Set => {
            words.take();
            Ok(set_rule(words)?)
        }
        Kind::Restrict => {
            words.take();
            Ok(Rule::Restrict)
        }
        Kind::No => {
            words.take();
            words.expect(Kind::Action)?;
            Ok(Rule::NoAction)
        }
        _ => Err(GrammarError::Syntax),
    }
}

#[tactic(auto, unfolding(crate::specs::TableParsers::rule_on))]
fn rule_on(words: &mut Reader<'_>, what: Kind) -> Result<Rule, GrammarError>
    ensures { Reads (spec.rule_on what words.old) result words.new }
{
    if words.eat(Kind::On) {
        words.expect(what)?;
        return Ok(rule(words)?);
    }
    Ok(Rule::NoAction)
}

#[tactic(auto, unfolding(crate::specs::TableParsers::rules_after_on))]
fn rules_after_on(words: &mut Reader<'_>) -> Result<(Rule, Rule), GrammarError>
    ensures { Reads (spec.rules_after_on words.old) result words.new }
{
    if words.eat(Kind::Delete) {
        let on_delete = rule(words)?;
        let on_update = rule_on(words, Kind::Update)?;
        return Ok((on_delete, on_update));
    }
    words.expect(Kind::Update)?;
    let on_update = rule(words)?;
    let on_delete = rule_on(words, Kind::Delete)?;
    Ok((on_delete, on_update))
}

// The rules of DELETE and of UPDATE.
#[tactic(auto, unfolding(crate::specs::TableParsers::both_rules))]
fn both_rules(words: &mut Reader<'_>) -> Result<(Rule, Rule), GrammarError>
    ensures { Reads (spec.both_rules words.old) result words.new }
{
    if words.eat(Kind::On) {
        return Ok(rules_after_on(words)?);
    }
    Ok((Rule::NoAction, Rule::NoAction))
}

#[tactic(auto, unfolding(crate::specs::TableParsers::matching_said))]
fn matching_said(words: &mut Reader<'_>) -> Result<Matching, GrammarError>
    ensures { Reads (spec.matching_said words.old) result words.new }
{
    match words.peek() {
        Kind::Simple => {
            words.take();
            Ok(Matching::Simple)
        }
        Kind::Full => {
            words.take();
            Ok(Matching::Full)
        }
        Kind::Partial => {
            words.take();
            Ok(Matching::Partial)
        }
        _ => Err(GrammarError::Syntax),
    }
}

#[tactic(auto, unfolding(crate::specs::TableParsers::matching))]
fn matching(words: &mut Reader<'_>) -> Result<Matching, GrammarError>
    ensures { Reads (spec.matching words.old) result words.new }
{
    if words.eat(Kind::Match) {
        return Ok(matching_said(words)?);
    }
    Ok(Matching::Simple)
}

#[tactic(auto, unfolding(crate::specs::TableParsers::references))]
fn references(alloc: Global, words: &mut Reader<'_>) -> Result<References, GrammarError>
    ensures { Reads (spec.references words.old) result words.new }
{
    words.expect(Kind::References)?;
    let table = object_name(alloc, words)?;
    let columns = columns(alloc, words)?;
    let matching = matching(words)?;
    let (on_delete, on_update) = both_rules(words)?;
    Ok(References {
        table,
        columns,
        matching,
        on_delete,
        on_update,
    })
}

#[tactic(auto, unfolding(crate::specs::TableParsers::column_constraint))]
fn column_constraint(
    alloc: Global,
    words: &mut Reader<'_>,
    depth: usize,
) -> Result<ColumnConstraint, GrammarError>
    ensures { Reads (spec.column_constraint depth words.old) result words.new }
{
    match words.peek() {
        Kind::Unique => {
            words.take();
            Ok(ColumnConstraint::Unique)
        }
        Kind::Primary => {
            words.take();
            words.expect(Kind::Key)?;
            Ok(ColumnConstraint::PrimaryKey)
        }
        Kind::Check => Ok(ColumnConstraint::Check(check(alloc, words, depth, false)?)),
        _ => Ok(ColumnConstraint::References(references(alloc, words)?)),
    }
}

#[tactic(auto, unfolding(crate::specs::TableParsers::column_option))]
fn column_option(
    alloc: Global,
    words: &mut Reader<'_>,
    depth: usize,
) -> Result<ColumnOption, GrammarError>
    ensures { Reads (spec.column_option depth words.old) result words.new }
{
    if words.eat(Kind::Default) {
        return Ok(ColumnOption::Default(default(alloc, words)?));
    }
    if words.eat(Kind::Not) {
        words.expect(Kind::Null)?;
        return Ok(ColumnOption::NotNull);
    }
    let name = constraint_name(alloc, words)?;
    let constraint = column_constraint(alloc, words, depth)?;
    Ok(ColumnOption::Constraint { name, constraint })
}

fn begins_option(kind: Kind) -> bool
    ensures { result ≡ spec.begins_option kind }
{
    matches!(
        kind,
        Kind::Default
            | Kind::Not
            | Kind::Constraint
            | Kind::Primary
            | Kind::Unique
            | Kind::References
            | Kind::Check
    )
}

#[tactic(auto, unfolding(crate::specs::TableParsers::column_options, sql_phrases::specs::Parsers::repeated), using(sql_phrases::proofs::Turns::repeated_step, sql_phrases::proofs::Turns::repeated_done))]
fn column_options(
    alloc: Global,
    words: &mut Reader<'_>,
    depth: usize,
) -> Result<Items<ColumnOption>, GrammarError>
    ensures { Reads (spec.column_options depth words.old) result words.new }
{
    let mut found = Items::new(alloc);
    for _turn in 0..words.len() {
        if !begins_option(words.peek()) {
            return Ok(found);
        }
        found.push(column_option(alloc, words, depth)?)?;
    }
    Ok(found)
}

// Whether none of these options is a DEFAULT.
fn has_no_default(options: &[ColumnOption]) -> bool
    ensures { result ≡ rules.has_no_default options.now }
{
    let mut left = options;
    while let [option, rest @ ..] = left {
        if matches!(option, ColumnOption::Default(_)) {
            return false;
        }
        left = rest;
    }
    true
}

// Whether at most one of these options is a DEFAULT.
fn has_one_default(options: &[ColumnOption]) -> bool
    ensures { result ≡ rules.has_one_default options.now }
{
    let mut left = options;
    while let [option, rest @ ..] = left {
        if matches!(option, ColumnOption::Default(_)) {
            return has_no_default(rest);
        }
        left = rest;
    }
    true
}

#[tactic(auto, unfolding(crate::specs::TableParsers::column_type))]
fn column_type(
    alloc: Global,
    words: &mut Reader<'_>,
    depth: usize,
) -> Result<ColumnType, GrammarError>
    ensures { Reads (spec.column_type depth words.old) result words.new }
{
    if sees_name(words) {
        Ok(ColumnType::Domain(object_name(alloc, words)?))
    } else {
        Ok(ColumnType::Type(sql_type(words, depth)?))
    }
}

/// A column, where this many brackets may be opened.
#[tactic(auto, unfolding(crate::specs::TableParsers::column_definition, crate::specs::TableParsers::fitting_options))]
pub fn column_definition(
    alloc: Global,
    words: &mut Reader<'_>,
    depth: usize,
) -> Result<ColumnDefinition, GrammarError>
    ensures { Reads (spec.column_definition depth words.old) result words.new }
{
    let column = identifier(alloc, words)?;
    let sort = column_type(alloc, words, depth)?;
    let options = column_options(alloc, words, depth)?;
    if !has_one_default(options.as_slice()) {
        return Err(GrammarError::Syntax);
    }
    Ok(ColumnDefinition {
        column,
        sort,
        options,
    })
}

#[tactic(auto, unfolding(crate::specs::TableParsers::column_list))]
fn column_list(alloc: Global, words: &mut Reader<'_>) -> Result<Items<Name>, GrammarError>
    ensures { Reads (spec.column_list words.old) result words.new }
{
    words.expect(Kind::LeftParen)?;
    let names = identifiers(alloc, words)?;
    words.expect(Kind::RightParen)?;
    Ok(names)
}

#[tactic(auto, unfolding(crate::specs::TableParsers::table_constraint_kind))]
fn table_constraint_kind(
    alloc: Global,
    words: &mut Reader<'_>,
    depth: usize,
) -> Result<TableConstraintKind, GrammarError>
    ensures { Reads (spec.table_constraint_kind depth words.old) result words.new }
{
    match words.peek() {
        Kind::Primary => {
            words.take();
            words.expect(Kind::Key)?;
            Ok(TableConstraintKind::PrimaryKey(column_list(alloc, words)?))
        }
        Kind::Unique => {
            words.take();
            Ok(TableConstraintKind::Unique(column_list(alloc, words)?))
        }
        Kind::Foreign => {
            words.take();
            words.expect(Kind::Key)?;
            let columns = column_list(alloc, words)?;
            let references = references(alloc, words)?;
            Ok(TableConstraintKind::ForeignKey {
                columns,
                references,
            })
        }
        Kind::Check => Ok(TableConstraintKind::Check(check(alloc, words, depth, false)?)),
        _ => Err(GrammarError::Syntax),
    }
}

/// A constraint of a table, with its name where it has one, where this many brackets may be opened.
#[tactic(auto, unfolding(crate::specs::TableParsers::table_constraint))]
pub fn table_constraint(
    alloc: Global,
    words: &mut Reader<'_>,
    depth: usize,
) -> Result<TableConstraint, GrammarError>
    ensures { Reads (spec.table_constraint depth words.old) result words.new }
{
    let name = constraint_name(alloc, words)?;
    let kind = table_constraint_kind(alloc, words, depth)?;
    Ok(TableConstraint { name, kind })
}

#[tactic(auto, unfolding(crate::specs::TableParsers::table_element))]
fn table_element(
    alloc: Global,
    words: &mut Reader<'_>,
    depth: usize,
) -> Result<TableElement, GrammarError>
    ensures { Reads (spec.table_element depth words.old) result words.new }
{
    if sees_name(words) {
        Ok(TableElement::Column(column_definition(alloc, words, depth)?))
    } else {
        Ok(TableElement::Constraint(table_constraint(alloc, words, depth)?))
    }
}

#[tactic(auto, unfolding(sql_phrases::specs::Parsers::separated), using(sql_phrases::proofs::Turns::separated_step, sql_phrases::proofs::Turns::separated_done))]
fn elements(
    alloc: Global,
    words: &mut Reader<'_>,
    depth: usize,
) -> Result<Items<TableElement>, GrammarError>
    ensures { Reads (separated k.Comma (spec.table_element depth) words.old) result words.new }
{
    let mut found = Items::new(alloc);
    for _turn in 0..words.len() {
        found.push(table_element(alloc, words, depth)?)?;
        if !words.eat(Kind::Comma) {
            return Ok(found);
        }
    }
    Err(GrammarError::Syntax)
}

/// `(element, ..)`, inside which this many brackets may be opened.
#[tactic(auto, unfolding(crate::specs::TableParsers::table_elements))]
pub fn table_elements(
    alloc: Global,
    words: &mut Reader<'_>,
    depth: usize,
) -> Result<Items<TableElement>, GrammarError>
    ensures { Reads (spec.table_elements depth words.old) result words.new }
{
    words.expect(Kind::LeftParen)?;
    let found = elements(alloc, words, depth)?;
    words.expect(Kind::RightParen)?;
    Ok(found)
}
