//! ALTER TABLE and ALTER DOMAIN.

ghost use Rattle.std.specs.Prelude.{◌≡◌};
ghost use Rattle.sql_grammar.specs.AlterParsers as spec;
ghost use Rattle.sql_phrases.specs.Parsers.{Reads};

use crate::rights::behaviour;
use sql_definitions::{MOST_OPEN, column_definition, domain_check, table_constraint};
use sql_phrases::{GrammarError, Reader, default, identifier, sees_name};
use sql_tree::{AlterDomainAction, AlterTableAction, Default, Name};
use sql_words::Kind;
use std::alloc::Global;

// `[COLUMN] name`
#[tactic(auto, unfolding(crate::specs::AlterParsers::column_name))]
fn column_name(alloc: Global, words: &mut Reader<'_>) -> Result<Name, GrammarError>
    ensures { Reads (spec.column_name words.old) result words.new }
{
    words.eat(Kind::Column);
    identifier(alloc, words)
}

// `DEFAULT default`
#[tactic(auto, unfolding(crate::specs::AlterParsers::new_default))]
fn new_default(alloc: Global, words: &mut Reader<'_>) -> Result<Default, GrammarError>
    ensures { Reads (spec.new_default words.old) result words.new }
{
    words.expect(Kind::Default)?;
    default(alloc, words)
}

// What stands after ALTER TABLE, a table and ALTER.
#[tactic(auto, unfolding(crate::specs::AlterParsers::alter_column))]
fn alter_column(alloc: Global, words: &mut Reader<'_>) -> Result<AlterTableAction, GrammarError>
    ensures { Reads (spec.alter_column words.old) result words.new }
{
    let column = column_name(alloc, words)?;
    if words.eat(Kind::Set) {
        let default = new_default(alloc, words)?;
        return Ok(AlterTableAction::SetDefault { column, default });
    }
    words.expect(Kind::Drop)?;
    words.expect(Kind::Default)?;
    Ok(AlterTableAction::DropDefault(column))
}

// What stands after ALTER TABLE, a table and DROP.
#[tactic(auto, unfolding(crate::specs::AlterParsers::drop_part))]
fn drop_part(alloc: Global, words: &mut Reader<'_>) -> Result<AlterTableAction, GrammarError>
    ensures { Reads (spec.drop_part words.old) result words.new }
{
    if words.eat(Kind::Constraint) {
        let constraint = identifier(alloc, words)?;
        let behaviour = behaviour(words);
        return Ok(AlterTableAction::DropConstraint {
            constraint,
            behaviour,
        });
    }
    let column = column_name(alloc, words)?;
    let behaviour = behaviour(words);
    Ok(AlterTableAction::DropColumn { column, behaviour })
}

#[tactic(auto, unfolding(crate::specs::AlterParsers::add_other))]
fn add_other(alloc: Global, words: &mut Reader<'_>) -> Result<AlterTableAction, GrammarError>
    ensures { Reads (spec.add_other words.old) result words.new }
{
    if sees_name(words) {
        let column = column_definition(alloc, words, MOST_OPEN)?;
        return Ok(AlterTableAction::AddColumn(column));
    }
    Ok(AlterTableAction::AddConstraint(table_constraint(alloc, words, MOST_OPEN)?))
}

// What stands after ALTER TABLE, a table and ADD.
#[tactic(auto, unfolding(crate::specs::AlterParsers::add_part))]
fn add_part(alloc: Global, words: &mut Reader<'_>) -> Result<AlterTableAction, GrammarError>
    ensures { Reads (spec.add_part words.old) result words.new }
{
    if words.eat(Kind::Column) {
        let column = column_definition(alloc, words, MOST_OPEN)?;
        return Ok(AlterTableAction::AddColumn(column));
    }
    Ok(add_other(alloc, words)?)
}

/// What stands after ALTER TABLE and a table.
#[tactic(auto, unfolding(crate::specs::AlterParsers::alter_table_action))]
pub fn alter_table_action(
    alloc: Global,
    words: &mut Reader<'_>,
) -> Result<AlterTableAction, GrammarError>
    ensures { Reads (spec.alter_table_action words.old) result words.new }
{
    if words.eat(Kind::Add) {
        return Ok(add_part(alloc, words)?);
    }
    Ok(alter_or_drop(alloc, words)?)
}

#[tactic(auto, unfolding(crate::specs::AlterParsers::alter_or_drop))]
fn alter_or_drop(alloc: Global, words: &mut Reader<'_>) -> Result<AlterTableAction, GrammarError>
    ensures { Reads (spec.alter_or_drop words.old) result words.new }
{
    if words.eat(Kind::Alter) {
        return Ok(alter_column(alloc, words)?);
    }
    words.expect(Kind::Drop)?;
    Ok(drop_part(alloc, words)?)
}

// What stands after ALTER DOMAIN, a domain and DROP.
#[tactic(auto, unfolding(crate::specs::AlterParsers::drop_domain_part))]
fn drop_domain_part(
    alloc: Global,
    words: &mut Reader<'_>,
) -> Result<AlterDomainAction, GrammarError>
    ensures { Reads (spec.drop_domain_part words.old) result words.new }
{
    if words.eat(Kind::Default) {
        return Ok(AlterDomainAction::DropDefault);
    }
    words.expect(Kind::Constraint)?;
    Ok(AlterDomainAction::DropConstraint(identifier(alloc, words)?))
}

#[tactic(auto, unfolding(crate::specs::AlterParsers::add_or_drop))]
fn add_or_drop(alloc: Global, words: &mut Reader<'_>) -> Result<AlterDomainAction, GrammarError>
    ensures { Reads (spec.add_or_drop words.old) result words.new }
{
    if words.eat(Kind::Add) {
        return Ok(AlterDomainAction::AddCheck(domain_check(alloc, words)?));
    }
    words.expect(Kind::Drop)?;
    Ok(drop_domain_part(alloc, words)?)
}

/// What stands after ALTER DOMAIN and a domain.
#[tactic(auto, unfolding(crate::specs::AlterParsers::alter_domain_action))]
pub fn alter_domain_action(
    alloc: Global,
    words: &mut Reader<'_>,
) -> Result<AlterDomainAction, GrammarError>
    ensures { Reads (spec.alter_domain_action words.old) result words.new }
{
    if words.eat(Kind::Set) {
        return Ok(AlterDomainAction::SetDefault(new_default(alloc, words)?));
    }
    Ok(add_or_drop(alloc, words)?)
}
