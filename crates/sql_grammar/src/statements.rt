//! Statements.

ghost use Rattle.std.specs.Prelude.{◌≡◌, ◌↔◌, List, Err, IfOk};
ghost use Rattle.sql_tree.specs.declared.statement.Statement.{Statement};
ghost use Rattle.sql_words.specs.declared.word.Word.{Word};
ghost use Rattle.sql_spelling.specs.declared.kind.Kind.TheVariants as k;
ghost use Rattle.sql_phrases.specs.NameParsers as names;
ghost use Rattle.sql_phrases.specs.Parsers as parsers;
ghost use Rattle.sql_phrases.specs.Parsers.{Reads};
ghost use Rattle.sql_grammar.specs.Profile.{OutOfProfile};
ghost use Rattle.sql_grammar.specs.StatementParsers as spec;
ghost use Rattle.sql_grammar.specs.StatementRules as grammar;

use crate::alter::{alter_domain_action, alter_table_action};
use crate::creation::{
    create_assertion, create_domain, create_function, create_procedure, create_table, create_view,
};
use crate::information::info_query;
use crate::profile::begins_other;
use crate::rights::{
    behaviour, granted_by, grantees, grantor_after, names_then, option_for, privileges_on,
    with_option,
};
use sql_phrases::{GrammarError, Reader, identifier, identifiers, literal_name, object_name};
use sql_tree::{
    AlterDomain, AlterTable, Connect, CreateRole, CreateSchema, DropKind, DropObject,
    GrantPrivileges, GrantRoles, Grantor, Items, Name, RevokePrivileges, RevokeRoles, RoleChoice,
    SchemaNameClause, Statement,
};
use sql_words::{Kind, Word, same_kind};
use std::alloc::Global;

#[tactic(auto, unfolding(crate::specs::StatementParsers::role_choice))]
fn role_choice(alloc: Global, words: &mut Reader<'_>) -> Result<RoleChoice, GrammarError>
    ensures { Reads (spec.role_choice words.old) result words.new }
{
    if words.sees(Kind::Literal) {
        return Ok(RoleChoice::Literal(literal_name(alloc, words)?));
    }
    if words.eat(Kind::None) {
        return Ok(RoleChoice::NoRole);
    }
    Ok(RoleChoice::Identifier(identifier(alloc, words)?))
}

#[tactic(auto, unfolding(sql_phrases::specs::Parsers::optional))]
fn owner(alloc: Global, words: &mut Reader<'_>) -> Result<Option<Name>, GrammarError>
    ensures { Reads (parsers.optional k.Authorization names.identifier words.old) result words.new }
{
    if words.eat(Kind::Authorization) {
        Ok(Some(identifier(alloc, words)?))
    } else {
        Ok(None)
    }
}

#[tactic(auto, unfolding(crate::specs::StatementParsers::schema_name_clause))]
fn schema_name_clause(
    alloc: Global,
    words: &mut Reader<'_>,
) -> Result<SchemaNameClause, GrammarError>
    ensures { Reads (spec.schema_name_clause words.old) result words.new }
{
    if words.eat(Kind::Authorization) {
        return Ok(SchemaNameClause::Authorization(identifier(alloc, words)?));
    }
    let schema = identifier(alloc, words)?;
    let owner = owner(alloc, words)?;
    Ok(SchemaNameClause::Named { schema, owner })
}

#[tactic(auto, unfolding(sql_phrases::specs::Parsers::optional))]
fn connection(alloc: Global, words: &mut Reader<'_>) -> Result<Option<Name>, GrammarError>
    ensures { Reads (parsers.optional k.As names.literal_name words.old) result words.new }
{
    if words.eat(Kind::As) {
        Ok(Some(literal_name(alloc, words)?))
    } else {
        Ok(None)
    }
}

#[tactic(auto, unfolding(crate::specs::StatementParsers::connect))]
fn connect(alloc: Global, words: &mut Reader<'_>) -> Result<Statement, GrammarError>
    ensures { Reads (spec.connect words.old) result words.new }
{
    words.expect(Kind::To)?;
    let server = literal_name(alloc, words)?;
    let connection = connection(alloc, words)?;
    words.expect(Kind::User)?;
    let user = literal_name(alloc, words)?;
    Ok(Statement::Connect(Connect {
        server,
        connection,
        user,
    }))
}

#[tactic(auto, unfolding(crate::specs::StatementParsers::set))]
fn set(alloc: Global, words: &mut Reader<'_>) -> Result<Statement, GrammarError>
    ensures { Reads (spec.set words.old) result words.new }
{
    match words.peek() {
        Kind::Connection => {
            words.take();
            Ok(Statement::SetConnection(literal_name(alloc, words)?))
        }
        Kind::Schema => {
            words.take();
            Ok(Statement::SetSchema(literal_name(alloc, words)?))
        }
        Kind::Role => {
            words.take();
            Ok(Statement::SetRole(role_choice(alloc, words)?))
        }
        _ => Err(GrammarError::Syntax),
    }
}

#[tactic(auto, unfolding(crate::specs::StatementParsers::create_schema))]
fn create_schema(alloc: Global, words: &mut Reader<'_>) -> Result<Statement, GrammarError>
    ensures { Reads (spec.create_schema words.old) result words.new }
{
    let schema = schema_name_clause(alloc, words)?;
    Ok(Statement::CreateSchema(CreateSchema {
        schema,
        elements: Items::new(alloc),
    }))
}

#[tactic(auto, unfolding(crate::specs::StatementParsers::admin, sql_phrases::specs::Parsers::optional))]
fn admin(words: &mut Reader<'_>) -> Result<Option<Grantor>, GrammarError>
    ensures { Reads (spec.admin words.old) result words.new }
{
    if words.eat(Kind::With) {
        Ok(Some(grantor_after(words, Kind::Admin)?))
    } else {
        Ok(None)
    }
}

#[tactic(auto, unfolding(crate::specs::StatementParsers::create_role))]
fn create_role(alloc: Global, words: &mut Reader<'_>) -> Result<Statement, GrammarError>
    ensures { Reads (spec.create_role words.old) result words.new }
{
    let role = identifier(alloc, words)?;
    let admin = admin(words)?;
    Ok(Statement::CreateRole(CreateRole { role, admin }))
}

#[tactic(auto, unfolding(crate::specs::StatementParsers::create))]
fn create(alloc: Global, words: &mut Reader<'_>) -> Result<Statement, GrammarError>
    ensures { Reads (spec.create words.old) result words.new }
{
    match words.peek() {
        Kind::Schema => {
            words.take();
            Ok(create_schema(alloc, words)?)
        }
        Kind::Role => {
            words.take();
            Ok(create_role(alloc, words)?)
        }
        Kind::Table => {
            words.take();
            Ok(create_table(alloc, words)?)
        }
        Kind::View => {
            words.take();
            Ok(create_view(alloc, words)?)
        }
        Kind::Domain => {
            words.take();
            Ok(create_domain(alloc, words)?)
        }
        Kind::Assertion => {
            words.take();
            Ok(create_assertion(alloc, words)?)
        }
        Kind::Function => {
            words.take();
            Ok(create_function(alloc, words)?)
        }
        Kind::Procedure => {
            words.take();
            Ok(create_procedure(alloc, words)?)
        }
        _ => Err(GrammarError::Syntax),
    }
}

#[tactic(auto, unfolding(crate::specs::StatementParsers::alter_table))]
fn alter_table(alloc: Global, words: &mut Reader<'_>) -> Result<Statement, GrammarError>
    ensures { Reads (spec.alter_table words.old) result words.new }
{
    let table = object_name(alloc, words)?;
    let action = alter_table_action(alloc, words)?;
    Ok(Statement::AlterTable(AlterTable { table, action }))
}

#[tactic(auto, unfolding(crate::specs::StatementParsers::alter_domain))]
fn alter_domain(alloc: Global, words: &mut Reader<'_>) -> Result<Statement, GrammarError>
    ensures { Reads (spec.alter_domain words.old) result words.new }
{
    let domain = object_name(alloc, words)?;
    let action = alter_domain_action(alloc, words)?;
    Ok(Statement::AlterDomain(AlterDomain { domain, action }))
}

#[tactic(auto, unfolding(crate::specs::StatementParsers::alter))]
fn alter(alloc: Global, words: &mut Reader<'_>) -> Result<Statement, GrammarError>
    ensures { Reads (spec.alter words.old) result words.new }
{
    if words.eat(Kind::Table) {
        return Ok(alter_table(alloc, words)?);
    }
    words.expect(Kind::Domain)?;
    Ok(alter_domain(alloc, words)?)
}

#[tactic(auto, unfolding(crate::specs::StatementParsers::drop_schema))]
fn drop_schema(alloc: Global, words: &mut Reader<'_>) -> Result<Statement, GrammarError>
    ensures { Reads (spec.drop_schema words.old) result words.new }
{
    let schema = identifier(alloc, words)?;
    let behaviour = behaviour(words);
    Ok(Statement::DropSchema { schema, behaviour })
}

#[tactic(auto, unfolding(crate::specs::StatementParsers::drop_object))]
fn drop_object(
    alloc: Global,
    words: &mut Reader<'_>,
    kind: DropKind,
) -> Result<Statement, GrammarError>
    ensures { Reads (spec.drop_object kind words.old) result words.new }
{
    let object = object_name(alloc, words)?;
    let behaviour = behaviour(words);
    Ok(Statement::DropObject(DropObject {
        kind,
        object,
        behaviour,
    }))
}

// After DROP and its second word.
fn drop_by(alloc: Global, words: &mut Reader<'_>, kind: Kind) -> Result<Statement, GrammarError>
    ensures { Reads (spec.drop_by kind words.old) result words.new }
{
    words.take();
    match kind {
        Kind::Role => Ok(Statement::DropRole(identifier(alloc, words)?)),
        Kind::Schema => Ok(drop_schema(alloc, words)?),
        Kind::Table => Ok(drop_object(alloc, words, DropKind::Table)?),
        Kind::View => Ok(drop_object(alloc, words, DropKind::View)?),
        Kind::Domain => Ok(drop_object(alloc, words, DropKind::Domain)?),
        Kind::Assertion => Ok(drop_object(alloc, words, DropKind::Assertion)?),
        Kind::Function => Ok(drop_object(alloc, words, DropKind::Function)?),
        Kind::Procedure => Ok(drop_object(alloc, words, DropKind::Procedure)?),
        Kind::Routine => Ok(drop_object(alloc, words, DropKind::Routine)?),
        _ => Err(GrammarError::Syntax),
    }
}

#[tactic(auto, unfolding(crate::specs::StatementParsers::drop))]
fn drop_any(alloc: Global, words: &mut Reader<'_>) -> Result<Statement, GrammarError>
    ensures { Reads (spec.drop words.old) result words.new }
{
    let kind = words.peek();
    drop_by(alloc, words, kind)
}

#[tactic(auto, unfolding(crate::specs::StatementParsers::grant_privileges))]
fn grant_privileges(alloc: Global, words: &mut Reader<'_>) -> Result<Statement, GrammarError>
    ensures { Reads (spec.grant_privileges words.old) result words.new }
{
    let (privileges, target) = privileges_on(alloc, words)?;
    words.expect(Kind::To)?;
    let grantees = grantees(alloc, words)?;
    let grant_option = with_option(words, Kind::Grant)?;
    let grantor = granted_by(words)?;
    Ok(Statement::GrantPrivileges(GrantPrivileges {
        privileges,
        target,
        grantees,
        grant_option,
        grantor,
    }))
}

#[tactic(auto, unfolding(crate::specs::StatementParsers::grant_roles))]
fn grant_roles(alloc: Global, words: &mut Reader<'_>) -> Result<Statement, GrammarError>
    ensures { Reads (spec.grant_roles words.old) result words.new }
{
    let roles = identifiers(alloc, words)?;
    words.expect(Kind::To)?;
    let grantees = identifiers(alloc, words)?;
    let admin_option = with_option(words, Kind::Admin)?;
    let grantor = granted_by(words)?;
    Ok(Statement::GrantRoles(GrantRoles {
        roles,
        grantees,
        admin_option,
        grantor,
    }))
}

#[tactic(auto, unfolding(crate::specs::StatementParsers::grant))]
fn grant(alloc: Global, words: &mut Reader<'_>) -> Result<Statement, GrammarError>
    ensures { Reads (spec.grant words.old) result words.new }
{
    if names_then(words, Kind::To) {
        Ok(grant_roles(alloc, words)?)
    } else {
        Ok(grant_privileges(alloc, words)?)
    }
}

#[tactic(auto, unfolding(crate::specs::StatementParsers::revoke_privileges))]
fn revoke_privileges(alloc: Global, words: &mut Reader<'_>) -> Result<Statement, GrammarError>
    ensures { Reads (spec.revoke_privileges words.old) result words.new }
{
    let option_alone = option_for(words, Kind::Grant)?;
    let (privileges, target) = privileges_on(alloc, words)?;
    words.expect(Kind::From)?;
    let grantees = grantees(alloc, words)?;
    let grantor = granted_by(words)?;
    let behaviour = behaviour(words);
    Ok(Statement::RevokePrivileges(RevokePrivileges {
        option_alone,
        privileges,
        target,
        grantees,
        grantor,
        behaviour,
    }))
}

#[tactic(auto, unfolding(crate::specs::StatementParsers::revoke_roles))]
fn revoke_roles(
    alloc: Global,
    words: &mut Reader<'_>,
    option_alone: bool,
) -> Result<Statement, GrammarError>
    ensures { Reads (spec.revoke_roles option_alone words.old) result words.new }
{
    let roles = identifiers(alloc, words)?;
    words.expect(Kind::From)?;
    let grantees = identifiers(alloc, words)?;
    let grantor = granted_by(words)?;
    let behaviour = behaviour(words);
    Ok(Statement::RevokeRoles(RevokeRoles {
        option_alone,
        roles,
        grantees,
        grantor,
        behaviour,
    }))
}

#[tactic(auto, unfolding(crate::specs::StatementParsers::revoke_admin_option))]
fn revoke_admin_option(alloc: Global, words: &mut Reader<'_>) -> Result<Statement, GrammarError>
    ensures { Reads (spec.revoke_admin_option words.old) result words.new }
{
    words.take();
    words.take();
    words.expect(Kind::For)?;
    Ok(revoke_roles(alloc, words, true)?)
}

#[tactic(auto, unfolding(crate::specs::StatementParsers::sees_admin_option, sql_phrases::specs::Reading::sees))]
fn sees_admin_option(words: &Reader<'_>) -> bool
    ensures { result ≡ spec.sees_admin_option words.now }
{
    words.sees(Kind::Admin) && same_kind(words.peek_after(), Kind::Option)
}

#[tactic(auto, unfolding(crate::specs::StatementParsers::revoke))]
fn revoke(alloc: Global, words: &mut Reader<'_>) -> Result<Statement, GrammarError>
    ensures { Reads (spec.revoke words.old) result words.new }
{
    if names_then(words, Kind::From) {
        Ok(revoke_roles(alloc, words, false)?)
    } else if sees_admin_option(words) {
        Ok(revoke_admin_option(alloc, words)?)
    } else {
        Ok(revoke_privileges(alloc, words)?)
    }
}

// A statement that begins with a word of this kind.
fn statement_by(
    alloc: Global,
    words: &mut Reader<'_>,
    kind: Kind,
) -> Result<Statement, GrammarError>
    ensures { Reads (spec.statement_by kind words.old) result words.new }
{
    words.take();
    match kind {
        Kind::Connect => Ok(connect(alloc, words)?),
        Kind::Disconnect => Ok(Statement::Disconnect(literal_name(alloc, words)?)),
        Kind::Set => Ok(set(alloc, words)?),
        Kind::Create => Ok(create(alloc, words)?),
        Kind::Alter => Ok(alter(alloc, words)?),
        Kind::Drop => Ok(drop_any(alloc, words)?),
        Kind::Grant => Ok(grant(alloc, words)?),
        Kind::Revoke => Ok(revoke(alloc, words)?),
        Kind::Select => Ok(Statement::Select(info_query(alloc, words)?)),
        _ => Err(GrammarError::Syntax),
    }
}

#[tactic(auto, unfolding(crate::specs::StatementParsers::statement))]
fn read(alloc: Global, words: &mut Reader<'_>) -> Result<Statement, GrammarError>
    ensures { Reads (spec.statement words.old) result words.new }
{
    let kind = words.peek();
    statement_by(alloc, words, kind)
}

/// The statement that the words spell.
///
/// Words that begin as a statement of SQL:2003 that the profile leaves out give `NotInProfile`, whatever follows; other words that spell no
/// statement give `Syntax`. Each word is read once, but for the list of names after GRANT and REVOKE, which is read twice.
///
/// More than 64 brackets open at one word give `Syntax`; a CASE and a BEGIN are open up to their END. So do the elements of CREATE SCHEMA,
/// which the grammar lacks so far.
pub fn statement(alloc: Global, words: &Vec<Word>) -> Result<Statement, GrammarError>
    ensures found { IfOk result (λ s. grammar.Grammar words.now.items s) }
    ensures only { IfOk result (λ s. (other : Statement) → grammar.Grammar words.now.items other → other ≡ s) }
    ensures profile { result ≡ Err GrammarError.NotInProfile ↔ OutOfProfile words.now.items }
    ensures syntax { result ≡ Err GrammarError.Syntax → (s : Statement) → grammar.Grammar words.now.items s → ⊥ }
{
    let mut left = Reader::new(words.as_slice());
    if begins_other(left.peek(), left.peek_after()) {
        return Err(GrammarError::NotInProfile);
    }
    let found = match read(alloc, &mut left) {
        Ok(found) => found,
        Err(error) => return Err(error),
    };
    if left.len() != 0 {
        return Err(GrammarError::Syntax);
    }
    Ok(found)
}

/// Words spell at most one statement.
pub fn unambiguous()
    ensures { (words : List Word) (a b : Statement) → grammar.Grammar words a → grammar.Grammar words b → a ≡ b }
{}
