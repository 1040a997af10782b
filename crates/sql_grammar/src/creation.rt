//! What CREATE makes, after the word that names its kind.

ghost use Rattle.std.specs.Prelude.{◌≡◌, false};
ghost use Rattle.sql_spelling.specs.declared.kind.Kind.TheVariants as k;
ghost use Rattle.sql_grammar.specs.CreateParsers as spec;
ghost use Rattle.sql_phrases.specs.Parsers as parsers;
ghost use Rattle.sql_phrases.specs.Parsers.{Reads};
ghost use Rattle.sql_phrases.specs.TypeParsers as types;

use sql_definitions::{MOST_OPEN, acts, check, domain_checks, language, params, table_elements};
use sql_expressions::{expr, query};
use sql_phrases::{GrammarError, Reader, columns, default, object_name, sql_type};
use sql_tree::{
    Body, CreateAssertion, CreateDomain, CreateFunction, CreateProcedure, CreateTable, CreateView,
    Default, Security, Statement,
};
use sql_words::Kind;
use std::alloc::Global;

#[tactic(auto, unfolding(crate::specs::CreateParsers::create_table))]
pub fn create_table(alloc: Global, words: &mut Reader<'_>) -> Result<Statement, GrammarError>
    ensures { Reads (spec.create_table words.old) result words.new }
{
    let table = object_name(alloc, words)?;
    let elements = table_elements(alloc, words, MOST_OPEN - 1)?;
    Ok(Statement::CreateTable(CreateTable { table, elements }))
}

#[tactic(auto, unfolding(crate::specs::CreateParsers::create_view))]
pub fn create_view(alloc: Global, words: &mut Reader<'_>) -> Result<Statement, GrammarError>
    ensures { Reads (spec.create_view words.old) result words.new }
{
    let view = object_name(alloc, words)?;
    let columns = columns(alloc, words)?;
    words.expect(Kind::As)?;
    let query = query(alloc, words, MOST_OPEN + 1, false)?;
    Ok(Statement::CreateView(CreateView {
        view,
        columns,
        query,
    }))
}

// `[DEFAULT default]`
#[tactic(auto, unfolding(sql_phrases::specs::Parsers::optional))]
fn default_value(alloc: Global, words: &mut Reader<'_>) -> Result<Option<Default>, GrammarError>
    ensures { Reads (parsers.optional k.Default types.default words.old) result words.new }
{
    if words.eat(Kind::Default) {
        Ok(Some(default(alloc, words)?))
    } else {
        Ok(None)
    }
}

#[tactic(auto, unfolding(crate::specs::CreateParsers::create_domain))]
pub fn create_domain(alloc: Global, words: &mut Reader<'_>) -> Result<Statement, GrammarError>
    ensures { Reads (spec.create_domain words.old) result words.new }
{
    let domain = object_name(alloc, words)?;
    words.eat(Kind::As);
    let sort = sql_type(words, MOST_OPEN)?;
    let default = default_value(alloc, words)?;
    let checks = domain_checks(alloc, words)?;
    Ok(Statement::CreateDomain(CreateDomain {
        domain,
        sort,
        default,
        checks,
    }))
}

#[tactic(auto, unfolding(crate::specs::CreateParsers::create_assertion))]
pub fn create_assertion(alloc: Global, words: &mut Reader<'_>) -> Result<Statement, GrammarError>
    ensures { Reads (spec.create_assertion words.old) result words.new }
{
    let assertion = object_name(alloc, words)?;
    let condition = check(alloc, words, MOST_OPEN, false)?;
    Ok(Statement::CreateAssertion(CreateAssertion {
        assertion,
        condition,
    }))
}

#[tactic(auto, unfolding(crate::specs::CreateParsers::create_function))]
pub fn create_function(alloc: Global, words: &mut Reader<'_>) -> Result<Statement, GrammarError>
    ensures { Reads (spec.create_function words.old) result words.new }
{
    let function = object_name(alloc, words)?;
    let params = params(alloc, words)?;
    words.expect(Kind::Returns)?;
    let returns = sql_type(words, MOST_OPEN)?;
    language(words)?;
    words.expect(Kind::Return)?;
    let expr = expr(alloc, words, MOST_OPEN + 1, false)?;
    Ok(Statement::CreateFunction(CreateFunction {
        function,
        params,
        returns,
        body: Body::Return {
            security: Security::Definer,
            expr,
        },
    }))
}

#[tactic(auto, unfolding(crate::specs::CreateParsers::create_procedure))]
pub fn create_procedure(alloc: Global, words: &mut Reader<'_>) -> Result<Statement, GrammarError>
    ensures { Reads (spec.create_procedure words.old) result words.new }
{
    let procedure = object_name(alloc, words)?;
    let params = params(alloc, words)?;
    language(words)?;
    words.expect(Kind::Begin)?;
    words.expect(Kind::Atomic)?;
    let acts = acts(alloc, words)?;
    words.expect(Kind::End)?;
    Ok(Statement::CreateProcedure(CreateProcedure {
        procedure,
        params,
        body: Body::Atomic {
            security: Security::Definer,
            acts,
        },
    }))
}
