//! What the calls answer on the catalogue of two users, a schema and a table.

ghost use Rattle.std.specs.Prelude.{◌≡◌, false, IfOk};

use crate::rows::{BODIES, CONDITIONS, QUERIES};
use cat_items::{Catalogue, Column, Item, Need, Schema, Shared, View, find, same_item};
use constraint_deps::{needs_of_cond, resolve_cond};
use item_texts::{item_text, need_text};
use name_scopes::{OwnTable, ResolveError, Scope, Signature};
use routine_deps::{body_scope, needs_of_body, resolve_body};
use sql_grammar::statement;
use sql_text::{print_body, print_expr, print_query, put_name, put_type};
use sql_tree::{
    Action, Body, CreateDomain, Expr, Items, Name, Object, Path, Query, SqlType, Statement, Text,
};
use sql_words::words;
use std::alloc::{AllocError, Global};
use std::process::Abort;
use std::test::Fail;
use value_columns::replace_value;
use view_deps::{Resolved, ResolvedExpr, needs_of_query, resolve_expr, resolve_query};

fn name(alloc: Global, text: &str) -> Result<Name, Fail> {
    Ok(Name::of(alloc, text.as_bytes())?.ok_or("no name")?)
}

fn object(alloc: Global, text: &str) -> Result<Object, Fail> {
    Ok(Object {
        schema: name(alloc, "ALICE")?,
        name: name(alloc, text)?,
    })
}

fn utf8(text: &Text) -> &str {
    str::from_utf8(text.bytes()).unwrap_or("not UTF-8")
}

/// The statement that a text is.
fn read(alloc: Global, text: &str) -> Result<Statement, Fail> {
    let Ok(words) = words(alloc, text.as_bytes()) else {
        return Err("no words")?;
    };
    let Ok(tree) = statement(alloc, &words) else {
        return Err("no tree")?;
    };
    Ok(tree)
}

/// Puts in an item whose key no item has.
fn put(c: &mut Catalogue, item: Item) -> Result<(), AllocError> {
    c.reserve(1)?;
    match find(c, &item) {
        None => c.put_in(item),
        Some(_) => {}
    }
    Ok(())
}

fn column(alloc: Global) -> Result<Column, Fail> {
    Ok(Column {
        table: object(alloc, "T")?,
        place: 1,
        name: name(alloc, "X")?,
        sort: SqlType::Integer,
        domain: None,
        default: None,
        not_null: false,
    })
}

fn schema(alloc: Global) -> Result<Schema, Fail> {
    Ok(Schema {
        name: name(alloc, "ALICE")?,
        owner: name(alloc, "ALICE")?,
    })
}

/// The users ALICE and BOB, and her schema with its table T of one column X INTEGER.
fn catalogue(alloc: Global) -> Result<Catalogue, Fail> {
    let mut c = Catalogue::of_sorted(Vec::new(alloc));
    put(&mut c, Item::User(name(alloc, "ALICE")?))?;
    put(&mut c, Item::User(name(alloc, "BOB")?))?;
    put(&mut c, Item::Schema(Shared::new(alloc, schema(alloc)?)?))?;
    put(
        &mut c,
        Item::Table(Shared::new(alloc, object(alloc, "T")?)?),
    )?;
    put(&mut c, Item::Column(Shared::new(alloc, column(alloc)?)?))?;
    Ok(c)
}

/// What surrounds a condition of the table T.
fn on_table(alloc: Global) -> Result<Scope, Fail>
    ensures { IfOk result (λ scope. scope.views ≡ false) }
{
    let own = OwnTable {
        table: object(alloc, "T")?,
        names: Items::from_vec(vec![in alloc; name(alloc, "X")?]?),
        sorts: Items::from_vec(vec![in alloc; SqlType::Integer]?),
    };
    Ok(Scope {
        schema: name(alloc, "ALICE")?,
        own: Some(own),
        params: Items::new(alloc),
        value: None,
        itself: None,
        views: false,
    })
}

/// Puts a part of an answer, behind a bar where one stands before it.
fn put_part(out: &mut Text, part: &[u8]) -> Result<(), AllocError> {
    if !out.bytes().is_empty() {
        out.push_all(b" | ")?;
    }
    out.push_all(part)
}

fn put_needs(alloc: Global, out: &mut Text, needs: &Items<Need>) -> Result<(), AllocError> {
    for need in needs.as_slice() {
        put_part(out, need_text(alloc, need)?.bytes())?;
    }
    Ok(())
}

fn put_path(out: &mut Text, path: &Path) -> Result<(), AllocError> {
    for at in 0..3 {
        if let Some(part) = path.get(at) {
            out.push_all(if at == 0 { b"" } else { b"." })?;
            put_name(out, part)?;
        }
    }
    Ok(())
}

fn put_refusal(out: &mut Text, error: &ResolveError) -> Result<(), Fail> {
    match error {
        ResolveError::UnknownName(path) => {
            put_part(out, b"unknown ")?;
            put_path(out, path)?;
        }
        ResolveError::Ambiguous(name) => {
            put_part(out, b"ambiguous ")?;
            put_name(out, name)?;
        }
        ResolveError::TypeMismatch => put_part(out, b"no type")?,
        ResolveError::Memory => return Err("memory")?,
    }
    Ok(())
}

fn put_columns(out: &mut Text, names: &[Name], sorts: &[SqlType]) -> Result<(), AllocError> {
    for (name, sort) in names.iter().zip(sorts) {
        put_part(out, b"")?;
        put_name(out, name)?;
        out.push(b' ')?;
        put_type(out, *sort)?;
    }
    Ok(())
}

/// What a query is resolved to, and what it needs.
fn told_query(alloc: Global, c: &Catalogue, query: &Query) -> Result<Text, Fail> {
    let mut out = Text::new(alloc);
    match resolve_query(alloc, c, &name(alloc, "ALICE")?, query) {
        Ok(found) => {
            put_part(&mut out, print_query(alloc, &found.query)?.bytes())?;
            put_columns(&mut out, found.names.as_slice(), found.sorts.as_slice())?;
            put_needs(alloc, &mut out, &found.needs)?;
            let needs = needs_of_query(alloc, &found.query, Action::References)?;
            put_needs(alloc, &mut out, &needs)?;
        }
        Err(error) => put_refusal(&mut out, &error)?,
    }
    Ok(out)
}

fn put_expr(alloc: Global, out: &mut Text, found: &ResolvedExpr) -> Result<(), AllocError> {
    put_part(out, print_expr(alloc, &found.expr)?.bytes())?;
    put_part(out, b"")?;
    put_type(out, found.sort)?;
    put_needs(alloc, out, &found.needs)
}

/// What a condition of the table T is resolved to by either call, and what it needs.
fn told_condition(alloc: Global, c: &Catalogue, expr: &Expr) -> Result<Text, Fail> {
    let mut out = Text::new(alloc);
    let scope = on_table(alloc)?;
    match resolve_expr(alloc, c, &scope, Action::Select, expr) {
        Ok(found) => put_expr(alloc, &mut out, &found)?,
        Err(error) => put_refusal(&mut out, &error)?,
    }
    match resolve_cond(alloc, c, &scope, expr) {
        Ok(found) => {
            put_expr(alloc, &mut out, &found)?;
            put_needs(alloc, &mut out, &needs_of_cond(alloc, &found.expr)?)?;
        }
        Err(error) => put_refusal(&mut out, &error)?,
    }
    Ok(out)
}

/// The first check of a domain with the column X of T in the place of VALUE.
fn told_check(alloc: Global, domain: &CreateDomain) -> Result<Text, Fail> {
    let [check, ..] = domain.checks.as_slice() else {
        return Err("no check")?;
    };
    let table = object(alloc, "T")?;
    let replaced = replace_value(alloc, &check.condition, &table, &name(alloc, "X")?)?;
    Ok(print_expr(alloc, &replaced)?)
}

/// What the body of the procedure P is resolved to, and what it needs.
fn told_body(alloc: Global, c: &Catalogue, body: &Body) -> Result<Text, Fail> {
    let mut out = Text::new(alloc);
    let itself = Signature {
        routine: object(alloc, "P")?,
        params: Items::new(alloc),
        returns: None,
    };
    let scope = body_scope(alloc, &name(alloc, "ALICE")?, &itself)?;
    match resolve_body(alloc, c, &scope, body) {
        Ok(found) => {
            put_part(&mut out, print_body(alloc, &found.body)?.bytes())?;
            put_needs(alloc, &mut out, &found.needs)?;
            let needs = needs_of_body(alloc, &found.body, &itself.routine)?;
            put_needs(alloc, &mut out, &needs)?;
        }
        Err(error) => put_refusal(&mut out, &error)?,
    }
    Ok(out)
}

fn told(alloc: Global, c: &Catalogue, text: &str) -> Result<Text, Fail> {
    match &read(alloc, text)? {
        Statement::CreateView(made) => told_query(alloc, c, &made.query),
        Statement::CreateAssertion(made) => told_condition(alloc, c, &made.condition),
        Statement::CreateDomain(made) => told_check(alloc, made),
        Statement::CreateProcedure(made) => told_body(alloc, c, &made.body),
        _ => Err("nothing to resolve")?,
    }
}

#[test]
fn statements_are_resolved_and_need_so_much(rt: HostRuntime) -> Result<(), Fail> {
    let alloc = rt.alloc();
    let c = catalogue(alloc)?;
    for rows in [QUERIES, CONDITIONS, BODIES] {
        for row in rows.lines() {
            let (text, gives) = row.split_once(" => ").ok_or("no answer")?;
            assert_eq!(rt; utf8(&told(alloc, &c, text)?), gives, "{text}");
        }
    }
    Ok(())
}

/// The query of a view V that is all of T, as it is resolved.
fn all_of_table(alloc: Global) -> Result<Resolved, Fail> {
    let Statement::CreateView(made) = &read(alloc, "CREATE VIEW V AS SELECT * FROM T")? else {
        return Err("no view")?;
    };
    let c = catalogue(alloc)?;
    let Ok(found) = resolve_query(alloc, &c, &name(alloc, "ALICE")?, &made.query) else {
        return Err("not resolved")?;
    };
    Ok(found)
}

/// The view V of a resolved query.
fn view(alloc: Global, found: Resolved) -> Result<Item, Fail> {
    let view = View {
        view: object(alloc, "V")?,
        query: found.query,
        needs: found.needs,
        base: found.base,
        base_columns: found.base_columns,
    };
    Ok(Item::View(Shared::new(alloc, view)?))
}

#[test]
fn copies_are_equal(rt: HostRuntime) -> Result<(), Fail> {
    let alloc = rt.alloc();
    let (text, word) = (Text::of(alloc, b"A")?, name(alloc, "A")?);
    assert_eq!(rt; (utf8(&text), word.bytes()), ("A", b"A".as_slice()));
    assert!(rt; text.copy()?.same(&text) && word.copy()?.same(&word));
    assert!(rt; Name::of(alloc, b"")?.is_none());
    let found = all_of_table(alloc)?;
    assert!(rt; found.query.copy(alloc)?.same(&found.query));
    let view = view(alloc, found)?;
    assert_eq!(rt; utf8(&item_text(alloc, &view)?), "VIEW ALICE.V");
    assert!(rt; same_item(&view.copy()?, &view));
    Ok(())
}
