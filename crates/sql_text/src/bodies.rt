//! The printed text of routines' bodies.

ghost use Rattle.std.specs.Prelude.{◌≡◌, ◌++◌, OnOk, IfOk, map, codes, flat_map};
ghost use Rattle.sql_spelling.specs.Texts.{name_text};
ghost use Rattle.sql_text.specs.Printing.{separated};
ghost use Rattle.sql_text.specs.Bodies as spec;

use crate::exprs::{put_call, put_expr, put_optional_expr, put_query};
use sql_spelling::{put_name, put_object_name};
use sql_tree::{Act, AssignedValue, Assignment, Body, Expr, InsertSource, Name, ObjectName, Text};
use std::alloc::{AllocError, Global};

fn put_value(out: &mut Text, value: &AssignedValue) -> Result<(), AllocError>
    ensures { OnOk result (out.new ≡ out.old ++ spec.value_text value.now) }
{
    match value {
        AssignedValue::Null => out.push_all(b"NULL"),
        AssignedValue::Default => out.push_all(b"DEFAULT"),
        AssignedValue::Expr(expr) => put_expr(out, expr),
    }
}

fn put_values(out: &mut Text, all: &[AssignedValue]) -> Result<(), AllocError>
    ensures { OnOk result (out.new ≡ out.old ++ separated (codes ", ") (map spec.value_text all.now)) }
{
    if let [first, rest @ ..] = all {
        put_value(out, first)?;
        for one in rest {
            out.push_all(b", ")?;
            put_value(out, one)?;
        }
    }
    Ok(())
}

fn put_assignment(out: &mut Text, assignment: &Assignment) -> Result<(), AllocError>
    ensures { OnOk result (out.new ≡ out.old ++ spec.assignment_text assignment.now) }
{
    put_name(out, &assignment.column)?;
    out.push_all(b" = ")?;
    put_value(out, &assignment.value)
}

fn put_assignments(out: &mut Text, all: &[Assignment]) -> Result<(), AllocError>
    ensures { OnOk result (out.new ≡ out.old ++ separated (codes ", ") (map spec.assignment_text all.now)) }
{
    if let [first, rest @ ..] = all {
        put_assignment(out, first)?;
        for one in rest {
            out.push_all(b", ")?;
            put_assignment(out, one)?;
        }
    }
    Ok(())
}

#[tactic(auto, unfolding(crate::specs::Bodies::columns_text))]
fn put_columns(out: &mut Text, all: &[Name]) -> Result<(), AllocError>
    ensures { OnOk result (out.new ≡ out.old ++ spec.columns_text all.now) }
{
    if let [first, rest @ ..] = all {
        out.push_all(b" (")?;
        put_name(out, first)?;
        for one in rest {
            out.push_all(b", ")?;
            put_name(out, one)?;
        }
        out.push_all(b")")?;
    }
    Ok(())
}

#[tactic(auto, unfolding(crate::specs::Bodies::source_text))]
fn put_source(out: &mut Text, source: &InsertSource) -> Result<(), AllocError>
    ensures { OnOk result (out.new ≡ out.old ++ spec.source_text source.now) }
{
    match source {
        InsertSource::Values(values) => {
            out.push_all(b" VALUES (")?;
            put_values(out, values.as_slice())?;
            out.push_all(b")")
        }
        InsertSource::Query(query) => {
            out.push_all(b" ")?;
            put_query(out, query)
        }
    }
}

#[tactic(auto, unfolding(crate::specs::Bodies::where_text))]
fn put_where(out: &mut Text, filter: &Option<Expr>) -> Result<(), AllocError>
    ensures { OnOk result (out.new ≡ out.old ++ spec.where_text filter.now) }
{
    put_optional_expr(out, b" WHERE ", filter)
}

fn put_insert(
    out: &mut Text,
    table: &ObjectName,
    columns: &[Name],
    source: &InsertSource,
) -> Result<(), AllocError>
    ensures { OnOk result (out.new ≡ out.old ++ spec.insert_text table.now columns.now source.now) }
{
    out.push_all(b"INSERT INTO ")?;
    put_object_name(out, table)?;
    put_columns(out, columns)?;
    put_source(out, source)
}

fn put_update(
    out: &mut Text,
    table: &ObjectName,
    assignments: &[Assignment],
    filter: &Option<Expr>,
) -> Result<(), AllocError>
    ensures { OnOk result (out.new ≡ out.old ++ spec.update_text table.now assignments.now filter.now) }
{
    out.push_all(b"UPDATE ")?;
    put_object_name(out, table)?;
    out.push_all(b" SET ")?;
    put_assignments(out, assignments)?;
    put_where(out, filter)
}

fn put_delete(out: &mut Text, table: &ObjectName, filter: &Option<Expr>) -> Result<(), AllocError>
    ensures { OnOk result (out.new ≡ out.old ++ spec.delete_text table.now filter.now) }
{
    out.push_all(b"DELETE FROM ")?;
    put_object_name(out, table)?;
    put_where(out, filter)
}

#[tactic(auto, unfolding(crate::specs::Bodies::act_text))]
fn put_act(out: &mut Text, act: &Act) -> Result<(), AllocError>
    ensures { OnOk result (out.new ≡ out.old ++ spec.act_text act.now) }
{
    match act {
        Act::Insert {
            table,
            columns,
            source,
        } => put_insert(out, table, columns.as_slice(), source),
        Act::Update {
            table,
            assignments,
            filter,
        } => put_update(out, table, assignments.as_slice(), filter),
        Act::Delete { table, filter } => put_delete(out, table, filter),
        Act::Call { routine, arguments } => {
            out.push_all(b"CALL ")?;
            put_call(out, routine, arguments.as_slice())
        }
    }
}

fn put_acts(out: &mut Text, all: &[Act]) -> Result<(), AllocError>
    ensures { OnOk result (out.new ≡ out.old ++ flat_map (λ act. codes " " ++ spec.act_text act ++ codes ";") all.now) }
{
    for one in all {
        out.push_all(b" ")?;
        put_act(out, one)?;
        out.push_all(b";")?;
    }
    Ok(())
}

/// A routine's body, as `print_body` prints it. After `Err` nothing is said of what `out` has.
#[tactic(auto, unfolding(crate::specs::Bodies::body_text))]
pub fn put_body(out: &mut Text, body: &Body) -> Result<(), AllocError>
    ensures { OnOk result (out.new ≡ out.old ++ spec.body_text body.now) }
{
    match body {
        Body::Return { expr, .. } => {
            out.push_all(b"RETURN ")?;
            put_expr(out, expr)
        }
        Body::Atomic { acts, .. } => {
            out.push_all(b"BEGIN ATOMIC")?;
            put_acts(out, acts.as_slice())?;
            out.push_all(b" END")
        }
    }
}

/// The text of a routine's body, from RETURN or BEGIN on.
pub fn print_body(alloc: Global, body: &Body) -> Result<Text, AllocError>
    ensures { IfOk result (λ text. text ≡ spec.body_text body.now) }
{
    let mut out = Text::new(alloc);
    put_body(&mut out, body)?;
    Ok(out)
}
