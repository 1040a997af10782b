//! What bodies need, in order and each once (access rules, SQL:2003 part 2, 14.8 to 14.11 and 15.1).

ghost use Rattle.std.specs.Prelude.{◌≡◌, ◌↔◌, [], ◌∷◌, ◌++◌, map, flat_map, IfOk, OnOk};
ghost use Rattle.std.specs.List.{Contains};
ghost use Rattle.sql_tree.specs.declared.body.Assignment.{Assignment};
ghost use Rattle.sql_tree.specs.declared.rights.Action.TheVariants.{Select, Insert, Update, Delete, Execute};
ghost use Rattle.cat_items.specs.Mentions.{query_mentions};
ghost use Rattle.cat_items.specs.Needs as spec;
ghost use Rattle.cat_items.specs.Needs.{AreNeeds, NeededByBody};
ghost use Rattle.tree_needs.specs.Ordered.{Gains};

use crate::need_order::{copies, each_once, others};
use cat_items::Need;
use sql_tree::{
    Act, Action, AssignedValue, Assignment, Body, Expr, InsertSource, Items, Name, Object,
    ObjectName, Path, Query,
};
use std::alloc::{AllocError, Global};
use tree_needs::{needs_of_expr, needs_of_query};

fn path_of(object: &Object) -> Result<Path, AllocError>
    ensures { IfOk result (λ path. path ≡ object.now.schema ∷ object.now.name ∷ []) }
{
    Ok(Path::two(object.schema.copy()?, object.name.copy()?))
}

fn object_need(action: Action, object: &Object) -> Result<Need, AllocError>
    ensures { IfOk result (λ need. need ≡ spec.object_need action object.now) }
{
    Ok(Need {
        action,
        on: path_of(object)?,
        column: None,
    })
}

fn column_need(action: Action, object: &Object, name: &Name) -> Result<Need, AllocError>
    ensures { IfOk result (λ need. need ≡ spec.column_need action object.now name.now) }
{
    Ok(Need {
        action,
        on: path_of(object)?,
        column: Some(name.copy()?),
    })
}

/// An action on a table or a routine.
fn put_on(needs: &mut Items<Need>, action: Action, object: &ObjectName) -> Result<(), AllocError>
    ensures { OnOk result (needs.new ≡ needs.old ++ spec.needs_on action object.now) }
{
    match object {
        ObjectName::Unqualified(_) => Ok(()),
        ObjectName::Qualified(object) => needs.push(object_need(action, object)?),
    }
}

fn put_columns(
    needs: &mut Items<Need>,
    action: Action,
    table: &Object,
    names: &[Name],
) -> Result<(), AllocError>
    ensures { OnOk result (needs.new ≡ needs.old ++ map (spec.column_need action table.now) names.now) }
{
    for name in names {
        needs.push(column_need(action, table, name)?)?;
    }
    Ok(())
}

/// An action on these columns of a table.
fn put_on_columns(
    needs: &mut Items<Need>,
    action: Action,
    table: &ObjectName,
    names: &[Name],
) -> Result<(), AllocError>
    ensures { OnOk result (needs.new ≡ needs.old ++ spec.needs_on_columns action table.now names.now) }
{
    match table {
        ObjectName::Unqualified(_) => Ok(()),
        ObjectName::Qualified(table) => put_columns(needs, action, table, names),
    }
}

/// The columns that an UPDATE sets. `Err` is want of memory.
pub fn set_columns(alloc: Global, all: &[Assignment]) -> Result<Items<Name>, AllocError>
    ensures { IfOk result (λ names. names ≡ map (λ (a : Assignment). a.column) all.now) }
{
    let mut names = Items::new(alloc);
    for one in all {
        names.push(one.column.copy()?)?;
    }
    Ok(names)
}

/// What an expression reads and calls.
fn put_expr(alloc: Global, needs: &mut Items<Need>, expr: &Expr) -> Result<(), AllocError>
    ensures { OnOk result (Gains needs.old needs.new (spec.expr_needs expr.now)) }
{
    needs.append(needs_of_expr(alloc, expr, Action::Select)?)
}

fn put_query(alloc: Global, needs: &mut Items<Need>, query: &Query) -> Result<(), AllocError>
    ensures { OnOk result (Gains needs.old needs.new (spec.needs_of_mentions Select (query_mentions query.now))) }
{
    needs.append(needs_of_query(alloc, query, Action::Select)?)
}

fn put_optional(
    alloc: Global,
    needs: &mut Items<Need>,
    expr: &Option<Expr>,
) -> Result<(), AllocError>
    ensures { OnOk result (Gains needs.old needs.new (spec.optional_needs expr.now)) }
{
    match expr {
        None => Ok(()),
        Some(expr) => put_expr(alloc, needs, expr),
    }
}

fn put_value(
    alloc: Global,
    needs: &mut Items<Need>,
    value: &AssignedValue,
) -> Result<(), AllocError>
    ensures { OnOk result (Gains needs.old needs.new (spec.value_needs value.now)) }
{
    match value {
        AssignedValue::Null => Ok(()),
        AssignedValue::Default => Ok(()),
        AssignedValue::Expr(expr) => put_expr(alloc, needs, expr),
    }
}

fn put_values(
    alloc: Global,
    needs: &mut Items<Need>,
    all: &[AssignedValue],
) -> Result<(), AllocError>
    ensures { OnOk result (Gains needs.old needs.new (flat_map spec.value_needs all.now)) }
{
    for one in all {
        put_value(alloc, needs, one)?;
    }
    Ok(())
}

fn put_exprs(alloc: Global, needs: &mut Items<Need>, all: &[Expr]) -> Result<(), AllocError>
    ensures { OnOk result (Gains needs.old needs.new (flat_map spec.expr_needs all.now)) }
{
    for one in all {
        put_expr(alloc, needs, one)?;
    }
    Ok(())
}

fn put_set_values(
    alloc: Global,
    needs: &mut Items<Need>,
    all: &[Assignment],
) -> Result<(), AllocError>
    ensures { OnOk result (Gains needs.old needs.new (flat_map (λ (a : Assignment). spec.value_needs a.value) all.now)) }
{
    for one in all {
        put_value(alloc, needs, &one.value)?;
    }
    Ok(())
}

fn put_source(
    alloc: Global,
    needs: &mut Items<Need>,
    source: &InsertSource,
) -> Result<(), AllocError>
    ensures { OnOk result (Gains needs.old needs.new (spec.source_needs source.now)) }
{
    match source {
        InsertSource::Values(all) => put_values(alloc, needs, all.as_slice()),
        InsertSource::Query(query) => put_query(alloc, needs, query),
    }
}

fn put_inserted(
    alloc: Global,
    needs: &mut Items<Need>,
    table: &ObjectName,
    columns: &[Name],
    source: &InsertSource,
) -> Result<(), AllocError>
    ensures { OnOk result (Gains needs.old needs.new (spec.needs_on_columns Insert table.now columns.now ++ spec.source_needs source.now)) }
{
    put_on_columns(needs, Action::Insert, table, columns)?;
    put_source(alloc, needs, source)
}

fn put_set(
    alloc: Global,
    needs: &mut Items<Need>,
    table: &ObjectName,
    all: &[Assignment],
) -> Result<(), AllocError>
    ensures { OnOk result (Gains needs.old needs.new (spec.needs_on_columns Update table.now (map (λ (a : Assignment). a.column) all.now) ++ flat_map (λ (a : Assignment). spec.value_needs a.value) all.now)) }
{
    let columns = set_columns(alloc, all)?;
    put_on_columns(needs, Action::Update, table, columns.as_slice())?;
    put_set_values(alloc, needs, all)
}

fn put_updated(
    alloc: Global,
    needs: &mut Items<Need>,
    table: &ObjectName,
    all: &[Assignment],
    filter: &Option<Expr>,
) -> Result<(), AllocError>
    ensures { OnOk result (Gains needs.old needs.new (spec.needs_on_columns Update table.now (map (λ (a : Assignment). a.column) all.now) ++ flat_map (λ (a : Assignment). spec.value_needs a.value) all.now ++ spec.optional_needs filter.now)) }
{
    put_set(alloc, needs, table, all)?;
    put_optional(alloc, needs, filter)
}

fn put_deleted(
    alloc: Global,
    needs: &mut Items<Need>,
    table: &ObjectName,
    filter: &Option<Expr>,
) -> Result<(), AllocError>
    ensures { OnOk result (Gains needs.old needs.new (spec.needs_on Delete table.now ++ spec.optional_needs filter.now)) }
{
    put_on(needs, Action::Delete, table)?;
    put_optional(alloc, needs, filter)
}

fn put_called(
    alloc: Global,
    needs: &mut Items<Need>,
    routine: &ObjectName,
    arguments: &[Expr],
) -> Result<(), AllocError>
    ensures { OnOk result (Gains needs.old needs.new (spec.needs_on Execute routine.now ++ flat_map spec.expr_needs arguments.now)) }
{
    put_on(needs, Action::Execute, routine)?;
    put_exprs(alloc, needs, arguments)
}

fn put_act(alloc: Global, needs: &mut Items<Need>, act: &Act) -> Result<(), AllocError>
    ensures { OnOk result (Gains needs.old needs.new (spec.act_needs act.now)) }
{
    match act {
        Act::Insert {
            table,
            columns,
            source,
        } => put_inserted(alloc, needs, table, columns.as_slice(), source),
        Act::Update {
            table,
            assignments,
            filter,
        } => put_updated(alloc, needs, table, assignments.as_slice(), filter),
        Act::Delete { table, filter } => put_deleted(alloc, needs, table, filter),
        Act::Call { routine, arguments } => {
            put_called(alloc, needs, routine, arguments.as_slice())
        }
    }
}

fn put_acts(alloc: Global, needs: &mut Items<Need>, all: &[Act]) -> Result<(), AllocError>
    ensures { OnOk result (Gains needs.old needs.new (flat_map spec.act_needs all.now)) }
{
    for one in all {
        put_act(alloc, needs, one)?;
    }
    Ok(())
}

fn put_body(alloc: Global, needs: &mut Items<Need>, body: &Body) -> Result<(), AllocError>
    ensures { OnOk result (Gains needs.old needs.new (spec.body_needs body.now)) }
{
    match body {
        Body::Return { expr, .. } => put_expr(alloc, needs, expr),
        Body::Atomic { acts, .. } => put_acts(alloc, needs, acts.as_slice()),
    }
}

/// All that a body mentions needs, in no order.
fn all_needs(alloc: Global, body: &Body) -> Result<Items<Need>, AllocError>
    ensures { IfOk result (λ all. (x : Need) → Contains all x ↔ Contains (spec.body_needs body.now) x) }
{
    let mut needs = Items::new(alloc);
    put_body(alloc, &mut needs, body)?;
    Ok(needs)
}

/// What a body needs (access rules, SQL:2003 part 2, 6.6, 10.4 and 14.8 to 14.11), resolved or not: SELECT on what it reads and EXECUTE on
/// what it calls, as a query; INSERT and UPDATE on each column that it inserts and sets, and DELETE on each table that it deletes from. A call of
/// the routine itself needs nothing. Sorted, each once, whoever's rights it runs with. `Err` is want of memory.
pub fn needs_of_body(alloc: Global, body: &Body, itself: &Object) -> Result<Items<Need>, AllocError>
    ensures { IfOk result (λ needs. AreNeeds needs (NeededByBody itself.now body.now)) }
{
    let all = all_needs(alloc, body)?;
    let own = object_need(Action::Execute, itself)?;
    let others = others(alloc, all.as_slice(), &own)?;
    Ok(each_once(others))
}

/// What a body needs, calls of each routine among it. Sorted, each once. `Err` is want of memory.
pub fn needs_with_all_calls(alloc: Global, body: &Body) -> Result<Items<Need>, AllocError>
    ensures { IfOk result (λ needs. AreNeeds needs (Contains (spec.body_needs body.now))) }
{
    let all = all_needs(alloc, body)?;
    Ok(each_once(copies(alloc, all.as_slice())?))
}
