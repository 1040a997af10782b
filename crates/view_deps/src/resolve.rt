//! Queries and expressions with their types and needs.

ghost use Rattle.std.specs.Prelude.{◌≡◌, ◌++◌, flat_map, IfOk, OnOk};
ghost use Rattle.query_types.specs.Whole.{resolved_expr, resolved_query};
ghost use Rattle.view_deps.specs.Described.{known_of};
ghost use Rattle.view_deps.specs.Views as spec;
ghost use Rattle.view_deps.specs.Views.{IsResolved, IsResolvedExpr};

use crate::catalogue::CatalogueNames;
use crate::found::{put_in_expr, put_in_query};
use cat_items::{Catalogue, Need};
use name_scopes::{ResolveError, Scope};
use plain_views::plain_base;
use query_types::{resolve_typed_expr, resolve_typed_query};
use sql_tree::{Action, Expr, Items, Name, Object, Query, SelectItem, SelectList, SqlType};
use std::alloc::{AllocError, Global};
use tree_needs::{needs_of_expr, needs_of_query};

/// A resolved query, with the names and types of its columns, what it needs, and where it is plain the table or view that it is
/// on with its column for each column.
#[derive(Drop)]
pub struct Resolved {
    pub query: Query,
    pub names: Items<Name>,
    pub sorts: Items<SqlType>,
    pub needs: Items<Need>,
    pub base: Option<Object>,
    pub base_columns: Items<Name>,
}

/// A resolved expression, with its type and what it needs.
#[derive(Drop)]
pub struct ResolvedExpr {
    pub expr: Expr,
    pub sort: SqlType,
    pub needs: Items<Need>,
}

fn query_scope(alloc: Global, schema: &Name) -> Result<Scope, AllocError>
    ensures { IfOk result (λ scope. scope ≡ spec.query_scope schema.now) }
{
    Ok(Scope {
        schema: schema.copy()?,
        own: None,
        params: Items::new(alloc),
        value: None,
        itself: None,
        views: true,
    })
}

fn put_names(out: &mut Items<Name>, items: &[SelectItem]) -> Result<(), AllocError>
    ensures { OnOk result (out.new ≡ out.old ++ flat_map spec.names_in items.now) }
{
    for item in items {
        if let SelectItem::Expr {
            name: Some(name),
            ..
        } = item
        {
            out.push(name.copy()?)?;
        }
    }
    Ok(())
}

fn names_of(alloc: Global, list: &SelectList) -> Result<Items<Name>, AllocError>
    ensures { IfOk result (λ names. names ≡ spec.names_of list.now) }
{
    let mut out = Items::new(alloc);
    if let SelectList::Listed(items) = list {
        put_names(&mut out, items.as_slice())?;
    }
    Ok(out)
}

fn column_names(alloc: Global, query: &Query) -> Result<Items<Name>, AllocError>
    ensures { IfOk result (λ names. names ≡ spec.column_names query.now) }
{
    names_of(alloc, &query.first.get().list)
}

/// The query of a view in a schema, by the tables, views and routines of a catalogue: `UnknownName` and `Ambiguous` of its first
/// name that doesn't stand, `TypeMismatch` where all names stand and there is no type, `Memory` is want of memory. Its needs are
/// SELECT on what it reads and EXECUTE on what it calls.
pub fn resolve_query(
    alloc: Global,
    c: &Catalogue,
    schema: &Name,
    query: &Query,
) -> Result<Resolved, ResolveError>
    ensures { IsResolved (resolved_query (known_of c.now.items) (spec.query_scope schema.now) query.now) result }
{
    let scope = query_scope(alloc, schema)?;
    let mut found = Items::new(alloc);
    put_in_query(&scope, &mut found, query)?;
    let by = CatalogueNames::over(alloc, c, found.as_slice())?;
    let typed = resolve_typed_query(alloc, &by, &scope, query)?;
    let names = column_names(alloc, &typed.query)?;
    let needs = needs_of_query(alloc, &typed.query, Action::Select)?;
    let plain = plain_base(alloc, &typed.query)?;
    Ok(Resolved {
        query: typed.query,
        names,
        sorts: typed.sorts,
        needs,
        base: plain.base,
        base_columns: plain.columns,
    })
}

/// An expression that is no select item, in a scope, by the tables, views and routines of a catalogue, with the same refusals as
/// a query. Its needs are `reading` on what it reads and EXECUTE on what it calls.
pub fn resolve_expr(
    alloc: Global,
    c: &Catalogue,
    scope: &Scope,
    reading: Action,
    expr: &Expr,
) -> Result<ResolvedExpr, ResolveError>
    ensures { IsResolvedExpr reading (resolved_expr (known_of c.now.items) scope.now expr.now) result }
{
    let mut found = Items::new(alloc);
    put_in_expr(scope, &mut found, expr)?;
    let by = CatalogueNames::over(alloc, c, found.as_slice())?;
    let typed = resolve_typed_expr(alloc, &by, scope, expr)?;
    let needs = needs_of_expr(alloc, &typed.expr, reading)?;
    Ok(ResolvedExpr {
        expr: typed.expr,
        sort: typed.sort,
        needs,
    })
}
