//! Parts of resolved trees, and tables that join a FROM.
#![tactic(auto, using(name_scopes::proofs::Tails::tails))]

ghost use Rattle.std.specs.Prelude.{◌≡◌, [], drop, map, Some, OnOk, MatchResult};
ghost use Rattle.std.specs.Prelude.{List};
ghost use Rattle.sql_names.specs.declared.column.Reference.{Reference};
ghost use Rattle.sql_tree.specs.declared.expr.Expr.{roll-Expr};
ghost use Rattle.sql_tree.specs.declared.expr.Query.{roll-Query};
ghost use Rattle.name_scopes.specs.Outcomes.{Answers, Extends, Outcome, each};
ghost use Rattle.name_scopes.specs.Single as single;
ghost use Rattle.query_names.specs.Names.{selected};

use name_scopes::{Dictionary, Frames, ResolveError, Scope, resolve_joined, resolve_reference};
use sql_tree::{
    Boxed, Chain, Conjunction, Expr, Further, Items, Operand, Query, Reference, Select, SelectList,
    Shared, TableReference, Tail, Text,
};
use std::alloc::Global;

/// The expression of these conjunctions.
pub fn make_expr(alloc: Global, any: Items<Conjunction>) -> Result<Expr, ResolveError>
    ensures { MatchResult result (λ made. made ≡ roll-Expr (record { any = any })) (λ why. why ≡ ResolveError.Memory) }
{
    Ok(Expr {
        any: Shared::new(alloc, any)?,
    })
}

/// The query of these SELECTs.
pub fn make_query(
    alloc: Global,
    first: Select,
    others: Items<Further>,
) -> Result<Query, ResolveError>
    ensures { MatchResult result (λ made. made ≡ roll-Query (record { first = first; others = others })) (λ why. why ≡ ResolveError.Memory) }
{
    Ok(Query {
        first: Shared::new(alloc, first)?,
        others: Shared::new(alloc, others)?,
    })
}

pub fn make_literal(text: &Text) -> Result<Operand, ResolveError>
    ensures { MatchResult result (λ made. made ≡ Operand.Literal text.now) (λ why. why ≡ ResolveError.Memory) }
{
    Ok(Operand::Literal(text.copy()?))
}

pub fn make_number(text: &Text) -> Result<Operand, ResolveError>
    ensures { MatchResult result (λ made. made ≡ Operand.Number text.now) (λ why. why ≡ ResolveError.Memory) }
{
    Ok(Operand::Number(text.copy()?))
}

pub fn make_exists(alloc: Global, query: Query) -> Result<Operand, ResolveError>
    ensures { MatchResult result (λ made. made ≡ Operand.Exists query) (λ why. why ≡ ResolveError.Memory) }
{
    Ok(Operand::Exists(Boxed::new(alloc, query)?))
}

pub fn make_subquery(alloc: Global, query: Query) -> Result<Operand, ResolveError>
    ensures { MatchResult result (λ made. made ≡ Operand.Subquery query) (λ why. why ≡ ResolveError.Memory) }
{
    Ok(Operand::Subquery(Boxed::new(alloc, query)?))
}

pub fn some_tail(alloc: Global, tail: Tail) -> Result<Option<Boxed<Tail>>, ResolveError>
    ensures { MatchResult result (λ made. made ≡ Some tail) (λ why. why ≡ ResolveError.Memory) }
{
    Ok(Some(Boxed::new(alloc, tail)?))
}

/// The references of a GROUP BY.
pub fn resolve_references<D: Dictionary>(
    alloc: Global,
    dictionary: &D,
    scope: &Scope,
    frames: &Frames,
    all: &[Reference],
) -> Result<Items<Reference>, ResolveError>
    ensures { Answers (each frames.now [] (map (single.reference (D.known dictionary.now) scope.now) all.now)) result }
{
    let mut out = Items::new(alloc);
    for one in all {
        out.push(resolve_reference(dictionary, scope, frames, one)?)?;
    }
    Ok(out)
}

/// A SELECT of these parts, where its GROUP BY resolved.
#[tactic(auto, using(crate::proofs::Selected::selected_refused))]
pub fn make_select(
    distinct: bool,
    list: SelectList,
    from: Items<Chain>,
    filter: Option<Expr>,
    group_by: Result<Items<Reference>, ResolveError>,
) -> Result<Select, ResolveError>
    ensures { (o : Outcome (List Reference)) → Answers o group_by → Answers (selected distinct list from filter o) result }
{
    match group_by {
        Ok(group_by) => Ok(Select {
            distinct,
            list,
            from,
            filter,
            group_by,
        }),
        Err(error) => Err(error),
    }
}

/// The first table of a chain.
pub fn open<D: Dictionary>(
    dictionary: &D,
    scope: &Scope,
    frames: &mut Frames,
    table: &TableReference,
) -> Result<TableReference, ResolveError>
    ensures answer { Extends (single.opened (D.known dictionary.now) scope.now table.now frames.old) result frames.new }
    ensures kept { OnOk result (drop 1 frames.new ≡ drop 1 frames.old) }
{
    frames.begin()?;
    resolve_joined(dictionary, scope, frames, table)
}

/// The table of a JOIN.
pub fn enter<D: Dictionary>(
    dictionary: &D,
    scope: &Scope,
    frames: &mut Frames,
    table: &TableReference,
) -> Result<TableReference, ResolveError>
    ensures answer { Extends (single.joined (D.known dictionary.now) scope.now table.now frames.old) result frames.new }
    ensures kept { OnOk result (drop 1 frames.new ≡ drop 1 frames.old) }
{
    resolve_joined(dictionary, scope, frames, table)
}
