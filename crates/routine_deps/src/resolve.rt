//! Bodies with their needs.

ghost use Rattle.std.specs.Prelude.{IfOk};
ghost use Rattle.name_scopes.specs.Outcomes.{Answers};
ghost use Rattle.cat_items.specs.Needs.{AreNeeds};
ghost use Rattle.view_deps.specs.Described.{known_of};
ghost use Rattle.routine_deps.specs.Bodies as spec;
ghost use Rattle.routine_deps.specs.Bodies.{IsResolvedBody};

use crate::body_names::resolve_body_names;
use crate::body_types::body_fits;
use body_needs::{needs_of_body, needs_with_all_calls};
use cat_items::{Catalogue, Need};
use name_scopes::{Dictionary, ResolveError, Scope, Signature};
use sql_tree::{Body, Items};
use std::alloc::{AllocError, Global};
use view_deps::CatalogueNames;

/// A resolved body, with what it needs.
#[derive(Drop)]
pub struct ResolvedBody {
    pub body: Body,
    pub needs: Items<Need>,
}

/// A body, or the first refusal.
#[tactic(auto, unfolding(crate::specs::Bodies::resolved_body))]
fn resolve_typed_body<D: Dictionary>(
    alloc: Global,
    dictionary: &D,
    scope: &Scope,
    body: &Body,
) -> Result<Body, ResolveError>
    ensures { Answers (spec.resolved_body (D.known dictionary.now) scope.now body.now) result }
{
    let resolved = resolve_body_names(alloc, dictionary, scope, body)?;
    if body_fits(alloc, dictionary, scope, &resolved)? {
        Ok(resolved)
    } else {
        Err(ResolveError::TypeMismatch)
    }
}

/// What a body needs, where it is that of this routine or of none.
fn needs_in(
    alloc: Global,
    body: &Body,
    itself: &Option<Signature>,
) -> Result<Items<Need>, AllocError>
    ensures { IfOk result (λ needs. AreNeeds needs (spec.NeededIn itself.now body.now)) }
{
    match itself {
        None => needs_with_all_calls(alloc, body),
        Some(itself) => needs_of_body(alloc, body, &itself.routine),
    }
}

/// The body of the routine that a scope is of (SQL:2003 part 2, 11.50, 14.8 to 14.11 and 15.1), by the tables, views and routines of a
/// catalogue: `UnknownName` and `Ambiguous` of its first name in reading order that doesn't stand, `TypeMismatch` where all names stand and a
/// value, a condition or an argument has no type or one of another class, `Memory` is want of memory. It keeps whose rights the routine runs
/// with, and its needs are the same whosever they are.
pub fn resolve_body(
    alloc: Global,
    c: &Catalogue,
    scope: &Scope,
    body: &Body,
) -> Result<ResolvedBody, ResolveError>
    ensures { IsResolvedBody scope.now.itself (spec.resolved_body (known_of c.now.items) scope.now body.now) result }
{
    let body = resolve_typed_body(alloc, &CatalogueNames::new(alloc, c), scope, body)?;
    let needs = needs_in(alloc, &body, &scope.itself)?;
    Ok(ResolvedBody { body, needs })
}
