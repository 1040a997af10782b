//! Checks of a domain.

ghost use Rattle.std.specs.Prelude.{◌≡◌, ◌↔◌, ◌⊎◌, ◌∷◌, [], ◌++◌, ◌≢◌, Contains, IfOk, IsTrue, OnOk, length};
ghost use Rattle.std.specs.List.{Any};
ghost use Rattle.cat_items.specs.declared.item.DomainCheck.{DomainCheck as Check};
ghost use Rattle.cat_items.specs.declared.item.Item.{Item as AnyItem};
ghost use Rattle.cat_items.specs.declared.item.Item.TheVariants as item;
ghost use Rattle.cat_items.specs.declared.need.Need.{Need as AnyNeed};
ghost use Rattle.edit_rules.specs.First.{IsTested};
ghost use Rattle.edit_conditions.specs.Conditions.{IsFound};
ghost use Rattle.statement_steps.specs.Resolving.{unresolved_name};
ghost use Rattle.table_names.specs.Named.{HaveOwnNames};
ghost use Rattle.domain_edits.specs.Checks as spec;
ghost use Rattle.domain_edits.specs.Found as found;

use cat_items::{Catalogue, DomainCheck, EditError, Item, Need, Shared, Who};
use edit_conditions::condition_of;
use edit_rules::put;
use name_scopes::Scope;
use sql_tree::{
    DomainCheck as WrittenCheck, Items, Name, Object, SqlType, TableConstraint, TableConstraintKind,
};
use std::alloc::{AllocError, Global};
use table_names::NamedConstraint;
use table_parts::Part;
use view_deps::ResolvedExpr;

fn copy_name(name: &Option<Name>) -> Result<Option<Name>, AllocError>
    ensures { IfOk result (λ copy. copy ≡ name.now) }
{
    match name {
        None => Ok(None),
        Some(name) => Ok(Some(name.copy()?)),
    }
}

/// A check as a constraint of the statement.
fn part_of(alloc: Global, check: &WrittenCheck) -> Result<Part, AllocError>
    ensures { IfOk result (λ part. part ≡ spec.part_of check.now) }
{
    let name = copy_name(&check.name)?;
    let kind = TableConstraintKind::Check(check.condition.copy(alloc)?);
    Ok(Part::Constraint(TableConstraint { name, kind }))
}

/// The checks as constraints of the statement. `Err` is want of memory.
pub fn parts_of(alloc: Global, checks: &Items<WrittenCheck>) -> Result<Items<Part>, AllocError>
    ensures { IfOk result (λ parts. parts ≡ spec.parts_of checks.now) }
{
    let mut parts = Items::new(alloc);
    for check in checks.as_slice() {
        parts.push(part_of(alloc, check)?)?;
    }
    Ok(parts)
}

fn check_scope(alloc: Global, schema: &Name, sort: SqlType) -> Result<Scope, AllocError>
    ensures { IfOk result (λ scope. scope ≡ spec.check_scope schema.now sort) }
{
    Ok(Scope {
        schema: schema.copy()?,
        own: None,
        params: Items::new(alloc),
        value: Some(sort),
        itself: None,
        views: false,
    })
}

/// What the condition of a check comes to.
fn found_of(
    alloc: Global,
    c: &Catalogue,
    who: &Who,
    sort: SqlType,
    check: &WrittenCheck,
) -> Result<Option<ResolvedExpr>, EditError>
    ensures { IsTested (unresolved_name (spec.outcome_of c.now.items who.now sort check.now) ∷ []) (IsFound (spec.outcome_of c.now.items who.now sort check.now)) result }
{
    let scope = check_scope(alloc, &who.schema, sort)?;
    condition_of(alloc, c, &scope, &check.condition)
}

/// What the conditions of checks come to, or the first refusal by a name of theirs, check by check.
pub fn all_found(
    alloc: Global,
    c: &Catalogue,
    who: &Who,
    sort: SqlType,
    checks: &Items<WrittenCheck>,
) -> Result<Items<Option<ResolvedExpr>>, EditError>
    ensures { IsTested (spec.unresolved_checks c.now.items who.now sort checks.now) (found.AreFound c.now.items who.now sort checks.now) result }
{
    let mut all = Items::new(alloc);
    for check in checks.as_slice() {
        all.push(found_of(alloc, c, who, sort, check)?)?;
    }
    Ok(all)
}

/// Whether one of these conditions has no type.
pub fn has_none(all: &Items<Option<ResolvedExpr>>) -> bool
    ensures { IsTrue result ↔ Any found.HasNone all.now }
{
    for one in all.as_slice() {
        if one.is_none() {
            return true;
        }
    }
    false
}

fn push_needs(out: &mut Items<Need>, needs: &Items<Need>) -> Result<(), AllocError>
    ensures { OnOk result (out.new ≡ out.old ++ needs.now) }
{
    for need in needs.as_slice() {
        out.push(need.copy()?)?;
    }
    Ok(())
}

/// What these conditions need. `Err` is want of memory.
pub fn needs_of(alloc: Global, all: &Items<Option<ResolvedExpr>>) -> Result<Items<Need>, AllocError>
    ensures { IfOk result (λ needs. (need : AnyNeed) → Contains needs need ↔ Any (found.Asks need) all.now) }
{
    let mut needs = Items::new(alloc);
    for one in all.as_slice() {
        if let Some(resolved) = one {
            push_needs(&mut needs, &resolved.needs)?;
        }
    }
    Ok(needs)
}

fn copy_needs(alloc: Global, needs: &Items<Need>) -> Result<Items<Need>, AllocError>
    ensures { IfOk result (λ copy. copy ≡ needs.now) }
{
    let mut copy = Items::new(alloc);
    push_needs(&mut copy, needs)?;
    Ok(copy)
}

/// The check of this name and condition.
fn check_made(
    alloc: Global,
    domain: &Object,
    named: &NamedConstraint,
    resolved: &ResolvedExpr,
) -> Result<DomainCheck, AllocError>
    ensures { IfOk result (found.IsCheckBy domain.now named.now resolved.now) }
{
    let name = Object {
        schema: domain.schema.copy()?,
        name: named.name.copy()?,
    };
    Ok(DomainCheck {
        name,
        domain: domain.copy()?,
        cond: resolved.expr.copy(alloc)?,
        needs: copy_needs(alloc, &resolved.needs)?,
    })
}

/// Puts in the check of this name and condition, where it has a type.
fn put_check(
    alloc: Global,
    added: &mut Catalogue,
    domain: &Object,
    named: &NamedConstraint,
    one: &Option<ResolvedExpr>,
) -> Result<(), AllocError>
    requires { (x : Check) → Contains added.old.items (item.DomainCheck x) → x.name ≢ record { schema = domain.now.schema; name = named.now.name } }
    ensures { OnOk result ((x : AnyItem) → Contains added.new.items x ↔ (Contains added.old.items x ⊎ found.IsCheckHere domain.now named.now one.now x)) }
{
    match one {
        None => Ok(()),
        Some(resolved) => {
            let check = check_made(alloc, domain, named, resolved)?;
            put(added, Item::DomainCheck(Shared::new(alloc, check)?))
        }
    }
}

/// Puts in the checks of these names and conditions.
pub fn put_checks(
    alloc: Global,
    added: &mut Catalogue,
    domain: &Object,
    named: &Items<NamedConstraint>,
    all: &Items<Option<ResolvedExpr>>,
) -> Result<(), AllocError>
    requires names { HaveOwnNames named.now }
    requires length { length all.now ≡ length named.now }
    requires new { (x : Check) → ¬ (Contains added.old.items (item.DomainCheck x)) }
    ensures { OnOk result ((x : AnyItem) → Contains added.new.items x ↔ (Contains added.old.items x ⊎ found.IsCheckAmong domain.now named.now all.now x)) }
{
    let (named, all) = (named.as_slice(), all.as_slice());
    for at in 0..named.len() {
        put_check(alloc, added, domain, &named[at], &all[at])?;
    }
    Ok(())
}
