//! The names of GRANT and REVOKE: columns, the target and grantees.

ghost use Rattle.std.specs.Prelude.{◌≡◌, ◌↔◌, ◌∷◌, [], map, IsTrue};
ghost use Rattle.sql_tree.specs.declared.rights.Privilege.{Privilege};
ghost use Rattle.cat_items.specs.Ranges.{IsDomainOf, IsIn};
ghost use Rattle.cat_items.specs.Reach.{Has};
ghost use Rattle.edit_rules.specs.First.{HasPassed, tests_of};
ghost use Rattle.edit_rules.specs.Names.{unknown_column};
ghost use Rattle.grant_edit.specs.Targets as spec;

use cat_items::{Catalogue, EditError, Item, Part, Refusal, places};
use edit_rules::{is_table, path_of, test_authorization, test_column};
use sql_tree::{Grantee, Items, Name, Object, Privilege, Privileges, SqlType, TargetKind};

/// Whether the kind names such a routine, by whether it returns a value.
fn is_kind_of_routine(kind: TargetKind, returns: &Option<SqlType>) -> bool
    ensures { IsTrue result ↔ spec.IsKindOfRoutine kind returns.now }
{
    match (kind, returns) {
        (TargetKind::Function, Some(_)) | (TargetKind::Procedure, None) => true,
        (TargetKind::Routine, _) => true,
        _ => false,
    }
}

/// Whether an item is a routine of this name that the kind names.
fn is_routine(kind: TargetKind, object: &Object, x: &Item) -> bool
    ensures { IsTrue result ↔ spec.IsRoutineOfKind kind object.now x.now }
{
    match x {
        Item::Routine(routine) => {
            let routine = routine.get();
            routine.routine.same(object) && is_kind_of_routine(kind, &routine.returns)
        }
        _ => false,
    }
}

/// Whether such a routine stands.
fn has_routine(c: &Catalogue, kind: TargetKind, object: &Object) -> bool
    ensures { IsTrue result ↔ Has c.now.items (spec.IsRoutineOfKind kind object.now) }
{
    let items = c.items();
    let all = places(c, Part::Routine(object.into()));
    for at in all.start..all.end {
        if is_routine(kind, object, &items[at]) {
            return true;
        }
    }
    false
}

/// Whether an item is in this part.
fn any_in(c: &Catalogue, part: Part<'_>) -> bool
    ensures { IsTrue result ↔ Has c.now.items (IsIn part.entry) }
{
    !places(c, part).is_empty()
}

/// Whether a domain has this name.
fn has_domain(c: &Catalogue, object: &Object) -> bool
    ensures { IsTrue result ↔ Has c.now.items (IsDomainOf object.now) }
{
    any_in(c, Part::Domain(object.into()))
}

/// Whether the object that the target names stands.
fn has_target(c: &Catalogue, kind: TargetKind, object: &Object) -> bool
    ensures { IsTrue result ↔ Has c.now.items (spec.IsTarget kind object.now) }
{
    match kind {
        TargetKind::Table => is_table(c, object),
        TargetKind::Domain => has_domain(c, object),
        TargetKind::Function | TargetKind::Procedure | TargetKind::Routine => {
            has_routine(c, kind, object)
        }
    }
}

/// Refuses a target that doesn't stand.
fn test_target(c: &Catalogue, kind: TargetKind, object: &Object) -> Result<(), EditError>
    ensures { HasPassed (spec.unknown_target_object c.now.items kind object.now ∷ []) result }
{
    if has_target(c, kind, object) {
        return Ok(());
    }
    let path = path_of(object)?;
    Err(EditError::Refused(Refusal::UnknownName { path }))
}

/// Refuses the first column of a list that doesn't stand.
fn test_list(c: &Catalogue, object: &Object, names: &Items<Name>) -> Result<(), EditError>
    ensures { HasPassed (map (unknown_column c.now.items object.now) names.now) result }
{
    for name in names.as_slice() {
        test_column(c, object, name)?;
    }
    Ok(())
}

/// Refuses the first column of all lists that doesn't stand.
fn test_lists(c: &Catalogue, object: &Object, listed: &Items<Privilege>) -> Result<(), EditError>
    ensures { HasPassed (tests_of (λ (p : Privilege). map (unknown_column c.now.items object.now) p.columns) listed.now) result }
{
    for privilege in listed.as_slice() {
        test_list(c, object, &privilege.columns)?;
    }
    Ok(())
}

/// Refuses the first column that is named and doesn't stand.
fn test_columns(c: &Catalogue, object: &Object, privileges: &Privileges) -> Result<(), EditError>
    ensures { HasPassed (spec.unknown_listed_columns c.now.items object.now privileges.now) result }
{
    match privileges {
        Privileges::All => Ok(()),
        Privileges::Listed(listed) => test_lists(c, object, listed),
    }
}

/// Refuses a grantee that doesn't stand.
fn test_grantee(c: &Catalogue, grantee: &Grantee) -> Result<(), EditError>
    ensures { HasPassed (spec.unknown_grantee c.now.items grantee.now ∷ []) result }
{
    match grantee {
        Grantee::Public => Ok(()),
        Grantee::Named(name) => test_authorization(c, name),
    }
}

/// Refuses the first grantee that doesn't stand.
fn test_grantees(c: &Catalogue, grantees: &Items<Grantee>) -> Result<(), EditError>
    ensures { HasPassed (map (spec.unknown_grantee c.now.items) grantees.now) result }
{
    for grantee in grantees.as_slice() {
        test_grantee(c, grantee)?;
    }
    Ok(())
}

/// Refuses the first name in reading order that doesn't stand: of the columns, then the target, then the grantees.
pub fn test_names(
    c: &Catalogue,
    object: &Object,
    privileges: &Privileges,
    kind: TargetKind,
    grantees: &Items<Grantee>,
) -> Result<(), EditError>
    ensures { HasPassed (spec.unknown_names_of_rights c.now.items object.now privileges.now kind grantees.now) result }
{
    test_columns(c, object, privileges)?;
    test_target(c, kind, object)?;
    test_grantees(c, grantees)
}
