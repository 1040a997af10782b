//! The privileges that a statement names, and to whom.

ghost use Rattle.std.specs.Prelude.{◌≡◌, ◌∷◌, ◌++◌, [], map, IfOk, OnOk};
ghost use Rattle.std.specs.Option.{option_copied};
ghost use Rattle.std.specs.List.{flat_map};
ghost use Rattle.sql_tree.specs.declared.rights.Action.{Action};
ghost use Rattle.sql_tree.specs.declared.rights.Privilege.{Privilege};
ghost use Rattle.sql_tree.specs.declared.rights.TargetKind.TheVariants as kinds;
ghost use Rattle.cat_items.specs.Needs.{column_need, object_need};
ghost use Rattle.grant_edit.specs.Named as spec;

use cat_items::{Auth, Need};
use edit_rules::{is_behind, path_of};
use sql_tree::{Action, Grantee, Items, Name, Object, Privilege, Privileges, TargetKind};
use std::alloc::{AllocError, Global};

/// The privilege on a whole object.
fn on_object(action: Action, object: &Object) -> Result<Need, AllocError>
    ensures { IfOk result (λ need. need ≡ object_need action object.now) }
{
    Ok(Need {
        action,
        on: path_of(object)?,
        column: None,
    })
}

/// The privilege on a column.
pub fn on_column(action: Action, object: &Object, name: &Name) -> Result<Need, AllocError>
    ensures { IfOk result (λ need. need ≡ column_need action object.now name.now) }
{
    Ok(Need {
        action,
        on: path_of(object)?,
        column: Some(name.copy()?),
    })
}

/// The privileges on the columns of a list.
fn push_columns(
    needs: &mut Vec<Need>,
    action: Action,
    object: &Object,
    names: &Items<Name>,
) -> Result<(), AllocError>
    ensures { OnOk result (needs.new.items ≡ needs.old.items ++ map (column_need action object.now) names.now) }
{
    for name in names.as_slice() {
        needs.push(on_column(action, object, name)?)?;
    }
    Ok(())
}

/// The privileges that an action names, with its column list or none.
fn push_privilege(
    needs: &mut Vec<Need>,
    object: &Object,
    privilege: &Privilege,
) -> Result<(), AllocError>
    ensures { OnOk result (needs.new.items ≡ needs.old.items ++ spec.privilege_on object.now privilege.now.action privilege.now.columns) }
{
    if privilege.columns.is_empty() {
        needs.push(on_object(privilege.action, object)?)?;
        return Ok(());
    }
    push_columns(needs, privilege.action, object, &privilege.columns)
}

/// The privileges that a list names.
fn listed(alloc: Global, object: &Object, all: &Items<Privilege>) -> Result<Vec<Need>, AllocError>
    ensures { IfOk result (λ needs. needs.items ≡ flat_map (λ (p : Privilege). spec.privilege_on object.now p.action p.columns) all.now) }
{
    let mut needs = Vec::new(alloc);
    for privilege in all.as_slice() {
        push_privilege(&mut needs, object, privilege)?;
    }
    Ok(needs)
}

/// All privileges on a table or a view.
fn all_on_table(alloc: Global, object: &Object) -> Result<Vec<Need>, AllocError>
    ensures { IfOk result (λ needs. needs.items ≡ map (λ (a : Action). object_need a object.now) (spec.actions_on kinds.Table)) }
{
    let mut needs = Vec::new(alloc);
    needs.push(on_object(Action::Select, object)?)?;
    needs.push(on_object(Action::Insert, object)?)?;
    needs.push(on_object(Action::Update, object)?)?;
    needs.push(on_object(Action::Delete, object)?)?;
    needs.push(on_object(Action::References, object)?)?;
    Ok(needs)
}

/// The one privilege on an object of another kind.
fn all_on_other(alloc: Global, action: Action, object: &Object) -> Result<Vec<Need>, AllocError>
    ensures { IfOk result (λ needs. needs.items ≡ object_need action object.now ∷ []) }
{
    let mut needs = Vec::new(alloc);
    needs.push(on_object(action, object)?)?;
    Ok(needs)
}

/// What ALL PRIVILEGES names.
fn all_on(alloc: Global, kind: TargetKind, object: &Object) -> Result<Vec<Need>, AllocError>
    ensures { IfOk result (λ needs. needs.items ≡ map (λ (a : Action). object_need a object.now) (spec.actions_on kind)) }
{
    match kind {
        TargetKind::Table => all_on_table(alloc, object),
        TargetKind::Domain => all_on_other(alloc, Action::Usage, object),
        TargetKind::Function | TargetKind::Procedure | TargetKind::Routine => {
            all_on_other(alloc, Action::Execute, object)
        }
    }
}

/// The privileges that are named on an object of this kind.
pub fn named_privileges(
    alloc: Global,
    kind: TargetKind,
    object: &Object,
    privileges: &Privileges,
) -> Result<Vec<Need>, AllocError>
    ensures { IfOk result (λ needs. needs.items ≡ spec.named_privileges kind object.now privileges.now) }
{
    match privileges {
        Privileges::All => all_on(alloc, kind, object),
        Privileges::Listed(all) => listed(alloc, object, all),
    }
}

/// The least of these needs.
fn least(needs: &Vec<Need>) -> Option<&Need>
    ensures { spec.IsLeastOf needs.now.items (option_copied result) }
{
    let mut least = None;
    for need in needs {
        if !is_behind(least, need) {
            least = Some(need);
        }
    }
    least
}

/// The least of what is named, where nothing of it is granted.
pub fn refused<'a>(named: &'a Vec<Need>, granted: &Vec<Need>) -> Option<&'a Need>
    ensures { spec.IsRefused named.now.items granted.now.items (option_copied result) }
{
    if granted.as_slice().is_empty() {
        least(named)
    } else {
        None
    }
}

/// To whom a grantee's privileges are.
pub fn auth_of(grantee: &Grantee) -> Result<Auth, AllocError>
    ensures { IfOk result (λ auth. auth ≡ spec.grantee_auth grantee.now) }
{
    match grantee {
        Grantee::Public => Ok(Auth::Public),
        Grantee::Named(name) => Ok(Auth::Named(name.copy()?)),
    }
}
