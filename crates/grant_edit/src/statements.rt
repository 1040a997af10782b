//! GRANT and REVOKE of privileges.

ghost use Rattle.std.specs.Prelude.{◌↔◌, ◌∷◌, [], ◌≡◌, IfOk, IsTrue};
ghost use Rattle.std.specs.List.{Contains};
ghost use Rattle.cat_items.specs.declared.need.Need.{Need};
ghost use Rattle.cat_items.specs.Good.{IsGood};
ghost use Rattle.cat_items.specs.Rights.{path_of};
ghost use Rattle.edit_rules.specs.First.{IsTested};
ghost use Rattle.edit_laws.specs.Sound.{IsSound};
ghost use Rattle.grant_edit.specs.Grants.{IsGrantedBy, no_privilege_to_grant};
ghost use Rattle.grant_edit.specs.Named as names;
ghost use Rattle.grant_edit.specs.Statements as spec;

use crate::grants::{Granted, Granting, find_granted};
use crate::named::{named_privileges, refused};
use crate::revokes::Revoking;
use crate::rights::grants;
use crate::taking::identified;
use crate::targets::test_names;
use cat_items::{Catalogue, Edit, EditError, Item, Need, Refusal, Who};
use edit_rules::{grantor_of, object_in};
use sql_tree::{GrantPrivileges, Items, Name, Object, Privileges, RevokePrivileges, Statement};
use std::alloc::{AllocError, Global};

/// The edit that adds these items and does nothing else.
fn adding(alloc: Global, added: Vec<Item>) -> Edit
    ensures target { result.target ≡ [] }
    ensures changed { result.changed ≡ [] }
    ensures added { result.added ≡ added.items }
{
    Edit {
        target: Items::new(alloc),
        changed: Items::new(alloc),
        added: Items::from_vec(added),
    }
}

/// What a grantor grants of what is named. It is refused where that is nothing.
fn granted_of(
    alloc: Global,
    c: &Catalogue,
    grantor: &Name,
    object: &Object,
    named: &Vec<Need>,
) -> Result<Granted, EditError>
    requires { (need : Need) → Contains named.now.items need → need.on ≡ path_of object.now }
    ensures { IsTested (no_privilege_to_grant c.now.items grantor.now named.now.items ∷ []) (IsGrantedBy c.now.items grantor.now object.now named.now.items) result }
{
    let granted = find_granted(alloc, c, grantor, object, named)?;
    match refused(named, &granted.needs) {
        None => Ok(granted),
        Some(need) => {
            let need = need.copy()?;
            Err(EditError::Refused(Refusal::NoPrivilege { need }))
        }
    }
}

/// Whether less is granted than is listed.
fn is_partial(all: bool, privileges: &Privileges) -> bool
    ensures { result ≡ names.grants_less_than_listed all privileges.now }
{
    match privileges {
        Privileges::All => false,
        Privileges::Listed(_) => !all,
    }
}

/// What a grantor grants on an object, where the names of the statement stand.
fn grant_by(
    alloc: Global,
    c: &Catalogue,
    grantor: &Name,
    object: &Object,
    parts: &GrantPrivileges,
) -> Result<Granting, EditError>
    ensures tested { IsTested (no_privilege_to_grant c.now.items grantor.now (names.named_privileges parts.now.target.kind object.now parts.now.privileges) ∷ []) (spec.GrantsBy c.now.items grantor.now object.now parts.now) result }
    ensures sound { IsGood c.now.items → IfOk result (λ granting. IsSound c.now.items granting.edit) }
{
    let named = named_privileges(alloc, parts.target.kind, object, &parts.privileges)?;
    let granted = granted_of(alloc, c, grantor, object, &named)?;
    let partial = is_partial(granted.all, &parts.privileges);
    let added = grants(
        alloc,
        &granted.needs,
        grantor,
        &parts.grantees,
        parts.grant_option,
    )?;
    let edit = adding(alloc, added);
    Ok(Granting { edit, partial })
}

/// GRANT of privileges.
pub fn grant(
    alloc: Global,
    c: &Catalogue,
    who: &Who,
    parts: &GrantPrivileges,
) -> Result<Granting, EditError>
    ensures tested { IsTested (spec.granting_refusals c.now.items who.now parts.now) (spec.Grants c.now.items who.now parts.now) result }
    ensures sound { IsGood c.now.items → IfOk result (λ granting. IsSound c.now.items granting.edit) }
{
    let target = &parts.target;
    let object = object_in(&who.schema, &target.object)?;
    test_names(c, &object, &parts.privileges, target.kind, &parts.grantees)?;
    let grantor = grantor_of(alloc, c, who, parts.grantor)?;
    grant_by(alloc, c, &grantor, &object, parts)
}

/// What a grantor revokes on an object, where the names of the statement stand.
fn revoke_by(
    alloc: Global,
    c: &Catalogue,
    grantor: &Name,
    object: &Object,
    parts: &RevokePrivileges,
) -> Result<Edit, AllocError>
    ensures revoked { IfOk result (spec.RevokesBy c.now.items grantor.now object.now parts.now) }
    ensures sound { IsGood c.now.items → IfOk result (IsSound c.now.items) }
{
    let named = named_privileges(alloc, parts.target.kind, object, &parts.privileges)?;
    let revoking = Revoking {
        object,
        named: &named,
        grantor,
        grantees: &parts.grantees,
        option_alone: parts.option_alone,
    };
    Ok(Edit {
        target: identified(alloc, c, revoking)?,
        changed: Items::new(alloc),
        added: Items::new(alloc),
    })
}

/// REVOKE of privileges.
pub fn revoke(
    alloc: Global,
    c: &Catalogue,
    who: &Who,
    parts: &RevokePrivileges,
) -> Result<Edit, EditError>
    ensures tested { IsTested (spec.revoking_refusals c.now.items who.now parts.now) (spec.Revokes c.now.items who.now parts.now) result }
    ensures sound { IsGood c.now.items → IfOk result (IsSound c.now.items) }
{
    let target = &parts.target;
    let object = object_in(&who.schema, &target.object)?;
    test_names(c, &object, &parts.privileges, target.kind, &parts.grantees)?;
    let grantor = grantor_of(alloc, c, who, parts.grantor)?;
    Ok(revoke_by(alloc, c, &grantor, &object, parts)?)
}

/// The edit of GRANT of privileges, or why it is refused (SQL:2003 part 2, 12.2). `Memory` is want of memory.
///
/// Each grantee is granted what is named and can be granted: that of which a grant option stands whose grantee
/// the grantor reaches. With SELECT, INSERT, UPDATE and REFERENCES on a whole table or view go those on its
/// columns that can be granted too. A column, the object, a grantee or the current role may not be there; where nothing
/// can be granted the least privilege that is named is told.
pub fn edit_grant(
    alloc: Global,
    c: &Catalogue,
    who: &Who,
    statement: &Statement,
) -> Result<Granting, EditError>
    requires good { IsGood c.now.items }
    requires kind { spec.IsGrantStatement statement.now }
    ensures tested { IsTested (spec.grant_refusals c.now.items who.now statement.now) (spec.IsGranting c.now.items who.now statement.now) result }
    ensures sound { IfOk result (λ granting. IsSound c.now.items granting.edit) }
{
    match statement {
        Statement::GrantPrivileges(parts) => grant(alloc, c, who, parts),
        _ => unreachable!(),
    }
}

/// The edit of REVOKE of privileges, or why it is refused (SQL:2003 part 2, 12.7). `Memory` is want of memory.
///
/// Its target is what the grantor granted to the grantees of what is named: with a column list the privileges on
/// those columns, else those on the object and on all its columns.
pub fn edit_revoke(
    alloc: Global,
    c: &Catalogue,
    who: &Who,
    statement: &Statement,
) -> Result<Edit, EditError>
    requires good { IsGood c.now.items }
    requires kind { spec.IsRevokeStatement statement.now }
    ensures tested { IsTested (spec.revoke_refusals c.now.items who.now statement.now) (spec.IsRevocation c.now.items who.now statement.now) result }
    ensures sound { IfOk result (IsSound c.now.items) }
{
    match statement {
        Statement::RevokePrivileges(parts) => revoke(alloc, c, who, parts),
        _ => unreachable!(),
    }
}
