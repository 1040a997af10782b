//! The edit of a statement.

ghost use Rattle.std.specs.Prelude.{◌≡◌, IfOk, IsTrue, None, [], true};
ghost use Rattle.cat_items.specs.Good.{IsGood};
ghost use Rattle.statement_forms.specs.Written.{IsWritten};
ghost use Rattle.edit_rules.specs.First.{IsTested};
ghost use Rattle.edit_laws.specs.Sound.{IsSound};
ghost use Rattle.catalogue_edits.specs.Kinds as kinds;
ghost use Rattle.catalogue_edits.specs.Statements.{IsBuiltEdit, IsPlanned, edit_refusals};
ghost use Rattle.catalogue_edits.specs.Warnings.{WarnsWhere};
ghost use Rattle.catalogue_edits.specs.declared.warning.Warning.TheVariants.{NotGranted, NotRevoked};

use crate::warning::Warning;
use assertion_edit::create_assertion;
use cat_items::{Catalogue, Edit, EditError, Who};
use define_edit::create_schema;
use domain_drop::{drop_domain, drop_schema};
use domain_edits::{alter_domain, create_domain};
use drop_edit::{drop_object, drop_role};
use grant_edit::{Granting, grant, revoke};
use object_edits::create_view;
use role_edit::{create_role, grant_roles, revoke_roles};
use routine_edit::{create_function, create_procedure};
use sql_tree::{AlterTableAction, Behaviour, DropKind, DropObject, Statement};
use std::alloc::Global;
use table_additions::{alter_table, create_table};

/// An edit, what the statement that makes it warns of, and whether the statement has the behaviour RESTRICT: then
/// whether its refusal is that of REVOKE and DROP ROLE.
#[derive(Drop)]
pub struct Plan {
    pub edit: Edit,
    pub warning: Option<Warning>,
    pub restrict: Option<bool>,
}

/// An edit without a warning.
fn silent(edit: Edit, restrict: Option<bool>) -> Plan
    ensures { result ≡ record { edit = edit; warning = None; restrict = restrict } }
{
    Plan {
        edit,
        warning: None,
        restrict,
    }
}

/// `Some` where the behaviour is RESTRICT.
fn where_restrict(behaviour: Behaviour, by_rights: bool) -> Option<bool>
    ensures { result ≡ kinds.where_restrict behaviour by_rights }
{
    match behaviour {
        Behaviour::Restrict => Some(by_rights),
        Behaviour::Cascade => None,
    }
}

/// The edit of REVOKE, which warns where it takes nothing.
fn revoking(edit: Edit, behaviour: Behaviour) -> Plan
    ensures edit { result.edit ≡ edit }
    ensures warning { WarnsWhere (edit.target ≡ []) NotRevoked result.warning }
    ensures restrict { result.restrict ≡ kinds.where_restrict behaviour true }
{
    let warning = match edit.target.is_empty() {
        true => Some(Warning::NotRevoked),
        false => None,
    };
    Plan {
        edit,
        warning,
        restrict: where_restrict(behaviour, true),
    }
}

/// The edit of GRANT, which warns where less is granted than is listed.
fn granting(granting: Granting) -> Plan
    ensures edit { result.edit ≡ granting.edit }
    ensures warning { WarnsWhere (IsTrue granting.partial) NotGranted result.warning }
    ensures restrict { result.restrict ≡ None }
{
    let warning = match granting.partial {
        true => Some(Warning::NotGranted),
        false => None,
    };
    Plan {
        edit: granting.edit,
        warning,
        restrict: None,
    }
}

/// The edit of a DROP of an object.
fn dropped(alloc: Global, c: &Catalogue, who: &Who, parts: &DropObject) -> Result<Edit, EditError>
    requires { IsGood c.now.items }
    ensures tested { IsTested ((kinds.drop_kind parts.now.behaviour parts.now.kind parts.now.object).refusals c.now.items who.now)
        ((kinds.drop_kind parts.now.behaviour parts.now.kind parts.now.object).makes c.now.items who.now) result }
    ensures sound { IfOk result (IsSound c.now.items) }
{
    match parts.kind {
        DropKind::Domain => drop_domain(alloc, c, who, &parts.object),
        kind => drop_object(alloc, c, who, kind, &parts.object),
    }
}

/// The plan of a DROP of an object.
fn dropping(alloc: Global, c: &Catalogue, who: &Who, parts: &DropObject) -> Result<Plan, EditError>
    requires { IsGood c.now.items }
    ensures planned { IsTested ((kinds.drop_kind parts.now.behaviour parts.now.kind parts.now.object).refusals c.now.items who.now)
        (IsPlanned (kinds.drop_kind parts.now.behaviour parts.now.kind parts.now.object) c.now.items who.now) result }
    ensures sound { IfOk result (λ plan. IsSound c.now.items plan.edit) }
{
    let restrict = where_restrict(parts.behaviour, false);
    Ok(silent(dropped(alloc, c, who, parts)?, restrict))
}

/// The behaviour of ALTER TABLE, where it drops.
fn restrict_of(action: &AlterTableAction) -> Option<bool>
    ensures { result ≡ kinds.restricts_of action.now }
{
    match action {
        AlterTableAction::DropColumn { behaviour, .. }
        | AlterTableAction::DropConstraint { behaviour, .. } => where_restrict(*behaviour, false),
        _ => None,
    }
}

/// What a statement does to a catalogue by itself, or the first of its refusals by the catalogue as it is (SQL:2003 part 2, 11 and 12):
/// what RESTRICT and the limits refuse is `revise`'s to tell. `Memory` is want of memory. The catalogue stays as it is.
#[tactic(auto, unfolding(crate::specs::Kinds::kind_of))]
pub fn plan_of(
    alloc: Global,
    c: &Catalogue,
    who: &Who,
    statement: &Statement,
) -> Result<Plan, EditError>
    requires good { IsGood c.now.items }
    requires built { IsBuiltEdit statement.now }
    requires written { IsWritten statement.now }
    ensures planned { IsTested (edit_refusals c.now.items who.now statement.now) (IsPlanned (kinds.kind_of statement.now) c.now.items who.now) result }
    ensures sound { IfOk result (λ plan. IsSound c.now.items plan.edit) }
{
    match statement {
        Statement::CreateSchema(parts) => {
            Ok(silent(create_schema(alloc, c, who, &parts.schema)?, None))
        }
        Statement::CreateTable(parts) => Ok(silent(create_table(alloc, c, who, parts)?, None)),
        Statement::CreateView(parts) => Ok(silent(create_view(alloc, c, who, parts)?, None)),
        Statement::CreateDomain(parts) => Ok(silent(create_domain(alloc, c, who, parts)?, None)),
        Statement::CreateAssertion(parts) => Ok(silent(
            create_assertion(alloc, c, who, parts)?,
            None,
        )),
        Statement::AlterDomain(parts) => Ok(silent(alter_domain(alloc, c, who, parts)?, None)),
        Statement::CreateFunction(parts) => Ok(silent(
            create_function(alloc, c, who, parts)?,
            None,
        )),
        Statement::CreateProcedure(parts) => Ok(silent(
            create_procedure(alloc, c, who, parts)?,
            None,
        )),
        Statement::AlterTable(parts) => {
            let restrict = restrict_of(&parts.action);
            Ok(silent(alter_table(alloc, c, who, parts)?, restrict))
        }
        Statement::DropSchema { schema, behaviour } => {
            let restrict = where_restrict(*behaviour, false);
            Ok(silent(drop_schema(alloc, c, who, schema)?, restrict))
        }
        Statement::DropObject(parts) => dropping(alloc, c, who, parts),
        Statement::CreateRole(parts) => Ok(silent(create_role(alloc, c, who, parts)?, None)),
        Statement::DropRole(role) => Ok(silent(drop_role(alloc, c, who, role)?, Some(true))),
        Statement::GrantRoles(parts) => Ok(silent(grant_roles(alloc, c, who, parts)?, None)),
        Statement::RevokeRoles(parts) => {
            Ok(revoking(revoke_roles(alloc, c, who, parts)?, parts.behaviour))
        }
        Statement::GrantPrivileges(parts) => Ok(granting(grant(alloc, c, who, parts)?)),
        Statement::RevokePrivileges(parts) => {
            Ok(revoking(revoke(alloc, c, who, parts)?, parts.behaviour))
        }
        _ => unreachable!(),
    }
}
