//! ALTER DOMAIN.

ghost use Rattle.std.specs.Prelude.{◌≡◌, ◌∷◌, [], IfOk, None, Some};
ghost use Rattle.sql_tree.specs.declared.statement.Statement.TheVariants as statements;
ghost use Rattle.cat_items.specs.Good.{IsGood};
ghost use Rattle.edit_rules.specs.First.{IsTested};
ghost use Rattle.edit_laws.specs.Sound.{IsSound};
ghost use Rattle.statement_forms.specs.Written.{IsWritten};
ghost use Rattle.statement_steps.specs.Steps.{refusals_of};
ghost use Rattle.table_work.specs.Keys.{beside};
ghost use Rattle.domain_edits.specs.AlteredDomains as spec;

use crate::added_check::AddedCheck;
use crate::checks::parts_of;
use crate::defaults::NewDefault;
use crate::dropping::DroppedCheck;
use cat_items::{Catalogue, Edit, EditError, Who};
use edit_rules::object_in;
use sql_tree::{AlterDomain, AlterDomainAction, Default, DomainCheck, Items, Name, Object};
use statement_steps::edit_of;
use std::alloc::{AllocError, Global};

/// A check that is to be added.
fn added_check(alloc: Global, domain: Object, check: &DomainCheck) -> Result<AddedCheck, AllocError>
    ensures domain { IfOk result (λ added. added.domain ≡ domain) }
    ensures checks { IfOk result (λ added. added.checks ≡ check.now ∷ []) }
{
    let mut checks = Items::new(alloc);
    checks.push(check.copy(alloc)?)?;
    let parts = parts_of(alloc, &checks)?;
    Ok(AddedCheck {
        domain,
        checks,
        parts,
    })
}

/// A check that is to be dropped: it stands in the schema of its domain.
fn dropped_check(domain: Object, name: &Name) -> Result<DroppedCheck, AllocError>
    ensures { IfOk result (λ dropped. dropped ≡ record { domain = domain; name = beside domain name.now }) }
{
    let name = Object {
        schema: domain.schema.copy()?,
        name: name.copy()?,
    };
    Ok(DroppedCheck { domain, name })
}

fn set_default(
    alloc: Global,
    c: &Catalogue,
    who: &Who,
    domain: Object,
    default: &Default,
) -> Result<Edit, EditError>
    requires { IsGood c.now.items }
    ensures { IsTested (refusals_of c.now.items who.now (spec.default_steps c.now.items domain (Some default.now))) (spec.default_steps c.now.items domain (Some default.now)).edit result }
{
    let default = Some(default.copy()?);
    edit_of(alloc, c, who, &NewDefault { domain, default })
}

fn drop_default(alloc: Global, c: &Catalogue, who: &Who, domain: Object) -> Result<Edit, EditError>
    requires { IsGood c.now.items }
    ensures { IsTested (refusals_of c.now.items who.now (spec.default_steps c.now.items domain None)) (spec.default_steps c.now.items domain None).edit result }
{
    let new = NewDefault {
        domain,
        default: None,
    };
    edit_of(alloc, c, who, &new)
}

fn add_check(
    alloc: Global,
    c: &Catalogue,
    who: &Who,
    domain: Object,
    check: &DomainCheck,
) -> Result<Edit, EditError>
    requires { IsGood c.now.items }
    ensures { IsTested (refusals_of c.now.items who.now (spec.check_steps c.now.items who.now domain (check.now ∷ []))) (spec.check_steps c.now.items who.now domain (check.now ∷ [])).edit result }
{
    let added = added_check(alloc, domain, check)?;
    edit_of(alloc, c, who, &added)
}

fn drop_check(
    alloc: Global,
    c: &Catalogue,
    who: &Who,
    domain: Object,
    name: &Name,
) -> Result<Edit, EditError>
    requires { IsGood c.now.items }
    ensures { IsTested (refusals_of c.now.items who.now (spec.drop_steps c.now.items domain (beside domain name.now))) (spec.drop_steps c.now.items domain (beside domain name.now)).edit result }
{
    let dropped = dropped_check(domain, name)?;
    edit_of(alloc, c, who, &dropped)
}

/// What an action makes of the domain of this name.
fn alter(
    alloc: Global,
    c: &Catalogue,
    who: &Who,
    domain: Object,
    action: &AlterDomainAction,
) -> Result<Edit, EditError>
    requires { IsGood c.now.items }
    ensures { IsTested (refusals_of c.now.items who.now (spec.alteration_steps c.now.items who.now domain action.now)) (spec.alteration_steps c.now.items who.now domain action.now).edit result }
{
    match action {
        AlterDomainAction::SetDefault(default) => set_default(alloc, c, who, domain, default),
        AlterDomainAction::DropDefault => drop_default(alloc, c, who, domain),
        AlterDomainAction::AddCheck(check) => add_check(alloc, c, who, domain, check),
        AlterDomainAction::DropConstraint(name) => drop_check(alloc, c, who, domain, name),
    }
}

/// What ALTER DOMAIN makes of a catalogue, or why it is refused (SQL:2003 part 2, 11.25 to 11.29): no domain has the name, a name in the
/// condition of a check that is added doesn't stand or no check of the domain has the name that is dropped, the session doesn't act for the
/// schema's owner, the name of a check is taken, a default or a condition has another type, or the owner lacks a privilege that a condition
/// needs. Columns that are based on the domain stay as they are. `Memory` is want of memory.
pub fn alter_domain(
    alloc: Global,
    c: &Catalogue,
    who: &Who,
    statement: &AlterDomain,
) -> Result<Edit, EditError>
    requires good { IsGood c.now.items }
    requires written { IsWritten (statements.AlterDomain statement.now) }
    ensures tested { IsTested (spec.alter_domain_refusals c.now.items who.now statement.now) (spec.IsDomainAlteration c.now.items who.now statement.now) result }
    ensures sound { IfOk result (IsSound c.now.items) }
{
    let domain = object_in(&who.schema, &statement.domain)?;
    alter(alloc, c, who, domain, &statement.action)
}
