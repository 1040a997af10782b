//! CREATE DOMAIN.

ghost use Rattle.std.specs.Prelude.{◌≡◌, ◌↔◌, Contains, IfOk};
ghost use Rattle.sql_tree.specs.declared.statement.Statement.TheVariants as statements;
ghost use Rattle.cat_items.specs.declared.need.Need.{Need as AnyNeed};
ghost use Rattle.cat_items.specs.Good.{IsGood};
ghost use Rattle.edit_rules.specs.First.{IsTested};
ghost use Rattle.edit_laws.specs.Sound.{IsSound};
ghost use Rattle.statement_forms.specs.Written.{IsWritten};
ghost use Rattle.domain_edits.specs.Checks as checks;
ghost use Rattle.domain_edits.specs.CreatedDomains as spec;
ghost use Rattle.domain_edits.specs.Found as found;
ghost use Rattle.domain_edits.specs.Made.{made_of};

use crate::checks::{all_found, has_none, needs_of, parts_of, put_checks};
use crate::defaults::copy_default;
use crate::names::test_new_domain;
use crate::new_domain::NewDomain;
use cat_items::{Catalogue, Domain, Edit, EditError, Item, Need, Refusal, Shared, Who};
use edit_rules::{object_in, put, test_schema};
use sql_tree::{CreateDomain, Items, Name};
use statement_steps::{Making, edit_of};
use std::alloc::{AllocError, Global};
use table_names::{given_names, name_constraints, test_new_constraints, test_repeated};
use table_parts::is_misfit;
use view_deps::ResolvedExpr;

/// What the conditions of its checks came to, and what they need.
#[derive(Drop)]
pub struct FoundChecks {
    pub all: Items<Option<ResolvedExpr>>,
    pub needs: Items<Need>,
}

/// The domain itself.
fn made_domain(new: &NewDomain<'_>) -> Result<Domain, AllocError>
    ensures { IfOk result (λ d. d ≡ made_of new.now) }
{
    Ok(Domain {
        domain: new.domain.copy()?,
        sort: new.sort,
        default: copy_default(new.default)?,
    })
}

impl<'a> Making for NewDomain<'a> {
    type Named = Items<Option<ResolvedExpr>>;

    type Made = FoundChecks;

    ghost steps = { λ d c who. spec.steps_of_domain c who (made_of d) d.checks.now };

    ghost naming = { λ d c who named. found.AreFound c who d.sort d.checks.now named };

    ghost making = { λ d c who made. found.AreFound c who d.sort d.checks.now made.all
        × ((need : AnyNeed) → Contains made.needs need ↔ checks.NeededByChecks c who d.sort d.checks.now need) };

    fn test_tree(&self, alloc: Global, c: &Catalogue, who: &Who) -> Result<(), EditError> {
        let _ = c;
        let _ = who;
        test_repeated(alloc, &self.domain, &self.parts)
    }

    fn names(
        &self,
        alloc: Global,
        c: &Catalogue,
        who: &Who,
    ) -> Result<Items<Option<ResolvedExpr>>, EditError> {
        test_schema(c, &self.domain.schema)?;
        all_found(alloc, c, who, self.sort, self.checks)
    }

    fn schema(&self, c: &Catalogue, who: &Who) -> &Name {
        let _ = c;
        let _ = who;
        &self.domain.schema
    }

    fn test_taken(&self, alloc: Global, c: &Catalogue, who: &Who) -> Result<(), EditError> {
        let _ = who;
        test_new_domain(c, &self.domain)?;
        let names = given_names(alloc, &self.parts)?;
        test_new_constraints(c, &self.domain.schema, &names)
    }

    fn rules(
        &self,
        alloc: Global,
        c: &Catalogue,
        who: &Who,
        named: Items<Option<ResolvedExpr>>,
    ) -> Result<FoundChecks, EditError> {
        let _ = c;
        let _ = who;
        if is_misfit(self.default.as_ref(), self.sort) {
            return Err(EditError::Refused(Refusal::TypeMismatch));
        }
        if has_none(&named) {
            return Err(EditError::Refused(Refusal::TypeMismatch));
        }
        let needs = needs_of(alloc, &named)?;
        Ok(FoundChecks { all: named, needs })
    }

    fn needs<'b>(&self, c: &Catalogue, who: &Who, made: &'b FoundChecks) -> &'b Items<Need> {
        let _ = c;
        let _ = who;
        &made.needs
    }

    fn edit(
        &self,
        alloc: Global,
        c: &Catalogue,
        who: &Who,
        made: FoundChecks,
    ) -> Result<Edit, AllocError> {
        let _ = who;
        let named = name_constraints(alloc, c, &self.domain.schema, &self.parts)?;
        let mut added = Catalogue::of_sorted(Vec::new(alloc));
        put(
            &mut added,
            Item::Domain(Shared::new(alloc, made_domain(self)?)?),
        )?;
        put_checks(alloc, &mut added, &self.domain, &named, &made.all)?;
        Ok(Edit {
            target: Items::new(alloc),
            changed: Items::new(alloc),
            added: Items::from_vec(added.into_items()),
        })
    }
}

/// What CREATE DOMAIN adds to a catalogue, or why it is refused (SQL:2003 part 2, 11.24): a check's name comes twice, a name that must stand
/// doesn't, the session doesn't act for the schema's owner, a name is taken, a default or a condition has another type, or the owner lacks a
/// privilege that a condition needs. `Memory` is want of memory.
pub fn create_domain(
    alloc: Global,
    c: &Catalogue,
    who: &Who,
    statement: &CreateDomain,
) -> Result<Edit, EditError>
    requires good { IsGood c.now.items }
    requires written { IsWritten (statements.CreateDomain statement.now) }
    ensures tested { IsTested (spec.create_domain_refusals c.now.items who.now statement.now) (spec.IsDomainCreation c.now.items who.now statement.now) result }
    ensures sound { IfOk result (IsSound c.now.items) }
{
    let made = NewDomain {
        domain: object_in(&who.schema, &statement.domain)?,
        sort: statement.sort,
        default: &statement.default,
        checks: &statement.checks,
        parts: parts_of(alloc, &statement.checks)?,
    };
    edit_of(alloc, c, who, &made)
}
