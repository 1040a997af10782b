//! ADD of a check.

ghost use Rattle.std.specs.Prelude.{◌↔◌, Contains};
ghost use Rattle.cat_items.specs.declared.need.Need.{Need as AnyNeed};
ghost use Rattle.domain_edits.specs.AlteredDomains as spec;
ghost use Rattle.domain_edits.specs.Checks as checks;
ghost use Rattle.domain_edits.specs.Found as found;

use crate::added_check::AddedCheck;
use crate::checks::{all_found, has_none, needs_of, put_checks};
use crate::creating::FoundChecks;
use crate::names::domain_of;
use cat_items::{Catalogue, Edit, EditError, Need, Refusal, Who};
use sql_tree::{Items, Name};
use statement_steps::Making;
use std::alloc::{AllocError, Global};
use table_names::{given_names, name_constraints, test_new_constraints};
use view_deps::ResolvedExpr;

impl Making for AddedCheck {
    type Named = Items<Option<ResolvedExpr>>;

    type Made = FoundChecks;

    ghost steps = { λ s c who. spec.check_steps c who s.domain s.checks };

    ghost naming = { λ s c who named. spec.WhereItStands (spec.domain_in c s.domain) (λ d. found.AreFound c who d.sort s.checks named) };

    ghost making = { λ s c who made. spec.WhereItStands (spec.domain_in c s.domain) (λ d. found.AreFound c who d.sort s.checks made.all
        × ((need : AnyNeed) → Contains made.needs need ↔ checks.NeededByChecks c who d.sort s.checks need)) };

    fn test_tree(&self, _alloc: Global, _c: &Catalogue, _who: &Who) -> Result<(), EditError> {
        Ok(())
    }

    fn names(
        &self,
        alloc: Global,
        c: &Catalogue,
        who: &Who,
    ) -> Result<Items<Option<ResolvedExpr>>, EditError> {
        let domain = domain_of(c, &self.domain)?;
        all_found(alloc, c, who, domain.sort, &self.checks)
    }

    fn schema(&self, _c: &Catalogue, _who: &Who) -> &Name {
        &self.domain.schema
    }

    fn test_taken(&self, alloc: Global, c: &Catalogue, _who: &Who) -> Result<(), EditError> {
        let names = given_names(alloc, &self.parts)?;
        test_new_constraints(c, &self.domain.schema, &names)
    }

    fn rules(
        &self,
        alloc: Global,
        _c: &Catalogue,
        _who: &Who,
        named: Items<Option<ResolvedExpr>>,
    ) -> Result<FoundChecks, EditError> {
        if has_none(&named) {
            return Err(EditError::Refused(Refusal::TypeMismatch));
        }
        let needs = needs_of(alloc, &named)?;
        Ok(FoundChecks { all: named, needs })
    }

    fn needs<'b>(&self, _c: &Catalogue, _who: &Who, made: &'b FoundChecks) -> &'b Items<Need> {
        &made.needs
    }

    fn edit(
        &self,
        alloc: Global,
        c: &Catalogue,
        _who: &Who,
        made: FoundChecks,
    ) -> Result<Edit, AllocError> {
        let named = name_constraints(alloc, c, &self.domain.schema, &self.parts)?;
        let mut added = Catalogue::of_sorted(Vec::new(alloc));
        put_checks(alloc, &mut added, &self.domain, &named, &made.all)?;
        Ok(Edit {
            target: Items::new(alloc),
            changed: Items::new(alloc),
            added: Items::from_vec(added.into_items()),
        })
    }
}
