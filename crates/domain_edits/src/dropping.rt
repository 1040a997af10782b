//! DROP CONSTRAINT of a domain.

ghost use Rattle.std.specs.Prelude.{◌≡◌, ◌↔◌, ◌∷◌, [], IfOk, IsTrue};
ghost use Rattle.edit_rules.specs.Chosen.{AreChosen};
ghost use Rattle.edit_rules.specs.First.{IsTested};
ghost use Rattle.domain_edits.specs.AlteredDomains as spec;

use cat_items::{Catalogue, Edit, EditError, Item, Need, ObjectKind, Part, Refusal, Who};
use chosen_parts::chosen_in;
use edit_rules::{Chooses, path_of};
use sql_tree::{Items, Name, Object};
use statement_steps::Making;
use std::alloc::{AllocError, Global};
use table_elements::test_domain;

/// A check of the domain of this name, and the check's name.
#[derive(Drop)]
pub struct DroppedCheck {
    pub domain: Object,
    pub name: Object,
}

/// The check, and no needs.
#[derive(Drop)]
pub struct OldCheck {
    pub checks: Items<Item>,
    pub none: Items<Need>,
}

impl Chooses for DroppedCheck {
    ghost use Rattle.domain_edits.specs.AlteredDomains.{IsCheckNamed};

    ghost fits = { λ t x. IsCheckNamed t.domain t.name x };

    fn chooses(&self, x: &Item) -> bool {
        match x {
            Item::DomainCheck(check) => {
                let check = check.get();
                check.domain.same(&self.domain) && check.name.same(&self.name)
            }
            _ => false,
        }
    }
}

/// The check of this name, looked for among the checks of domains in the name's schema alone. Refuses a name that no check of the domain has.
fn check_of(alloc: Global, c: &Catalogue, dropped: &DroppedCheck) -> Result<Items<Item>, EditError>
    ensures { IsTested (spec.unknown_check c.now.items dropped.now.domain dropped.now.name ∷ []) (AreChosen c.now.items (spec.IsCheckNamed dropped.now.domain dropped.now.name)) result }
{
    let parts = [Part::Objects(ObjectKind::DomainCheck, &dropped.name.schema)];
    let checks = chosen_in(alloc, c, &parts, dropped)?;
    if checks.is_empty() {
        let path = path_of(&dropped.name)?;
        return Err(EditError::Refused(Refusal::UnknownName { path }));
    }
    Ok(checks)
}

impl Making for DroppedCheck {
    type Named = Items<Item>;

    type Made = OldCheck;

    ghost steps = { λ s c who. spec.drop_steps c s.domain s.name };

    ghost naming = { λ s c who named. AreChosen c (spec.IsCheckNamed s.domain s.name) named };

    ghost making = { λ s c who made. AreChosen c (spec.IsCheckNamed s.domain s.name) made.checks × (made.none ≡ []) };

    fn test_tree(&self, _alloc: Global, _c: &Catalogue, _who: &Who) -> Result<(), EditError> {
        Ok(())
    }

    fn names(&self, alloc: Global, c: &Catalogue, _who: &Who) -> Result<Items<Item>, EditError> {
        test_domain(c, &self.domain)?;
        check_of(alloc, c, self)
    }

    fn schema(&self, _c: &Catalogue, _who: &Who) -> &Name {
        &self.domain.schema
    }

    fn test_taken(&self, _alloc: Global, _c: &Catalogue, _who: &Who) -> Result<(), EditError> {
        Ok(())
    }

    fn rules(
        &self,
        alloc: Global,
        _c: &Catalogue,
        _who: &Who,
        named: Items<Item>,
    ) -> Result<OldCheck, EditError> {
        Ok(OldCheck {
            checks: named,
            none: Items::new(alloc),
        })
    }

    fn needs<'b>(&self, _c: &Catalogue, _who: &Who, made: &'b OldCheck) -> &'b Items<Need> {
        &made.none
    }

    fn edit(
        &self,
        alloc: Global,
        _c: &Catalogue,
        _who: &Who,
        made: OldCheck,
    ) -> Result<Edit, AllocError> {
        Ok(Edit {
            target: made.checks,
            changed: Items::new(alloc),
            added: Items::new(alloc),
        })
    }
}
