//! Defaults of domains: SET DEFAULT and DROP DEFAULT.

ghost use Rattle.std.specs.Prelude.{◌≡◌, ◌∷◌, [], IfOk, Some};
ghost use Rattle.cat_items.specs.declared.item.Item.TheVariants as item;
ghost use Rattle.domain_edits.specs.AlteredDomains as altered;

use crate::names::domain_of;
use cat_items::{Catalogue, Domain, Edit, EditError, Item, Need, Refusal, Shared, Who};
use sql_tree::{Default, Items, Name, Object};
use statement_steps::Making;
use std::alloc::{AllocError, Global};
use table_parts::is_misfit;

pub fn copy_default(default: &Option<Default>) -> Result<Option<Default>, AllocError>
    ensures { IfOk result (λ copy. copy ≡ default.now) }
{
    match default {
        None => Ok(None),
        Some(default) => Ok(Some(default.copy()?)),
    }
}

/// The default that the domain of this name gets.
#[derive(Drop)]
pub struct NewDefault {
    pub domain: Object,
    pub default: Option<Default>,
}

/// The domain as it was, and no needs.
#[derive(Drop)]
pub struct OldDomain {
    pub old: Domain,
    pub none: Items<Need>,
}

/// The same domain with this default.
fn with_default(old: &Domain, default: &Option<Default>) -> Result<Domain, AllocError>
    ensures { IfOk result (λ new. new ≡ altered.with_default old.now default.now) }
{
    Ok(Domain {
        domain: old.domain.copy()?,
        sort: old.sort,
        default: copy_default(default)?,
    })
}

/// The edit that puts a domain in the place of another and does nothing else.
fn replacing(alloc: Global, old: Domain, new: Domain) -> Result<Edit, AllocError>
    ensures { IfOk result (λ edit. edit ≡ record { target = item.Domain old ∷ []; changed = []; added = item.Domain new ∷ [] }) }
{
    let mut target = Items::new(alloc);
    target.push(Item::Domain(Shared::new(alloc, old)?))?;
    let mut added = Items::new(alloc);
    added.push(Item::Domain(Shared::new(alloc, new)?))?;
    Ok(Edit {
        target,
        changed: Items::new(alloc),
        added,
    })
}

impl Making for NewDefault {
    ghost use Rattle.domain_edits.specs.AlteredDomains.{default_steps, domain_in};

    type Named = Domain;

    type Made = OldDomain;

    ghost steps = { λ s c who. default_steps c s.domain s.default };

    ghost naming = { λ s c who named. domain_in c s.domain ≡ Some named };

    ghost making = { λ s c who made. (domain_in c s.domain ≡ Some made.old) × (made.none ≡ []) };

    fn test_tree(&self, _alloc: Global, _c: &Catalogue, _who: &Who) -> Result<(), EditError> {
        Ok(())
    }

    fn names(&self, _alloc: Global, c: &Catalogue, _who: &Who) -> Result<Domain, EditError> {
        domain_of(c, &self.domain)
    }

    fn schema(&self, _c: &Catalogue, _who: &Who) -> &Name {
        &self.domain.schema
    }

    fn test_taken(&self, _alloc: Global, _c: &Catalogue, _who: &Who) -> Result<(), EditError> {
        Ok(())
    }

    fn rules(
        &self,
        alloc: Global,
        _c: &Catalogue,
        _who: &Who,
        named: Domain,
    ) -> Result<OldDomain, EditError> {
        if is_misfit(self.default.as_ref(), named.sort) {
            return Err(EditError::Refused(Refusal::TypeMismatch));
        }
        Ok(OldDomain {
            old: named,
            none: Items::new(alloc),
        })
    }

    fn needs<'b>(&self, _c: &Catalogue, _who: &Who, made: &'b OldDomain) -> &'b Items<Need> {
        &made.none
    }

    fn edit(
        &self,
        alloc: Global,
        _c: &Catalogue,
        _who: &Who,
        made: OldDomain,
    ) -> Result<Edit, AllocError> {
        let new = with_default(&made.old, &self.default)?;
        replacing(alloc, made.old, new)
    }
}
