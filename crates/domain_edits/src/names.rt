//! Names of domains.

ghost use Rattle.std.specs.Prelude.{◌≡◌, ◌∷◌, [], IfNone, IfSome, Some};
ghost use Rattle.cat_items.specs.Good.{IsGood};
ghost use Rattle.cat_items.specs.Reach.{Has};
ghost use Rattle.cat_items.specs.Rights as rights;
ghost use Rattle.edit_rules.specs.First.{HasPassed, IsTested};
ghost use Rattle.table_elements.specs.Names.{unknown_domain};
ghost use Rattle.domain_edits.specs.AlteredDomains as altered;
ghost use Rattle.domain_edits.specs.CreatedDomains as created;

use cat_items::{Catalogue, Domain, EditError, Item, Part, Refusal, places};
use edit_rules::path_of;
use sql_tree::Object;
use table_elements::is_domain;

/// Refuses a name that a domain has.
pub fn test_new_domain(c: &Catalogue, domain: &Object) -> Result<(), EditError>
    ensures { HasPassed (created.domain_exists c.now.items domain.now ∷ []) result }
{
    if !is_domain(c, domain) {
        return Ok(());
    }
    let path = path_of(domain)?;
    Err(EditError::Refused(Refusal::NameExists { path }))
}

/// The domain of this name.
fn find_domain<'a>(c: &'a Catalogue, domain: &Object) -> Option<&'a Domain>
    requires { IsGood c.now.items }
    ensures found { IfSome result (λ d. altered.domain_in c.now.items domain.now ≡ Some d.now) }
    ensures none { IfNone result (¬ (Has c.now.items (rights.IsDomain (rights.path_of domain.now)))) }
{
    let all = places(c, Part::Domain(domain.into()));
    if all.is_empty() {
        return None;
    }
    match &c.items()[all.start] {
        Item::Domain(found) => Some(found.get()),
        _ => None,
    }
}

/// A copy of the domain of this name. Refuses a name that no domain has.
pub fn domain_of(c: &Catalogue, domain: &Object) -> Result<Domain, EditError>
    requires { IsGood c.now.items }
    ensures { IsTested (unknown_domain c.now.items domain.now ∷ []) (λ d. altered.domain_in c.now.items domain.now ≡ Some d) result }
{
    match find_domain(c, domain) {
        Some(found) => Ok(found.copy()?),
        None => {
            let path = path_of(domain)?;
            Err(EditError::Refused(Refusal::UnknownName { path }))
        }
    }
}
