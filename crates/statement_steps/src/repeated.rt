//! Names that may not come twice.

ghost use Rattle.std.specs.Prelude.{◌↔◌, ◌≢◌, ◌∷◌, [], Contains, IfNone, IfSome, IsTrue, OnOk};
ghost use Rattle.std.specs.List.{AllPairs};
ghost use Rattle.edit_rules.specs.First.{HasPassed};
ghost use Rattle.statement_steps.specs.Repeated as spec;

use cat_items::{EditError, Refusal};
use sql_tree::{Items, Name, Path};

/// Whether a name is among these.
fn is_among(names: &[Name], name: &Name) -> bool
    ensures { IsTrue result ↔ Contains names.now name.now }
{
    names.iter().any(|other| other.bytes() == name.bytes())
}

/// The first name that equals an earlier one.
fn first_again(names: &Items<Name>) -> Option<&Name>
    ensures found { IfSome result (λ name. spec.IsFirstAgain names.now name.now) }
    ensures none { IfNone result (AllPairs (λ a b. a ≢ b) names.now) }
{
    let names = names.as_slice();
    for at in 0..names.len() {
        let name = &names[at];
        if is_among(&names[..at], name) {
            return Some(name);
        }
    }
    None
}

/// Refuses a list in which a name comes twice: `Repeated` of that name, the first by its second place. `Memory` is want of memory. It
/// compares each name with those before it.
pub fn test_names_differ(names: &Items<Name>) -> Result<(), EditError>
    ensures tested { HasPassed (spec.repeated_name names.now ∷ []) result }
    ensures differ { OnOk result (AllPairs (λ a b. a ≢ b) names.now) }
{
    match first_again(names) {
        None => Ok(()),
        Some(name) => {
            let path = Path::one(name.copy()?);
            Err(EditError::Refused(Refusal::Repeated { path }))
        }
    }
}
