//! What users and roles granted: roles, rights, and options of these.

ghost use Rattle.std.specs.Prelude.{◌≡◌, ◌≢◌, ℕ, List, IfNone, IfSome};
ghost use Rattle.cat_items.specs.declared.need.Auth.TheVariants.{Named};
ghost use Rattle.part_rounds.specs.Grants as spec;

use cat_items::{Auth, Item, Right, RoleGrant};
use sql_tree::Name;

/// A grant of a role or of a right.
#[derive(Clone, Copy)]
pub enum Grant<'a> {
    Role(&'a RoleGrant),
    Right(&'a Right),
}

/// What the user or role of a name granted: a role or a right, or the option of it.
#[derive(Clone, Copy)]
pub struct Granted<'a> {
    pub grant: Grant<'a>,
    pub by: &'a Name,
    pub option: bool,
}

fn grantor(grant: Grant<'_>) -> &Auth
    ensures { result.now ≡ spec.grantor_of grant.entry }
{
    match grant {
        Grant::Role(grant) => &grant.grantor,
        Grant::Right(right) => &right.grantor,
    }
}

/// The same grant, where a user or a role made it.
fn granted_by(grant: Grant<'_>, option: bool) -> Option<Granted<'_>>
    ensures some { IfSome result (λ g. spec.IsBy g × (g.grant ≡ grant.entry) × (g.option ≡ option)) }
    ensures none { IfNone result ((by : List ℕ) → spec.grantor_of grant.entry ≢ Named by) }
{
    match grantor(grant) {
        Auth::Named(by) => Some(Granted { grant, by, option }),
        _ => None,
    }
}

/// What an item is, if a user or a role granted it.
pub fn granted_in(x: &Item) -> Option<Granted<'_>>
    ensures some { IfSome result (λ g. spec.IsBy g × (x.now ≡ spec.grant_item g.option g.grant)) }
    ensures none { IfNone result ((by : List ℕ) → ¬ (spec.IsGrantedBy by x.now)) }
{
    match x {
        Item::RoleAuth(grant) => granted_by(Grant::Role(grant.get()), false),
        Item::RoleAdmin(grant) => granted_by(Grant::Role(grant.get()), true),
        Item::Held(right) => granted_by(Grant::Right(right.get()), false),
        Item::Grantable(right) => granted_by(Grant::Right(right.get()), true),
        _ => None,
    }
}
