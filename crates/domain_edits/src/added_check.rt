//! What ALTER DOMAIN adds.

ghost use Rattle.std.specs.Prelude.{◌≡◌, length};
ghost use Rattle.domain_edits.specs.Checks as spec;

use sql_tree::{DomainCheck, Items, Object};
use table_parts::Part;

/// A check of the domain of this name, which is still without a name and a condition.
#[derive(Drop)]
pub struct AddedCheck {
    pub domain: Object,
    pub checks: Items<DomainCheck>,
    pub parts: Items<Part>,
    ghost is_one: { length checks ≡ 1 },
    ghost are_parts: { parts ≡ spec.parts_of checks },
}
