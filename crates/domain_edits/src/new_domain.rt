//! What CREATE DOMAIN makes.

ghost use Rattle.std.specs.Prelude.{◌≡◌};
ghost use Rattle.domain_edits.specs.Checks as spec;

use sql_tree::{Default, DomainCheck, Items, Object, SqlType};
use table_parts::Part;

/// A domain, and its checks, which are still without names and conditions.
#[derive(Drop)]
pub struct NewDomain<'a> {
    pub domain: Object,
    pub sort: SqlType,
    pub default: &'a Option<Default>,
    pub checks: &'a Items<DomainCheck>,
    pub parts: Items<Part>,
    ghost are_parts: { parts ≡ spec.parts_of checks.now },
}
