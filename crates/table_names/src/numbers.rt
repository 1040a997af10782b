//! Numbers of the system's names for constraints.

ghost use Rattle.std.specs.Prelude.{◌≡◌, ◌≢◌, ◌↔◌, ◌<◌, ◌-◌, true, IfOk, IfSome, IsTrue, Some, slice_get};
ghost use Rattle.std.specs.Fmt.{decimal};
ghost use Rattle.table_names.specs.Named.{system_name};
ghost use Rattle.table_names.specs.Taken as spec;

use cat_items::{Catalogue, Item, ObjectKind, objects_of};
use sql_tree::{Name, Object};
use std::alloc::{AllocError, Global};

/// No number above ten times this one is read: a schema has fewer constraints.
const MOST: usize = 1_000_000_000;

/// The number that these digits write: `None` where they begin with a zero, are none, or write a greater one than is read.
fn number_of(digits: &[u8]) -> Option<usize>
    ensures { IfSome result (λ number. (0 < number) × (digits.now ≡ decimal number)) }
{
    if digits.is_empty() || digits[0] == b'0' {
        return None;
    }
    let mut number = 0;
    for digit in digits {
        if !digit.is_ascii_digit() || number > MOST {
            return None;
        }
        number = number * 10 + (*digit - b'0') as usize;
    }
    Some(number)
}

/// The number of the system's name that a name is.
fn number_in(name: &Name) -> Option<usize>
    ensures { IfSome result (λ number. (0 < number) × (name.now ≡ system_name number)) }
{
    match name.bytes().strip_prefix(b"SYS_C") {
        Some(digits) => number_of(digits),
        None => None,
    }
}

/// Marks the number of the system's name that a name is, if there is a place for it.
pub(crate) fn mark_number(taken: &mut Vec<bool>, name: &Name)
    ensures { spec.IsMarkedFor (λ number. name.now ≡ system_name number) taken.old.items taken.new.items }
{
    if let Some(number) = number_in(name) {
        if number <= taken.len() {
            taken[number - 1] = true;
        }
    }
}

/// Marks the number of a constraint's name, where it is one of this schema.
fn mark_in(taken: &mut Vec<bool>, name: &Object, schema: &Name)
    ensures { spec.IsMarkedFor (λ number. name.now ≡ record { schema = schema.now; name = system_name number }) taken.old.items taken.new.items }
{
    if name.schema.same(schema) {
        mark_number(taken, &name.name);
    }
}

/// Marks the number of a constraint.
fn mark_item(taken: &mut Vec<bool>, x: &Item, schema: &Name)
    ensures { spec.IsMarkedFor (spec.IsNumberOf schema.now x.now) taken.old.items taken.new.items }
{
    match x {
        Item::DomainCheck(check) => mark_in(taken, &check.get().name, schema),
        Item::Key(key) => mark_in(taken, &key.get().name, schema),
        Item::Foreign(foreign) => mark_in(taken, &foreign.get().name, schema),
        Item::Check(check) => mark_in(taken, &check.get().name, schema),
        Item::Assertion(assertion) => mark_in(taken, &assertion.get().name, schema),
        _ => {}
    }
}

/// The kinds of constraints, which have one set of names.
const KINDS: [ObjectKind; 5] = [
    ObjectKind::DomainCheck,
    ObjectKind::Key,
    ObjectKind::Foreign,
    ObjectKind::Check,
    ObjectKind::Assertion,
];

/// How many constraints a schema has.
fn count_in(c: &Catalogue, schema: &Name) -> usize {
    let mut count: usize = 0;
    for kind in KINDS {
        let all = objects_of(c, kind, schema);
        count = count.saturating_add(all.end - all.start);
    }
    count
}

/// Marks the numbers of a schema's constraints of one kind.
fn mark_kind(taken: &mut Vec<bool>, c: &Catalogue, kind: ObjectKind, schema: &Name)
    requires { spec.AreOfConstraints c.now.items schema.now taken.old.items }
    ensures { spec.AreOfConstraints c.now.items schema.now taken.new.items }
{
    let items = c.items();
    let all = objects_of(c, kind, schema);
    for at in all.start..all.end {
        mark_item(taken, &items[at], schema);
    }
}

/// Numbers of the system's names that constraints of a schema have: as many places as there could be such names and `more` beside. One pass
/// over the constraints of the schema; `Err` is want of memory.
pub(crate) fn taken_in(
    alloc: Global,
    c: &Catalogue,
    schema: &Name,
    more: usize,
) -> Result<Vec<bool>, AllocError>
    ensures { IfOk result (λ taken. spec.AreOfConstraints c.now.items schema.now taken.items) }
{
    let places = count_in(c, schema).saturating_add(more);
    let mut taken = vec![in alloc; false; places]?;
    for kind in KINDS {
        mark_kind(&mut taken, c, kind, schema);
    }
    Ok(taken)
}

/// Whether a number is marked.
pub(crate) fn is_taken(taken: &[bool], number: u64) -> bool
    requires { 0 < number }
    ensures { IsTrue result → slice_get taken.now (number - 1) ≡ Some true }
{
    let at = number as usize - 1;
    at < taken.len() && taken[at]
}
