//! The keys of the schemas that suspects ask for.

ghost use Rattle.std.specs.Prelude.{◌≡◌, ◌⊎◌, IfOk, IfSome, OnOk};
ghost use Rattle.std.specs.List.{Contains};
ghost use Rattle.cat_items.specs.declared.item.Item.{Item};
ghost use Rattle.cascade_laws.specs.Asks.{IsFirstTopic};
ghost use Rattle.cascade_laws.specs.Topics.{schema};
ghost use Rattle.board_graph.specs.BoardKeys.{topic_key};
ghost use Rattle.asked_parts.specs.Schemas as spec;

use cat_items::{Auth, Catalogue, Item, Right, find};
use edit_rules::put;
use sql_tree::Name;
use std::alloc::{AllocError, Global};
use topic_keys::{TopicKey, key_of};

/// The schema of the object of a right by the system. A right by another asks by its own words, and does without it.
fn schema_of_right(right: &Right) -> Option<&Name>
    ensures { IfSome result (λ name. IsFirstTopic right.now.need.on (schema name.now)) }
{
    match &right.grantor {
        Auth::System => right.need.on.get(0),
        Auth::Public => None,
        Auth::Named(_) => None,
    }
}

/// The schema that an item asks for.
fn schema_of(x: &Item) -> Option<&Name>
    ensures { IfSome result (λ name. spec.AsksForSchema x.now name.now) }
{
    match x {
        Item::User(_) | Item::Role(_) | Item::Schema(_) => None,
        Item::Table(table) => Some(&table.get().schema),
        Item::View(view) => Some(&view.get().view.schema),
        Item::Column(column) => Some(&column.get().table.schema),
        Item::Domain(domain) => Some(&domain.get().domain.schema),
        Item::DomainCheck(check) => Some(&check.get().name.schema),
        Item::Key(key) => Some(&key.get().name.schema),
        Item::Foreign(foreign) => Some(&foreign.get().name.schema),
        Item::Check(check) => Some(&check.get().name.schema),
        Item::Assertion(assertion) => Some(&assertion.get().name.schema),
        Item::Routine(routine) => Some(&routine.get().routine.schema),
        Item::RoleAuth(_) | Item::RoleAdmin(_) => None,
        Item::Held(right) => schema_of_right(right.get()),
        Item::Grantable(right) => schema_of_right(right.get()),
    }
}

fn is_last(last: Option<&Name>, name: &Name) -> bool {
    match last {
        None => false,
        Some(other) => other.same(name),
    }
}

/// Puts in the key of the schema of this name, where it wasn't asked for.
fn put_schema(
    alloc: Global,
    name: &Name,
    asked: &Catalogue,
    keys: &mut Catalogue,
) -> Result<(), AllocError>
    ensures { OnOk result ((k : Item) → Contains keys.new.items k → Contains keys.old.items k ⊎ ((k ≡ topic_key (schema name.now)) × (¬ (Contains asked.now.items k)))) }
{
    let key = key_of(alloc, TopicKey::Schema(name))?;
    match find(asked, &key) {
        Some(_) => Ok(()),
        None => put(keys, key),
    }
}

/// Puts in the key of the schema that an item asks for, where it wasn't asked for and isn't the one put in last: the schema's name.
fn put_schema_of<'a>(
    alloc: Global,
    x: &'a Item,
    last: Option<&'a Name>,
    asked: &Catalogue,
    keys: &mut Catalogue,
) -> Result<Option<&'a Name>, AllocError>
    ensures { OnOk result ((k : Item) → Contains keys.new.items k → Contains keys.old.items k ⊎ (spec.IsSchemaKey x.now k × (¬ (Contains asked.now.items k)))) }
{
    match schema_of(x) {
        None => Ok(last),
        Some(name) => {
            if is_last(last, name) {
                return Ok(last);
            }
            put_schema(alloc, name, asked, keys)?;
            Ok(Some(name))
        }
    }
}

/// Keys of schemas that these suspects ask for, and that weren't asked for yet.
pub(crate) fn schema_keys(
    alloc: Global,
    suspects: &[Item],
    asked: &Catalogue,
) -> Result<Catalogue, AllocError>
    ensures { IfOk result (λ keys. (k : Item) → Contains keys.items k → spec.IsNewSchemaKey suspects.now asked.now.items k) }
{
    let mut keys = Catalogue::of_sorted(Vec::new(alloc));
    let mut last = None;
    for x in suspects {
        last = put_schema_of(alloc, x, last, asked, &mut keys)?;
    }
    Ok(keys)
}
