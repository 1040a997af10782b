//! The topics of what an item names, but for those that are there already.

ghost use Rattle.std.specs.Prelude.{◌≡◌, ◌⊎◌, false, OnOk};
ghost use Rattle.std.specs.Option.{option_copied};
ghost use Rattle.cascade_laws.specs.Asks.{IsFarTopic, IsFirstTopic};
ghost use Rattle.cascade_laws.specs.Topics.{IsAuthTopic, IsNameTopic};
ghost use Rattle.topic_keys.specs.Lists.{Adds};
ghost use Rattle.topic_keys.specs.Names.{IsNeedColumnTopic};
ghost use Rattle.topic_lists.specs.RightNames as spec;

use crate::rights::{is_at, is_by, is_of, is_to, right_before, right_in};
use cat_items::{Auth, Item, Need, PathKey, Right};
use sql_tree::Path;
use std::alloc::{AllocError, Global};
use topic_keys::{TopicKey, put_far_names, put_names, put_need, put_topic};

/// Puts in the schema that a path begins with.
fn put_first(alloc: Global, keys: &mut Vec<Item>, path: &Path) -> Result<(), AllocError>
    ensures { OnOk result (Adds (IsFirstTopic path.now) keys.old.items keys.new.items) }
{
    match path.get(0) {
        None => Ok(()),
        Some(name) => put_topic(alloc, keys, TopicKey::Schema(name)),
    }
}

fn put_column(alloc: Global, keys: &mut Vec<Item>, need: &Need) -> Result<(), AllocError>
    ensures { OnOk result (Adds (IsNeedColumnTopic need.now) keys.old.items keys.new.items) }
{
    match &need.column {
        None => Ok(()),
        Some(name) => put_topic(alloc, keys, TopicKey::Column(PathKey::Path(&need.on), name)),
    }
}

/// Puts in the object of a need, its column and its schema.
fn put_place(alloc: Global, keys: &mut Vec<Item>, need: &Need) -> Result<(), AllocError>
    ensures { OnOk result (Adds (λ t. IsNeedColumnTopic need.now t ⊎ spec.IsPlaceTopic need.now t) keys.old.items keys.new.items) }
{
    put_need(alloc, keys, need)?;
    put_first(alloc, keys, &need.on)
}

/// Puts in the column of a need, and its object and schema unless these are known.
fn put_column_at(
    alloc: Global,
    keys: &mut Vec<Item>,
    need: &Need,
    known: bool,
) -> Result<(), AllocError>
    ensures { OnOk result (Adds (λ t. IsNeedColumnTopic need.now t ⊎ ((known ≡ false) × spec.IsPlaceTopic need.now t)) keys.old.items keys.new.items) }
{
    if known {
        put_column(alloc, keys, need)
    } else {
        put_place(alloc, keys, need)
    }
}

fn put_column_unless(
    alloc: Global,
    keys: &mut Vec<Item>,
    need: &Need,
    known: bool,
    at: bool,
) -> Result<(), AllocError>
    ensures { OnOk result (Adds (λ t. (known ≡ false) × (IsNeedColumnTopic need.now t ⊎ ((at ≡ false) × spec.IsPlaceTopic need.now t))) keys.old.items keys.new.items) }
{
    if known {
        Ok(())
    } else {
        put_column_at(alloc, keys, need, at)
    }
}

fn put_auth(alloc: Global, keys: &mut Vec<Item>, auth: &Auth) -> Result<(), AllocError>
    ensures { OnOk result (Adds (IsAuthTopic auth.now) keys.old.items keys.new.items) }
{
    match auth {
        Auth::System => Ok(()),
        Auth::Public => Ok(()),
        Auth::Named(name) => put_topic(alloc, keys, TopicKey::Authorization(name)),
    }
}

fn put_auth_unless(
    alloc: Global,
    keys: &mut Vec<Item>,
    auth: &Auth,
    known: bool,
) -> Result<(), AllocError>
    ensures { OnOk result (Adds (λ t. (known ≡ false) × IsAuthTopic auth.now t) keys.old.items keys.new.items) }
{
    if known {
        Ok(())
    } else {
        put_auth(alloc, keys, auth)
    }
}

/// Puts in what a right names, also where it depends on this by way of its object. All that another right names is there already, and isn't put in
/// again. `Err` is want of memory.
pub fn put_right_names(
    alloc: Global,
    keys: &mut Vec<Item>,
    right: &Right,
    other: Option<&Right>,
) -> Result<(), AllocError>
    requires { spec.HasNamed (option_copied other) keys.old.items }
    ensures { OnOk result (Adds (spec.IsRightName right.now) keys.old.items keys.new.items) }
{
    let need = &right.need;
    put_column_unless(alloc, keys, need, is_of(need, other), is_at(need, other))?;
    put_auth_unless(alloc, keys, &right.grantee, is_to(&right.grantee, other))?;
    put_auth_unless(alloc, keys, &right.grantor, is_by(&right.grantor, other))
}

/// Puts in the topics of what an item names, also where it depends on them by way of its table or object. All that the right before names is there
/// already, and isn't put in again. `Err` is want of memory.
pub fn put_named(
    alloc: Global,
    keys: &mut Vec<Item>,
    x: &Item,
    before: Option<&Item>,
) -> Result<(), AllocError>
    requires { spec.HasNamed (spec.right_before (option_copied before)) keys.old.items }
    ensures { OnOk result (Adds (λ t. IsNameTopic x.now t ⊎ IsFarTopic x.now t) keys.old.items keys.new.items) }
{
    match right_in(x) {
        Some(right) => put_right_names(alloc, keys, right, right_before(before)),
        None => {
            put_names(alloc, keys, x)?;
            put_far_names(alloc, keys, x)
        }
    }
}
