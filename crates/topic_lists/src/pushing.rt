//! Needs put behind a list of needs.

ghost use Rattle.std.specs.Prelude.{◌≡◌, Contains, IfOk, OnOk};
ghost use Rattle.std.specs.Option.{option_copied};
ghost use Rattle.cat_items.specs.Relevant.{IsBaseNeed, IsUsageOf};
ghost use Rattle.cat_items.specs.Rights as rights;
ghost use Rattle.topic_keys.specs.Lists.{Gets};
ghost use Rattle.topic_lists.specs.Needs.{IsReferenceTo};

use cat_items::Need;
use edit_rules::path_of;
use sql_tree::{Action, Items, Name, Object};
use std::alloc::AllocError;

fn copy_name(name: Option<&Name>) -> Result<Option<Name>, AllocError>
    ensures { IfOk result (λ copy. copy ≡ option_copied name.entry) }
{
    match name {
        None => Ok(None),
        Some(name) => Ok(Some(name.copy()?)),
    }
}

/// An action on an object, or on a column of it.
fn need_on(action: Action, on: &Object, column: Option<&Name>) -> Result<Need, AllocError>
    ensures { IfOk result (λ need. need ≡ record { action = action; on = rights.path_of on.now; column = option_copied column.entry }) }
{
    Ok(Need {
        action,
        on: path_of(on)?,
        column: copy_name(column)?,
    })
}

pub fn push_need(needs: &mut Vec<Need>, need: &Need) -> Result<(), AllocError>
    ensures { OnOk result (Gets (λ n. n ≡ need.now) needs.old.items needs.new.items) }
{
    needs.push(need.copy()?)?;
    Ok(())
}

fn push_need_on(
    needs: &mut Vec<Need>,
    action: Action,
    on: &Object,
    column: Option<&Name>,
) -> Result<(), AllocError>
    ensures { OnOk result (Gets (λ n. n ≡ record { action = action; on = rights.path_of on.now; column = option_copied column.entry }) needs.old.items needs.new.items) }
{
    needs.push(need_on(action, on, column)?)?;
    Ok(())
}

pub fn push_listed(needs: &mut Vec<Need>, listed: &Items<Need>) -> Result<(), AllocError>
    ensures { OnOk result (Gets (Contains listed.now) needs.old.items needs.new.items) }
{
    for need in listed.as_slice() {
        push_need(needs, need)?;
    }
    Ok(())
}

/// Puts in USAGE on a column's domain.
pub fn push_usage(needs: &mut Vec<Need>, domain: &Option<Object>) -> Result<(), AllocError>
    ensures { OnOk result (Gets (IsUsageOf domain.now) needs.old.items needs.new.items) }
{
    match domain {
        None => Ok(()),
        Some(domain) => push_need_on(needs, Action::Usage, domain, None),
    }
}

/// Puts in REFERENCES on each of these columns.
pub fn push_references(
    needs: &mut Vec<Need>,
    target: &Object,
    names: &Items<Name>,
) -> Result<(), AllocError>
    ensures { OnOk result (Gets (IsReferenceTo target.now names.now) needs.old.items needs.new.items) }
{
    for name in names.as_slice() {
        push_need_on(needs, Action::References, target, Some(name))?;
    }
    Ok(())
}

/// Puts in an action on the base of a plain view, or on a column of this.
pub fn push_base(
    needs: &mut Vec<Need>,
    action: Action,
    base: &Option<Object>,
    column: Option<&Name>,
) -> Result<(), AllocError>
    ensures { OnOk result (Gets (IsBaseNeed action base.now (option_copied column.entry)) needs.old.items needs.new.items) }
{
    match base {
        None => Ok(()),
        Some(base) => push_need_on(needs, action, base, column),
    }
}
