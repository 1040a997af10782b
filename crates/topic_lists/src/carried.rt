//! The needs that an item looks for by way of others: of a table's columns, of a view, of a routine.

ghost use Rattle.std.specs.Prelude.{◌≡◌, OnOk};
ghost use Rattle.cat_items.specs.Reach.{Has};
ghost use Rattle.cat_items.specs.Relevant.{HasUsage, IsRoutineNeed};
ghost use Rattle.cat_items.specs.SystemRights as system;
ghost use Rattle.topic_keys.specs.Lists.{Gets};
ghost use Rattle.topic_lists.specs.Needs.{IsFarNeed, IsFarNeedOn, IsFarRightNeed};

use crate::each::{Carries, push_each};
use crate::pushing::{push_listed, push_usage};
use cat_items::{Auth, Catalogue, Item, Need, Part, PathKey, Right, Routine};
use role_graph::object_at;
use sql_tree::{Action, Body, Object, Security};
use std::alloc::AllocError;

fn security(body: &Body) -> Security
    ensures { result ≡ system.security_of body.now }
{
    match body {
        Body::Return { security, .. } => *security,
        Body::Atomic { security, .. } => *security,
    }
}

/// Puts in what a routine needs that runs with the rights of its owner.
fn push_definer(routine: &Routine, needs: &mut Vec<Need>) -> Result<(), AllocError>
    ensures { OnOk result (Gets (IsRoutineNeed routine.now (system.security_of routine.now.body)) needs.old.items needs.new.items) }
{
    match security(&routine.body) {
        Security::Definer => push_listed(needs, &routine.needs),
        Security::Invoker => Ok(()),
    }
}

/// What is looked for by way of an item.
#[derive(Drop)]
struct ByWay;

impl Carries for ByWay {
    ghost use Rattle.topic_lists.specs.Needs.{IsCarriedBy};

    ghost carries = { λ t y need. IsCarriedBy y need };

    fn push_from(&self, y: &Item, needs: &mut Vec<Need>) -> Result<(), AllocError> {
        match y {
            Item::View(view) => push_listed(needs, &view.get().needs),
            Item::Column(column) => push_usage(needs, &column.get().domain),
            Item::Routine(routine) => push_definer(routine.get(), needs),
            _ => Ok(()),
        }
    }
}

/// Puts in USAGE on the domains that a table's columns are based on.
fn push_usages(c: &Catalogue, table: &Object, needs: &mut Vec<Need>) -> Result<(), AllocError>
    ensures { OnOk result (Gets (λ need. Has c.now.items (HasUsage table.now need)) needs.old.items needs.new.items) }
{
    push_each(c, Part::Columns(table.into()), &ByWay, needs)
}

/// Puts in what the system's right of a need looks for by way of its object.
fn push_by_object(c: &Catalogue, need: &Need, needs: &mut Vec<Need>) -> Result<(), AllocError>
    ensures { OnOk result (Gets (λ n. Has c.now.items (IsFarNeedOn need.now n)) needs.old.items needs.new.items) }
{
    match object_at(PathKey::Path(&need.on)) {
        None => Ok(()),
        Some(object) => match need.action {
            Action::Select => push_each(c, Part::View(object), &ByWay, needs),
            Action::Execute => match &need.column {
                None => push_each(c, Part::Routine(object), &ByWay, needs),
                Some(_) => Ok(()),
            },
            _ => Ok(()),
        },
    }
}

fn push_far_right(c: &Catalogue, right: &Right, needs: &mut Vec<Need>) -> Result<(), AllocError>
    ensures { OnOk result (Gets (IsFarRightNeed c.now.items right.now right.now.grantor) needs.old.items needs.new.items) }
{
    match &right.grantor {
        Auth::System => push_by_object(c, &right.need, needs),
        Auth::Public => Ok(()),
        Auth::Named(_) => Ok(()),
    }
}

/// Puts in the needs that an item looks for by way of others. `Err` is want of memory.
pub fn push_far(c: &Catalogue, x: &Item, needs: &mut Vec<Need>) -> Result<(), AllocError>
    ensures { OnOk result (Gets (IsFarNeed c.now.items x.now) needs.old.items needs.new.items) }
{
    match x {
        Item::Table(table) => push_usages(c, table.get(), needs),
        Item::Held(right) => push_far_right(c, right.get(), needs),
        Item::Grantable(right) => push_far_right(c, right.get(), needs),
        _ => Ok(()),
    }
}
