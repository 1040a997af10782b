//! The needs that an item looks for by itself.

ghost use Rattle.std.specs.Prelude.{OnOk};
ghost use Rattle.cat_items.specs.Reach.{Has};
ghost use Rattle.cat_items.specs.Relevant.{IsBaseColumnNeed};
ghost use Rattle.cascade_laws.specs.Topics.{IsOwnNeed, IsOwnRightNeed, IsUpdateNeed, IsUpdateNeedOn};
ghost use Rattle.topic_keys.specs.Lists.{Gets};

use crate::each::{Carries, push_each};
use crate::pushing::{push_base, push_listed, push_need, push_references, push_usage};
use cat_items::{Auth, Catalogue, Item, Need, Part, PathKey, Right, View};
use role_graph::object_at;
use sql_tree::{Action, Name};
use std::alloc::AllocError;

/// The action on the column of the base that is behind a column of this name of a plain view.
#[derive(Drop)]
struct ColumnBehind<'a> {
    view: &'a View,
    action: Action,
    name: &'a Name,
}

impl<'a> Carries for ColumnBehind<'a> {
    ghost use Rattle.topic_lists.specs.Needs.{IsNeedBehind};

    ghost carries = { λ t y need. IsNeedBehind t.view.now t.action t.name.now y need };

    fn push_from(&self, y: &Item, needs: &mut Vec<Need>) -> Result<(), AllocError> {
        match y {
            Item::Column(column) => {
                let column = column.get();
                if !column.name.same(self.name) {
                    return Ok(());
                }
                let at = column.place.saturating_sub(1) as usize;
                match self.view.base_columns.get(at) {
                    None => Ok(()),
                    Some(name) => push_base(needs, self.action, &self.view.base, Some(name)),
                }
            }
            _ => Ok(()),
        }
    }
}

fn push_behind(
    c: &Catalogue,
    view: &View,
    action: Action,
    name: &Name,
    needs: &mut Vec<Need>,
) -> Result<(), AllocError>
    ensures { OnOk result (Gets (λ need. Has c.now.items (IsBaseColumnNeed view.now action name.now need)) needs.old.items needs.new.items) }
{
    let part = Part::Columns((&view.view).into());
    let by = ColumnBehind { view, action, name };
    push_each(c, part, &by, needs)
}

/// Puts in what the system's right of this need to change a view goes by.
fn push_update(
    c: &Catalogue,
    view: &View,
    need: &Need,
    needs: &mut Vec<Need>,
) -> Result<(), AllocError>
    ensures { OnOk result (Gets (IsUpdateNeed c.now.items view.now need.now.action need.now.column) needs.old.items needs.new.items) }
{
    match &need.column {
        None => match need.action {
            Action::Insert => push_base(needs, Action::Insert, &view.base, None),
            Action::Update => push_base(needs, Action::Update, &view.base, None),
            Action::Delete => push_base(needs, Action::Delete, &view.base, None),
            _ => Ok(()),
        },
        Some(name) => match need.action {
            Action::Insert => push_behind(c, view, Action::Insert, name, needs),
            Action::Update => push_behind(c, view, Action::Update, name, needs),
            _ => Ok(()),
        },
    }
}

/// The system's right of a need, on a view.
#[derive(Drop)]
struct RightOnView<'a> {
    c: &'a Catalogue,
    need: &'a Need,
}

impl<'a> Carries for RightOnView<'a> {
    ghost use Rattle.topic_lists.specs.Needs.{IsUpdateNeedBy};

    ghost carries = { λ t y need. IsUpdateNeedBy t.c.now.items t.need.now y need };

    fn push_from(&self, y: &Item, needs: &mut Vec<Need>) -> Result<(), AllocError> {
        match y {
            Item::View(view) => push_update(self.c, view.get(), self.need, needs),
            _ => Ok(()),
        }
    }
}

fn push_updates(c: &Catalogue, right: &Right, needs: &mut Vec<Need>) -> Result<(), AllocError>
    ensures { OnOk result (Gets (λ need. Has c.now.items (IsUpdateNeedOn c.now.items right.now need)) needs.old.items needs.new.items) }
{
    let need = &right.need;
    match object_at(PathKey::Path(&need.on)) {
        None => Ok(()),
        Some(object) => push_each(c, Part::View(object), &RightOnView { c, need }, needs),
    }
}

fn push_own_right(c: &Catalogue, right: &Right, needs: &mut Vec<Need>) -> Result<(), AllocError>
    ensures { OnOk result (Gets (IsOwnRightNeed c.now.items right.now right.now.grantor) needs.old.items needs.new.items) }
{
    match &right.grantor {
        Auth::System => push_updates(c, right, needs),
        Auth::Public => push_need(needs, &right.need),
        Auth::Named(_) => push_need(needs, &right.need),
    }
}

/// Puts in the needs that an item looks for by itself. `Err` is want of memory.
pub fn push_own(c: &Catalogue, x: &Item, needs: &mut Vec<Need>) -> Result<(), AllocError>
    ensures { OnOk result (Gets (IsOwnNeed c.now.items x.now) needs.old.items needs.new.items) }
{
    match x {
        Item::View(view) => push_listed(needs, &view.get().needs),
        Item::Column(column) => push_usage(needs, &column.get().domain),
        Item::DomainCheck(check) => push_listed(needs, &check.get().needs),
        Item::Foreign(foreign) => {
            let foreign = foreign.get();
            push_references(needs, &foreign.target, &foreign.target_columns)
        }
        Item::Check(check) => push_listed(needs, &check.get().needs),
        Item::Assertion(assertion) => push_listed(needs, &assertion.get().needs),
        Item::Routine(routine) => push_listed(needs, &routine.get().needs),
        Item::Held(right) => push_own_right(c, right.get(), needs),
        Item::Grantable(right) => push_own_right(c, right.get(), needs),
        _ => Ok(()),
    }
}
