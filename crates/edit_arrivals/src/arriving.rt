//! What arrives with an edit, suspect by suspect.

ghost use Rattle.std.specs.Prelude.{◌≡◌, IfOk, OnOk, List, Bool, true};
ghost use Rattle.std.specs.declared.cmp.Ordering.TheVariants.{Less};
ghost use Rattle.cat_items.specs.declared.edit.Edit.{Edit};
ghost use Rattle.cat_items.specs.declared.item.Item.{Item};
ghost use Rattle.cat_items.specs.Order.{item_cmp};
ghost use Rattle.edit_rules.specs.Chosen.{AreChosen};
ghost use Rattle.board_graph.specs.BoardKeys.{IsKeyOf};
ghost use Rattle.board_plans.specs.Planning.{AreArrivals, IsArrivalOf};
ghost use Rattle.board_steps.specs.Plans.{HasNoHelper};
ghost use Rattle.edit_arrivals.specs.Steps as steps;
ghost use Rattle.edit_arrivals.specs.Suspects as spec;

use crate::keys::{Passed, added_to, next_key};
use board_plans::Arrival;
use cat_items::{Catalogue, Item};
use reached_roles::RoleGrants;
use std::alloc::{AllocError, Global};
use system_rights::system_items;
use topic_keys::homes;
use topic_lists::topics;

/// Walks along what was found and along the rights that the system could grant, by suspects that rise: for their keys, and for those of what
/// their options add to, which rise with them.
#[derive(Clone, Copy)]
struct Walks {
    keys: Passed,
    options: Passed,
}

/// What arrives with an item of this key.
fn arrival_of(
    alloc: Global,
    found: &Catalogue,
    roles: &RoleGrants<'_>,
    rights: &[Item],
    passed: &mut Passed,
    x: &Item,
    key: Item,
) -> Result<Arrival, AllocError>
    requires roles { roles.now ≡ found.now.items }
    requires rights { steps.AreSystemRights found.now.items rights.now }
    requires passed { steps.IsOptionBehind found.now.items rights.now passed.old x.now }
    requires key { IsKeyOf found.now.items x.now key }
    ensures arrival { IfOk result (λ arrival. IsArrivalOf found.now.items x.now arrival) }
    ensures passed { OnOk result ((y : Item) → item_cmp x.now y ≡ Less → steps.IsOptionBehind found.now.items rights.now passed.old y → steps.IsOptionBehind found.now.items rights.now passed.new y) }
{
    Ok(Arrival {
        key,
        depends_on: topics(alloc, found, roles, x)?,
        stands_under: homes(alloc, x)?,
        adds_to: added_to(alloc, found, rights, passed, x)?,
    })
}

/// Puts what arrives with an item behind the rest, if the item has a key.
fn put_arrival(
    alloc: Global,
    found: &Catalogue,
    roles: &RoleGrants<'_>,
    rights: &[Item],
    walks: &mut Walks,
    x: &Item,
    arrivals: &mut Vec<Arrival>,
) -> Result<(), AllocError>
    requires roles { roles.now ≡ found.now.items }
    requires rights { steps.AreSystemRights found.now.items rights.now }
    requires ahead { steps.IsAhead found.now.items rights.now walks.old x.now }
    ensures put { OnOk result (steps.IsPutBehind found.now.items x.now arrivals.old.items arrivals.new.items) }
    ensures ahead { OnOk result ((y : Item) → item_cmp x.now y ≡ Less → steps.IsAhead found.now.items rights.now walks.old y → steps.IsAhead found.now.items rights.now walks.new y) }
{
    match next_key(alloc, found, rights, &mut walks.keys, x)? {
        None => Ok(()),
        Some(key) => {
            let arrival = arrival_of(alloc, found, roles, rights, &mut walks.options, x, key)?;
            arrivals.push(arrival)?;
            Ok(())
        }
    }
}

/// What arrives on a board with an edit's suspects, by what was found of their part: of each that stands, and of each that doesn't and that the
/// system could grant, its key and what it is linked with. `suspects` are those of what the edit makes of the catalogue, with the rights that the
/// system could grant for it. It looks nothing up on the board. `Err` is want of memory.
pub fn arrivals(
    alloc: Global,
    found: &Catalogue,
    suspects: &Catalogue,
) -> Result<Vec<Arrival>, AllocError>
    ensures found { IfOk result (λ arrivals. (suspect : Item → Bool) → HasNoHelper found.now.items → spec.HasSuspects found.now.items suspect suspects.now.items → AreArrivals found.now.items suspect arrivals.items) }
    ensures standing { IfOk result (λ arrivals. (c all edited f part standing : List Item) (edit : Edit) (suspect : Item → Bool) → spec.IsFoundBy c all edited f edit suspect part found.now.items standing
        → AreChosen f (λ x. suspect x ≡ true) suspects.now.items → AreArrivals standing suspect arrivals.items) }
{
    let rights = system_items(alloc, found)?;
    let roles = RoleGrants::of(alloc, found)?;
    let start = Passed {
        found: 0,
        rights: 0,
    };
    let mut walks = Walks {
        keys: start,
        options: start,
    };
    let mut arrivals = Vec::new(alloc);
    for x in suspects.items() {
        put_arrival(
            alloc,
            found,
            &roles,
            rights.as_slice(),
            &mut walks,
            x,
            &mut arrivals,
        )?;
    }
    Ok(arrivals)
}
