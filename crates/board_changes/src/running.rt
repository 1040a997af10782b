//! A plan that is ready is carried out, and taken back.

ghost use Rattle.std.specs.Prelude.{◌≡◌, ℕ, Bool, List};
ghost use Rattle.item_index.specs.Graphs.{AreLinks, Graph};
ghost use Rattle.item_index.specs.Undo.{IsAsBefore, changed};
ghost use Rattle.cat_items.specs.declared.item.Item.{Item};
ghost use Rattle.cat_items.specs.contracts.item.ItemPartialEq.TheImpl as same;
ghost use Rattle.graph_changes.specs.Ends.{links_of};
ghost use Rattle.board_steps.specs.Plans.{IsFullBoard};
ghost use Rattle.board_changes.specs.Left.{IsAsLeft};
ghost use Rattle.board_changes.specs.Readiness.{IsPlanned, IsReady, StillTakesBack, TakesBack};

use crate::readiness::{Ran, Ready};
use board_plans::Plan;
use cat_items::Item;
use graph_changes::{a_change_can_be_undone, change, change_by_ends};
use item_index::Index;

/// Carries out a plan: the board is that of the new catalogue then. No memory, and no look-up.
pub fn run(board: &mut Index<Item>, ready: Ready) -> Ran
    requires ready { IsReady same.ghosts.eq board.old ready }
    requires planned { ∥ ((c : List Item) × (new : List Item) × (suspect : Item → Bool) × IsPlanned same.ghosts.eq board.old c new suspect ready.plan) ∥₁ }
    ensures board { board.new ≡ changed board.old ready.plan.out.items ready.plan.keys.items (links_of board.old ready.plan.out.items ready.plan.keys.items ready.plan.links.items) }
    ensures new { (c new : List Item) (suspect : Item → Bool) → IsPlanned same.ghosts.eq board.old c new suspect ready.plan → IsFullBoard board.new new }
    ensures back { TakesBack same.ghosts.eq board.old board.new result }
{
    let Ready { plan, back } = ready;
    let Plan { out, keys, links } = plan;
    let Ran {
        out: mut given,
        keys: had,
        links: taken,
    } = back;
    change_by_ends(board, out.as_slice(), keys, &mut given, links.as_slice());
    given.reverse();
    Ran {
        out: given,
        keys: had,
        links: taken,
    }
}

/// Takes a plan back that was carried out, where the board is as that left it: each number has the key that it had, and the same links in whatever
/// order, and the board is that of the old catalogue again. No memory, and no look-up.
pub fn take_back(board: &mut Index<Item>, ran: Ran)
    requires { ∥ ((before : Graph Item) × StillTakesBack same.ghosts.eq before board.old ran) ∥₁ }
    ensures left { (before : Graph Item) → StillTakesBack same.ghosts.eq before board.old ran → IsAsLeft before board.new }
    ensures before { (before : Graph Item) → TakesBack same.ghosts.eq before board.old ran → (links : List (ℕ × ℕ)) → AreLinks before links → IsAsBefore before board.new links }
    ensures board { (before : Graph Item) → StillTakesBack same.ghosts.eq before board.old ran → (c : List Item) → IsFullBoard before c → IsFullBoard board.new c }
{
    a_change_can_be_undone::<Item>();
    board.keeps_whole();
    let Ran { out, keys, links } = ran;
    change(board, out.as_slice(), keys, links.as_slice());
}
