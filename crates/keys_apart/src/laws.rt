//! The law stands in the contract of a function that does nothing.

ghost use Rattle.std.specs.Prelude.{◌≡◌, List};
ghost use Rattle.std.specs.declared.cmp.Ordering.TheVariants.{Equal};
ghost use Rattle.cat_items.specs.declared.item.Item.{Item};
ghost use Rattle.cat_items.specs.Catalogues.{IsInOrder};
ghost use Rattle.cat_items.specs.Order.{item_cmp};
ghost use Rattle.cat_items.specs.contracts.item.ItemPartialEq.TheImpl as item;
ghost use Rattle.board_steps.specs.Plans.{IsBoardKey, TellsApart};

/// No two keys of a board of a list in order have one place in the order of items, so sameness of items tells the keys
/// of a board apart.
pub fn keys_of_a_board_are_apart()
    ensures order { (c : List Item) → IsInOrder c → (j k : Item) → IsBoardKey c j → IsBoardKey c k → item_cmp j k ≡ Equal → j ≡ k }
    ensures same { (c : List Item) → IsInOrder c → TellsApart item.ghosts.eq c }
{}
