//! The law stands in the contract of a function that does nothing.

ghost use Rattle.std.specs.Prelude.{ℕ, List, Bool};
ghost use Rattle.item_index.specs.Graphs.{Graph, IsWhole};
ghost use Rattle.cat_items.specs.declared.item.Item.{Item};
ghost use Rattle.cascade_laws.specs.Topics.{DependsOn, IsUnder, Topic};
ghost use Rattle.board_graph.specs.BoardKeys.{IsKeyOf, topic_key};
ghost use Rattle.board_graph.specs.Boards.{IsOwnTopic};
ghost use Rattle.board_steps.specs.Plans.{IsFullBoard};
ghost use Rattle.board_marks.specs.Marks.{AreClosed, IsMarked};

/// Where with each marked number of a board all that rest on it are marked, what depends on a topic is marked where
/// the topic is (`topic`), and where something is marked that stands under the topic (`under`).
pub fn marks_spread_over_topics()
    ensures topic { (eq : Item → Item → Bool) (g : Graph Item) (c : List Item) (marks : List ℕ) → IsWhole eq g → IsFullBoard g c → AreClosed g marks
        → (x j : Item) (t : Topic) → IsKeyOf c x j → DependsOn c x t → IsOwnTopic t → IsMarked g marks (topic_key t) → IsMarked g marks j }
    ensures under { (eq : Item → Item → Bool) (g : Graph Item) (c : List Item) (marks : List ℕ) → IsWhole eq g → IsFullBoard g c → AreClosed g marks
        → (x y j k : Item) (t : Topic) → IsKeyOf c x j → IsKeyOf c y k → DependsOn c x t → IsUnder t y → IsMarked g marks k → IsMarked g marks j }
{}
