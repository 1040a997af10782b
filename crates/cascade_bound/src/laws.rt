//! Each law stands in the contract of a function that does nothing.

ghost use Rattle.std.specs.Prelude.{◌≢◌, ◌⊎◌, ◌+◌, ◌*◌, ◌<◌, ◌≤◌, ℕ, List, length};
ghost use Rattle.std.specs.List.{AllPairs, AllZip, Contains, count_by, sum_by};
ghost use Rattle.finite_chains.specs.Chains.{IsWithin};
ghost use Rattle.item_index.specs.Graphs.{Graph, HasKey, IsWhole};
ghost use Rattle.item_index.specs.Shelves.{list_at};
ghost use Rattle.link_marks.specs.Reached.{look_ups};
ghost use Rattle.sql_names.specs.declared.object.Object.{Object};
ghost use Rattle.cat_items.specs.contracts.item.ItemPartialEq.TheImpl as same;
ghost use Rattle.cat_items.specs.declared.edit.Edit.{Edit};
ghost use Rattle.cat_items.specs.declared.item.Item.{Item};
ghost use Rattle.cat_items.specs.declared.item.Item.TheVariants as item;
ghost use Rattle.cat_items.specs.Bound.{HasRelevant, IsBound, IsSuspect, Lists, square};
ghost use Rattle.cat_items.specs.Catalogues.{IsInOrder};
ghost use Rattle.cat_items.specs.Fit.{IsFit};
ghost use Rattle.cat_items.specs.Good.{IsGood};
ghost use Rattle.cat_items.specs.Relevant.{Relevant};
ghost use Rattle.cat_items.specs.Survivors.{AreSurvivors, IsSystemRight, IsWithSystem};
ghost use Rattle.cascade_laws.specs.Asks.{Asks};
ghost use Rattle.cascade_laws.specs.Topics.{Topic};
ghost use Rattle.board_graph.specs.BoardKeys.{IsKeyOf, topic_key};
ghost use Rattle.board_steps.specs.Plans.{HasNoHelper, IsFullBoard};
ghost use Rattle.asked_parts.specs.Parts.{IsAskedBy};
ghost use Rattle.asked_parts.specs.Rounds.{HasAskedAll};
ghost use Rattle.asked_parts.specs.Under as under;
ghost use Rattle.topic_lists.specs.Sought.{IsAskedFor};
ghost use Rattle.board_plans.specs.declared.arrivals.Arrival.{Arrival};
ghost use Rattle.board_plans.specs.Arrivals.{links_by};
ghost use Rattle.board_plans.specs.Leaving.{AreOutgoing};
ghost use Rattle.board_plans.specs.Leaving as leaving;
ghost use Rattle.board_plans.specs.Planning.{AreArrivals};
ghost use Rattle.board_changes.specs.Leaving.{look_ups_with};
ghost use Rattle.edit_suspects.specs.Seeds.{AreTouched, seed_look_ups};
ghost use Rattle.edit_suspects.specs.Suspects.{AreFresh, is_suspect};
ghost use Rattle.look_up_bound.specs.PossibleRights.{IsBySystem, leads_on};
ghost use Rattle.look_up_bound.specs.Touched.{IsPaidBy, IsTouched};
ghost use Rattle.cascade_bound.specs.Granted.{granted_on};
ghost use Rattle.cascade_bound.specs.Judging.{JudgesWithin};
ghost use Rattle.cascade_bound.specs.Marked.{AreTouchedOn, GoOut};
ghost use Rattle.cascade_bound.specs.Missing.{LacksNothing, MissesNothing, NeedsStand};

/// Of what an edit touches on a board, the items and the rights that the system could grant pay for all: to reach it takes no more than
/// their links and five look-ups for each (`ticks`), beside two for each added item; three times as many are touched in all (`marks`); to tell
/// what goes out takes no more than their links and nine for each (`plan`); and to read the links of what goes out no more than twice their links and
/// thirteen for each (`out`).
pub fn what_is_touched_takes_few_look_ups()
    ensures ticks { (g : Graph Item) (c : List Item) (edit : Edit) (marks own : List ℕ) → AreTouchedOn g c edit marks own
        → sum_by (look_ups g.dependents) marks ≤ 2 * length edit.added + sum_by (λ n. length (list_at g.rests n)) own + 5 * length own }
    ensures marks { (g : Graph Item) (c : List Item) (edit : Edit) (marks own : List ℕ) → AreTouchedOn g c edit marks own → length marks ≤ 2 * length edit.added + 3 * length own }
    ensures plan { (g : Graph Item) (c : List Item) (edit : Edit) (marks own : List ℕ) → AreTouchedOn g c edit marks own → sum_by (leaving.look_ups g marks) marks ≤ 6 * length edit.added + sum_by (λ n. length (list_at g.rests n)) own + 9 * length own }
    ensures out { (g : Graph Item) (c : List Item) (edit : Edit) (marks own out : List ℕ) → AreTouchedOn g c edit marks own → GoOut g c marks out
        → sum_by (λ n. 1 + look_ups_with g n) out ≤ 6 * length edit.added + 2 * sum_by (λ n. length (list_at g.rests n)) own + 13 * length own }
{}

/// What has a touched number on a board is what the edit touches in the graph of the catalogue.
pub fn what_is_touched_on_a_board_is_touched()
    ensures { (g : Graph Item) (c edited : List Item) (edit : Edit) (marks own : List ℕ) → AreTouchedOn g c edit marks own → IsGood c → IsFit c edit edited
        → (n : ℕ) (x k : Item) → Contains marks n → HasKey g n k → IsKeyOf c x k → IsTouched c edit edited x }
{}

/// An item has on a board few links to what it rests on, and so has a right that the system could grant: three less than five
/// squares of one more than what is relevant to it.
pub fn links_of_an_item_are_few()
    ensures { (g : Graph Item) (c u : List Item) → IsGood c → IsWhole same.ghosts.eq g → IsFullBoard g c → IsWithin c u → (n : ℕ) (x k : Item) → HasKey g n k → IsKeyOf c x k
        → (relevant : ℕ) → HasRelevant u x relevant → length (list_at g.rests n) + 3 ≤ 5 * square relevant }
{}

/// A right by the system has six links at most, and two for each schema and role authorization that is relevant to what it is on.
pub fn links_of_a_right_that_is_paid_for_are_few()
    ensures { (g : Graph Item) (c u : List Item) → IsGood c → IsWhole same.ghosts.eq g → IsFullBoard g c → IsWithin c u → (n : ℕ) (x k : Item) → HasKey g n k → IsKeyOf c x k
        → (payer : Item) → IsPaidBy c payer x → (relevant : List Item) → Lists (λ y. Contains u y × Relevant u y payer) relevant → length (list_at g.rests n) ≤ 2 * count_by leads_on relevant + 6 }
{}

/// What an edit touches is found on the board of its catalogue and its keys are read (`read`), the plan is made of it and of what comes for the
/// suspects of the new catalogue (`planned`), and what goes out is read with its links (`made`), within the bound of the edit.
pub fn what_goes_and_comes_is_within_the_bound()
    ensures read { (g : Graph Item) (c edited : List Item) (edit : Edit) (marks own : List ℕ) (bound : ℕ) → AreTouchedOn g c edit marks own → IsGood c → IsFit c edit edited → IsBound c edit edited bound
        → seed_look_ups edit + sum_by (look_ups g.dependents) marks + length marks ≤ bound }
    ensures planned { (g : Graph Item) (c edited f new : List Item) (edit : Edit) (marks own : List ℕ) (fresh : List Item) (arrivals : List Arrival) (bound : ℕ) → AreTouchedOn g c edit marks own → IsGood c → IsFit c edit edited
        → IsWithSystem edited f → AreFresh c edited fresh → AreSurvivors f new → AreArrivals new (is_suspect g marks edit.added fresh) arrivals → IsBound c edit edited bound
        → seed_look_ups edit + sum_by (look_ups g.dependents) marks + length marks + sum_by (leaving.look_ups g marks) marks + sum_by (λ a. length (links_by a)) arrivals ≤ bound }
    ensures made { (g : Graph Item) (c edited f new : List Item) (edit : Edit) (marks own out : List ℕ) (fresh : List Item) (arrivals : List Arrival) (bound : ℕ) → AreTouchedOn g c edit marks own → AreOutgoing g marks out → IsGood c → IsFit c edit edited
        → IsWithSystem edited f → AreFresh c edited fresh → AreSurvivors f new → AreArrivals new (is_suspect g marks edit.added fresh) arrivals → IsBound c edit edited bound
        → seed_look_ups edit + sum_by (look_ups g.dependents) marks + length marks + sum_by (leaving.look_ups g marks) marks + sum_by (λ a. length (links_by a)) arrivals + sum_by (λ n. 1 + look_ups_with g n) out ≤ bound }
{}

/// What an item asks for is looked up with all that stands under it in six look-ups for each topic at most, and four for each item that is relevant
/// to the one that asks; rights that the system could grant stand under the topics too.
pub fn what_is_asked_for_takes_few_look_ups()
    ensures { (g : Graph Item) (c u part : List Item) → HasNoHelper c → IsWhole same.ghosts.eq g → IsFullBoard g c → IsWithin c u → IsWithin part u → (x : Item) (relevant : ℕ) (topics : List Topic) → HasRelevant u x relevant
        → AllPairs (λ s t. s ≢ t) topics → ((t : Topic) → Contains topics t → IsAskedFor part x t) → sum_by (λ t. under.look_ups g (topic_key t)) topics ≤ 6 * length topics + 4 * relevant }
{}

/// Where each suspect asks for few topics, each key that the suspects ask for is looked up once, with all that stands under it, in six
/// look-ups for each of these topics and four for each item that is relevant to a suspect.
pub fn what_suspects_ask_for_takes_few_look_ups()
    ensures { (g : Graph Item) (c u part : List Item) → HasNoHelper c → IsWhole same.ghosts.eq g → IsFullBoard g c → IsWithin c u → IsWithin part u → (suspects : List Item) (relevant : List ℕ) → AllZip (HasRelevant u) suspects relevant
        → (asks : ℕ → ℕ) → ((x : Item) (n : ℕ) (topics : List Topic) → Contains suspects x → HasRelevant u x n → AllPairs (λ s t. s ≢ t) topics → ((t : Topic) → Contains topics t → IsAskedFor part x t) → length topics ≤ asks n)
        → (keys : List Item) → AllPairs (λ j k. j ≢ k) keys → ((k : Item) → Contains keys k → IsAskedBy part suspects k) → sum_by (under.look_ups g) keys ≤ sum_by (λ n. 6 * asks n + 4 * n) relevant }
{}

/// The rights that the system could grant for a list in order are few on each of its objects and columns.
pub fn rights_for_a_part_are_few()
    ensures { (part rights : List Item) → IsInOrder part → AllPairs (λ x y. x ≢ y) rights → ((x : Item) → Contains rights x → IsSystemRight part x) → length rights ≤ sum_by granted_on part }
{}

/// An item of the catalogue asks for few topics over any part of what is spoken of, whether or not their parts stand: five squares of one
/// more than what is relevant to it. Tables, and rights by the system, look for needs that the part itself tells of.
pub fn topics_that_an_old_item_asks_for_are_few()
    ensures { (c u part : List Item) → IsGood c → IsWithin c u → IsWithin part u → (x : Item) → Contains c x → (¬ (IsBySystem x)) → ((o : Object) → x ≢ item.Table o) → (relevant : ℕ) → HasRelevant u x relevant
        → (topics : List Topic) → AllPairs (λ s t. s ≢ t) topics → ((t : Topic) → Contains topics t → Asks part x t) → length topics ≤ 5 * square relevant }
{}

/// The same of a right by the system, within three, where what the views and routines of the part need stands.
pub fn topics_that_a_right_by_the_system_asks_for_are_few()
    ensures { (u part : List Item) → IsInOrder part → IsWithin part u → NeedsStand u part → (x : Item) → IsBySystem x → (relevant : ℕ) → 0 < relevant → HasRelevant u x relevant
        → (topics : List Topic) → AllPairs (λ s t. s ≢ t) topics → ((t : Topic) → Contains topics t → Asks part x t) → length topics ≤ 5 * square relevant + 3 }
{}

/// Where nothing that is asked for is missing, what suspects ask for over their part is looked up, each key once, within the bound of the edit.
pub fn what_suspects_ask_for_is_within_the_bound()
    ensures { (g : Graph Item) (c edited : List Item) (edit : Edit) (bound : ℕ) → IsGood c → IsWhole same.ghosts.eq g → IsFullBoard g c → IsFit c edit edited → (b : IsBound c edit edited bound) (part suspects keys : List Item) → LacksNothing b.u part edit
        → ((x : Item) → Contains suspects x → IsSuspect b.u edit x) → AllPairs (λ j k. j ≢ k) keys → ((k : Item) → Contains keys k → IsAskedBy part suspects k) → sum_by (under.look_ups g) keys ≤ bound }
{}

/// And of each right that the system could grant for the part two keys are looked up within the bound.
pub fn rights_for_a_part_are_within_the_bound()
    ensures { (c edited : List Item) (edit : Edit) (bound : ℕ) → IsGood c → IsFit c edit edited → (b : IsBound c edit edited bound) (part rights : List Item) → LacksNothing b.u part edit
        → AllPairs (λ x y. x ≢ y) rights → ((x : Item) → Contains rights x → IsSystemRight part x) → 2 * length rights ≤ bound }
{}

/// A least part for suspects that are spoken of has nothing but these and what is relevant to them.
pub fn what_a_part_has_concerns_its_suspects()
    ensures { (g : Graph Item) (c edited : List Item) (edit : Edit) (marks own : List ℕ) (bound : ℕ) → AreTouchedOn g c edit marks own → IsGood c → IsFit c edit edited → (b : IsBound c edit edited bound) (suspects part asked : List Item)
        → HasAskedAll g marks suspects part asked → ((x : Item) → Contains suspects x → IsSuspect b.u edit x)
        → (y : Item) → Contains part y → Contains b.u y × (IsSuspect b.u edit y ⊎ ((x : Item) × IsSuspect b.u edit x × Relevant b.u y x)) }
{}

/// To reach what an edit touches takes no more look-ups than its bound, however that is listed.
pub fn what_is_touched_is_reached_within_the_bound()
    ensures { (g : Graph Item) (c edited : List Item) (edit : Edit) (bound : ℕ) → IsGood c → IsWhole same.ghosts.eq g → IsFullBoard g c → IsFit c edit edited → IsBound c edit edited bound
        → (spent : ℕ) → ((marks : List ℕ) → AreTouched same.ghosts.eq g edit marks → spent ≤ seed_look_ups edit + sum_by (look_ups g.dependents) marks) → spent ≤ bound }
{}

/// Of what an edit touches on the board of its catalogue it can be told which numbers are no topics'.
pub fn what_is_touched_can_be_told_from_topics()
    ensures { (g : Graph Item) (c : List Item) (edit : Edit) (marks : List ℕ) → IsWhole same.ghosts.eq g → IsFullBoard g c → HasNoHelper c → IsWithin edit.target c → IsWithin edit.changed c → AreTouched same.ghosts.eq g edit marks
        → (own : List ℕ) × AreTouchedOn g c edit marks own }
{}

/// Where nothing is missing, all that it takes to make an edit ready is within its bound: what it touches is found, its keys are read, and its suspects are
/// judged (`judged`), then the plan is made (`planned`), and what goes out is read with its links (`made`).
pub fn what_an_edit_takes_is_within_the_bound()
    ensures judged { (g : Graph Item) (c edited : List Item) (edit : Edit) (marks own : List ℕ) (bound : ℕ) → AreTouchedOn g c edit marks own → IsGood c → IsFit c edit edited → (b : IsBound c edit edited bound) → MissesNothing b.u edit
        → (spent : ℕ) → JudgesWithin g c edit marks spent → seed_look_ups edit + sum_by (look_ups g.dependents) marks + length marks + spent ≤ bound }
    ensures planned { (g : Graph Item) (c edited f new : List Item) (edit : Edit) (marks own : List ℕ) (fresh : List Item) (arrivals : List Arrival) (bound : ℕ) → AreTouchedOn g c edit marks own → IsGood c → IsFit c edit edited → (b : IsBound c edit edited bound) → MissesNothing b.u edit
        → IsWithSystem edited f → AreFresh c edited fresh → AreSurvivors f new → AreArrivals new (is_suspect g marks edit.added fresh) arrivals → (spent : ℕ) → JudgesWithin g c edit marks spent
        → seed_look_ups edit + sum_by (look_ups g.dependents) marks + length marks + spent + sum_by (leaving.look_ups g marks) marks + sum_by (λ a. length (links_by a)) arrivals ≤ bound }
    ensures made { (g : Graph Item) (c edited f new : List Item) (edit : Edit) (marks own out : List ℕ) (fresh : List Item) (arrivals : List Arrival) (bound : ℕ) → AreTouchedOn g c edit marks own → AreOutgoing g marks out → IsGood c → IsFit c edit edited → (b : IsBound c edit edited bound) → MissesNothing b.u edit
        → IsWithSystem edited f → AreFresh c edited fresh → AreSurvivors f new → AreArrivals new (is_suspect g marks edit.added fresh) arrivals → (spent : ℕ) → JudgesWithin g c edit marks spent
        → seed_look_ups edit + sum_by (look_ups g.dependents) marks + length marks + spent + sum_by (leaving.look_ups g marks) marks + sum_by (λ a. length (links_by a)) arrivals + sum_by (λ n. 1 + look_ups_with g n) out ≤ bound }
{}
