//! Each law stands in the contract of a function that does nothing.

ghost use Rattle.std.specs.Prelude.{◌≡◌, ◌≤◌, ℕ, List, Bool};
ghost use Rattle.item_index.specs.Graphs.{AreLinks, Graph, IsWhole, with_spare};
ghost use Rattle.item_index.specs.Undo.{IsAsBefore};
ghost use Rattle.graph_steps.specs.Steps.{AreNodes};
ghost use Rattle.graph_changes.specs.Ends.{links_of};
ghost use Rattle.cat_items.specs.contracts.item.ItemPartialEq.TheImpl as same;
ghost use Rattle.cat_items.specs.declared.edit.Edit.{Edit};
ghost use Rattle.cat_items.specs.declared.item.Item.{Item};
ghost use Rattle.cat_items.specs.Catalogues.{IsInOrder};
ghost use Rattle.cat_items.specs.Edits.{IsNew};
ghost use Rattle.cat_items.specs.Survivors.{IsWithSystem};
ghost use Rattle.role_graph.specs.Marked.{marked};
ghost use Rattle.asked_parts.specs.Under.{AreApart};
ghost use Rattle.board_steps.specs.Plans.{IsPlanOf};
ghost use Rattle.board_plans.specs.declared.arrivals.Arrival.{Arrival};
ghost use Rattle.board_plans.specs.declared.plan.Plan.{Plan};
ghost use Rattle.board_plans.specs.Planning.{AreArrivals, CanPlan};
ghost use Rattle.board_changes.specs.Left.{IsAsLeft};
ghost use Rattle.board_changes.specs.Readiness.{IsPlanned};
ghost use Rattle.edit_suspects.specs.Seeds.{AreTouched};
ghost use Rattle.edit_suspects.specs.Suspects.{AreFresh, is_suspect};
ghost use Rattle.edit_arrivals.specs.Suspects.{IsFoundBy};
ghost use Rattle.revoke_cascade.specs.declared.cascade.Taken.{Taken};
ghost use Rattle.revoke_cascade.specs.Boards.{IsStillTaken, IsTaken};
ghost use Rattle.revoke_cascade.specs.Prepared.{AreJudged, AreKnown, IsEditOn, IsFoundOf};

/// What an edit touches are numbers with keys.
pub fn touched_numbers_are_nodes()
    ensures { (g : Graph Item) (edit : Edit) (marks : List ℕ) → IsWhole same.ghosts.eq g → AreTouched same.ghosts.eq g edit marks → AreNodes g marks }
{}

/// The rights that the system could grant for the edited list, and that neither stood nor could be granted before, can be
/// listed.
pub fn fresh_rights_can_be_listed()
    ensures { (g : Graph Item) (c edited f : List Item) (edit : Edit) → IsEditOn g c edited f edit → (fresh : List Item) × AreFresh c edited fresh }
{}

/// A list in order can be listed with the rights that the system could grant for it.
pub fn what_the_system_could_grant_can_be_listed()
    ensures { (c : List Item) → IsInOrder c → (all : List Item) × IsWithSystem c all }
{}

/// No suspect has the place of an item that keeps its number, in the order of items.
pub fn suspects_are_apart_from_what_is_kept()
    ensures { (g : Graph Item) (c edited f : List Item) (edit : Edit) (marks : List ℕ) (fresh suspects : List Item) → AreKnown g c edited f edit marks fresh suspects → AreApart g marks suspects }
{}

/// What is rescued of the part is all that rounds over it have to find for the new catalogue (`by`): that has what was
/// found, and of the old catalogue what the edit leaves and what is no suspect (`members`). There is such a catalogue (`new`).
pub fn what_a_cascade_finds_stands()
    ensures by { (g : Graph Item) (c edited f : List Item) (edit : Edit) (marks : List ℕ) (fresh suspects part : List Item) (rescue : List Bool) (judged : AreJudged g c edited f edit marks fresh suspects part rescue)
        → (new : List Item) → IsNew c edit new → IsFoundBy c judged.known.on.good.all edited f edit (is_suspect g marks edit.added fresh) part (marked part rescue) new }
    ensures members { (g : Graph Item) (c edited f : List Item) (edit : Edit) (marks : List ℕ) (fresh suspects part : List Item) (rescue : List Bool) → AreJudged g c edited f edit marks fresh suspects part rescue
        → (new : List Item) → IsNew c edit new → IsFoundOf c edit suspects (marked part rescue) new }
    ensures new { (g : Graph Item) (c edited f : List Item) (edit : Edit) (marks : List ℕ) (fresh suspects part : List Item) (rescue : List Bool) → AreJudged g c edited f edit marks fresh suspects part rescue → (new : List Item) × IsNew c edit new }
{}

/// With what arrives for the suspects of the new catalogue, a plan for what is touched can be made (`can`), and carries the
/// board of the old catalogue over to that of the new one (`planned`).
pub fn what_is_prepared_can_be_planned()
    ensures can { (g : Graph Item) (c edited f : List Item) (edit : Edit) (marks : List ℕ) (fresh suspects part : List Item) (rescue : List Bool) → AreJudged g c edited f edit marks fresh suspects part rescue
        → (new : List Item) → IsNew c edit new → (arrivals : List Arrival) → AreArrivals new (is_suspect g marks edit.added fresh) arrivals → CanPlan same.ghosts.eq g c new (is_suspect g marks edit.added fresh) marks arrivals }
    ensures planned { (g : Graph Item) (c new : List Item) (suspect : Item → Bool) (marks : List ℕ) (arrivals : List Arrival) (plan : Plan) → CanPlan same.ghosts.eq g c new suspect marks arrivals
        → IsPlanOf g c new suspect plan.out.items plan.keys.items (links_of g plan.out.items plan.keys.items plan.links.items) → IsPlanned same.ghosts.eq g c new suspect plan }
{}

/// A run can be taken back at once (`at_once`), and still later, as long as the board is as the run left it (`later`): so it is where room was made
/// in it (`roomier`), and where it is as before, since a later run was taken back (`as_before`).
pub fn a_run_can_still_be_taken_back()
    ensures at_once { (before after : Graph Item) (c : List Item) (taken : Taken) → IsTaken before c after taken → IsStillTaken before c after taken }
    ensures later { (before was now : Graph Item) (c : List Item) (taken : Taken) → IsStillTaken before c was taken → IsAsLeft was now → IsStillTaken before c now taken }
    ensures roomier { (g : Graph Item) (keys links : ℕ) → g.spare_keys ≤ keys → g.spare_links ≤ links → IsAsLeft g (with_spare g keys links) }
    ensures as_before { (g back : Graph Item) (links : List (ℕ × ℕ)) → AreLinks g links → IsAsBefore g back links → IsAsLeft g back }
{}
