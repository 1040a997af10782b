//! Each law stands in the contract of a function that does nothing.

ghost use Rattle.std.specs.Prelude.{◌≡◌, ◌≢◌, ◌↔◌, ◌⊎◌, ◌+◌, ◌*◌, ◌<◌, ◌≤◌, ℕ, List, length};
ghost use Rattle.std.specs.List.{AllPairs, Contains, count_by, sum_by};
ghost use Rattle.finite_chains.specs.Chains.{IsWithin};
ghost use Rattle.sql_names.specs.declared.object.Object.{Object};
ghost use Rattle.cat_items.specs.declared.edit.Edit.{Edit};
ghost use Rattle.cat_items.specs.declared.item.Item.{Item};
ghost use Rattle.cat_items.specs.declared.item.Item.TheVariants as item;
ghost use Rattle.cat_items.specs.declared.item.Column.{Column};
ghost use Rattle.cat_items.specs.declared.item.Right.{Right};
ghost use Rattle.cat_items.specs.declared.item.Routine.{Routine};
ghost use Rattle.cat_items.specs.declared.item.View.{View};
ghost use Rattle.cat_items.specs.declared.need.Auth.TheVariants.{System};
ghost use Rattle.cat_items.specs.declared.need.Need.{Need};
ghost use Rattle.cat_items.specs.Bound.{HasRelevant, IsBound, IsSpokenOf, IsSuspect, Lists, square};
ghost use Rattle.cat_items.specs.Catalogues.{IsInOrder};
ghost use Rattle.cat_items.specs.Fit.{IsFit};
ghost use Rattle.cat_items.specs.Good.{IsGood};
ghost use Rattle.cat_items.specs.Relevant.{Relevant};
ghost use Rattle.cat_items.specs.Shape.{HasDerivedFields, HasShape};
ghost use Rattle.cat_items.specs.Supported.{Supported};
ghost use Rattle.cat_items.specs.Survivors.{AreSurvivors, IsSystemRight};
ghost use Rattle.cascade_laws.specs.Asks.{Asks};
ghost use Rattle.cascade_laws.specs.Topics.{DependsOn, IsUnder, Topic};
ghost use Rattle.look_up_bound.specs.LookUps.{look_ups};
ghost use Rattle.look_up_bound.specs.PossibleRights.{IsBySystem, IsRightOn, leads_on, right_look_ups, rights_on};
ghost use Rattle.look_up_bound.specs.TopicParts.{HasParts, MayLackParts};
ghost use Rattle.look_up_bound.specs.Touched.{IsPaidBy, IsPaidFor, IsTouched};

/// What stands under a topic that an item asks for is relevant to the item.
pub fn what_stands_under_a_topic_asked_for_is_relevant()
    ensures { (u c : List Item) → IsWithin c u → (x y : Item) (t : Topic) → Asks c x t → IsUnder t y → Relevant u y x }
{}

/// Of the topics that an item asks for, in a list of what is spoken of, those whose parts stand are few: three less than five
/// squares of one more than what is relevant to the item.
pub fn topics_asked_for_are_few()
    ensures { (u c : List Item) (x : Item) (n : ℕ) (topics : List Topic) → IsWithin c u → HasRelevant u x n → AllPairs (λ s t. s ≢ t) topics
        → ((t : Topic) → Contains topics t → Asks c x t × HasParts u t) → length topics + 3 ≤ 5 * square n }
{}

/// The same of the topics that an item depends on.
pub fn topics_depended_on_are_few()
    ensures { (u c : List Item) (x : Item) (n : ℕ) (topics : List Topic) → IsWithin c u → HasRelevant u x n → AllPairs (λ s t. s ≢ t) topics
        → ((t : Topic) → Contains topics t → DependsOn c x t × HasParts u t) → length topics + 3 ≤ 5 * square n }
{}

/// The same of a right by the system to which something is relevant, whether or not the parts stand.
pub fn topics_of_a_right_by_the_system_are_few()
    ensures { (u c : List Item) → IsInOrder c → IsWithin c u → (x : Item) (n : ℕ) (topics : List Topic) → IsBySystem x → HasRelevant u x n → 0 < n
        → AllPairs (λ s t. s ≢ t) topics → ((t : Topic) → Contains topics t → DependsOn c x t) → length topics + 3 ≤ 5 * square n }
{}

/// The same of all that a table asks for.
pub fn topics_that_a_table_asks_for_are_few()
    ensures { (u c : List Item) (table : Object) (n : ℕ) (topics : List Topic) → IsWithin c u → HasRelevant u (item.Table table) n → AllPairs (λ s t. s ≢ t) topics
        → ((t : Topic) → Contains topics t → Asks c (item.Table table) t) → length topics + 3 ≤ 5 * square n }
{}

/// The parts of each topic stand that an item depends on among survivors, as in a good catalogue or a new one; for a right by the
/// system these are to have a catalogue's shape.
pub fn what_is_depended_on_stands()
    ensures { (items survivors u : List Item) → AreSurvivors items survivors → IsWithin survivors u → ((x : Item) → Contains survivors x → HasDerivedFields x)
        → (x : Item) (t : Topic) → Contains survivors x → (IsBySystem x → HasShape survivors) → DependsOn survivors x t → HasParts u t }
{}

/// The parts of each topic stand that an item asks for which all of a list supports, but for what it can do without. So where the
/// parts of another topic don't stand, the list doesn't support the item.
pub fn what_is_asked_for_stands()
    ensures { (f : List Item) (x : Item) → Contains f x → HasDerivedFields x → Supported f f x → (t : Topic) → Asks f x t → HasParts f t ⊎ MayLackParts f x t }
{}

/// What stands under the topics that an item asks for, counted for each of these, is at most twice what is relevant to the item.
pub fn items_under_topics_asked_for_are_few()
    ensures { (u c : List Item) (x : Item) (n : ℕ) (topics : List Topic) (under : Topic → List Item) → IsWithin c u → HasRelevant u x n → AllPairs (λ s t. s ≢ t) topics
        → ((t : Topic) → Contains topics t → AllPairs (λ y z. y ≢ z) (under t)) → ((t : Topic) (y : Item) → Contains topics t → Contains (under t) y → Asks c x t × Contains u y × IsUnder t y)
        → sum_by (λ t. length (under t)) topics ≤ 2 * n }
{}

/// What an edit touches is a suspect, or a right by the system whose object or column is a suspect, where it can be told what of the
/// catalogue the edit destroys and changes.
pub fn what_is_touched_is_suspect_or_paid_for()
    ensures { (u c : List Item) (edit : Edit) (edited : List Item) → IsFit c edit edited → ((y : Item) → Contains u y ↔ IsSpokenOf c edit edited y) → ((y : Item) → Contains c y → Contains edit.target y ⊎ (¬ (Contains edit.target y))) → ((y : Item) → Contains c y → Contains edit.changed y ⊎ (¬ (Contains edit.changed y)))
        → (x : Item) → IsTouched c edit edited x → (Contains u x × IsSuspect u edit x) ⊎ IsPaidFor u c edit x }
{}

/// A right by the system depends on six topics at most, and on two for each schema and role
/// authorization that is relevant to what it is on: its object, or its column.
pub fn topics_of_a_right_that_is_paid_for_are_few()
    ensures { (c u : List Item) → HasShape c → IsWithin c u → (r : Right) → r.grantor ≡ System → (on : Item) → IsRightOn r on → (relevant : List Item) → Lists (λ y. Contains u y × Relevant u y on) relevant
        → (x : Item) → (x ≡ item.Held r) ⊎ (x ≡ item.Grantable r) → (topics : List Topic) → AllPairs (λ s t. s ≢ t) topics → ((t : Topic) → Contains topics t → DependsOn c x t) → length topics ≤ 2 * count_by leads_on relevant + 6 }
{}

/// Rights that the system could grant and that don't stand in a good catalogue cost no more than this of what pays for them.
pub fn rights_that_are_paid_for_are_few()
    ensures { (c : List Item) → IsGood c → (rights payers : List Item) (payer : Item → Item) (cost : Item → ℕ) → AllPairs (λ x y. x ≢ y) rights
        → ((x : Item) → Contains rights x → IsSystemRight c x × (¬ (Contains c x)) × IsPaidBy c (payer x) x × Contains payers (payer x)) → sum_by (λ x. cost (payer x)) rights ≤ sum_by (λ p. rights_on p * cost p) payers }
{}

/// The look-ups of one suspect, which asks for one topic at most whose parts don't stand, are within 64 squares of one
/// more than what is relevant to it.
pub fn look_ups_of_a_suspect_are_few()
    ensures { (n asked before after rights : ℕ) → asked + 2 ≤ 5 * square n → before ≤ asked → after ≤ asked → rights ≤ 20 → (n ≡ 0 → rights ≡ 0) → look_ups n asked before after rights ≤ 64 * square n }
{}

/// Where what each suspect costs is so, what some of them cost is within the bound of the edit.
pub fn look_ups_are_within_the_bound()
    ensures { (c edited : List Item) (edit : Edit) (bound : ℕ) (b : IsBound c edit edited bound) (cost : Item → ℕ) → ((x : Item) (n : ℕ) → Contains b.suspects x → HasRelevant b.u x n → cost x ≤ 64 * square n)
        → (some : List Item) → AllPairs (λ x y. x ≢ y) some → IsWithin some b.suspects → sum_by cost some ≤ bound }
{}

/// The same with the look-ups of rights that the system could grant, that don't stand, and that some of the suspects pay for.
pub fn look_ups_with_rights_are_within_the_bound()
    ensures { (c edited : List Item) (edit : Edit) (bound : ℕ) → IsGood c → (b : IsBound c edit edited bound) (own right : Item → ℕ) → ((x : Item) (n : ℕ) → Contains b.suspects x → HasRelevant b.u x n → own x ≤ 64 * square n)
        → (payers : List Item) → AllPairs (λ x y. x ≢ y) payers → IsWithin payers b.suspects → ((x : Item) (n : ℕ) → Contains payers x → HasRelevant b.u x n → own x + rights_on x * right x ≤ 64 * square n)
        → (some rights : List Item) (payer : Item → Item) → AllPairs (λ x y. x ≢ y) some → IsWithin some b.suspects → AllPairs (λ x y. x ≢ y) rights
        → ((x : Item) → Contains rights x → IsSystemRight c x × (¬ (Contains c x)) × IsPaidBy c (payer x) x × Contains payers (payer x)) → sum_by own some + sum_by (λ x. right (payer x)) rights ≤ bound }
{}

/// A view needs something where a right on it doesn't stand that the system could grant.
pub fn a_view_that_pays_needs_something()
    ensures { (c : List Item) → IsGood c → (x : Item) (v : View) → IsSystemRight c x → (¬ (Contains c x)) → IsPaidBy c (item.View v) x → (need : Need) × Contains v.needs need }
{}

/// A view that stands and needs something pays, with its own look-ups, for those of eight rights on it that the system could grant.
pub fn a_view_pays_for_rights_on_it()
    ensures { (c u part : List Item) → IsGood c → IsWithin c u → IsWithin part u → (relevant : List Item) (topics : List Topic) → AllPairs (λ s t. s ≢ t) topics
        → (asked before after rights : ℕ) → asked ≤ length topics + 1 → before ≤ asked → after ≤ asked → rights ≤ 20
        → (v : View) → Contains c (item.View v) → (need : Need) → Contains v.needs need → Lists (λ y. Contains u y × Relevant u y (item.View v)) relevant → ((t : Topic) → Contains topics t → Asks part (item.View v) t × HasParts u t)
        → look_ups (length relevant) asked before after rights + 8 * right_look_ups (count_by leads_on relevant) ≤ 64 * square (length relevant) }
{}

/// The same of a column and six rights on it.
pub fn a_column_pays_for_rights_on_it()
    ensures { (c u part : List Item) → IsGood c → IsWithin c u → IsWithin part u → (relevant : List Item) (topics : List Topic) → AllPairs (λ s t. s ≢ t) topics
        → (asked before after rights : ℕ) → asked ≤ length topics + 1 → before ≤ asked → after ≤ asked → rights ≤ 20
        → (k : Column) → Contains c (item.Column k) → Lists (λ y. Contains u y × Relevant u y (item.Column k)) relevant → ((t : Topic) → Contains topics t → Asks part (item.Column k) t × HasParts u t)
        → look_ups (length relevant) asked before after rights + 6 * right_look_ups (count_by leads_on relevant) ≤ 64 * square (length relevant) }
{}

/// The same of a routine and two rights on it.
pub fn a_routine_pays_for_rights_on_it()
    ensures { (c u part : List Item) → IsGood c → IsWithin c u → IsWithin part u → (relevant : List Item) (topics : List Topic) → AllPairs (λ s t. s ≢ t) topics
        → (asked before after rights : ℕ) → asked ≤ length topics + 1 → before ≤ asked → after ≤ asked → rights ≤ 20
        → (r : Routine) → Contains c (item.Routine r) → Lists (λ y. Contains u y × Relevant u y (item.Routine r)) relevant → ((t : Topic) → Contains topics t → Asks part (item.Routine r) t × HasParts u t)
        → look_ups (length relevant) asked before after rights + 2 * right_look_ups (count_by leads_on relevant) ≤ 64 * square (length relevant) }
{}
