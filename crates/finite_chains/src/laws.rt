ghost use Rattle.std.specs.Prelude.{◌≡◌, ◌<◌, ◌↔◌, ℕ, Bool, true, false, List, [], length, All};
ghost use Rattle.std.specs.List.{Contains, sum_by};
ghost use Rattle.finite_chains.specs.Chains.{Agree, HasSurvivors, IsClosed, IsMonotone, Survives};
ghost use Rattle.finite_chains.specs.Changes.{LawsOfChange, IsRescued};
ghost use Rattle.finite_chains.specs.Growth.{IsTest, grown};
ghost use Rattle.finite_chains.specs.LinkSums.{hits, sum_below};
ghost use Rattle.finite_chains.specs.StrictOrder.{IsRising};

/// A relation of support: whether the items of a list support an item.
pub trait Support {
    ghost use Rattle.std.specs.Prelude.{List};

    type Item;

    ghost supports: { List Self.Item → Self.Item → Type 0 };
}

/// A change of a list: how items were supported before and are supported after it, and which item
/// concerns the support of which.
pub trait Change {
    ghost use Rattle.std.specs.Prelude.{Bool, List};

    type Item;

    ghost before: { List Self.Item → Self.Item → Type 0 };

    ghost after: { List Self.Item → Self.Item → Type 0 };

    ghost concerns: { Self.Item → Self.Item → Type 0 };

    ghost suspect: { Self.Item → Bool };
}

/// Where each item that is found survives, and what is found supports nothing further, all survivors are
/// found: so rounds that add what is supported, until nothing is added, find exactly the survivors.
pub fn rounds_find_survivors<S: Support>()
    ensures { IsMonotone S.supports → (items found : List S.Item) → All (Survives S.supports items) found → IsClosed S.supports items found
        → HasSurvivors S.supports items found }
{}

/// Survivors as a computation: a chain that grows by one supported item after the other, at most as often as
/// there are items, has exactly the survivors.
pub fn growing_chains_find_survivors<S: Support>()
    ensures { IsMonotone S.supports → (test : List S.Item → S.Item → Bool) → IsTest S.supports test → (items : List S.Item)
        → HasSurvivors S.supports items (grown test (length items) items []) }
{}

/// A part of a list that has all survivors of the list has them as its own, where support in both agrees: so
/// the survivors of the survivors are the survivors.
pub fn survivors_of_survivors<S: Support, P: Support<Item = S::Item>>()
    ensures { (items part found : List S.Item) → Agree S.supports P.supports items part found → HasSurvivors S.supports items found
        → HasSurvivors P.supports part found }
{}

/// Items each of which is supported only together with another of them don't survive: a circle that nothing
/// outside supports doesn't keep itself.
pub fn a_circle_falls<S: Support>()
    ensures { (circle : S.Item → Bool) → ((support : List S.Item) (x : S.Item) → circle x ≡ true → S.supports support x
        → (y : S.Item) × Contains support y × (circle y ≡ true)) → (items : List S.Item) (x : S.Item) → circle x ≡ true → ¬ (Survives S.supports items x) }
{}

/// The first half of a change: an item that the change doesn't concern goes on to survive.
pub fn a_change_keeps_what_it_does_not_concern<C: Change>()
    ensures { (known old new : List C.Item) → LawsOfChange C.before C.after C.concerns C.suspect known old new → IsMonotone C.after
        → (x : C.Item) → Contains old x → C.suspect x ≡ false → Survives C.after new x }
{}

/// The second half, and with it the whole: where the items that aren't concerned stand on, each item that
/// stands survives, and what stands supports no further concerned item, exactly the survivors stand.
pub fn rescue_finds_survivors<C: Change>()
    ensures { (known old new standing : List C.Item) → LawsOfChange C.before C.after C.concerns C.suspect known old new → IsMonotone C.after
        → IsMonotone C.before → IsRescued C.after C.suspect old new standing → HasSurvivors C.after new standing }
{}

/// Two lists in strict order that have the same members are equal.
pub fn members_settle_a_list_in_order<T: Ord>()
    ensures { (xs ys : List T) → IsRising T.cmp xs → IsRising T.cmp ys → ((x : T) → Contains xs x ↔ Contains ys x) → xs ≡ ys }
{}

/// A sum over all links from `y` to `x` of what `x` counts, where the links stand with the `y`, is the sum
/// over all `x` of what each counts for all `y`.
pub fn links_count_alike_from_either_end()
    ensures { (counts : ℕ → ℕ) (links : ℕ → List ℕ) (bound : ℕ) (nodes : List ℕ) → ((y x : ℕ) → Contains nodes y → Contains (links y) x → x < bound)
        → sum_by (λ y. sum_by counts (links y)) nodes ≡ sum_below (λ x. sum_by (λ y. hits counts (links y) x) nodes) bound }
{}
