//! Each law stands in the contract of a function that does nothing.

ghost use Rattle.std.specs.Prelude.{◌≡◌, ◌≢◌, ◌++◌, ◌↔◌, ◌⊎◌, ℕ, List, [], cond, false, nat_eq, None};
ghost use Rattle.std.specs.List.{All, AllPairs, Contains, list_any, zip};
ghost use Rattle.item_index.specs.Graphs.{Graph, HasKey, IsNode, IsWhole, dependents_of, rests_of};
ghost use Rattle.item_index.specs.Shelves.{list_at};
ghost use Rattle.item_index.specs.Undo.{HaveKeys, inserted_all, key_at, linked_all, numbers_given, removed_all};
ghost use Rattle.graph_steps.specs.Steps.{AreNewKeys, AreNodes, HasLists, left_of};

/// Numbers that are removed have no key, and no links; the others keep their keys, and their links with one
/// another, in order.
pub fn what_removing_all_leaves<K>()
    ensures keys { (g : Graph K) (out : List ℕ) (n : ℕ) → key_at (removed_all g out) n ≡ cond (list_any (nat_eq n) out) None (key_at g n) }
    ensures rests { (g : Graph K) (out : List ℕ) (n : ℕ) → list_at (removed_all g out).rests n ≡ left_of out n (list_at g.rests n) }
    ensures dependents { (g : Graph K) (out : List ℕ) (n : ℕ) → list_at (removed_all g out).dependents n ≡ left_of out n (list_at g.dependents n) }
    ensures lists { (g : Graph K) (out : List ℕ) → HasLists g → HasLists (removed_all g out) }
{}

/// Numbers with keys, each named once, can be removed in turn, and what holds of each index holds then.
pub fn nodes_can_be_removed_in_turn<K: Eq>()
    ensures keys { (g : Graph K) (out : List ℕ) → AreNodes g out → AllPairs (λ m n. m ≢ n) out → (old : List K) × HaveKeys g out old }
    ensures whole { (g : Graph K) (out : List ℕ) (old : List K) → IsWhole K.eq g → HaveKeys g out old → IsWhole K.eq (removed_all g out) }
{}

/// Keys of which none equals one that is there, nor another of them, can be inserted in turn.
pub fn keys_can_be_inserted_in_turn<K: Eq>()
    ensures { (g : Graph K) (keys : List K) → IsWhole K.eq g → ((n : ℕ) (j k : K) → HasKey g n j → Contains keys k → K.eq k j ≡ false) → AllPairs (λ j k. K.eq k j ≡ false) keys → AreNewKeys K.eq g keys }
{}

/// Each key that is inserted has the number that it was given, which had no key and no links; all other keys, and
/// all links, stay.
pub fn what_inserting_all_adds<K: Eq>()
    ensures keys { (g : Graph K) (keys : List K) → IsWhole K.eq g → (n : ℕ) (k : K) → HasKey (inserted_all g keys) n k ↔ (HasKey g n k ⊎ Contains (zip (numbers_given g keys) keys) (n, k)) }
    ensures new { (g : Graph K) (keys : List K) → IsWhole K.eq g → (n : ℕ) → Contains (numbers_given g keys) n → (key_at g n ≡ None) × (list_at g.rests n ≡ []) × (list_at g.dependents n ≡ []) }
    ensures rests { (g : Graph K) (keys : List K) (n : ℕ) → list_at (inserted_all g keys).rests n ≡ list_at g.rests n }
    ensures dependents { (g : Graph K) (keys : List K) (n : ℕ) → list_at (inserted_all g keys).dependents n ≡ list_at g.dependents n }
    ensures lists { (g : Graph K) (keys : List K) → HasLists g → HasLists (inserted_all g keys) }
{}

/// Links between numbers with keys come behind those that there are, in order; keys stay.
pub fn what_linking_all_adds<K>()
    ensures keys { (g : Graph K) (links : List (ℕ × ℕ)) → (linked_all g links).keys ≡ g.keys }
    ensures rests { (g : Graph K) (links : List (ℕ × ℕ)) → HasLists g → All (λ l. IsNode g l.0 × IsNode g l.1) links → (n : ℕ) → list_at (linked_all g links).rests n ≡ list_at g.rests n ++ rests_of links n }
    ensures dependents { (g : Graph K) (links : List (ℕ × ℕ)) → HasLists g → All (λ l. IsNode g l.0 × IsNode g l.1) links → (n : ℕ) → list_at (linked_all g links).dependents n ≡ list_at g.dependents n ++ dependents_of links n }
    ensures lists { (g : Graph K) (links : List (ℕ × ℕ)) → HasLists g → HasLists (linked_all g links) }
{}
