//! Names.

ghost use Rattle.std.specs.Prelude.{◌≡◌, ◌↔◌, ◌≤◌, ◌-◌, IfOk, IsSome, IfSome, IsTrue};
ghost use Rattle.std.specs.Ordering.{nat_cmp, eq_by_cmp, as_partial_cmp};
ghost use Rattle.std.specs.Cmp.Lexicographic.{slice_cmp};
ghost use Rattle.std.specs.Cmp.{partial_order_from_own_ties};
ghost use Rattle.std.specs.Cmp.Rules.{comparing};
ghost use Rattle.std.proofs.Common.{rules};
ghost use Rattle.std.specs.Hash.{same_Alike};
ghost use Rattle.sql_names.specs.Names.{IsName, name_eq-Decides};
ghost use Rattle.sql_names.specs.Fronts.{front_number, most, name_writes};

use std::alloc::{AllocError, Global};
use std::cmp::Ordering;
use std::hash::{Hash, Hasher};
use std::marker::Model;
use std::sync::Arc;

/// How many bytes of a name its number holds: the most for which there is room.
const FRONT: usize = 7;

/// What the copies of a name share. `front` is its first seven bytes as a number.
#[derive(Drop)]
struct Spelling {
    front: u64,
    text: String,
}

/// An SQL identifier: 1 to 128 bytes of UTF-8, after folding and undoubling.
///
/// Its bytes are shared, so a copy is a reference count. Order, equality and hash go by the bytes; where the first
/// seven tell two names apart, or a name has fewer, one comparison of numbers does.
#[derive(Drop)]
pub struct Name {
    shared: Arc<Spelling>,
}

const _: () = prove!(size_of::<Name>() == 8);

impl Model for Name {
    ghost use Rattle.std.specs.Prelude.{List, ℕ, string_bytes};
    ghost use Rattle.sql_names.specs.Names.{IsName};
    ghost use Rattle.sql_names.specs.Fronts.{IsFront};

    ghost Value = { List ℕ };

    ghost view = { λ n. string_bytes n.shared.value.text };

    ghost invariant = { λ n. IsName (string_bytes n.shared.value.text) × IsFront n.shared.value.front (string_bytes n.shared.value.text) };
}

/// The number `front` with `left` digits more, each for one byte: a byte more than itself, and 0 past the end.
fn front_of(front: u64, left: usize, bytes: &[u8]) -> u64
    requires { (left ≤ 7) × (front ≤ most (7 - left)) }
    ensures { result ≡ front_number front left bytes.now }
{
    if left == 0 {
        return front;
    }
    match bytes.split_first() {
        Some((first, after)) => front_of(front * 257 + *first as u64 + 1, left - 1, after),
        None => front_of(front * 257, left - 1, bytes),
    }
}

impl Name {
    /// The longest name, in bytes.
    pub const LONGEST: usize = 128;

    /// The name of these bytes, and `None` where they aren't one.
    pub fn of(alloc: Global, bytes: &[u8]) -> Result<Option<Name>, AllocError>
        ensures valid { IfOk result (λ found. IsSome found ↔ IsName bytes.now) }
        ensures name { IfOk result (λ found. IfSome found (λ n. n ≡ bytes.now)) }
    {
        if bytes.is_empty() || bytes.len() > Name::LONGEST {
            return Ok(None);
        }
        match str::from_utf8(bytes) {
            Ok(text) => {
                let front = front_of(0, FRONT, bytes);
                let text = String::from_str(alloc, text)?;
                let shared = Arc::new(alloc, Spelling { front, text })?;
                Ok(Some(Name { shared }))
            }
            Err(_) => Ok(None),
        }
    }

    /// Its bytes.
    pub fn bytes(&self) -> &[u8]
        ensures bytes { result.now ≡ self.now }
        ensures valid { IsName result.now }
    {
        self.shared.text.as_bytes()
    }

    /// Whether the two have the same bytes, as `==` says.
    pub fn same(&self, other: &Name) -> bool
        ensures { IsTrue result ↔ (self.now ≡ other.now) }
    {
        let (one, two) = (&*self.shared, &*other.shared);
        one.front == two.front && (one.text.len() < FRONT || one.text.as_str() == two.text.as_str())
    }

    /// An equal name, which shares the bytes. It takes no memory; `Err` is the end of the count of owners.
    pub fn copy(&self) -> Result<Name, AllocError>
        ensures { IfOk result (λ n. n ≡ self.now) }
    {
        let shared = Arc::try_clone(&self.shared)?;
        Ok(Name { shared })
    }
}

impl PartialEq for Name {
    ghost eq = { eq_by_cmp (slice_cmp nat_cmp) };

    ghost laws = { Prim.search (comparing, rules) };

    fn eq(&self, other: &Name) -> bool {
        self.cmp(other).is_eq()
    }
}

impl Eq for Name {
    ghost laws = { Prim.search (comparing, rules) };
}

impl PartialOrd for Name {
    ghost partial_cmp = { as_partial_cmp (slice_cmp nat_cmp) };

    ghost laws = { partial_order_from_own_ties (Prim.search (comparing, rules)) (Prim.search (comparing, rules)) };

    fn partial_cmp(&self, other: &Name) -> Option<Ordering> {
        Some(self.cmp(other))
    }
}

impl Ord for Name {
    ghost cmp = { slice_cmp nat_cmp };

    ghost total = { Prim.search (comparing, rules) };

    ghost matches_partial_cmp = { Prim.search (comparing, rules) };

    ghost matches_eq = { Prim.search (comparing, rules) };

    fn cmp(&self, other: &Name) -> Ordering {
        let (one, two) = (&*self.shared, &*other.shared);
        if one.front != two.front {
            return one.front.cmp(&two.front);
        }
        if one.text.len() < FRONT {
            return Ordering::Equal;
        }
        one.text.as_str().cmp(two.text.as_str())
    }
}

impl Hash for Name {
    ghost hash_input = { name_writes };

    ghost respects_eq = { (same_Alike name_writes name_eq-Decides).fed };

    fn hash<H: Hasher>(&self, state: &mut H) {
        let it = &*self.shared;
        state.write_u64(it.front);
        if it.text.len() >= FRONT {
            state.write(it.text.as_bytes());
        }
    }
}
