//! Numbers filed by the hashes of their keys.

ghost use Rattle.std.specs.Prelude.{◌≡◌, ◌<◌, ◌≤◌, ◌+◌, ◌%◌, ◌^◌, ℕ, true, false, [], replicate, length, slice_get, IfSome, IfNone, IfOk, OnOk, Some, All, slice_index};
ghost use Rattle.item_index.specs.Filing.{AreFiled, hash_by};

use crate::lists::Lists;
use std::alloc::{AllocError, Global};
use std::hash::{BuildHasher, Hash};

/// The list in which a key is filed, of so many.
pub(crate) fn file_of<K: Hash, S: BuildHasher>(hasher: &S, key: &K, count: usize) -> usize
    requires { 0 < count }
    ensures value { result ≡ hash_by S.BuildHasher S.Hasher.Hasher hasher.now (K.hash_input key.now) % count }
    ensures within { result < count }
{
    (hasher.hash_one(key) % count as u64) as usize
}

/// The number among these whose key equals a key.
pub(crate) fn find<K: Eq>(keys: &[Option<K>], numbers: &[u32], key: &K) -> Option<usize>
    requires { All (λ n. n < length keys.now) numbers.now }
    ensures some { IfSome result (λ n. (k : K) × (slice_get keys.now n ≡ Some (Some k)) × (K.eq key.now k ≡ true)) }
    ensures none { IfNone result ((j : ℕ) (k : K) → j < length numbers.now → slice_get keys.now (slice_index numbers.now j) ≡ Some (Some k) → K.eq key.now k ≡ false) }
{
    for number in numbers {
        let at = *number as usize;
        if let Some(other) = &keys[at] {
            if key == other {
                return Some(at);
            }
        }
    }
    None
}

/// Files that are empty, so many, with room for so many numbers. `Err` is want of memory.
fn empty_files(alloc: Global, count: usize, room: usize) -> Result<Lists, AllocError>
    ensures lists { IfOk result (λ s. s.lists ≡ replicate count []) }
    ensures spare { IfOk result (λ s. room ≤ s.spare) }
{
    let mut files = Lists::new(alloc);
    files.reserve_lists(count)?;
    files.reserve(room)?;
    for _ in 0..count {
        files.push_list();
    }
    Ok(files)
}

/// Files the numbers of these keys, in so many files with room for so many numbers in all. `Err` is want of
/// memory.
pub(crate) fn file_all<K: Hash, S: BuildHasher>(
    alloc: Global,
    hasher: &S,
    keys: &[Option<K>],
    count: usize,
    room: usize,
) -> Result<Lists, AllocError>
    requires count { 0 < count }
    requires room { length keys.now ≤ room }
    requires numbers { length keys.now ≤ 2 ^ 32 }
    ensures filed { IfOk result (λ s. AreFiled (λ k. hash_by S.BuildHasher S.Hasher.Hasher hasher.now (K.hash_input k)) keys.now s.lists) }
    ensures count { IfOk result (λ s. length s.lists ≡ count) }
    ensures spare { IfOk result (λ s. room ≤ s.spare + length keys.now) }
{
    let mut files = empty_files(alloc, count, room)?;
    for (number, key) in keys.iter().enumerate() {
        if let Some(key) = key {
            files.push(file_of(hasher, key, count), number as u32);
        }
    }
    Ok(files)
}

/// Makes room among the files for so many more numbers: in new files, where those there have no room. `Err` is
/// want of memory.
pub(crate) fn refile<K: Hash, S: BuildHasher>(
    alloc: Global,
    hasher: &S,
    keys: &[Option<K>],
    files: &mut Lists,
    more: usize,
) -> Result<(), AllocError>
    requires filed { AreFiled (λ k. hash_by S.BuildHasher S.Hasher.Hasher hasher.now (K.hash_input k)) keys.now files.old.lists }
    requires some { 0 < length files.old.lists }
    requires numbers { length keys.now + more ≤ 2 ^ 32 }
    ensures filed { AreFiled (λ k. hash_by S.BuildHasher S.Hasher.Hasher hasher.now (K.hash_input k)) keys.now files.new.lists }
    ensures some { 0 < length files.new.lists }
    ensures grown { files.old.spare ≤ files.new.spare }
    ensures ok { OnOk result (more ≤ files.new.spare) }
{
    if more <= files.spare() {
        return Ok(());
    }
    let room = keys.len() + more;
    *files = file_all(alloc, hasher, keys, room, room)?;
    Ok(())
}
