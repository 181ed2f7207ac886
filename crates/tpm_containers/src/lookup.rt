//! Searches in entries that are in ascending order of key. Both types of map share this code.

ghost use Rattle.std.specs.Prelude.{◌≡◌, ◌<◌, ◌≤◌, ◌==◌, ℕ, IfNone, IfSome, Some, insert, is_some, length, nat_le, option_copied, position, remove, slice_index_or, slice_set};
ghost use Rattle.tpm_containers.specs.SortedMap.{at_key, changed_key, key_from, with_key, without_key};

/// The index of the first entry with this key.
fn first_with<T>(entries: &[(u32, T)], key: u32) -> Option<usize>
    ensures value { result ≡ position (λ e. e.0 == key) entries.now }
    ensures within { IfSome result (λ i. i < length entries.now) }
{
    entries.iter().position(|entry| entry.0 == key)
}

/// The index of the first entry whose key is at least `key`.
fn first_from<T>(entries: &[(u32, T)], key: u32) -> Option<usize>
    ensures value { result ≡ position (λ e. nat_le key e.0) entries.now }
    ensures within { IfSome result (λ i. i < length entries.now) }
{
    entries.iter().position(|entry| key <= entry.0)
}

/// The value of this key.
#[tactic(auto, using(crate::proofs::KeyIndex::at_key_position, crate::proofs::KeyIndex::at_key_absent))]
pub(crate) fn value_at<T>(entries: &[(u32, T)], key: u32) -> Option<&T>
    ensures { option_copied result ≡ at_key entries.now key }
{
    let index = first_with(entries, key)?;
    Some(&entries[index].1)
}

/// The lowest key among the entries that is at least `key`.
#[tactic(auto, using(crate::proofs::KeyIndex::key_from_position, crate::proofs::KeyIndex::key_from_none))]
pub(crate) fn key_at<T>(entries: &[(u32, T)], key: u32) -> Option<u32>
    ensures { result ≡ key_from entries.now key }
{
    let index = first_from(entries, key)?;
    Some(entries[index].0)
}

/// The index of the entry with this key. Reading, writing or removing that entry reads, writes or
/// removes the key's value.
#[tactic(auto, using(crate::proofs::KeyIndex::remove_position, crate::proofs::KeyIndex::without_absent))]
pub(crate) fn index_of<T>(entries: &[(u32, T)], key: u32) -> Option<usize>
    ensures there { is_some result ≡ is_some (at_key entries.now key) }
    ensures within { IfSome result (λ i. i < length entries.now) }
    ensures read { IfSome result (λ i. (e : ℕ × T) → slice_index_or entries.now i e ≡ e
        → at_key entries.now key ≡ Some e.1) }
    ensures written { IfSome result (λ i. (e : ℕ × T) (x : T) → slice_index_or entries.now i e ≡ e
        → slice_set entries.now i (e.0, x) ≡ changed_key entries.now key x) }
    ensures removed { IfSome result (λ i. remove entries.now i ≡ without_key entries.now key) }
    ensures absent { IfNone result (without_key entries.now key ≡ entries.now) }
{
    first_with(entries, key)
}

/// The index at which to insert a key that is not among the entries yet.
#[tactic(auto, using(crate::proofs::KeyIndex::insert_position, crate::proofs::KeyIndex::insert_none))]
pub(crate) fn index_for<T>(entries: &[(u32, T)], key: u32) -> usize
    ensures within { result ≤ length entries.now }
    ensures put { (x : T) → insert entries.now result (key, x) ≡ with_key entries.now key x }
{
    match first_from(entries, key) {
        Some(index) => index,
        None => entries.len(),
    }
}
