//! The laws of maps whose entries have ascending keys.

ghost use Rattle.std.specs.Prelude.{◌≡◌, ◌⊎◌, ℕ, Bool, None, Some, map, option_map};
ghost use Rattle.tpm_containers.specs.IsSortedMap.{IsSortedMap};
ghost use Rattle.tpm_containers.specs.SortedMap.{Ascends, Entries, at_key, changed_key};
ghost use Rattle.tpm_containers.specs.SortedMap.{kept_entries, without_key};

/// Entries with ascending keys form a map. The laws say which values are found after a key was
/// inserted, removed or changed. They also say that the keys still ascend, how many there are, and
/// which key is the lowest at or above any given key. This function is only a proof: it has no
/// effect at run time.
#[inline(always)]
#[tactic(auto, using(crate::proofs::SortedMapLaws::is_map))]
pub fn sorted_map_laws<T>()
    ensures { IsSortedMap T }
{}

/// How a change of the map affects the value of each key. If a key is removed, or only some values
/// are kept, each key has the same value as before or no value. If a function `shown` does not
/// distinguish a value from its replacement, replacing the value does not change what `shown`
/// returns for any key. If all values change, each key has its changed value. This function is only
/// a proof: it has no effect at run time.
#[inline(always)]
#[tactic(auto, using(crate::proofs::FoundKeys::removed_or_same, crate::proofs::FoundKeys::kept_or_gone, crate::proofs::FoundKeys::changed_shows, crate::proofs::FoundKeys::all_changed_found))]
pub fn found_laws<T, V>()
    ensures removed { (es : Entries T) (key other : ℕ) → Ascends es
        → (at_key (without_key es key) other ≡ at_key es other)
        ⊎ (at_key (without_key es key) other ≡ None) }
    ensures kept { (stays : T → Bool) (es : Entries T) (key : ℕ) → Ascends es
        → (at_key (kept_entries stays es) key ≡ at_key es key)
        ⊎ (at_key (kept_entries stays es) key ≡ None) }
    ensures changed { (shown : T → V) (es : Entries T) (key : ℕ) (old new : T)
        → at_key es key ≡ Some old → shown new ≡ shown old → (other : ℕ)
        → option_map shown (at_key (changed_key es key new) other)
        ≡ option_map shown (at_key es other) }
    ensures all { (change : T → T) (es : Entries T) (key : ℕ)
        → at_key (map (λ e. (e.0, change e.1)) es) key ≡ option_map change (at_key es key) }
{}
