//! The part of an entry that a crash leaves. Zeros may follow it.

ghost use Rattle.std.specs.Prelude.{◌≡◌, ◌==◌, ◌+◌, ◌≤◌, ◌<◌, ◌⊎◌, ◌↔◌, ◌++◌, ℕ, List, [], true, false, drop, get_or, length, replicate, take};
ghost use Rattle.std.specs.List.{list_all};
ghost use Rattle.tpm_journal_text.specs.Entry.{IsEntry, PlainEntry, entry_text};
ghost use Rattle.tpm_journal_text.specs.Journal.{HasFewer, IsDamaged, IsTorn};

/// Whether all bytes are zeros.
fn are_zeros(bytes: &[u8]) -> bool
    ensures { result ≡ list_all (λ byte. byte == 0) bytes.now }
{
    bytes.iter().all(|byte| *byte == 0)
}

/// Whether `text` has fewer than `size` bytes, not counting the zeros at its end.
pub(crate) fn has_fewer(text: &[u8], size: usize) -> bool
    requires { 0 < size }
    ensures yes { result ≡ true → HasFewer size text.now }
    ensures no { result ≡ false → HasFewer size text.now → ⊥ }
    ensures long { result ≡ false → size ≤ length text.now }
{
    if text.len() < size {
        return true;
    }
    let (_, end) = text.split_at(size - 1);
    are_zeros(end)
}

/// Whether a line of an entry ends at an offset. Offsets are counted from the end of the mark's
/// line.
fn is_line_end(place: usize, drawn_end: usize) -> bool
    ensures { result ≡ true ↔ ((place ≡ 15) ⊎ ((place ≡ 21) ⊎ (place ≡ drawn_end))) }
{
    place == 15 || place == 21 || place == drawn_end
}

/// Whether each line feed ends a line of an entry. Offsets are counted from the end of the mark's
/// line; the line for the entry's random bytes ends at `drawn_end`.
pub(crate) fn lines_end(lines: &[u8], drawn_end: usize) -> bool
    ensures yes { result ≡ true → (place : ℕ) → get_or lines.now place 0 ≡ 10
        → (place ≡ 15) ⊎ ((place ≡ 21) ⊎ (place ≡ drawn_end)) }
    ensures no { result ≡ false → ((place : ℕ) → get_or lines.now place 0 ≡ 10
        → (place ≡ 15) ⊎ ((place ≡ 21) ⊎ (place ≡ drawn_end))) → ⊥ }
{
    for place in 0..lines.len() {
        if lines[place] == b'\n' && !is_line_end(place, drawn_end) {
            return false;
        }
    }
    true
}

/// What a crash leaves of an entry is torn: nothing, or a prefix, possibly followed by zeros. Torn
/// input stays torn if another crash truncates it or adds zeros. A complete entry is not torn. If
/// any byte of an entry except the last is removed, the entry is damaged. The function does nothing
/// at run time.
#[inline(always)]
pub fn torn_laws()
    ensures nothing { (sum : ℕ) → IsTorn sum [] }
    ensures entry { (sum : ℕ) (e : PlainEntry) (size zeros : ℕ) → IsEntry e
        → size < length (entry_text sum e)
        → IsTorn sum (take size (entry_text sum e) ++ replicate zeros 0) }
    ensures again { (sum : ℕ) (text : List ℕ) (size zeros : ℕ) → IsTorn sum text
        → IsTorn sum (take size text ++ replicate zeros 0) }
    ensures no_entry { (sum : ℕ) (e : PlainEntry) (rest : List ℕ) → IsEntry e
        → IsTorn sum (entry_text sum e ++ rest) → ⊥ }
    ensures left_out { (sum : ℕ) (e : PlainEntry) (place : ℕ) → IsEntry e
        → place + 1 < length (entry_text sum e)
        → IsDamaged sum (take place (entry_text sum e) ++ drop (place + 1) (entry_text sum e)) }
{}
