//! Laws about what is read from a journal. Each function is a proof only: it has no effect at run
//! time.

ghost use Rattle.std.specs.Prelude.{◌≡◌, ◌<◌, ◌++◌, ℕ, List, [], Option, Some, None, Ok, Err, Decides, drop, false, length, take, true};
ghost use Rattle.std.specs.List.{AllByRecursion};
ghost use Rattle.tpm_journal.specs.Starting.{Start, Starts, StartsNot};
ghost use Rattle.tpm_journal.specs.declared.opening.OpenFault.{OpenFault};
ghost use Rattle.tpm_journal_text.specs.Entry.{IsEntry, PlainEntry, entry_text};
ghost use Rattle.tpm_journal_text.specs.Head.{HasHead};
ghost use Rattle.tpm_journal_text.specs.Journal.{Finds, IsDamaged, IsTorn, entries_text, sum_after_all};
ghost use Rattle.tpm_journal_text.specs.declared.reading.Next.{Next};
ghost use Rattle.tpm_kept_journal.specs.texts.EntriesAt.{after_entries, entries_at};
ghost use Rattle.tpm_kept_journal.specs.texts.EntryAt.{entry_at};
ghost use Rattle.tpm_kept_journal.specs.texts.HeadAt.{PlainHead, head_at, text_of_head};
ghost use Rattle.tpm_kept_journal.specs.texts.NextAt.{IsNext, PlainNext, next_at, plain_next};
ghost use Rattle.tpm_kept_journal.specs.texts.StartAt.{start_at};
ghost use Rattle.tpm_kept_journal.specs.texts.TornText.{is_litter, is_torn_text};

/// The bytes begin with the encoding of an entry exactly when `entry_at` returns this entry.
#[inline(always)]
pub fn entry_at_laws()
    ensures written { (sum : ℕ) (e : PlainEntry) (rest : List ℕ) → IsEntry e
        → entry_at sum (entry_text sum e ++ rest) ≡ Some e }
    ensures read { (sum : ℕ) (text : List ℕ) (e : PlainEntry) → entry_at sum text ≡ Some e
        → IsEntry e × (text ≡ entry_text sum e ++ drop (length (entry_text sum e)) text) }
    ensures none { (sum : ℕ) (text : List ℕ)
        → ((e : PlainEntry) (rest : List ℕ) → IsEntry e → text ≡ entry_text sum e ++ rest → ⊥)
        → entry_at sum text ≡ None }
{}

/// The bytes begin with the encoding of a head exactly when `head_at` returns this head.
#[inline(always)]
pub fn head_at_laws()
    ensures written { (h : PlainHead) (rest : List ℕ) → HasHead h.kind h.clock h.content
        → head_at (text_of_head h ++ rest) ≡ Some h }
    ensures read { (text : List ℕ) (h : PlainHead) → head_at text ≡ Some h
        → HasHead h.kind h.clock h.content
        × (text ≡ text_of_head h ++ drop (length (text_of_head h)) text) }
    ensures none { (text : List ℕ)
        → ((h : PlainHead) (rest : List ℕ) → HasHead h.kind h.clock h.content
        → text ≡ text_of_head h ++ rest → ⊥)
        → head_at text ≡ None }
{}

/// `is_torn_text` is true exactly for torn bytes.
#[inline(always)]
pub fn torn_text_laws()
    ensures { (sum : ℕ) (text : List ℕ) → Decides (is_torn_text sum text) (IsTorn sum text) }
{}

/// Every list of bytes begins with an entry, is torn, or is damaged, and only one of these is true.
/// The code that reads the bytes finds out which.
#[inline(always)]
pub fn next_at_laws()
    ensures is { (sum : ℕ) (text : List ℕ) → IsNext sum text (next_at sum text) }
    ensures only { (sum : ℕ) (text : List ℕ) (next : PlainNext) → IsNext sum text next
        → next_at sum text ≡ next }
    ensures found { (sum : ℕ) (text : List ℕ) (next : Next) → Finds sum text next
        → next_at sum text ≡ plain_next next }
{}

/// Bytes that begin with an entry are not torn. Bytes that are torn or damaged do not begin with an
/// entry.
#[inline(always)]
pub fn next_laws()
    ensures whole { (sum : ℕ) (e : PlainEntry) (rest text : List ℕ) → IsEntry e
        → text ≡ entry_text sum e ++ rest
        → (entry_at sum text ≡ Some e) × (is_torn_text sum text ≡ false) }
    ensures torn { (sum : ℕ) (text : List ℕ) → IsTorn sum text
        → (entry_at sum text ≡ None) × (is_torn_text sum text ≡ true) }
    ensures damaged { (sum : ℕ) (text : List ℕ) → IsDamaged sum text
        → (entry_at sum text ≡ None) × (is_torn_text sum text ≡ false) }
{}

/// What a crash can leave of an entry is torn: nothing; a proper prefix of the entry; or a prefix
/// of earlier torn bytes, followed by zeros.
#[inline(always)]
pub fn litter_laws()
    ensures nothing { (sum : ℕ) → is_torn_text sum [] ≡ true }
    ensures front { (sum : ℕ) (e : PlainEntry) (k : ℕ) → IsEntry e → k < length (entry_text sum e)
        → is_torn_text sum (take k (entry_text sum e)) ≡ true }
    ensures littered { (sum : ℕ) (tail : List ℕ) (k : ℕ) (litter : List ℕ)
        → is_torn_text sum tail ≡ true → is_litter litter ≡ true
        → is_torn_text sum (take k tail ++ litter) ≡ true }
    ensures clean { is_litter [] ≡ true }
{}

/// `entries_at` returns the entries with which the bytes begin, one after another. The bytes after
/// them do not begin with a further entry.
#[inline(always)]
pub fn entries_at_laws()
    ensures written { (sum : ℕ) (entries : List PlainEntry) (rest : List ℕ)
        → AllByRecursion IsEntry entries → entry_at (sum_after_all sum entries) rest ≡ None
        → entries_at sum (entries_text sum entries ++ rest) ≡ entries }
    ensures read { (sum : ℕ) (text : List ℕ)
        → let entries = entries_at sum text in
        AllByRecursion IsEntry entries
        × (text ≡ entries_text sum entries ++ after_entries sum entries text)
        × (entry_at (sum_after_all sum entries) (after_entries sum entries text) ≡ None) }
    ensures joined { (sum : ℕ) (entries : List PlainEntry) (rest : List ℕ)
        → AllByRecursion IsEntry entries → entries_at sum (entries_text sum entries ++ rest)
        ≡ entries ++ entries_at (sum_after_all sum entries) rest }
{}

/// If the bytes start a journal, `start_at` returns the device and the journal that the head
/// determines. Otherwise, `start_at` returns the fault that prevents it.
#[inline(always)]
pub fn start_at_laws()
    ensures starts { (text : List ℕ) (start : Start) (rest : List ℕ)
        → (starts : Starts text start rest)
        → (head_at text ≡ Some (record {
          kind = starts.kind;
          clock = starts.clock;
          content = starts.content;
        }))
        × (start_at text ≡ Ok start) }
    ensures starts_not { (text : List ℕ) (why : OpenFault) → StartsNot text why
        → start_at text ≡ Err why }
{}
