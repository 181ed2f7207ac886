//! The laws of a kept device's journal and of its states. Each function is a proof only: it has no
//! effect at run time.

ghost use Rattle.std.specs.Prelude.{◌≡◌, ◌≤◌, ℕ, List, Some, take};
ghost use Rattle.tpm_bytes.specs.Reading.{AreBytes};
ghost use Rattle.tpm_journal_text.specs.Head.{current_kind, head_text};
ghost use Rattle.tpm_keeping.specs.Journal.{IsJournal, Spot};
ghost use Rattle.tpm_kept_journal.specs.DeviceJournal.{device_journal};
ghost use Rattle.tpm_kept_journal.specs.Opening.{head_of, opened_text};
ghost use Rattle.tpm_kept_journal.specs.Salvage.{salvaged_text};
ghost use Rattle.tpm_kept_journal.specs.Seed.{Seed, begun_of};
ghost use Rattle.tpm_kept_journal.specs.State.{DeviceState, IsDeviceState, bytes_of, state_of_bytes};
ghost use Rattle.tpm_kept_journal.specs.State.{whole_of};
ghost use Rattle.tpm_state_text.specs.State.{state_text};

/// The journal of a kept device satisfies what a keeper requires. Whatever is executed, wherever
/// the journal is cut, and whatever a crash leaves, the journal opens as the device that executed
/// the complete entries.
#[inline(always)]
#[tactic(auto, using(crate::proofs::JournalLaws::device_is_a_journal))]
pub fn device_journal_laws()
    ensures { IsJournal device_journal }
{}

/// If a device can have a state, decoding the state's encoding returns the state. A journal that
/// begins in this state begins with the head that contains the state text. The other heads of
/// `device_journal` belong to bytes that do not encode a state.
#[inline(always)]
#[tactic(auto, using(crate::proofs::States::state_told, crate::proofs::Shown::head_shown))]
pub fn device_state_laws()
    ensures told { (s : DeviceState) → IsDeviceState s → state_of_bytes (bytes_of s) ≡ Some s }
    ensures head { (s : DeviceState) → IsDeviceState s → AreBytes (state_text (whole_of s))
        → head_text current_kind s.time (state_text (whole_of s)) ≡ head_of (bytes_of s) }
{}

/// A new device's completing layer gets its start number from the seed, even if the device is
/// restored from a state text that contains a layer. Therefore, contexts that were made before do
/// not load. This is a proof only: it has no effect at run time.
#[inline(always)]
#[tactic(auto, using(crate::proofs::Beginning::begins_with))]
pub fn start_laws()
    ensures { (seed : Seed) (s : DeviceState) → begun_of seed ≡ Some s
        → s.layer.start ≡ seed.start }
{}

/// Salvaging a list of bytes creates the same device as opening its longest prefix that opens as a
/// journal.
#[inline(always)]
#[tactic(auto, using(crate::proofs::Salvaging::salvages, crate::proofs::Longest::longest))]
pub fn salvage_laws()
    ensures front { (text : List ℕ) (p : Spot) (n : ℕ) → salvaged_text text ≡ Some (p, n)
        → opened_text (take n text) ≡ Some (p, n) }
    ensures longest { (text : List ℕ) (p q : Spot) (n m k : ℕ) → AreBytes text
        → salvaged_text text ≡ Some (p, n) → opened_text (take m text) ≡ Some (q, k) → k ≤ n }
{}
