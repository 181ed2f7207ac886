#![tactic(auto)]

//! Laws of journals: what the text of a journal means as a script, how a journal follows the host's
//! clock and records buffers, and which commands of a damaged journal are executed.
//!
//! The laws are about the definitions of tpm_journal, tpm_journal_text and tpmsim_script. Each
//! function states a law in its contract, and does nothing at run time. No crate uses this crate.

ghost use Rattle.tpm_journal_laws.specs.Buffers.{IsRecordedWhole, LongerAreRefusedAlike};
ghost use Rattle.tpm_journal_laws.specs.Damage.{FrontIsFollowed};
ghost use Rattle.tpm_journal_laws.specs.Meanings.{EntryMeansIt, HeadMeansNothing};
ghost use Rattle.tpm_journal_laws.specs.Meanings.{JournalMeansIt};
ghost use Rattle.tpm_journal_laws.specs.Playing.{JournalPlays, PlaysAsExecuted};
ghost use Rattle.tpm_journal_laws.specs.Times.{BeginsAtClock, GoesWithClock, TellsNoTimeTwice};

/// The line for an entry's mark has no effect. The lines after it wait for the entry's
/// milliseconds, set its locality and the random bytes that its command drew, and execute its
/// buffer. The lines of a head have no effect. Therefore, the lines of a whole journal have the
/// meanings of its entries, one after another.
#[inline(always)]
#[tactic(auto, using(crate::proofs::Meanings::entry_means_it, crate::proofs::Meanings::head_means_nothing, crate::proofs::Meanings::journal_means_it))]
pub fn meaning_laws()
    ensures entry { EntryMeansIt }
    ensures head { HeadMeansNothing }
    ensures journal { JournalMeansIt }
{}

/// If the content of its head has at most 32,767 bytes, a journal can be played as a script to its
/// end. The script prints the device's responses to the entries. If an entry contains the bytes
/// that its command drew, its lines execute the command as it was originally executed.
#[inline(always)]
#[tactic(auto, using(crate::proofs::Playing::journal_plays, crate::proofs::Executing::plays_as_executed))]
pub fn playing_laws()
    ensures plays { JournalPlays }
    ensures executes { PlaysAsExecuted }
{}

/// The time of a new journal is the clock in its head. After a command, it equals the host's clock
/// at the arrival of that command, unless the clock went back or at least 2^32 milliseconds passed.
/// No millisecond counts twice: over all commands together, no more milliseconds elapse than lie
/// between the journal's time and the latest clock, even if the clock goes back.
#[inline(always)]
#[tactic(auto, using(crate::proofs::Times::begins_at_clock, crate::proofs::Times::goes_with_clock, crate::proofs::Times::tells_no_time_twice))]
pub fn time_laws()
    ensures begins { BeginsAtClock }
    ensures goes_on { GoesWithClock }
    ensures once { TellsNoTimeTwice }
{}

/// A buffer of up to 4,096 bytes is recorded whole. A longer buffer is truncated, and the device
/// refuses the recorded part as it would refuse the whole buffer.
#[inline(always)]
#[tactic(auto, using(crate::proofs::Buffers::longer_are_refused_alike))]
pub fn buffer_laws()
    ensures whole { IsRecordedWhole }
    ensures longer { LongerAreRefusedAlike }
{}

/// If a damaged journal is truncated at the damage, it can be executed to its end. The resulting
/// device is the same as after the execution of the damaged journal up to the damage, and all
/// answers match their entries.
#[inline(always)]
#[tactic(auto, using(crate::proofs::Damage::front_is_followed))]
pub fn damage_laws()
    ensures { FrontIsFollowed }
{}
