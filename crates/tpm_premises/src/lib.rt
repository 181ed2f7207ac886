#![tactic(auto)]

//! Examples that satisfy the premises of laws about policies, uses of objects, replays, two devices
//! with one history, devices that differ in secrets, wrong guesses, placed objects, contexts,
//! journals, and folders of kept devices.
//!
//! A law whose premise can never be satisfied says nothing. Each example here satisfies one
//! premise, by computation. Each law is the contract of a function that does nothing at run time.
//! No crate depends on this crate.

ghost use Rattle.tpm_premises.specs.Contexts.{HasSavedObject};
ghost use Rattle.tpm_premises.specs.Devices.{AreTwoDevices, AreTwoSealed, AreTwoSecrets};
ghost use Rattle.tpm_premises.specs.Guesses.{HasWrongGuess};
ghost use Rattle.tpm_premises.specs.Journals.{HasOneEntry};
ghost use Rattle.tpm_premises.specs.Kept.{StartsEmpty, StartsWithJournal};
ghost use Rattle.tpm_premises.specs.Placed.{IsPlaced};
ghost use Rattle.tpm_premises.specs.Policies.{EachIsWritten};
ghost use Rattle.tpm_premises.specs.Replays.{HasReplay};
ghost use Rattle.tpm_premises.specs.Uses.{HasUse};

/// Every kind of assertion can be added to a written policy, and two policies can be the branches
/// of a third policy.
#[inline(always)]
#[tactic(auto, using(crate::proofs::Policies::each_is_written))]
pub fn policy_premise()
    ensures { EachIsWritten }
{}

/// A command uses an object that has no userWithAuth, and whose authPolicy is the digest of a
/// policy.
#[inline(always)]
#[tactic(auto, using(crate::proofs::Uses::has_use))]
pub fn use_premise()
    ensures { HasUse }
{}

/// A history meets the premise of the laws about replays: the same buffer encodes two of its commands.
/// The authorization entry in the buffer has an HMAC, and names an HMAC session that survives in
/// between.
#[inline(always)]
#[tactic(auto, using(crate::proofs::Replays::has_replay))]
pub fn replay_premise()
    ensures { HasReplay }
{}

/// Two devices with different seeds follow the same history and show the same views (`AreAlike`).
/// Two devices with different data in an index, or with different sealed data in an object, differ
/// only in secrets.
#[inline(always)]
pub fn device_premises()
    ensures alike { AreTwoDevices }
    ensures secrets { AreTwoSecrets }
    ensures sealed { AreTwoSealed }
{}

/// Two devices differ only in the authorization value of an index. A password for it is a wrong guess
/// on both, and both refuse the TPM2_NV_Read, which reads no secret data.
#[inline(always)]
pub fn guess_premise()
    ensures { HasWrongGuess }
{}

/// A folder without a journal, and a folder with any journal, are folders with which the theorems
/// about kept devices begin.
#[inline(always)]
pub fn kept_premise()
    ensures empty { StartsEmpty }
    ensures journal { StartsWithJournal }
{}

/// An object from a saved context can be placed on a new device, and the device's history records
/// it.
#[inline(always)]
#[tactic(auto, using(crate::proofs::Placed::is_placed))]
pub fn placed_premise()
    ensures { IsPlaced }
{}

/// An object can be saved, and its context is valid on the device without the object, and on a
/// device without a free slot.
#[inline(always)]
pub fn context_premise()
    ensures { HasSavedObject }
{}

/// A journal contains an entry for a command that a device executed.
#[inline(always)]
#[tactic(auto, using(crate::proofs::Journals::has_one_entry))]
pub fn journal_premise()
    ensures { HasOneEntry }
{}
