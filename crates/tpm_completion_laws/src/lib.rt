#![tactic(auto)]

//! Laws of the completing layer: about the contexts that it makes and loads, about the HMACs of
//! sessions that it checks and sends, and about what it lists.
//!
//! The laws are about the definitions of tpm_completion: each law is the contract of a function
//! that does nothing. No crate uses this crate.

ghost use Rattle.tpm_completion_laws.specs.Contexts.{IsLoadedOnce, RefusesAnotherStart};
ghost use Rattle.tpm_completion_laws.specs.Listed.{CommandsAscend, CountsAddUp, CountsAll, ListsItsOwn};
ghost use Rattle.tpm_completion_laws.specs.Listed.{PcrPropertiesHold, PropertiesAscend, ServesItsOwn};
ghost use Rattle.tpm_completion_laws.specs.Objects.{LoadsObjects, SavesObjects, StaysValidThrough};
ghost use Rattle.tpm_completion_laws.specs.Sequences.{IsNamedOnce, LoadsSequences, SavesSequences};
ghost use Rattle.tpm_completion_laws.specs.Sequences.{SequencesStayValidThrough, SlotIsNamed, StartsWithTheKey};
ghost use Rattle.tpm_completion_laws.specs.SessionEntries.{AcceptsOnlyProofs, CarriesTheProof};
ghost use Rattle.tpm_completion_laws.specs.SessionEntries.{ComparesLikeTheDevice};
ghost use Rattle.tpm_completion_laws.specs.SessionEntries.{EventsAcceptOnlyProofs};
ghost use Rattle.tpm_completion_laws.specs.SessionEntries.{SequencesAcceptOnlyProofs};

/// The context of a session can be loaded only once. A context from another start of the layer is
/// always refused.
#[inline(always)]
#[tactic(auto, using(crate::proofs::Contexts::is_loaded_once, crate::proofs::Contexts::refuses_another_start))]
pub fn context_laws()
    ensures once { IsLoadedOnce }
    ensures start { RefusesAnotherStart }
{}

/// TPM2_ContextSave of an object changes nothing on the device except the time. TPM2_ContextLoad of
/// the context loads the same object with a free handle, or is refused with OBJECT_MEMORY if all
/// slots are occupied. Every command except TPM2_Startup and TPM2_Clear leaves the context valid,
/// even TPM2_FlushContext of the object.
#[inline(always)]
pub fn object_laws()
    ensures saved { SavesObjects }
    ensures loaded { LoadsObjects }
    ensures valid { StaysValidThrough }
{}

/// Each slot for a sequence object has one handle. TPM2_ContextSave of a sequence object changes
/// nothing on the device except the time. TPM2_ContextLoad of the context loads the same sequence
/// object with a free handle, or is refused with OBJECT_MEMORY if all slots are occupied. Every
/// command except TPM2_Startup and TPM2_Clear leaves the context valid. TPM2_HMAC_Start starts a
/// sequence with the hash and the key that the device uses for TPM2_HMAC.
#[inline(always)]
pub fn sequence_laws()
    ensures named { SlotIsNamed }
    ensures once { IsNamedOnce }
    ensures saved { SavesSequences }
    ensures loaded { LoadsSequences }
    ensures valid { SequencesStayValidThrough }
    ensures key { StartsWithTheKey }
{}

/// The HMAC that the layer sends to the device is right if and only if the client's HMAC is. The
/// device compares the HMAC of the sent command as the layer's definition does. So if the device
/// accepts the command that the layer sends, the client's HMAC is right.
#[inline(always)]
pub fn session_laws()
    ensures carried { CarriesTheProof }
    ensures compared { ComparesLikeTheDevice }
    ensures starts { AcceptsOnlyProofs }
    ensures sequences { SequencesAcceptOnlyProofs }
    ensures events { EventsAcceptOnlyProofs }
{}

/// The layer serves only its own commands, and lists and counts each of them. Commands and
/// properties are listed in ascending order. The numbers of used and of available sessions and
/// objects add up to the device's limits. The listed properties of PCRs match how the device
/// changes PCRs.
#[inline(always)]
pub fn list_laws()
    ensures own { ServesItsOwn }
    ensures listed { ListsItsOwn }
    ensures counted { CountsAll }
    ensures commands { CommandsAscend }
    ensures properties { PropertiesAscend }
    ensures counts { CountsAddUp }
    ensures pcrs { PcrPropertiesHold }
{}
