//! Laws about the layer. A function here does nothing: its contract is the law.

ghost use Rattle.tpm_completion.specs.DeviceFirst.{DeviceFirst};
ghost use Rattle.tpm_completion.specs.Loaded.{LoadsOnlyMadeSequence, LoadsOnlyWhatWasMade, LoadsSavedSequence, LoadsWhatWasSaved};
ghost use Rattle.tpm_completion.specs.Run.{RunsFollow};
ghost use Rattle.tpm_completion.specs.Sequenced.{CompletesAsEvent, CompletesAsHash, CompletesAsHmac};

/// The client gets the device's response, no object is loaded, and no command is sent to the
/// device, with two exceptions: the response is one of four refusals, or it answers a capability
/// for which the layer has a list.
pub fn device_first()
    ensures { DeviceFirst }
{}

/// Executing an event, with or without the layer, extends the history that a device follows by all
/// executions for the event.
pub fn runs_follow()
    ensures { RunsFollow }
{}

/// Loading the context of an object yields the object that was saved, as long as the layer's start
/// number, the proof of the object's hierarchy and the counts to which the object is bound have not
/// changed. Unless the HMAC has a collision, a context can be loaded only with the start number,
/// proof and counts with which it was made.
pub fn loading_laws()
    ensures again { LoadsWhatWasSaved }
    ensures only { LoadsOnlyWhatWasMade }
{}

/// Loading the context of a sequence object yields the sequence object that was saved, as long as
/// the layer's start number, the proof of the null hierarchy and the count of TPM Resets have not
/// changed. Unless the HMAC has a collision, the context can be loaded only with the start number,
/// proof and count with which it was made.
#[tactic(auto, using(crate::proofs::Loaded::loads_saved_sequence, crate::proofs::Loaded::loads_only_made_sequence))]
pub fn sequence_loading_laws()
    ensures again { LoadsSavedSequence }
    ensures only { LoadsOnlyMadeSequence }
{}

/// The answer to the completion of a sequence depends only on all data of the sequence, however the
/// client cut them. It contains the digest and the ticket of TPM2_Hash, the HMAC, or the digests of
/// both hashes.
#[tactic(auto, using(crate::proofs::Sequenced::completes_as_hash, crate::proofs::Sequenced::completes_as_hmac, crate::proofs::Sequenced::completes_as_event))]
pub fn sequence_laws()
    ensures hash { CompletesAsHash }
    ensures hmac { CompletesAsHmac }
    ensures event { CompletesAsEvent }
{}
