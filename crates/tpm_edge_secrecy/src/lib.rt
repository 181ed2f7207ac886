#![tactic(auto)]

//! What a device reveals about its secrets, with the completing layer, or after it was opened from
//! a journal.
//!
//! The laws are about definitions, like those of tpm_secrecy: each law is the contract of a
//! function that does nothing. The contracts of tpm_completion and tpm_journal state that the code
//! does what is defined.

ghost use Rattle.tpm_edge_secrecy.specs.Layer.{CompletedRunTellsNothing};
ghost use Rattle.tpm_edge_secrecy.specs.Layer.{CompletedTellsNothing};
ghost use Rattle.tpm_edge_secrecy.specs.Layer.{LayerAnswersAlike, LayerForgetsAlike};
ghost use Rattle.tpm_edge_secrecy.specs.Layer.{LayerLoadsAlike, LayerSavesAlike, LayerSendsAlike};
ghost use Rattle.tpm_edge_secrecy.specs.Opened.{OpenedDataNeedPolicy};

/// The completing layer reveals which of ownerAuth, endorsementAuth and lockoutAuth are empty, and
/// the contexts of objects that have secrets, which TPM2_ContextSave returns. Otherwise, its own
/// answers reveal no secret of the device. If two devices differ only in secrets, such as
/// authorization values, and agree on which of these three authorization values are empty, the
/// layer has the same answers and the same state on both; only contexts of objects that have
/// secrets may differ. A loaded context contains the same object on both devices. The layer sends
/// the same commands to both, unless it starts a sequence with a secret key, or checks the HMAC of
/// a session with a key that contains a secret; no law compares its answers after these commands
/// for secret authorization values. Therefore, if two devices differ only in secret data, an event
/// that does not read these data reveals nothing about them with the layer either, except the
/// context of an object that has secrets. The same is true of a list of events that do not read
/// these data, even after an event that returned such a context. A TPM2_HMAC_Start with a secret
/// key counts as reading.
#[inline(always)]
pub fn layer_laws()
    ensures answers { LayerAnswersAlike }
    ensures saves { LayerSavesAlike }
    ensures loads { LayerLoadsAlike }
    ensures sends { LayerSendsAlike }
    ensures forgets { LayerForgetsAlike }
    ensures event { CompletedTellsNothing }
    ensures run { CompletedRunTellsNothing }
{}

/// A device was opened from a journal. Each execution on it reveals nothing about data that objects
/// seal, or is an accepted command that reads such data. Unless the hash is broken, that command
/// satisfied the object's policy, if the object has no userWithAuth and its authPolicy is the
/// digest of a policy. The history consists of the history of the device in the journal's head, the
/// executions of the journal's entries, and the executions since then.
#[inline(always)]
pub fn opened_laws()
    ensures { OpenedDataNeedPolicy }
{}
