#![tactic(auto)]

//! What the answers of a device reveal about its secrets.
//!
//! The secrets are the data of NV indices, the data that objects seal, HMAC keys, and authorization
//! values. The laws compare two devices that are equal once their secrets are erased. The laws are
//! about tpm_step's definitions, and hold for every record. Each law is the contract of a function
//! that has no effect at run time. The laws also hold for what tpm_machine executes, because
//! tpm_machine executes each event as the event's step defines it.

ghost use Rattle.tpm_secrecy.specs.AnyDevice.{SealedDataNeedDigest};
ghost use Rattle.tpm_secrecy.specs.SealedData.{DiskKeyStaysSecret, FollowedDataNeedPolicy};
ghost use Rattle.tpm_secrecy.specs.SealedData.{FollowedDataStayUntilRead, FollowedDiskKeyStaysSecret};
ghost use Rattle.tpm_secrecy.specs.SealedData.{SealedDataNeedPolicy};
ghost use Rattle.tpm_secrecy.specs.SealedData.{SealedDataStayUntilRead};
ghost use Rattle.tpm_secrecy.specs.Tells.{EventTellsNothing, ReadOnBoth, RunTellsNothing};
ghost use Rattle.tpm_secrecy.specs.Tells.{RunOfWrongGuessesTellsNothing, WrongTriesAreFew};
ghost use Rattle.tpm_secrecy.specs.Tells.{WrongGuessesTellNothing};

/// Suppose that two devices differ only in secret data. An event that does not read this data on
/// one device reveals nothing about it: both devices return the same response, report the same row,
/// and afterwards differ only in this data. This also holds for a list of events up to the first
/// event that reads the data. An event reads the data on both devices, or on neither. Allocations
/// may fail on both devices, or on neither.
#[inline(always)]
pub fn secrecy_laws()
    ensures event { EventTellsNothing }
    ensures both { ReadOnBoth }
    ensures run { RunTellsNothing }
{}

/// After any executions since a device was manufactured, an execution reveals nothing about the
/// sealed data or the key of an object. The only exception is an accepted TPM2_Unseal or TPM2_HMAC
/// with that object. If the object has a policy and no userWithAuth, the policy was satisfied
/// unless the hash is broken. For example, nothing reveals a disk's key until a TPM2_Unseal of the
/// key is accepted. In that case, unless the hash is broken, either the PCRs had their values and
/// the PIN was presented, or the recovery secret was presented.
#[inline(always)]
pub fn sealed_data_laws()
    ensures each { SealedDataNeedPolicy }
    ensures until_read { SealedDataStayUntilRead }
    ensures disk_key { DiskKeyStaysSecret }
{}

/// The laws of `sealed_data_laws` also hold for every device that follows a history: a manufactured
/// device; a device that is opened from an image, a state text or a journal of a device with a
/// history; and a device that is served over connections. The policy was satisfied in the history
/// that the device follows.
#[inline(always)]
pub fn followed_data_laws()
    ensures each { FollowedDataNeedPolicy }
    ensures until_read { FollowedDataStayUntilRead }
    ensures disk_key { FollowedDiskKeyStaysSecret }
{}

/// On any device, an execution reveals nothing about the sealed data or the key of an object,
/// unless it is an accepted TPM2_Unseal or TPM2_HMAC with that object. This holds even if the
/// device was opened from an image with an unknown history. If the object has no userWithAuth, the
/// command was authorized by a policy session whose policyDigest is the object's authPolicy.
#[inline(always)]
pub fn any_device_laws()
    ensures { SealedDataNeedDigest }
{}

/// Suppose that two devices differ only in authorization values and other secrets. An event reveals
/// nothing about the secrets if it reads no secret data and if, on both devices, every guess of a
/// secret value fails. The same holds for a list of events. If recoveryTime is not 0 and the list
/// contains no reset of failedTries, at most maxTries tries fail, plus one for each recoveryTime
/// that passes. An entry that encrypts with a secret value counts as a guess, although nothing is
/// compared. Guesses that do not count as tries are not limited in number.
#[inline(always)]
pub fn guess_laws()
    ensures event { WrongGuessesTellNothing }
    ensures run { RunOfWrongGuessesTellsNothing }
    ensures few { WrongTriesAreFew }
{}
