#![tactic(auto)]

//! Laws of a kept device: how it begins, what it gets of a command and its client of the answer,
//! when a journal is restarted, and when a damaged one can be salvaged.
//!
//! The laws are about the definitions of tpm_keeping, tpm_kept_journal and tpm_kept_device, which
//! their code computes. Each function states laws in its contract, and does nothing at run time. No
//! crate uses this crate.

ghost use Rattle.tpm_kept_laws.specs.Commands.{ClockStands, ExecutesAsTold, ReportsTheRow};
ghost use Rattle.tpm_kept_laws.specs.Limits.{AddsBelowLimit, RestartsAtLimit};
ghost use Rattle.tpm_kept_laws.specs.Salvaging.{SalvagesFront};
ghost use Rattle.tpm_kept_laws.specs.Seeds.{MadeOfRandom, NoOtherKind, OpenedFromImage};
ghost use Rattle.tpm_kept_laws.specs.Seeds.{RestoredFromState};

/// A new device has exactly the 256 random bytes of its seed as its secrets; a device from an image
/// is the image's after a power cycle, and one from a state text is the text's. The journal's time is
/// the seed's. No other kind of seed makes a device.
#[inline(always)]
pub fn seed_laws()
    ensures random { MadeOfRandom }
    ensures image { OpenedFromImage }
    ensures state { RestoredFromState }
    ensures other { NoOtherKind }
{}

/// The device gets the client's buffer, locality and random bytes, and the milliseconds since the
/// previous command. It gets no time without power.
#[inline(always)]
pub fn command_laws()
    ensures told { ExecutesAsTold }
    ensures power { ClockStands }
{}

/// The answer to a TPM command decodes to the row's code and check, the number of random bytes drawn,
/// and the device's response.
#[inline(always)]
pub fn answer_laws()
    ensures { ReportsTheRow }
{}

/// A journal is restarted exactly when a command with an entry finds it with at least `limit` bytes
/// and twice the size of a new journal's head.
#[inline(always)]
pub fn limit_laws()
    ensures restarts { RestartsAtLimit }
    ensures adds { AddsBelowLimit }
{}

/// Salvaging succeeds if a prefix opens and no whole entry follows it. It results in this prefix's
/// device.
#[inline(always)]
pub fn salvage_laws()
    ensures { SalvagesFront }
{}
