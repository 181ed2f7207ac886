#![tactic(auto)]

//! The secrets of a device, and the law that the row of a command reveals nothing about them unless
//! the command reads them.
//!
//! The secrets are the data of NV indices, the data that objects seal, HMAC keys, and authorization
//! values. The law here is a part of tpm_step's law about the row of every command. `proofs/`
//! contains the proofs for the rows.

ghost use Rattle.std.specs.Prelude.{◌≡◌};
ghost use Rattle.tpm_commands.specs.declared.command_code.CommandCode.{CommandCode};
ghost use Rattle.tpm_record.specs.Record.{Record};
ghost use Rattle.tpm_record.specs.rows.Request.{Request};
ghost use Rattle.tpm_row_secrecy.specs.Reads.{reads_secret};
ghost use Rattle.tpm_row_secrecy.specs.Secrecy.{Secrecy, without_secrets};

/// Whether a command reads secrets does not depend on their values: it reads them on a device if
/// and only if it reads them on the same device with the secrets erased.
#[inline(always)]
#[tactic(auto, using(crate::proofs::ReadAlike::reads_same))]
pub fn reading_laws()
    ensures { (s : Secrecy) (r : Record) (q : Request) (c : CommandCode)
        → reads_secret s (without_secrets s r) c q ≡ reads_secret s r c q }
{}
