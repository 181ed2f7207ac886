//! Decodes a command and checks whether its entries authorize it.

ghost use Rattle.tpm_types_common.specs.Limits.{buffer_limit};
ghost use Rattle.std.specs.Prelude.{◌≡◌, ◌≤◌, ℕ, List, [], Ok, Err, IfErr, IfOk, length};
ghost use Rattle.tpm_auth.specs.Grant.{authorize};
ghost use Rattle.tpm_machine.specs.Authorization.{command_in, grants_in};
ghost use Rattle.tpm_types_common.specs.Locality.{locality_number};
ghost use Rattle.tpm_step.specs.step.General.{general};
ghost use Rattle.tpm_step.specs.step.Step.{acceptance_in};

use crate::decoding::decode;
use arrayvec::ArrayVec;
use tpm_auth::{Cache, Grants, Sent, authorize_sent};
use tpm_record::Keep;
use tpm_step::RefusedCommand;
use tpm_types_command::{AuthEntry, CommandRef};
use tpm_types_common::Locality;

/// A command that passed the general checks, and what its entries authorize. It is made once, and
/// passed to the command's row and to the response.
#[derive(Drop)]
pub struct Authorization<'a, 'b> {
    pub command: CommandRef<'a, 'b>,
    pub grants: Grants,
}

/// Decodes a command's buffer, and checks whether the command's entries authorize it. The command
/// borrows its entries from the array `entries`, which must be empty. Returns the refusal of the
/// first check that fails.
#[tactic(auto, unfolding(tpm_step::specs::step::Step::acceptance_in, tpm_step::specs::step::Step::acceptance))]
pub fn authorize_command<'a, 'b, K: Keep>(
    keep: &K,
    buffer: &'b [u8],
    locality: Locality,
    cache: &mut Cache,
    entries: &'a mut ArrayVec<AuthEntry<'b>, 3>,
) -> Result<Authorization<'a, 'b>, RefusedCommand>
    requires { entries.old.items ≡ [] }
    ensures decoded { IfOk result (λ authorization. general (K.record_of keep.now) buffer.now
        ≡ Ok (command_in authorization)) }
    ensures granted { IfOk result (λ authorization. authorize (K.record_of keep.now)
        (command_in authorization) (locality_number locality)
        ≡ Ok (grants_in authorization)) }
    ensures short { IfOk result (λ authorization.
        length authorization.command.parameters.now ≤ buffer_limit) }
    ensures refused { IfErr result (λ refusal. (random : List ℕ)
        → acceptance_in (K.record_of keep.now) buffer.now (locality_number locality) random
        ≡ Err refusal) }
{
    let mut entities = ArrayVec::new();
    let command = decode(keep, buffer, entries, &mut entities)?;
    let sent = &Sent {
        command: &command,
        entities: entities.as_slice(),
        locality,
    };
    match authorize_sent(keep, sent, cache) {
        Ok(grants) => Ok(Authorization { command, grants }),
        Err(refused) => Err(RefusedCommand::of(command.code, refused)),
    }
}
