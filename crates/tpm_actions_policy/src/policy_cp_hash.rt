//! TPM2_PolicyCpHash: allows only the command with this cpHash (specified in `specs/PolicyCpHash`).

ghost use Rattle.std.specs.Prelude.{◌≡◌};
ghost use Rattle.tpm_commands.specs.declared.command_code.CommandCode.TheVariants as command;
ghost use Rattle.tpm_record.specs.rows.Request.{request_of};
ghost use Rattle.tpm_record.specs.rows.Rows.{Acts};
ghost use Rattle.tpm_actions_policy.specs.Assertions.{assertion_row};

use crate::assertions::{AssertionParameters, make_assertion};
use tpm_bytes::Cursor;
use tpm_record::Keep;
use tpm_record::rows::answer::Answer;
use tpm_record::rows::call::Call;
use tpm_record::rows::reading::{end, parameter};
use tpm_types_common::{DIGEST_LIMIT, Refused, read_buffer};

/// TPM2_PolicyCpHash: allows only the command with this cpHash.
#[tactic(auto, unfolding(crate::specs::Assertions::assertion_row))]
pub fn policy_cp_hash<K: Keep>(
    keep: &mut K,
    call: &Call,
    answer: &mut Answer,
) -> Result<(), Refused>
    ensures { Acts
        (assertion_row command.PolicyCpHash (K.record_of keep.old) (request_of call.now))
        (K.record_of keep.old) result answer.new (K.record_of keep.new) }
{
    answer.clear();
    let handle = call.first_handle()?;
    let mut parameters = Cursor::new(call.parameters);
    let cp_hash = parameter(1, read_buffer(&mut parameters, DIGEST_LIMIT))?;
    end(&parameters)?;
    make_assertion(keep, handle, &AssertionParameters::CpHash(cp_hash))
}
