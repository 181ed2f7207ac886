//! TPM2_PolicyNV: compares data of an NV index with an operand (specified in `specs/PolicyNv`).

ghost use Rattle.tpm_bytes.specs.Reading.{Gives};
ghost use Rattle.std.specs.Prelude.{◌≡◌, IfOk, length};
ghost use Rattle.tpm_commands.specs.declared.command_code.CommandCode.TheVariants as command;
ghost use Rattle.tpm_nv.specs.IsContents.{IsContents};
ghost use Rattle.tpm_record.specs.Record.{Record};
ghost use Rattle.tpm_record.specs.rows.Request.{request_of};
ghost use Rattle.tpm_record.specs.rows.Rows.{Acts};
ghost use Rattle.tpm_record.specs.declared.rows.target.Target.{Target};
ghost use Rattle.tpm_actions_policy.specs.AssertionParameters.{nv_asked};
ghost use Rattle.tpm_actions_policy.specs.Assertions.{assertion_row};
ghost use Rattle.tpm_actions_policy.specs.PolicyNv.{Parameters, compared, nv_parameters};

use crate::assertions::{AssertionParameters, make_assertion};
use crate::compared_index::ComparedIndex;
use tpm_bytes::Cursor;
use tpm_record::Keep;
use tpm_record::rows::answer::Answer;
use tpm_record::rows::call::Call;
use tpm_record::rows::reading::{end, number, parameter};
use tpm_record::rows::target::{Target, target_of};
use tpm_types_common::{DIGEST_LIMIT, Operation, Refused, read_buffer};

#[tactic(auto, unfolding(crate::specs::PolicyNv::nv_parameters))]
fn read_compared<'a>(target: Target, parameters: &'a [u8]) -> Result<ComparedIndex<'a>, Refused>
    ensures read { Gives nv_asked (nv_parameters parameters.now) result }
    ensures target { IfOk result (λ index. index.target ≡ target) }
{
    let mut text = Cursor::new(parameters);
    let operand = parameter(1, read_buffer(&mut text, DIGEST_LIMIT))?;
    let offset = number(2, text.u16())?;
    let operation = parameter(3, Operation::read(&mut text))?;
    end(&text)?;
    Ok(ComparedIndex {
        target,
        operand,
        offset,
        operation,
    })
}

/// TPM2_PolicyNV: compares data of an NV index with an operand.
#[tactic(auto, unfolding(crate::specs::Assertions::assertion_row))]
pub fn policy_nv<K: Keep>(keep: &mut K, call: &Call, answer: &mut Answer) -> Result<(), Refused>
    ensures { Acts (assertion_row command.PolicyNv (K.record_of keep.old) (request_of call.now))
        (K.record_of keep.old) result answer.new (K.record_of keep.new) }
{
    answer.clear();
    let handle = call.third_handle()?;
    let index = read_compared(target_of(keep, call)?, call.parameters)?;
    make_assertion(keep, handle, &AssertionParameters::Nv(index))
}

/// If the data of each NV index has the size stated in its public area, as on every device, then
/// TPM2_PolicyNV compares exactly as many bytes as operandB has. Therefore no comparison fails
/// because the two sizes differ. This function is only a proof: it has no effect at run time.
#[inline(always)]
#[tactic(auto, using(crate::proofs::ComparedSizes::compared_whole))]
pub fn compared_size_laws()
    ensures { (r : Record) (target : Target) (p : Parameters) → IsContents r.nv
        → IfOk (compared r target p) (λ bytes. length bytes ≡ length p.operand) }
{}
