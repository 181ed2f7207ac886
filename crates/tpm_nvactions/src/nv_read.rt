//! TPM2_NV_Read: returns data from an index (specified in `specs/NvRead`).

ghost use Rattle.std.specs.Prelude.{◌≡◌};
ghost use Rattle.tpm_record.specs.rows.Request.{request_of};
ghost use Rattle.tpm_record.specs.rows.Rows.{Acts};
ghost use Rattle.tpm_nvactions.specs.NvRead.{nv_read_row, parameters_in};

use tpm_bytes::Cursor;
use tpm_nv::Indices;
use tpm_record::Keep;
use tpm_record::rows::answer::Answer;
use tpm_record::rows::call::Call;
use tpm_record::rows::reading::{end, number};
use tpm_record::rows::refusals::{action_refusal, fault_refusal, parameter_refusal};
use tpm_record::rows::target::target_of;
use tpm_types_common::{ActionCheck, DATA_LIMIT, Refused, ResponseCode};

/// The parameters of TPM2_NV_Read.
#[derive(Clone, Copy)]
pub struct ReadParameters {
    size: u16,
    offset: u16,
}

#[tactic(auto, unfolding(crate::specs::NvRead::parameters_in))]
fn read_parameters(parameters: &[u8]) -> Result<ReadParameters, Refused>
    ensures { result ≡ parameters_in parameters.now }
{
    let mut text = Cursor::new(parameters);
    let size = number(1, text.u16())?;
    let offset = number(2, text.u16())?;
    end(&text)?;
    Ok(ReadParameters { size, offset })
}

/// TPM2_NV_Read: returns data from an index.
#[tactic(auto, using(crate::proofs::Reading::read_few), unfolding(crate::specs::NvRead::nv_read_row))]
pub fn nv_read<K: Keep>(keep: &mut K, call: &Call, answer: &mut Answer) -> Result<(), Refused>
    ensures { Acts (nv_read_row (K.record_of keep.old) (request_of call.now))
        (K.record_of keep.old) result answer.new (K.record_of keep.new) }
{
    answer.clear();
    let target = target_of(keep, call)?;
    let asked = read_parameters(call.parameters)?;
    target.check_reading().map_err(fault_refusal)?;
    if usize::from(asked.size) > DATA_LIMIT {
        return Err(parameter_refusal(ActionCheck::Fourth, 1, ResponseCode::Value));
    }
    match keep.nv().read(target.handle, asked.offset, asked.size) {
        Ok(bytes) => {
            answer.parameters.append_sized(bytes);
            Ok(())
        }
        Err(_) => Err(action_refusal(ActionCheck::Fifth, ResponseCode::NvRange.anywhere())),
    }
}
