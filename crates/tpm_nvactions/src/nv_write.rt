//! TPM2_NV_Write: writes data to an ordinary index (specified in `specs/NvWrite`).

ghost use Rattle.tpm_bytes.specs.Reading.{Gives};
ghost use Rattle.std.specs.Prelude.{◌≡◌};
ghost use Rattle.tpm_record.specs.rows.Request.{request_of};
ghost use Rattle.tpm_record.specs.rows.Rows.{Acts};
ghost use Rattle.tpm_nvactions.specs.NvWrite.{nv_write_row, parameters_in, parameters_of};

use crate::access::{check_writer, writing_refusal};
use tpm_bytes::Cursor;
use tpm_nv::Indices;
use tpm_record::Keep;
use tpm_record::rows::answer::Answer;
use tpm_record::rows::call::Call;
use tpm_record::rows::reading::{end, number, parameter};
use tpm_record::rows::target::target_of;
use tpm_types_common::{DATA_LIMIT, Refused, read_buffer};

/// The parameters of TPM2_NV_Write.
#[derive(Clone, Copy)]
pub struct WriteParameters<'a> {
    bytes: &'a [u8],
    offset: u16,
}

#[tactic(auto, unfolding(crate::specs::NvWrite::parameters_in))]
fn read_parameters(parameters: &[u8]) -> Result<WriteParameters, Refused>
    ensures { Gives parameters_of (parameters_in parameters.now) result }
{
    let mut text = Cursor::new(parameters);
    let bytes = parameter(1, read_buffer(&mut text, DATA_LIMIT))?;
    let offset = number(2, text.u16())?;
    end(&text)?;
    Ok(WriteParameters { bytes, offset })
}

/// TPM2_NV_Write: writes data to an ordinary index.
#[tactic(auto, unfolding(crate::specs::NvWrite::nv_write_row))]
pub fn nv_write<K: Keep>(keep: &mut K, call: &Call, answer: &mut Answer) -> Result<(), Refused>
    ensures { Acts (nv_write_row (K.record_of keep.old) (request_of call.now))
        (K.record_of keep.old) result answer.new (K.record_of keep.new) }
{
    answer.clear();
    let target = target_of(keep, call)?;
    let asked = read_parameters(call.parameters)?;
    check_writer(&target)?;
    keep.nv_mut()
        .write(target.handle, asked.offset, asked.bytes)
        .map_err(writing_refusal)
}
