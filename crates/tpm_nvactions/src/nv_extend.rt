//! TPM2_NV_Extend: extends the digest in an index with data (specified in `specs/NvExtend`).

ghost use Rattle.std.specs.Prelude.{◌≡◌};
ghost use Rattle.tpm_record.specs.rows.Request.{request_of};
ghost use Rattle.tpm_record.specs.rows.Rows.{Acts};
ghost use Rattle.tpm_nvactions.specs.NvExtend.{nv_extend_row};

use crate::access::{check_writer, writing_refusal};
use tpm_bytes::Cursor;
use tpm_nv::Indices;
use tpm_record::Keep;
use tpm_record::rows::answer::Answer;
use tpm_record::rows::call::Call;
use tpm_record::rows::reading::{end, parameter};
use tpm_record::rows::target::target_of;
use tpm_types_common::{DATA_LIMIT, Refused, read_buffer};

/// TPM2_NV_Extend: extends the digest in an index with data.
#[tactic(auto, unfolding(crate::specs::NvExtend::nv_extend_row))]
pub fn nv_extend<K: Keep>(keep: &mut K, call: &Call, answer: &mut Answer) -> Result<(), Refused>
    ensures { Acts (nv_extend_row (K.record_of keep.old) (request_of call.now))
        (K.record_of keep.old) result answer.new (K.record_of keep.new) }
{
    answer.clear();
    let target = target_of(keep, call)?;
    let mut parameters = Cursor::new(call.parameters);
    let bytes = parameter(1, read_buffer(&mut parameters, DATA_LIMIT))?;
    end(&parameters)?;
    check_writer(&target)?;
    keep.nv_mut()
        .extend(target.handle, bytes)
        .map_err(writing_refusal)
}
