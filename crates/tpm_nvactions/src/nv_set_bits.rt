//! TPM2_NV_SetBits: sets bits in an index that is a bit field (specified in `specs/NvSetBits`).

ghost use Rattle.std.specs.Prelude.{◌≡◌};
ghost use Rattle.tpm_record.specs.rows.Request.{request_of};
ghost use Rattle.tpm_record.specs.rows.Rows.{Acts};
ghost use Rattle.tpm_nvactions.specs.NvSetBits.{nv_set_bits_row};

use crate::access::{check_writer, writing_refusal};
use tpm_bytes::Cursor;
use tpm_nv::Indices;
use tpm_record::Keep;
use tpm_record::rows::answer::Answer;
use tpm_record::rows::call::Call;
use tpm_record::rows::reading::{end, number};
use tpm_record::rows::target::target_of;
use tpm_types_common::Refused;

/// TPM2_NV_SetBits: sets bits in an index that is a bit field.
#[tactic(auto, unfolding(crate::specs::NvSetBits::nv_set_bits_row))]
pub fn nv_set_bits<K: Keep>(keep: &mut K, call: &Call, answer: &mut Answer) -> Result<(), Refused>
    ensures { Acts (nv_set_bits_row (K.record_of keep.old) (request_of call.now))
        (K.record_of keep.old) result answer.new (K.record_of keep.new) }
{
    answer.clear();
    let target = target_of(keep, call)?;
    let mut parameters = Cursor::new(call.parameters);
    let bits = number(1, parameters.u64())?;
    end(&parameters)?;
    check_writer(&target)?;
    keep.nv_mut()
        .set_bits(target.handle, bits)
        .map_err(writing_refusal)
}
