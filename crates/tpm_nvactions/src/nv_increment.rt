//! TPM2_NV_Increment: increments a counter (specified in `specs/NvIncrement`).

ghost use Rattle.std.specs.Prelude.{◌≡◌};
ghost use Rattle.tpm_record.specs.rows.Request.{request_of};
ghost use Rattle.tpm_record.specs.rows.Rows.{Acts};
ghost use Rattle.tpm_nvactions.specs.NvIncrement.{nv_increment_row};

use crate::access::{check_writer, writing_refusal};
use tpm_bytes::Cursor;
use tpm_nv::Indices;
use tpm_record::Keep;
use tpm_record::rows::answer::Answer;
use tpm_record::rows::call::Call;
use tpm_record::rows::reading::end;
use tpm_record::rows::target::target_of;
use tpm_types_common::Refused;

/// TPM2_NV_Increment: increments a counter.
#[tactic(auto, unfolding(crate::specs::NvIncrement::nv_increment_row))]
pub fn nv_increment<K: Keep>(keep: &mut K, call: &Call, answer: &mut Answer) -> Result<(), Refused>
    ensures { Acts (nv_increment_row (K.record_of keep.old) (request_of call.now))
        (K.record_of keep.old) result answer.new (K.record_of keep.new) }
{
    answer.clear();
    let target = target_of(keep, call)?;
    end(&Cursor::new(call.parameters))?;
    check_writer(&target)?;
    keep.nv_mut()
        .increment(target.handle)
        .map_err(writing_refusal)
}
