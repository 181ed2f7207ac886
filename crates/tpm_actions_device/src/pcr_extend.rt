//! TPM2_PCR_Extend: extends a PCR with each digest of a list in turn (specified in
//! `specs/PcrExtend`).

ghost use Rattle.std.specs.Prelude.{◌≡◌};
ghost use Rattle.tpm_actions_device.specs.PcrExtend.{pcr_extend_row};
ghost use Rattle.tpm_record.specs.rows.Request.{request_of};
ghost use Rattle.tpm_record.specs.rows.Rows.{Acts};

use crate::pcr_change::change_refusal;
use tpm_bytes::Cursor;
use tpm_record::Keep;
use tpm_record::rows::answer::Answer;
use tpm_record::rows::call::Call;
use tpm_record::rows::reading::{end, parameter};
use tpm_types_common::{DigestValues, Refused};

/// TPM2_PCR_Extend: extends a PCR with each digest in turn. With TPM_RH_NULL, the command checks
/// and changes no PCR.
#[tactic(auto, unfolding(crate::specs::PcrExtend::pcr_extend_row))]
pub fn pcr_extend<K: Keep>(keep: &mut K, call: &Call, answer: &mut Answer) -> Result<(), Refused>
    ensures { Acts (pcr_extend_row (K.record_of keep.old) (request_of call.now))
        (K.record_of keep.old) result answer.new (K.record_of keep.new) }
{
    answer.clear();
    let handle = call.first_handle()?;
    let mut parameters = Cursor::new(call.parameters);
    let digests = parameter(1, DigestValues::read(&mut parameters))?;
    end(&parameters)?;
    if let Some(pcr) = handle.pcr() {
        let banks = &mut keep.fixed_mut().banks;
        banks
            .extend(pcr, call.locality, &digests)
            .map_err(change_refusal)?;
    }
    Ok(())
}
