//! TPM2_PCR_Reset: resets a PCR to zeros in both banks (specified in `specs/PcrReset`).

ghost use Rattle.std.specs.Prelude.{◌≡◌};
ghost use Rattle.tpm_actions_device.specs.PcrReset.{pcr_reset_row};
ghost use Rattle.tpm_record.specs.rows.Request.{request_of};
ghost use Rattle.tpm_record.specs.rows.Rows.{Acts};

use crate::pcr_change::change_refusal;
use tpm_bytes::Cursor;
use tpm_record::Keep;
use tpm_record::rows::answer::Answer;
use tpm_record::rows::call::Call;
use tpm_record::rows::reading::end;
use tpm_types_common::Refused;

/// TPM2_PCR_Reset: resets a PCR to zeros in both banks.
#[tactic(auto, unfolding(crate::specs::PcrReset::pcr_reset_row))]
pub fn pcr_reset<K: Keep>(keep: &mut K, call: &Call, answer: &mut Answer) -> Result<(), Refused>
    ensures { Acts (pcr_reset_row (K.record_of keep.old) (request_of call.now))
        (K.record_of keep.old) result answer.new (K.record_of keep.new) }
{
    answer.clear();
    let handle = call.first_handle()?;
    end(&Cursor::new(call.parameters))?;
    if let Some(pcr) = handle.pcr() {
        let banks = &mut keep.fixed_mut().banks;
        banks.reset(pcr, call.locality).map_err(change_refusal)?;
    }
    Ok(())
}
