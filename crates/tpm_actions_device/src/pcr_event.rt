//! TPM2_PCR_Event: extends a PCR with the digests of some data, and returns these digests
//! (specified in `specs/PcrEvent`).

ghost use Rattle.tpm_actions_device.specs.PcrEvent.{pcr_event_row};
ghost use Rattle.tpm_record.specs.rows.Request.{request_of};
ghost use Rattle.tpm_record.specs.rows.Rows.{Acts};

use crate::pcr_change::change_refusal;
use tpm_bytes::Cursor;
use tpm_pcr::event_digests;
use tpm_record::Keep;
use tpm_record::rows::answer::Answer;
use tpm_record::rows::call::Call;
use tpm_record::rows::reading::{end, parameter};
use tpm_types_common::{DATA_LIMIT, Refused, read_buffer};

/// TPM2_PCR_Event: extends a PCR with the digests of the data, and returns the digests. With
/// TPM_RH_NULL, the command checks and changes no PCR, but still returns the digests.
#[tactic(auto, unfolding(crate::specs::PcrEvent::pcr_event_row))]
pub fn pcr_event<K: Keep>(keep: &mut K, call: &Call, answer: &mut Answer) -> Result<(), Refused>
    ensures { Acts (pcr_event_row (K.record_of keep.old) (request_of call.now))
        (K.record_of keep.old) result answer.new (K.record_of keep.new) }
{
    answer.clear();
    let handle = call.first_handle()?;
    let mut parameters = Cursor::new(call.parameters);
    let event = parameter(1, read_buffer(&mut parameters, DATA_LIMIT))?;
    end(&parameters)?;
    let digests = match handle.pcr() {
        Some(pcr) => {
            let banks = &mut keep.fixed_mut().banks;
            banks
                .event(pcr, call.locality, event)
                .map_err(change_refusal)?
        }
        None => event_digests(event),
    };
    digests.append_to(&mut answer.parameters);
    Ok(())
}
