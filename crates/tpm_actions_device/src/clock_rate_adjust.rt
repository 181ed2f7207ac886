//! TPM2_ClockRateAdjust: does nothing, because the host's clock determines the rate (specified in
//! `specs/ClockRateAdjust`).

ghost use Rattle.std.specs.Prelude.{◌≡◌};
ghost use Rattle.tpm_actions_device.specs.ClockRateAdjust.{clock_rate_adjust_row};
ghost use Rattle.tpm_record.specs.rows.Request.{request_of};
ghost use Rattle.tpm_record.specs.rows.Rows.{Acts};

use tpm_bytes::Cursor;
use tpm_record::Keep;
use tpm_record::rows::answer::Answer;
use tpm_record::rows::call::Call;
use tpm_record::rows::reading::{end, number};
use tpm_record::rows::refusals::action_refusal;
use tpm_types_common::{ActionCheck, Refused, ResponseCode};

/// TPM_CLOCK_COARSE_FASTER: 3, the largest adjustment.
const COARSE_FASTER: u8 = 3;

/// TPM_CLOCK_COARSE_SLOWER: -3, the smallest adjustment, as an unsigned byte.
const COARSE_SLOWER: u8 = 0xfd;

/// TPM2_ClockRateAdjust: does nothing. Returns VALUE for an adjustment that is not from -3 to 3.
#[tactic(auto, unfolding(crate::specs::ClockRateAdjust::clock_rate_adjust_row))]
pub fn clock_rate_adjust<K: Keep>(
    _keep: &mut K,
    call: &Call,
    answer: &mut Answer,
) -> Result<(), Refused>
    ensures { Acts (clock_rate_adjust_row (K.record_of _keep.old) (request_of call.now))
        (K.record_of _keep.old) result answer.new (K.record_of _keep.new) }
{
    answer.clear();
    let mut text = Cursor::new(call.parameters);
    let rate = number(1, text.u8())?;
    end(&text)?;
    if rate > COARSE_FASTER && rate < COARSE_SLOWER {
        let rc = ResponseCode::Value.anywhere().at_parameter(1);
        return Err(action_refusal(ActionCheck::First, rc));
    }
    Ok(())
}
