//! TPM2_ClockSet: advances Clock (specified in `specs/ClockSet`).

ghost use Rattle.std.specs.Prelude.{◌≡◌};
ghost use Rattle.tpm_actions_device.specs.ClockSet.{clock_set_row};
ghost use Rattle.tpm_record.specs.rows.Request.{request_of};
ghost use Rattle.tpm_record.specs.rows.Rows.{Acts};

use tpm_bytes::Cursor;
use tpm_record::Keep;
use tpm_record::rows::answer::Answer;
use tpm_record::rows::call::Call;
use tpm_record::rows::reading::{end, number};
use tpm_record::rows::refusals::action_refusal;
use tpm_types_common::{ActionCheck, Refused, ResponseCode};

/// The largest value, in milliseconds, to which the command sets Clock.
const CLOCK_LIMIT: u64 = 0xffff_0000_0000_0000;

/// TPM2_ClockSet: advances Clock. Returns VALUE if Clock would go back, or would exceed its limit.
#[tactic(auto, unfolding(crate::specs::ClockSet::clock_set_row))]
pub fn clock_set<K: Keep>(keep: &mut K, call: &Call, answer: &mut Answer) -> Result<(), Refused>
    ensures { Acts (clock_set_row (K.record_of keep.old) (request_of call.now))
        (K.record_of keep.old) result answer.new (K.record_of keep.new) }
{
    answer.clear();
    let mut text = Cursor::new(call.parameters);
    let clock = number(1, text.u64())?;
    end(&text)?;
    if clock < keep.fixed().clock || clock > CLOCK_LIMIT {
        let rc = ResponseCode::Value.anywhere().at_parameter(1);
        return Err(action_refusal(ActionCheck::First, rc));
    }
    keep.fixed_mut().clock = clock;
    Ok(())
}
