//! TPM2_ClearControl: disables or enables TPM2_Clear (specified in `specs/ClearControl`).

ghost use Rattle.std.specs.Prelude.{◌≡◌};
ghost use Rattle.tpm_actions_device.specs.ClearControl.{clear_control_row};
ghost use Rattle.tpm_record.specs.rows.Request.{request_of};
ghost use Rattle.tpm_record.specs.rows.Rows.{Acts};

use tpm_bytes::Cursor;
use tpm_record::Keep;
use tpm_record::rows::answer::Answer;
use tpm_record::rows::call::Call;
use tpm_record::rows::reading::{end, parameter};
use tpm_record::rows::refusals::action_refusal;
use tpm_types_common::{ActionCheck, Handle, Refused, ResponseCode, read_yes_no};

/// TPM2_ClearControl: disables or enables TPM2_Clear. Returns AUTH_FAIL if TPM_RH_LOCKOUT is used
/// to enable TPM2_Clear.
#[tactic(auto, unfolding(crate::specs::ClearControl::clear_control_row))]
pub fn clear_control<K: Keep>(keep: &mut K, call: &Call, answer: &mut Answer) -> Result<(), Refused>
    ensures { Acts (clear_control_row (K.record_of keep.old) (request_of call.now))
        (K.record_of keep.old) result answer.new (K.record_of keep.new) }
{
    answer.clear();
    let handle = call.first_handle()?;
    let mut text = Cursor::new(call.parameters);
    let disables = parameter(1, read_yes_no(&mut text))?;
    end(&text)?;
    if handle == Handle::LOCKOUT && !disables {
        return Err(action_refusal(ActionCheck::First, ResponseCode::AuthFail.anywhere()));
    }
    keep.fixed_mut().disable_clear = disables;
    Ok(())
}
