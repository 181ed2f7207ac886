//! TPM2_Shutdown: saves the state that the next TPM2_Startup uses (specified in `specs/Shutdown`).

ghost use Rattle.std.specs.Prelude.{◌≡◌};
ghost use Rattle.tpm_record.specs.rows.Request.{request_of};
ghost use Rattle.tpm_record.specs.rows.Rows.{Acts};
ghost use Rattle.tpm_actions_device.specs.Shutdown.{shutdown_row};

use tpm_bytes::Cursor;
use tpm_record::Keep;
use tpm_record::rows::answer::Answer;
use tpm_record::rows::call::Call;
use tpm_record::rows::reading::{end, parameter};
use tpm_types_common::{Refused, StartupType};

/// TPM2_Shutdown: saves the state that the next TPM2_Startup uses. With STATE, this state includes
/// the values of PCRs 0 to 15.
#[tactic(auto, unfolding(crate::specs::Shutdown::shutdown_row))]
pub fn shutdown<K: Keep>(keep: &mut K, call: &Call, answer: &mut Answer) -> Result<(), Refused>
    ensures { Acts (shutdown_row (K.record_of keep.old) (request_of call.now))
        (K.record_of keep.old) result answer.new (K.record_of keep.new) }
{
    answer.clear();
    let mut text = Cursor::new(call.parameters);
    let kind = parameter(1, StartupType::read(&mut text))?;
    end(&text)?;
    let fixed = keep.fixed_mut();
    fixed.saved.shut_down(kind, &fixed.banks);
    Ok(())
}
