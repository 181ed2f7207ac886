//! TPM2_ReadClock: returns Time, Clock, and the numbers of resets and restarts (specified in
//! `specs/ReadClock`).

ghost use Rattle.std.specs.Prelude.{◌≡◌};
ghost use Rattle.tpm_actions_device.specs.ReadClock.{read_clock_row};
ghost use Rattle.tpm_record.specs.rows.Request.{request_of};
ghost use Rattle.tpm_record.specs.rows.Rows.{Acts};

use tpm_bytes::Cursor;
use tpm_record::Keep;
use tpm_record::rows::answer::Answer;
use tpm_record::rows::call::Call;
use tpm_record::rows::reading::end;
use tpm_types_common::Refused;

/// TPM2_ReadClock: returns Time, Clock, and the numbers of resets and restarts. Clock never goes
/// back.
#[tactic(auto, unfolding(crate::specs::ReadClock::read_clock_row))]
pub fn read_clock<K: Keep>(keep: &mut K, call: &Call, answer: &mut Answer) -> Result<(), Refused>
    ensures { Acts (read_clock_row (K.record_of keep.old) (request_of call.now))
        (K.record_of keep.old) result answer.new (K.record_of keep.new) }
{
    answer.clear();
    end(&Cursor::new(call.parameters))?;
    let fixed = keep.fixed();
    let text = &mut answer.parameters;
    text.append_u64(fixed.time);
    text.append_u64(fixed.clock);
    text.append_u32(fixed.reset_count);
    text.append_u32(fixed.restart_count);
    text.append_u8(1);
    Ok(())
}
