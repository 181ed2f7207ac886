//! TPM2_GetRandom: returns random bytes, at most 32 (specified in `specs/GetRandom`).

ghost use Rattle.tpm_actions_device.specs.GetRandom.{get_random_row};
ghost use Rattle.tpm_record.specs.rows.Request.{request_of};
ghost use Rattle.tpm_record.specs.rows.Rows.{Acts};

use tpm_bytes::Cursor;
use tpm_record::Keep;
use tpm_record::rows::answer::Answer;
use tpm_record::rows::call::Call;
use tpm_record::rows::reading::{end, number};
use tpm_types_common::Refused;

/// The maximum number of bytes that one TPM2_GetRandom returns.
const RANDOM_LIMIT: usize = 32;

/// TPM2_GetRandom: returns the requested number of random bytes, at most 32.
#[tactic(auto, unfolding(crate::specs::GetRandom::get_random_row))]
pub fn get_random<K: Keep>(_keep: &mut K, call: &Call, answer: &mut Answer) -> Result<(), Refused>
    ensures { Acts (get_random_row (K.record_of _keep.old) (request_of call.now))
        (K.record_of _keep.old) result answer.new (K.record_of _keep.new) }
{
    answer.clear();
    let mut parameters = Cursor::new(call.parameters);
    let requested = number(1, parameters.u16())?;
    end(&parameters)?;
    let count = usize::from(requested).min(RANDOM_LIMIT);
    let random = call.random;
    answer.parameters.append_sized(&random[..count]);
    answer.drawn = count;
    Ok(())
}
