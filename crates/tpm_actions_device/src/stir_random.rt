//! TPM2_StirRandom: does nothing, because the host supplies the random bytes (specified in
//! `specs/StirRandom`).

ghost use Rattle.tpm_actions_device.specs.StirRandom.{stir_random_row};
ghost use Rattle.tpm_record.specs.rows.Request.{request_of};
ghost use Rattle.tpm_record.specs.rows.Rows.{Acts};

use tpm_bytes::Cursor;
use tpm_record::Keep;
use tpm_record::rows::answer::Answer;
use tpm_record::rows::call::Call;
use tpm_record::rows::reading::{end, parameter};
use tpm_types_common::{Refused, read_buffer};

/// The maximum size of inData, in bytes.
const STIR_LIMIT: usize = 128;

/// TPM2_StirRandom: does nothing, because the host supplies the random bytes.
#[tactic(auto, unfolding(crate::specs::StirRandom::stir_random_row))]
pub fn stir_random<K: Keep>(_keep: &mut K, call: &Call, answer: &mut Answer) -> Result<(), Refused>
    ensures { Acts (stir_random_row (K.record_of _keep.old) (request_of call.now))
        (K.record_of _keep.old) result answer.new (K.record_of _keep.new) }
{
    answer.clear();
    let mut text = Cursor::new(call.parameters);
    let _data = parameter(1, read_buffer(&mut text, STIR_LIMIT))?;
    end(&text)
}
