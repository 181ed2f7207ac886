//! TPM2_GetTestResult: returns that all tests have passed (specified in `specs/GetTestResult`).

ghost use Rattle.tpm_actions_device.specs.GetTestResult.{get_test_result_row};
ghost use Rattle.tpm_record.specs.rows.Request.{request_of};
ghost use Rattle.tpm_record.specs.rows.Rows.{Acts};

use tpm_bytes::Cursor;
use tpm_record::Keep;
use tpm_record::rows::answer::Answer;
use tpm_record::rows::call::Call;
use tpm_record::rows::reading::end;
use tpm_types_common::Refused;

/// TPM2_GetTestResult: returns no data, and that all tests have passed.
#[tactic(auto, unfolding(crate::specs::GetTestResult::get_test_result_row))]
pub fn get_test_result<K: Keep>(
    _keep: &mut K,
    call: &Call,
    answer: &mut Answer,
) -> Result<(), Refused>
    ensures { Acts (get_test_result_row (K.record_of _keep.old) (request_of call.now))
        (K.record_of _keep.old) result answer.new (K.record_of _keep.new) }
{
    answer.clear();
    end(&Cursor::new(call.parameters))?;
    answer.parameters.append_sized(&[]);
    answer.parameters.append_u32(0);
    Ok(())
}
