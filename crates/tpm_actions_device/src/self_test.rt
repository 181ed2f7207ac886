//! TPM2_SelfTest: does nothing, because all tests have already passed (specified in
//! `specs/SelfTest`).

ghost use Rattle.std.specs.Prelude.{◌≡◌};
ghost use Rattle.tpm_record.specs.rows.Request.{request_of};
ghost use Rattle.tpm_record.specs.rows.Rows.{Acts};
ghost use Rattle.tpm_actions_device.specs.SelfTest.{self_test_row};

use tpm_bytes::Cursor;
use tpm_record::Keep;
use tpm_record::rows::answer::Answer;
use tpm_record::rows::call::Call;
use tpm_record::rows::reading::{end, parameter};
use tpm_types_common::{Refused, read_yes_no};

/// TPM2_SelfTest: does nothing, because all tests have already passed.
#[tactic(auto, unfolding(crate::specs::SelfTest::self_test_row))]
pub fn self_test<K: Keep>(_keep: &mut K, call: &Call, answer: &mut Answer) -> Result<(), Refused>
    ensures { Acts (self_test_row (K.record_of _keep.old) (request_of call.now))
        (K.record_of _keep.old) result answer.new (K.record_of _keep.new) }
{
    answer.clear();
    let mut text = Cursor::new(call.parameters);
    let _full_test = parameter(1, read_yes_no(&mut text))?;
    end(&text)
}
