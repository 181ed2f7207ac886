//! TPM2_TestParms: checks that the device supports the parameters of a public area (specified in
//! `specs/TestParms`).

ghost use Rattle.tpm_actions_device.specs.TestParms.{test_parms_row, typed_parameters_at};
ghost use Rattle.tpm_bytes.specs.Reading.{Reads};
ghost use Rattle.tpm_record.specs.rows.Request.{request_of};
ghost use Rattle.tpm_record.specs.rows.Rows.{Acts};

use tpm_bytes::Cursor;
use tpm_record::Keep;
use tpm_record::rows::answer::Answer;
use tpm_record::rows::call::Call;
use tpm_record::rows::reading::{end, parameter};
use tpm_types_common::{Rc, Refused};
use tpm_types_object::PublicParameters;
use tpm_types_object::public::ObjectType;

/// Reads the type of an object and the parameters of its public area: TPMT_PUBLIC_PARMS.
#[tactic(auto, unfolding(crate::specs::TestParms::typed_parameters_at))]
fn read_typed_parameters(text: &mut Cursor) -> Result<PublicParameters, Rc>
    ensures { Reads (λ parameters. parameters) (typed_parameters_at text.old) text.old result
        text.new }
{
    let mut ahead = Cursor::new(text.rest());
    let kind = ObjectType::read(&mut ahead)?;
    let parameters = PublicParameters::read(kind, &mut ahead)?;
    *text = ahead;
    Ok(parameters)
}

/// TPM2_TestParms: checks that the device supports the parameters of a public area.
#[tactic(auto, unfolding(crate::specs::TestParms::test_parms_row))]
pub fn test_parms<K: Keep>(_keep: &mut K, call: &Call, answer: &mut Answer) -> Result<(), Refused>
    ensures { Acts (test_parms_row (K.record_of _keep.old) (request_of call.now))
        (K.record_of _keep.old) result answer.new (K.record_of _keep.new) }
{
    answer.clear();
    let mut text = Cursor::new(call.parameters);
    let _supported = parameter(1, read_typed_parameters(&mut text))?;
    end(&text)
}
