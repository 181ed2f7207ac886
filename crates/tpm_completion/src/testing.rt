//! The layer's commands that test the device: TPM2_IncrementalSelfTest, TPM2_GetTestResult and
//! TPM2_TestParms.

ghost use Rattle.std.specs.Prelude.{◌≡◌};
ghost use Rattle.tpm_bytes.specs.Reading.{Gives, Reads};
ghost use Rattle.tpm_completion.specs.Testing.{algorithm_limit, algorithms_at, incremental_row, test_parms_row, test_result_row};

use tpm_bytes::{Cursor, Sink};
use tpm_record::rows::reading::{end, parameter};
use tpm_types_common::{Rc, Refused, ResponseCode};
use tpm_types_object::PublicParameters;
use tpm_types_object::public::ObjectType;

/// The maximum number of algorithms in a list: MAX_ALG_LIST_SIZE.
const ALGORITHM_LIMIT: u32 = 64;

/// The maximum size of an answer to TPM2_Hash or a test command, without its header: a digest and a
/// ticket.
const BODY_LIMIT: usize = 74;

/// An answer without its header.
pub type Body = Sink<BODY_LIMIT>;

/// Parses a list of algorithms, two bytes each.
#[tactic(auto, unfolding(crate::specs::Testing::algorithms_at))]
fn read_algorithms<'a>(text: &mut Cursor<'a>) -> Result<&'a [u8], Rc>
    ensures { Reads (λ bytes. bytes.now) (algorithms_at text.old) text.old result text.new }
{
    let mut ahead = Cursor::new(text.rest());
    let Ok(count) = ahead.u32() else {
        return Err(ResponseCode::Insufficient.anywhere());
    };
    if count > ALGORITHM_LIMIT {
        return Err(ResponseCode::Size.anywhere());
    }
    let Ok(algorithms) = ahead.take(2 * count as usize) else {
        return Err(ResponseCode::Insufficient.anywhere());
    };
    *text = ahead;
    Ok(algorithms)
}

/// TPM2_IncrementalSelfTest: no algorithm remains to be tested.
#[tactic(auto, unfolding(crate::specs::Testing::incremental_row))]
pub fn incremental_self_test(parameters: &[u8]) -> Result<Body, Refused>
    ensures { Gives (λ body. body) (incremental_row parameters.now) result }
{
    let mut text = Cursor::new(parameters);
    let _algorithms = parameter(1, read_algorithms(&mut text))?;
    end(&text)?;
    let mut body = Sink::new();
    body.append_u32(0);
    Ok(body)
}

/// TPM2_GetTestResult: there are no data, and all tests succeeded.
#[tactic(auto, unfolding(crate::specs::Testing::test_result_row))]
pub fn test_result(parameters: &[u8]) -> Result<Body, Refused>
    ensures { Gives (λ body. body) (test_result_row parameters.now) result }
{
    end(&Cursor::new(parameters))?;
    let mut body = Sink::new();
    body.append_sized(&[]);
    body.append_u32(0);
    Ok(body)
}

/// TPM2_TestParms: success if the device accepts these parameters in a public area.
#[tactic(auto, unfolding(crate::specs::Testing::test_parms_row))]
pub fn test_parms(parameters: &[u8]) -> Result<Body, Refused>
    ensures { Gives (λ body. body) (test_parms_row parameters.now) result }
{
    let mut text = Cursor::new(parameters);
    let kind = parameter(1, ObjectType::read(&mut text))?;
    let _tested = parameter(1, PublicParameters::read(kind, &mut text))?;
    end(&text)?;
    Ok(Sink::new())
}
