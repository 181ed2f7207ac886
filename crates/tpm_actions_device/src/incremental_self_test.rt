//! TPM2_IncrementalSelfTest: returns that no algorithm remains to be tested (specified in
//! `specs/IncrementalSelfTest`).

ghost use Rattle.std.specs.Prelude.{◌≡◌, ℕ, map, not};
ghost use Rattle.std.specs.List.{list_any};
ghost use Rattle.tpm_actions_device.specs.IncrementalSelfTest.{algorithm_at, algorithms_at, incremental_self_test_row, is_implemented};
ghost use Rattle.tpm_bytes.specs.Reading.{Reads};
ghost use Rattle.tpm_record.specs.rows.Request.{request_of};
ghost use Rattle.tpm_record.specs.rows.Rows.{Acts};

use arrayvec::ArrayVec;
use tpm_bytes::{Cursor, Readable, read_many};
use tpm_record::Keep;
use tpm_record::rows::answer::Answer;
use tpm_record::rows::call::Call;
use tpm_record::rows::reading::{end, parameter};
use tpm_record::rows::refusals::action_refusal;
use tpm_types_common::{ActionCheck, Rc, Refused, ResponseCode};

/// The maximum number of algorithms in a list: MAX_ALG_LIST_SIZE.
const ALGORITHM_LIMIT: usize = 64;

/// The number of an algorithm: TPM_ALG_ID.
#[derive(Clone, Copy, PartialEq, Eq, Default, Drop)]
pub struct Algorithm {
    pub number: u16,
}

impl<'a> Readable<'a> for Algorithm {
    type Fault = Rc;

    ghost Seen = { ℕ };

    ghost seen = { λ algorithm. algorithm.number };

    ghost at = { algorithm_at };

    fn read(text: &mut Cursor<'a>) -> Result<Algorithm, Rc> {
        match text.u16() {
            Ok(number) => Ok(Algorithm { number }),
            Err(_) => Err(ResponseCode::Insufficient.anywhere()),
        }
    }
}

impl Algorithm {
    /// Whether the device implements the algorithm.
    fn is_implemented(self) -> bool
        ensures { result ≡ is_implemented self.number }
    {
        matches!(
            self.number,
            0x04 | 0x05 | 0x06 | 0x08 | 0x0a | 0x0b | 0x22 | 0x25 | 0x43
        )
    }
}

/// Whether the device does not implement one of these algorithms.
fn any_missing(algorithms: &[Algorithm]) -> bool
    ensures { result ≡ list_any (λ algorithm. not (is_implemented algorithm))
        (map (λ algorithm. algorithm.number) algorithms.now) }
{
    match algorithms {
        [first, others @ ..] => !first.is_implemented() || any_missing(others),
        [] => false,
    }
}

/// Reads a list of algorithms: TPML_ALG.
#[tactic(auto, unfolding(crate::specs::IncrementalSelfTest::algorithms_at))]
fn read_algorithms(text: &mut Cursor) -> Result<ArrayVec<Algorithm, ALGORITHM_LIMIT>, Rc>
    ensures { Reads (λ list. map (λ algorithm. algorithm.number) list.items) (algorithms_at text.old)
        text.old result text.new }
{
    let mut ahead = Cursor::new(text.rest());
    let Ok(count) = ahead.u32() else {
        return Err(ResponseCode::Insufficient.anywhere());
    };
    if count > ALGORITHM_LIMIT as u32 {
        return Err(ResponseCode::Size.anywhere());
    }
    let algorithms = read_many(&mut ahead, count as usize)?;
    *text = ahead;
    Ok(algorithms)
}

/// TPM2_IncrementalSelfTest: returns that no algorithm remains to be tested. Returns VALUE if the
/// device does not implement one of the algorithms.
#[tactic(auto, unfolding(crate::specs::IncrementalSelfTest::incremental_self_test_row))]
pub fn incremental_self_test<K: Keep>(
    _keep: &mut K,
    call: &Call,
    answer: &mut Answer,
) -> Result<(), Refused>
    ensures { Acts (incremental_self_test_row (K.record_of _keep.old) (request_of call.now))
        (K.record_of _keep.old) result answer.new (K.record_of _keep.new) }
{
    answer.clear();
    let mut text = Cursor::new(call.parameters);
    let algorithms = parameter(1, read_algorithms(&mut text))?;
    end(&text)?;
    if any_missing(algorithms.as_slice()) {
        let rc = ResponseCode::Value.anywhere().at_parameter(1);
        return Err(action_refusal(ActionCheck::First, rc));
    }
    answer.parameters.append_u32(0);
    Ok(())
}
