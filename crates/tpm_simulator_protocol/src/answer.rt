//! The answers to requests.

ghost use Rattle.std.specs.Prelude.{◌≡◌, ◌+◌, ◌≤◌, ◌++◌, length};
ghost use Rattle.tpm_simulator_protocol.specs.Answer.{answer_limit, answer_of, number_text};
ghost use Rattle.tpm_simulator_protocol.specs.Answer.{response_limit};

use crate::request::Request;
use arrayvec::ArrayVec;

/// The limit of a response, in bytes.
pub const RESPONSE_LIMIT: usize = 4096;

/// The limit of an answer: a size, a response, and the number that ends the answer.
pub const ANSWER_LIMIT: usize = 4104;

/// The version that a handshake returns.
const VERSION: u32 = 1;

/// The features that a handshake returns: commands are sent unchanged, and there is a platform.
const FEATURES: u32 = 5;

/// The number at the end of an answer, if the request is known.
const DONE: u32 = 0;

/// The answer to an unknown request.
const UNKNOWN: u32 = 1;

/// Appends bytes to an answer.
pub(crate) fn append<const N: usize>(buffer: &mut ArrayVec<u8, N>, bytes: &[u8])
    requires { length buffer.old.items + length bytes.now ≤ N }
    ensures { buffer.new.items ≡ buffer.old.items ++ bytes.now }
{
    let _ = buffer.try_extend_from_slice(bytes);
}

fn append_number(answer: &mut ArrayVec<u8, ANSWER_LIMIT>, number: u32)
    requires { length answer.old.items + 4 ≤ answer_limit }
    ensures { answer.new.items ≡ answer.old.items ++ number_text number }
{
    append(answer, &number.to_be_bytes());
}

/// Writes the answer to a request that was executed with this response.
#[tactic(auto, unfolding(crate::specs::Answer::answer_of))]
pub fn write_answer(answer: &mut ArrayVec<u8, ANSWER_LIMIT>, request: Request, response: &[u8])
    requires { length response.now ≤ response_limit }
    ensures { answer.new.items ≡ answer_of request response.now }
{
    answer.clear();
    match request {
        Request::SendCommand { .. } => {
            append_number(answer, response.len() as u32);
            append(answer, response);
            append_number(answer, DONE);
        }
        Request::Handshake { .. } => {
            append_number(answer, VERSION);
            append_number(answer, FEATURES);
            append_number(answer, DONE);
        }
        Request::SessionEnd => {}
        Request::Unknown => append_number(answer, UNKNOWN),
        _ => append_number(answer, DONE),
    }
}
