//! Writes and recognizes responses.

ghost use Rattle.std.specs.Prelude.{◌≡◌, ◌+◌, ◌≤◌, [], length};
ghost use Rattle.std.specs.Str.{bytes_eq};
ghost use Rattle.tpm_step.specs.step.Answer.{framed_message};
ghost use Rattle.tpm_completion.specs.Answer.{is_refusal};
ghost use Rattle.tpm_completion.specs.SequenceRows.{authorized_success};

use crate::codes::SUCCESS;
use tpm_bytes::{append, is_equal};
use tpm_step::Response;

/// Replaces the device's response with one that has this code and body, and no sessions.
pub fn answer(code: u32, body: &[u8], text: &mut Response)
    requires { length body.now ≤ 600 }
    ensures { text.new.items ≡ framed_message 0x8001 code body.now }
{
    text.clear();
    append(text, &0x8001u16.to_be_bytes());
    append(text, &((10 + body.len()) as u32).to_be_bytes());
    append(text, &code.to_be_bytes());
    append(text, body);
}

/// Replaces the device's response with one that reports success to a command with sessions: the
/// handle that it returns, if any, the parameters, and the answers to the entries.
pub fn answer_authorized(handle: &[u8], parameters: &[u8], area: &[u8], text: &mut Response)
    requires handle { length handle.now ≤ 4 }
    requires parameters { length parameters.now ≤ 600 }
    requires area { length area.now ≤ 100 }
    ensures { text.new.items ≡ authorized_success handle.now parameters.now area.now }
{
    let size = 14 + handle.len() + parameters.len() + area.len();
    text.clear();
    append(text, &0x8002u16.to_be_bytes());
    append(text, &(size as u32).to_be_bytes());
    append(text, &SUCCESS.to_be_bytes());
    append(text, handle);
    append(text, &(parameters.len() as u32).to_be_bytes());
    append(text, parameters);
    append(text, area);
}

/// Whether a response is a refusal with this code.
pub fn is_refusal(code: u32, response: &[u8]) -> bool
    ensures { result ≡ is_refusal code response.now }
{
    let [c0, c1, c2, c3] = code.to_be_bytes();
    is_equal(response, &[0x80, 0x01, 0, 0, 0, 10, c0, c1, c2, c3])
}
