//! A keeper's response to a TPM command: a report, and the device's response.

ghost use Rattle.std.specs.Prelude.{◌≤◌, IfOk, length};
ghost use Rattle.std.specs.Int.{w16};
ghost use Rattle.tpm_bytes.specs.Reading.{Gives, Reads};
ghost use Rattle.tpm_image_text.specs.Fields.{number_in};
ghost use Rattle.tpm_kept_device.specs.Answer.{answer_of, plain_answer};
ghost use Rattle.tpm_types_common.specs.Limits.{buffer_limit};

use tpm_bytes::Cursor;
use tpm_image_text::{Malformed, read_u8, read_u32};
use tpm_types_common::BUFFER_LIMIT;

/// The answer to a TPM command.
#[derive(Clone, Copy)]
pub struct Answer<'a> {
    /// The command code; 0 if no command code was found.
    pub code: u32,
    /// The number of the check that refused the command; 0 if the command was accepted.
    pub check: u8,
    /// The number of random bytes that the command drew.
    pub drawn: u16,
    /// The device's response, which fits in a buffer.
    pub response: &'a [u8],
}

/// Decodes an answer.
#[tactic(auto, unfolding(crate::specs::Answer::answer_of))]
pub fn read_answer<'a>(text: &'a [u8]) -> Result<Answer<'a>, Malformed>
    ensures value { Gives plain_answer (answer_of text.now) result }
    ensures fits { IfOk result (λ answer. length answer.response.now ≤ buffer_limit) }
{
    let mut left = Cursor::new(text);
    let code = read_u32(&mut left)?;
    let check = read_u8(&mut left)?;
    let drawn = read_u16(&mut left)?;
    let response = left.rest();
    if response.len() > BUFFER_LIMIT {
        return Err(Malformed);
    }
    Ok(Answer {
        code,
        check,
        drawn,
        response,
    })
}

fn read_u16(text: &mut Cursor) -> Result<u16, Malformed>
    ensures { Reads (λ number. number) (number_in w16 text.old) text.old result text.new }
{
    match text.u16() {
        Ok(number) => Ok(number),
        Err(_) => Err(Malformed),
    }
}
