//! Writes a keeper's results to C's buffers.

ghost use Rattle.std.specs.Prelude.{◌≡◌, ◌≤◌, drop, length};
ghost use Rattle.tpm_image_text.specs.Saving.{PutsFront};
ghost use Rattle.tpm_kept_device.specs.Answer.{plain_answer};
ghost use Rattle.tpm_types_common.specs.Limits.{buffer_limit};
ghost use Rattle.tpmsim_library.specs.Keeping.{IsAnswer, content_at};

use crate::device::Answered;
use tpm_journal_text::{CONTENT_LIMIT, read_head};
use tpm_kept_device::answer::Answer;

/// Writes bytes to the start of a buffer, if they fit. Returns their number.
pub fn put_whole(bytes: &[u8], buffer: &mut [u8]) -> usize
    ensures { PutsFront bytes.now buffer.old result buffer.new }
{
    if bytes.len() <= buffer.len() {
        let (front, _) = buffer.split_at_mut(bytes.len());
        front.copy_from_slice(bytes);
    }
    bytes.len()
}

/// If `text` begins with a head whose content fits in `buffer`, writes that content to the start of
/// `buffer`. Returns the size of the content, or 0 if `text` does not begin with a head. Not
/// inlined, to keep this function's large local buffer out of the caller's stack frame.
#[inline(never)]
pub fn put_content(text: &[u8], buffer: &mut [u8]) -> usize
    ensures { PutsFront (content_at text.now) buffer.old result buffer.new }
{
    let mut content = [0; CONTENT_LIMIT];
    let Some(head) = read_head(text, &mut content) else {
        return 0;
    };
    put_whole(head.content, buffer)
}

/// Writes an answer's response to the start of a buffer, and returns the rest of the answer.
pub fn put_answer(answer: Answer, response: &mut [u8; 4096]) -> Answered
    requires { length answer.response.now ≤ buffer_limit }
    ensures is { IsAnswer (plain_answer answer.entry) response.new result }
    ensures rest { drop result.size response.new ≡ drop result.size response.old }
{
    let text = answer.response;
    let (front, _) = response.split_at_mut(text.len());
    front.copy_from_slice(text);
    Answered {
        size: text.len(),
        drawn: answer.drawn as usize,
        code: answer.code,
        check: answer.check,
    }
}
