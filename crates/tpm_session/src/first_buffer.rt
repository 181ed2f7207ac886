//! Finds the sized buffer at the start of the parameters, whose contents a session may encrypt.

ghost use Rattle.tpm_session.specs.FirstBuffer.{FindsFirst};

/// The size of the sized buffer at the start of `text`, if the buffer is complete.
pub fn first_size(text: &[u8]) -> Option<usize>
    ensures { FindsFirst text.now result }
{
    if text.len() < 2 {
        return None;
    }
    let size = usize::from(u16::from_be_bytes([text[0], text[1]]));
    if text.len() < 2 + size {
        None
    } else {
        Some(size)
    }
}
