//! Writes bytes to the start of a buffer.

ghost use Rattle.std.specs.Prelude.{◌≡◌};
ghost use Rattle.tpm_image_text.specs.Saving.{PutsFront};

/// Writes bytes to the start of a buffer, if they fit. Returns their number.
pub fn put_front(text: &[u8], buffer: &mut [u8]) -> usize
    ensures { PutsFront text.now buffer.old result buffer.new }
{
    if text.len() <= buffer.len() {
        let (front, _) = buffer.split_at_mut(text.len());
        front.copy_from_slice(text);
    }
    text.len()
}
