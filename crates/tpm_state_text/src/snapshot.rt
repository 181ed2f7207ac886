//! Writes the state text of a device.

ghost use Rattle.std.specs.Prelude.{◌≡◌, ◌≤◌, ◌+◌, ◌++◌, [], length, option_copied};
ghost use Rattle.tpm_image_text.specs.Saving.{PutsFront};
ghost use Rattle.tpm_state_text.specs.Filling.{state_of};
ghost use Rattle.tpm_state_text.specs.Sizes.{state_text_size};
ghost use Rattle.tpm_state_text.specs.State.{state_text};

use crate::body::write_body;
use crate::frame::head;
use crate::layer::Layer;
use tpm_bytes::Sink;
use tpm_image_text::{Text, put_front};
use tpm_mac::{HashAlg, digest_parts};
use tpm_record::Keep;

/// The largest size of a state text.
pub const STATE_TEXT_LIMIT: usize = 36_930;

/// The body of a state text that is being written, followed by the digest.
pub type StateBody = Text;

/// Writes the body of a state text, followed by the digest, to an empty buffer. Returns the head,
/// which must be put before the body.
#[tactic(auto, unfolding(crate::specs::State::state_text))]
pub fn write_state<K: Keep>(keep: &K, layer: Option<&Layer>, text: &mut StateBody) -> Sink<10>
    requires { text.old ≡ [] }
    ensures state { result ++ text.new
        ≡ state_text (state_of (K.record_of keep.now) (option_copied layer.entry)) }
    ensures small { length result + length text.new ≤ state_text_size }
{
    write_body(keep, layer, text);
    let head = head(keep.fixed().profile, text.len());
    let digest = digest_parts(HashAlg::Sha256, &[head.as_slice(), text.as_slice()]);
    text.append(digest.as_slice());
    head
}

/// Writes the state text of a device, with its completing layer, to the beginning of a buffer, if
/// the state text fits. Returns the size of the state text. The call allocates no memory.
pub fn snapshot_into<K: Keep>(keep: &K, layer: Option<&Layer>, buffer: &mut [u8]) -> usize
    ensures put { PutsFront
        (state_text (state_of (K.record_of keep.now) (option_copied layer.entry)))
        buffer.old result buffer.new }
    // A buffer of STATE_TEXT_LIMIT bytes is always large enough.
    ensures small { result ≤ state_text_size }
{
    let mut text = StateBody::new();
    let head = write_state(keep, layer, &mut text);
    put_front(head.as_slice(), text.as_slice(), buffer)
}
