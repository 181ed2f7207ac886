//! Writes an image into a buffer or to a writer.

ghost use Rattle.std.specs.Prelude.{◌≡◌, ◌+◌, ◌<◌, ◌^◌, ◌++◌, [], OnErr, OnOk, length, true};
ghost use Rattle.std.specs.Io.KnownBytes.{Appends};
ghost use Rattle.tpm_bytes.specs.Tap.{AppendsFront, device_of, marks_of};
ghost use Rattle.tpm_image_text.specs.Image.{image_text};
ghost use Rattle.tpm_image_text.specs.NonVolatile.{kept_of};
ghost use Rattle.tpm_image_text.specs.Saving.{PutsFront};
ghost use Rattle.tpm_image_text.specs.Version.{version_of};

use crate::body::write_body;
use crate::fault::SaveFault;
use crate::fields::Text;
use crate::frame::head;
use std::io::Write;
use tpm_bytes::{Sink, Tap};
use tpm_mac::{HashAlg, digest_parts};
use tpm_record::Keep;

/// Writes the body of an image, followed by the digest, to an empty buffer. Returns the
/// head, which must be put before the body.
#[tactic(auto, unfolding(crate::specs::Image::image_text))]
pub fn write_image<K: Keep>(keep: &K, text: &mut Text) -> Sink<10>
    requires { text.old ≡ [] }
    ensures image { result ++ text.new ≡ image_text
        (version_of (K.record_of keep.now).fixed.profile) (kept_of (K.record_of keep.now)) }
    ensures fits { length result + length text.new < 2 ^ 32 }
{
    write_body(keep, text);
    let head = head(keep.fixed().profile, text.len());
    let digest = digest_parts(HashAlg::Sha256, &[head.as_slice(), text.as_slice()]);
    text.append(digest.as_slice());
    head
}

/// Writes a head, followed by `text`, to the beginning of a buffer if both fit. Returns their total
/// size in either case.
pub fn put_front(head: &[u8], text: &[u8], room: &mut [u8]) -> usize
    requires { length head.now + length text.now < 2 ^ 32 }
    ensures { PutsFront (head.now ++ text.now) room.old result room.new }
{
    let size = head.len() + text.len();
    if size <= room.len() {
        let (front, _) = room.split_at_mut(size);
        let (first, second) = front.split_at_mut(head.len());
        first.copy_from_slice(head);
        second.copy_from_slice(text);
    }
    size
}

/// Writes the head of an image, followed by the rest of the image.
pub fn send<D: Write>(tap: &mut Tap<D>, head: &[u8], text: &[u8]) -> Result<(), SaveFault>
    ensures written { OnOk result (Appends (D.contents (device_of tap.old))
        (D.contents (device_of tap.new)) (head.now ++ text.now)) }
    ensures cut_off { OnErr result (AppendsFront (D.contents (device_of tap.old))
        (D.contents (device_of tap.new)) (head.now ++ text.now)) }
    ensures unmarked { OnOk result (marks_of tap.new ≡ marks_of tap.old) }
    ensures failed { OnErr result ((marks_of tap.new).failed ≡ true) }
{
    let Ok(()) = tap.write_all(head) else {
        return Err(SaveFault::Write);
    };
    let Ok(()) = tap.write_all(text) else {
        return Err(SaveFault::Write);
    };
    Ok(())
}
