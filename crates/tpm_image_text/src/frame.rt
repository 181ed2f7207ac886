//! The frame of an image: the head before its body, and the digest after it.

ghost use Rattle.tpm_image_text.specs.Sizes.{body_size};
ghost use Rattle.tpm_bytes.specs.Reading.{AreBytes, Gives};
ghost use Rattle.std.specs.Prelude.{◌≡◌, ◌≤◌, ◌+◌, ◌++◌, List, ℕ, Result, Ok, Err, length, take};
ghost use Rattle.tpm_image_text.specs.Frame.{complete_word, framed_body, head_text, is_image_word};
ghost use Rattle.std.specs.Str.{bytes_eq};
ghost use Rattle.tpm_image_text.specs.Version.{version_of};

use crate::fault::ImageFault;
use crate::version::{COMPLETE_WORD, SYMMETRIC_WORD, Version};
use tpm_bytes::Sink;
use tpm_commands::Profile;
use tpm_mac::{HashAlg, digest_parts};

/// The sizes of the head and of the digest, in bytes.
const HEAD_BYTES: usize = 10;

const DIGEST_BYTES: usize = 32;

/// The size of a frame without a body, in bytes.
pub const FRAME_BYTES: usize = HEAD_BYTES + DIGEST_BYTES;

/// Returns the head of an image whose body has the given size, in the version that a device of this
/// profile writes.
pub fn head(profile: Profile, body_bytes: usize) -> Sink<10>
    requires { body_bytes ≤ body_size }
    ensures { result ≡ head_text (version_of profile) (10 + body_bytes + 32) }
{
    let version = Version::of(profile);
    let mut head = Sink::new();
    head.append(&version.word());
    head.append_u16(version.number());
    head.append_u32((HEAD_BYTES + body_bytes + DIGEST_BYTES) as u32);
    head
}

/// Whether bytes begin with the magic word of a device of the complete profile.
fn has_complete_word(text: &[u8]) -> bool
    ensures { result ≡ bytes_eq (take 4 text.now) complete_word }
{
    text.starts_with(&COMPLETE_WORD)
}

/// Whether bytes begin with the magic word of either profile.
fn has_image_word(text: &[u8]) -> bool
    ensures { result ≡ is_image_word (take 4 text.now) }
{
    text.starts_with(&SYMMETRIC_WORD) || has_complete_word(text)
}

/// Returns the version and the body in a frame, or the first fault of the frame.
#[tactic(auto, unfolding(crate::specs::Frame::within_frame))]
pub fn framed_body(text: &[u8]) -> Result<(Version, &[u8]), ImageFault>
    ensures value { Gives (λ framed. (framed.0, framed.1.now)) (framed_body text.now) result }
    ensures bytes { AreBytes text.now }
{
    if text.len() < FRAME_BYTES {
        return Err(ImageFault::Short);
    }
    if !has_image_word(text) {
        return Err(ImageFault::Magic);
    }
    let number = u16::from_be_bytes([text[4], text[5]]);
    let Some(version) = Version::numbered(has_complete_word(text), number) else {
        return Err(ImageFault::Version);
    };
    if u32::from_be_bytes([text[6], text[7], text[8], text[9]]) as usize != text.len() {
        return Err(ImageFault::Length);
    }
    let (before, digest) = text.split_at(text.len() - DIGEST_BYTES);
    if digest_parts(HashAlg::Sha256, &[before]).as_slice() != digest {
        return Err(ImageFault::Digest);
    }
    Ok((version, &before[HEAD_BYTES..]))
}
