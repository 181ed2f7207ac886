//! The frame of a state text: the head before its body, and the digest after it.

ghost use Rattle.std.specs.Prelude.{◌≡◌, ◌≤◌, ◌+◌};
ghost use Rattle.tpm_bytes.specs.Reading.{AreBytes, Gives};
ghost use Rattle.tpm_image_text.specs.Frame.{head_in, within_frame};
ghost use Rattle.tpm_image_text.specs.Sizes.{body_size, more_size};
ghost use Rattle.tpm_state_text.specs.Frame.{state_format};
ghost use Rattle.tpm_state_text.specs.Version.{state_version_of};

use crate::fault::StateFault;
use crate::version::StateVersion;
use tpm_bytes::Sink;
use tpm_commands::Profile;
use tpm_mac::{HashAlg, digest_parts};

/// The magic bytes at the beginning of a state text: TPMS.
const MAGIC: [u8; 4] = [0x54, 0x50, 0x4d, 0x53];

/// Sizes of the head and of the digest, in bytes.
const HEAD_BYTES: usize = 10;

const DIGEST_BYTES: usize = 32;

/// Returns the head of a state text whose body has the given size, in the version that a device of
/// this profile writes.
pub fn head(profile: Profile, body_bytes: usize) -> Sink<10>
    requires { body_bytes ≤ body_size + more_size }
    ensures { result ≡ head_in state_format (state_version_of profile) (10 + body_bytes + 32) }
{
    let mut head = Sink::new();
    head.append(&MAGIC);
    head.append_u16(StateVersion::of(profile).number());
    head.append_u32((HEAD_BYTES + body_bytes + DIGEST_BYTES) as u32);
    head
}

/// Returns the version and the body that a frame contains, or the first fault of the frame.
#[tactic(auto, unfolding(tpm_image_text::specs::Frame::within_frame))]
pub fn framed_body(text: &[u8]) -> Result<(StateVersion, &[u8]), StateFault>
    ensures value { Gives (λ framed. (framed.0, framed.1.now))
        (within_frame state_format text.now) result }
    ensures bytes { AreBytes text.now }
{
    if text.len() < HEAD_BYTES + DIGEST_BYTES {
        return Err(StateFault::Short);
    }
    if !text.starts_with(&MAGIC) {
        return Err(StateFault::Magic);
    }
    let Some(version) = StateVersion::numbered(u16::from_be_bytes([text[4], text[5]])) else {
        return Err(StateFault::Version);
    };
    if u32::from_be_bytes([text[6], text[7], text[8], text[9]]) as usize != text.len() {
        return Err(StateFault::Length);
    }
    let (before, digest) = text.split_at(text.len() - DIGEST_BYTES);
    if digest_parts(HashAlg::Sha256, &[before]).as_slice() != digest {
        return Err(StateFault::Digest);
    }
    Ok((version, &before[HEAD_BYTES..]))
}
