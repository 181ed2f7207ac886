//! The versions of an image, the profile of the devices that have images of each version, and the
//! limits of each version on NV indices.

ghost use Rattle.tpm_types_common.specs.Limits.{nv_index_limit, nv_space_limit};
ghost use Rattle.tpm_image_text.specs.Body.{limits_in, limits_text};
ghost use Rattle.tpm_image_text.specs.Sizes.{limits_size, text_size};
ghost use Rattle.tpm_image_text.specs.Version.{complete_letter, index_limit, profile_of, space_limit, symmetric_letter, version_letter, version_number, version_numbered, version_of};
ghost use Rattle.tpm_image_text.specs.Frame.{complete_word, symmetric_word, word_of};
ghost use Rattle.std.specs.Prelude.{◌≡◌, ◌≤◌, ◌+◌, ◌++◌, length};
ghost use Rattle.tpm_bytes.specs.Reading.{Reads};

use crate::fault::Malformed;
use crate::fields::{Text, read_u16, read_u32, write_u16, write_u32};
use tpm_bytes::Cursor;
use tpm_commands::Profile;
use tpm_types_common::{NV_INDEX_LIMIT, NV_SPACE_LIMIT};

/// The magic words of the images of each profile: TPMI and TPMC.
pub const SYMMETRIC_WORD: [u8; 4] = [0x54, 0x50, 0x4d, 0x49];

pub const COMPLETE_WORD: [u8; 4] = [0x54, 0x50, 0x4d, 0x43];

/// A version of an image.
#[derive(Clone, Copy, PartialEq, Eq)]
pub enum Version {
    /// Version 1 is read but no longer written. Its images contain at most 32 NV indices, with at
    /// most 8,192 bytes of data.
    One,
    /// Version 2 states the device's limits: the largest number of NV indices and the largest size
    /// of their data.
    Two,
    /// Version 1 of the images of the complete profile, which have a magic word of their own. Its
    /// body has the parts of version 2.
    CompleteOne,
}

impl Version {
    /// The number that stands for the version in an image.
    pub fn number(self) -> u16
        ensures { result ≡ version_number self }
    {
        match self {
            Version::One | Version::CompleteOne => 1,
            Version::Two => 2,
        }
    }

    /// The magic word of the version.
    pub fn word(self) -> [u8; 4]
        ensures { result ≡ word_of (version_letter self) }
    {
        match self {
            Version::One | Version::Two => SYMMETRIC_WORD,
            Version::CompleteOne => COMPLETE_WORD,
        }
    }

    /// The version with this number, if there is one, after the magic word of the complete profile or
    /// that of the symmetric profile.
    #[tactic(auto, unfolding(crate::specs::Version::version_numbered))]
    pub fn numbered(is_complete: bool, number: u16) -> Option<Version>
        ensures { result ≡ version_numbered is_complete number }
    {
        match (is_complete, number) {
            (false, 1) => Some(Version::One),
            (false, 2) => Some(Version::Two),
            (true, 1) => Some(Version::CompleteOne),
            _ => None,
        }
    }

    /// The profile of the devices whose images have this version.
    pub fn profile(self) -> Profile
        ensures { result ≡ profile_of self }
    {
        match self {
            Version::One | Version::Two => Profile::Symmetric,
            Version::CompleteOne => Profile::Complete,
        }
    }

    /// The version in which the image of a device of this profile is written.
    pub fn of(profile: Profile) -> Version
        ensures { result ≡ version_of profile }
    {
        match profile {
            Profile::Symmetric => Version::Two,
            Profile::Complete => Version::CompleteOne,
        }
    }

    /// The largest number of NV indices in an image.
    pub fn index_limit(self) -> usize
        ensures value { result ≡ index_limit self }
        ensures small { result ≤ nv_index_limit }
    {
        match self {
            Version::One => 32,
            Version::Two | Version::CompleteOne => NV_INDEX_LIMIT,
        }
    }

    /// The largest total size of the data of all NV indices in an image.
    pub fn space_limit(self) -> usize
        ensures value { result ≡ space_limit self }
        ensures small { result ≤ nv_space_limit }
    {
        match self {
            Version::One => 8_192,
            Version::Two | Version::CompleteOne => NV_SPACE_LIMIT,
        }
    }
}

/// Reads the limits in an image, which must be the limits of the image's version. Returns the
/// profile of the device.
#[tactic(auto, unfolding(crate::specs::Body::limits_in, crate::specs::Body::device_limits_in))]
pub fn read_limits(version: Version, text: &mut Cursor) -> Result<Profile, Malformed>
    ensures { Reads (λ profile. profile) (limits_in version text.old) text.old result text.new }
{
    if version == Version::One {
        return Ok(Profile::Symmetric);
    }
    let mut ahead = Cursor::new(text.rest());
    let indices = usize::from(read_u16(&mut ahead)?);
    let space = read_u32(&mut ahead)? as usize;
    if indices != NV_INDEX_LIMIT || space != NV_SPACE_LIMIT {
        return Err(Malformed);
    }
    *text = ahead;
    Ok(version.profile())
}

/// Writes the limits of the device.
#[tactic(auto, using(crate::proofs::VersionLaws::limits_same), unfolding(crate::specs::Body::limits_text))]
pub fn write_limits(_profile: Profile, text: &mut Text)
    requires { length text.old + limits_size ≤ text_size }
    ensures written { text.new ≡ text.old ++ limits_text (version_of _profile) }
    ensures small { length text.new ≡ length text.old + limits_size }
{
    write_u16(NV_INDEX_LIMIT as u16, text);
    write_u32(NV_SPACE_LIMIT as u32, text);
}
