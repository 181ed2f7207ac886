//! The versions of a state text, and the profile of the devices whose state texts have each version.

ghost use Rattle.std.specs.Prelude.{◌≡◌};
ghost use Rattle.tpm_state_text.specs.Version.{state_profile, state_version_number, state_version_numbered, state_version_of};

use tpm_commands::Profile;

/// A version of a state text.
#[derive(Clone, Copy, PartialEq, Eq)]
pub enum StateVersion {
    /// Version 1 is no longer read.
    One,
    /// Version 2 is that of a device of the symmetric profile.
    Two,
    /// Version 3 has the parts of version 2, and is that of a device of the complete profile.
    Three,
}

impl StateVersion {
    /// The number that stands for the version in the head.
    pub fn number(self) -> u16
        ensures { result ≡ state_version_number self }
    {
        match self {
            StateVersion::One => 1,
            StateVersion::Two => 2,
            StateVersion::Three => 3,
        }
    }

    /// The version with this number, or None if no version has this number.
    #[tactic(auto, unfolding(crate::specs::Version::state_version_numbered))]
    pub fn numbered(number: u16) -> Option<StateVersion>
        ensures { result ≡ state_version_numbered number }
    {
        match number {
            1 => Some(StateVersion::One),
            2 => Some(StateVersion::Two),
            3 => Some(StateVersion::Three),
            _ => None,
        }
    }

    /// The profile of the devices whose state texts have this version, or None if the version is no
    /// longer read.
    pub fn profile(self) -> Option<Profile>
        ensures { result ≡ state_profile self }
    {
        match self {
            StateVersion::One => None,
            StateVersion::Two => Some(Profile::Symmetric),
            StateVersion::Three => Some(Profile::Complete),
        }
    }

    /// The version in which the state text of a device of this profile is written.
    pub fn of(profile: Profile) -> StateVersion
        ensures { result ≡ state_version_of profile }
    {
        match profile {
            Profile::Symmetric => StateVersion::Two,
            Profile::Complete => StateVersion::Three,
        }
    }
}
