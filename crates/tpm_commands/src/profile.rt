//! The profile of a device, which determines the commands that the device serves.

ghost use Rattle.std.specs.Prelude.{◌≡◌, ◌≤◌, filter};
ghost use Rattle.tpm_commands.specs.CommandCode.{is_served, served_count, serves};
ghost use Rattle.tpm_commands.specs.CommandFacts.{all_codes};
ghost use Rattle.tpm_commands.specs.SymmetricCommands.{symmetric_codes};
ghost use Rattle.tpm_commands.specs.declared.profile.Profile.TheVariants.{Symmetric};

use crate::command_code::CommandCode;

/// The profile of a device, which determines the commands that the device serves. It is chosen at
/// manufacture, and no event changes it.
#[derive(Clone, Copy, PartialEq, Eq, Default)]
pub enum Profile {
    /// The 47 commands that a platform without asymmetric keys needs. Every other command code is
    /// refused with COMMAND_CODE.
    #[default]
    Symmetric,
    /// All commands in the table.
    Complete,
}

impl Profile {
    /// Whether a device of this profile serves a command.
    #[inline(always)]
    pub fn serves(self, code: CommandCode) -> bool
        ensures { result ≡ serves self code }
    {
        match self {
            Profile::Complete => true,
            Profile::Symmetric => !code.is_complete_only(),
        }
    }

    /// Whether a device of this profile serves a command with this number, and therefore whether a
    /// policy can name it.
    pub fn serves_number(self, number: u32) -> bool
        ensures { result ≡ is_served self number }
    {
        match CommandCode::named(number) {
            Some(code) => self.serves(code),
            None => false,
        }
    }

    /// The number of commands that a device of this profile serves.
    pub fn served_count(self) -> usize
        ensures value { result ≡ served_count self }
        ensures few { result ≤ 64 }
    {
        CommandCode::ALL
            .iter()
            .filter(|code| self.serves(**code))
            .count()
    }
}

/// States that a device of the symmetric profile serves exactly 47 commands, and lists them. This
/// function is only a proof: it has no effect at run time.
#[tactic(auto, unfolding(crate::specs::CommandCode::shape_of))]
pub fn symmetric_laws()
    ensures codes { filter (serves Symmetric) all_codes ≡ symmetric_codes }
    ensures count { served_count Symmetric ≡ 47 }
{}
