//! A command's own checks, A1 to A7, numbered in the order in which the command's section of Part 3
//! lists them.

ghost use Rattle.std.specs.Prelude.{◌≡◌};

/// One of a command's own checks, which the command makes in addition to the checks of all
/// commands. The number of a check is its position in the list of checks in the command's section
/// of Part 3.
#[derive(Clone, Copy, PartialEq, Eq)]
pub enum ActionCheck {
    First = 1,
    Second = 2,
    Third = 3,
    Fourth = 4,
    Fifth = 5,
    Sixth = 6,
    Seventh = 7,
}

impl ActionCheck {
    ghost use Rattle.tpm_types_common.specs.ActionCheck.{action_named, action_number};

    /// The number of the check, from 1.
    pub fn number(self) -> u8
        ensures { result ≡ action_number self }
    {
        self as u8
    }

    /// The check with this number, or the seventh check if no check has this number.
    pub fn named(number: u8) -> ActionCheck
        ensures { result ≡ action_named number }
    {
        match number {
            1 => ActionCheck::First,
            2 => ActionCheck::Second,
            3 => ActionCheck::Third,
            4 => ActionCheck::Fourth,
            5 => ActionCheck::Fifth,
            6 => ActionCheck::Sixth,
            _ => ActionCheck::Seventh,
        }
    }
}
