//! The tag of a command or a response, which shows whether it has sessions (TPM_ST; TPM 2.0
//! Library, Part 2, section 6.9).

ghost use Rattle.std.specs.Prelude.{◌≡◌};

/// The tag of a command, which shows whether it has authorization sessions: TPM_ST (Part 2, section
/// 6.9).
#[derive(Clone, Copy, PartialEq, Eq)]
pub enum Tag {
    NoSessions,
    Sessions,
}

impl Tag {
    ghost use Rattle.tpm_types_command.specs.Tag.{tag_named, tag_number};

    /// The wire number of the tag.
    pub fn number(self) -> u16
        ensures { result ≡ tag_number self }
    {
        match self {
            Tag::NoSessions => 0x8001,
            Tag::Sessions => 0x8002,
        }
    }

    /// The tag with this number, or None.
    pub fn named(number: u16) -> Option<Tag>
        ensures { result ≡ tag_named number }
    {
        match number {
            0x8001 => Some(Tag::NoSessions),
            0x8002 => Some(Tag::Sessions),
            _ => None,
        }
    }
}
