//! The header of a command, and its first fault in the order of the checks (TPM 2.0 Library, Part
//! 1, section 18.2).

ghost use Rattle.std.specs.Prelude.{◌≡◌};
ghost use Rattle.tpm_bytes.specs.Reading.{Reads};

use crate::auth_entry::AuthEntry;
use crate::tag::Tag;
use arrayvec::ArrayVec;
use tpm_bytes::Cursor;
use tpm_commands::CommandCode;
use tpm_types_common::{BUFFER_LIMIT, Handle, Rc, ResponseCode};

/// The size of a command's header in bytes.
pub const HEADER_SIZE: usize = 10;

/// The header of a command, except commandSize (Part 1, section 18.2).
#[derive(Clone, Copy, PartialEq, Eq)]
pub struct Header {
    pub tag: Tag,
    pub code: CommandCode,
}

/// The first fault of a command's header, in the order of the checks.
#[derive(Clone, Copy, PartialEq, Eq)]
pub enum HeaderFault {
    /// The buffer is shorter than a header, or longer than `BUFFER_LIMIT`.
    Length,
    /// The tag is neither TPM_ST_SESSIONS nor TPM_ST_NO_SESSIONS.
    Tag,
    /// commandSize differs from the length of the buffer.
    Size,
    /// The command code is not supported.
    Code,
}

impl HeaderFault {
    ghost use Rattle.tpm_types_command.specs.Header.{header_fault_rc};

    /// The response code for the fault.
    pub fn rc(self) -> Rc
        ensures { result ≡ header_fault_rc self }
    {
        match self {
            HeaderFault::Length | HeaderFault::Size => ResponseCode::CommandSize.anywhere(),
            HeaderFault::Tag => ResponseCode::BadTag.anywhere(),
            HeaderFault::Code => ResponseCode::CommandCode.anywhere(),
        }
    }
}

impl Header {
    ghost use Rattle.tpm_types_command.specs.Header.{header_at};

    /// Reads the header of a command. The input must be exactly the whole command.
    #[tactic(auto, unfolding(crate::specs::Header::header_at))]
    pub fn read(text: &mut Cursor) -> Result<Header, HeaderFault>
        ensures { Reads (λ header. header) (header_at text.old) text.old result text.new }
    {
        let length = text.len();
        if length < HEADER_SIZE || length > BUFFER_LIMIT {
            return Err(HeaderFault::Length);
        }
        let mut ahead = Cursor::new(text.rest());
        let (Ok(tag), Ok(size), Ok(code)) = (ahead.u16(), ahead.u32(), ahead.u32()) else {
            return Err(HeaderFault::Length);
        };
        let Some(tag) = Tag::named(tag) else {
            return Err(HeaderFault::Tag);
        };
        if size as usize != length {
            return Err(HeaderFault::Size);
        }
        let Some(code) = CommandCode::named(code) else {
            return Err(HeaderFault::Code);
        };
        *text = ahead;
        Ok(Header { tag, code })
    }
}
