//! Parses a command as far as the layer needs it.

ghost use Rattle.std.specs.Prelude.{◌≡◌};
ghost use Rattle.tpm_bytes.specs.Reading.{Gives};
ghost use Rattle.tpm_completion.specs.Command.{authorized_command, command_of, plain_command, tag_of};

use tpm_bytes::{Cursor, Short};

/// A command: its code, and the bytes after its header.
#[derive(Drop)]
pub struct PlainCommand<'a> {
    pub code: u32,
    pub parameters: &'a [u8],
}

impl<'a> PlainCommand<'a> {
    /// Parses a command without sessions whose buffer has the size that its header states.
    #[tactic(auto, unfolding(crate::specs::Command::plain_command))]
    pub fn read(buffer: &'a [u8]) -> Result<PlainCommand<'a>, Short>
        ensures { Gives command_of (plain_command buffer.now) result }
    {
        let mut text = Cursor::new(buffer);
        let tag = text.u16()?;
        let size = text.u32()?;
        let code = text.u32()?;
        if tag != 0x8001 {
            return Err(Short);
        }
        if size as usize != buffer.len() {
            return Err(Short);
        }
        Ok(PlainCommand {
            code,
            parameters: text.rest(),
        })
    }

    /// Parses a command with sessions whose buffer has the size that its header states.
    #[tactic(auto, unfolding(crate::specs::Command::authorized_command))]
    pub fn read_authorized(buffer: &'a [u8]) -> Result<PlainCommand<'a>, Short>
        ensures { Gives command_of (authorized_command buffer.now) result }
    {
        let mut text = Cursor::new(buffer);
        let tag = text.u16()?;
        let size = text.u32()?;
        let code = text.u32()?;
        if tag != 0x8002 {
            return Err(Short);
        }
        if size as usize != buffer.len() {
            return Err(Short);
        }
        Ok(PlainCommand {
            code,
            parameters: text.rest(),
        })
    }
}

/// The tag of a command, or 0 if the buffer is too short for one.
pub fn tag_of(buffer: &[u8]) -> u16
    ensures { result ≡ tag_of buffer.now }
{
    match Cursor::new(buffer).u16() {
        Ok(tag) => tag,
        Err(_) => 0,
    }
}
