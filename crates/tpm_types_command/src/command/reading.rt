//! Reads a whole command, from its header to its parameters.

ghost use Rattle.std.specs.Prelude.{◌≡◌, ◌≤◌, [], length, map, true, Ok, IfOk};
ghost use Rattle.tpm_bytes.specs.Reading.{AreBytes, Reads};
ghost use Rattle.tpm_types_command.specs.AuthEntry.{entry_of};
ghost use Rattle.tpm_types_command.specs.Command.{IsCommand, Whole, command_text, served_command_at};
ghost use Rattle.tpm_commands.specs.CommandCode.{serves};
ghost use Rattle.tpm_commands.specs.declared.profile.Profile.TheVariants.{Symmetric};
ghost use Rattle.tpm_types_command.specs.Command.{handles_at, sessions_at, whole_command};

use crate::auth_area::read_area;
use crate::auth_entry::AuthEntry;
use crate::command::Command;
use crate::header::{Header, HeaderFault};
use crate::tag::Tag;
use arrayvec::ArrayVec;
use tpm_bytes::Cursor;
use tpm_commands::Profile;
use tpm_types_common::{Handle, Rc, ResponseCode};

impl<'a> Command<'a> {
    /// Reads a command of the symmetric profile. Like [`Command::read_for`] with this profile.
    pub fn read(text: &mut Cursor<'a>) -> Result<Command<'a>, Rc>
        // The result is the decoded command, or the first fault.
        ensures exact { Reads whole_command (served_command_at Symmetric text.old) text.old result
            text.new }
        // If decoding succeeds, the input is exactly the encoding of the returned command.
        ensures found { IfOk result (λ command. IsCommand (whole_command command)
            × (text.old ≡ command_text (whole_command command)) × (text.new ≡ [])) }
        // The encoding of a command of the profile decodes to that command.
        ensures only { (command : Whole) → IsCommand command
            → serves Symmetric command.code ≡ true → text.old ≡ command_text command
            → Reads whole_command (Ok (command, [])) text.old result text.new }
    {
        Command::read_for(Profile::Symmetric, text)
    }

    /// Reads a command of this profile, which must fill the rest of the input and fit in a command
    /// buffer. Fails with the first fault of the header, which is COMMAND_CODE for a command that a
    /// device of this profile does not serve; with INSUFFICIENT for the first truncated handle; or
    /// with AUTHSIZE for any fault in the authorization area.
    pub fn read_for(profile: Profile, text: &mut Cursor<'a>) -> Result<Command<'a>, Rc>
        // The result is the decoded command, or the first fault.
        ensures exact { Reads whole_command (served_command_at profile text.old) text.old result
            text.new }
        // If decoding succeeds, the input is exactly the encoding of the returned command.
        ensures found { IfOk result (λ command. IsCommand (whole_command command)
            × (text.old ≡ command_text (whole_command command)) × (text.new ≡ [])) }
        // The encoding of a command of the profile decodes to that command.
        ensures only { (command : Whole) → IsCommand command
            → serves profile command.code ≡ true → text.old ≡ command_text command
            → Reads whole_command (Ok (command, [])) text.old result text.new }
    {
        Command::read_fields(profile, text)
    }

    #[tactic(auto, unfolding(crate::specs::Command::served_command_at))]
    fn read_fields(profile: Profile, text: &mut Cursor<'a>) -> Result<Command<'a>, Rc>
        ensures exact { Reads whole_command (served_command_at profile text.old) text.old result
            text.new }
        ensures bytes { AreBytes text.old }
    {
        let mut ahead = Cursor::new(text.rest());
        let header = match Header::read(&mut ahead) {
            Ok(header) => header,
            Err(fault) => return Err(fault.rc()),
        };
        if !profile.serves(header.code) {
            return Err(HeaderFault::Code.rc());
        }
        let handles = read_handles(&mut ahead, header.code.handle_count())?;
        let mut entries = ArrayVec::new();
        read_sessions(&mut ahead, header.tag, &mut entries)?;
        *text = Cursor::new(&[]);
        Ok(Command {
            code: header.code,
            handles,
            entries,
            parameters: ahead.rest(),
        })
    }
}

fn read_handles(text: &mut Cursor, count: usize) -> Result<ArrayVec<Handle, 3>, Rc>
    requires { count ≤ 3 }
    ensures exact { Reads (λ handles. handles.items) (handles_at 1 count text.old)
        text.old result text.new }
    ensures count { IfOk result (λ handles. length handles.items ≡ count) }
{
    let mut ahead = Cursor::new(text.rest());
    let mut handles = ArrayVec::new();
    for before in 0..count {
        let place = before as u8 + 1;
        let Ok(number) = ahead.u32() else {
            return Err(ResponseCode::Insufficient.anywhere().at_handle(place));
        };
        handles.push(Handle { number });
    }
    *text = ahead;
    Ok(handles)
}

/// Reads the authorization area, which is present if the tag is TPM_ST_SESSIONS. Adds its entries
/// to an empty array. Fails as [`read_area`] does.
pub fn read_sessions<'a>(
    text: &mut Cursor<'a>,
    tag: Tag,
    entries: &mut ArrayVec<AuthEntry<'a>, 3>,
) -> Result<(), Rc>
    requires { entries.old.items ≡ [] }
    ensures { Reads (λ done. map entry_of entries.new.items) (sessions_at tag text.old)
        text.old result text.new }
{
    match tag {
        Tag::NoSessions => Ok(()),
        Tag::Sessions => read_area(text, entries),
    }
}
