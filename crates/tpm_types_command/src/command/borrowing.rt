//! The borrowed form of a command, and the calls that the command answers through this form.

ghost use Rattle.std.specs.Prelude.{◌≡◌};
ghost use Rattle.std.specs.Option.{SomeIff};
ghost use Rattle.tpm_types_command.specs.Command.{HasText, PutsCommand, command_size, tag_for, whole_command, whole_of};

use crate::command::Command;
use crate::command_ref::CommandRef;
use crate::tag::Tag;
use arrayvec::ArrayVec;
use tpm_bytes::{Full, Sink};

impl<'b> Command<'b> {
    /// The same command, with entries that are borrowed from this one.
    pub fn borrowed(&self) -> CommandRef<'_, 'b>
        ensures { whole_of result ≡ whole_command self.now }
    {
        let mut handles = ArrayVec::new();
        let _ = handles.try_extend_from_slice(self.handles.as_slice());
        CommandRef {
            code: self.code,
            handles,
            entries: self.entries.as_slice(),
            parameters: self.parameters,
        }
    }

    /// The tag of the command: TPM_ST_SESSIONS if it has entries, and TPM_ST_NO_SESSIONS if not.
    pub fn tag(&self) -> Tag
        ensures { result ≡ tag_for (whole_command self.now).entries }
    {
        self.borrowed().tag()
    }

    /// The size of the command's encoding (commandSize), or None if the command cannot be encoded.
    pub fn text_len(&self) -> Option<usize>
        ensures { SomeIff result (HasText (whole_command self.now))
            (command_size (whole_command self.now)) }
    {
        self.borrowed().text_len()
    }

    /// Appends the encoded command. If it does not fit, if one of its sizes does not fit in two
    /// bytes, or if its total length does not fit in four bytes, writes nothing and returns an
    /// error.
    pub fn write<const N: usize>(&self, sink: &mut Sink<N>) -> Result<(), Full>
        ensures { PutsCommand N (whole_command self.now) sink.old result sink.new }
    {
        self.borrowed().write(sink)
    }
}
