//! Writes a whole command. Computes commandSize, and reports an error for a command that cannot be
//! encoded or does not fit.

ghost use Rattle.std.specs.Prelude.{◌≡◌, ◌+◌, ◌*◌, ◌≤◌, ◌++◌, length, map, IfSome};
ghost use Rattle.std.specs.List.{AllByRecursion};
ghost use Rattle.std.specs.Option.{SomeIff};
ghost use Rattle.tpm_types_command.specs.AuthArea.{entries_text};
ghost use Rattle.tpm_types_command.specs.AuthEntry.{HasSizes, entry_of};
ghost use Rattle.tpm_types_command.specs.Command.{HasText, PutsCommand, command_size, handles_text};
ghost use Rattle.tpm_types_command.specs.Command.{sessions_text, tag_for, whole_of};
ghost use Rattle.tpm_types_command.specs.Header.{header_text};

use crate::auth_entry::AuthEntry;
use crate::command_ref::CommandRef;
use crate::header::HEADER_SIZE;
use crate::tag::Tag;
use tpm_bytes::{Full, Sink};
use tpm_commands::CommandCode;
use tpm_types_common::Handle;

impl CommandRef<'_, '_> {
    /// The tag of the command: TPM_ST_SESSIONS if it has entries, and TPM_ST_NO_SESSIONS if not.
    pub fn tag(&self) -> Tag
        ensures { result ≡ tag_for (map entry_of self.now.entries.now) }
    {
        if self.entries.is_empty() {
            Tag::NoSessions
        } else {
            Tag::Sessions
        }
    }

    /// The size of the command's encoding (commandSize), or None if the command cannot be encoded.
    pub fn text_len(&self) -> Option<usize>
        ensures { SomeIff result (HasText (whole_of self.now)) (command_size (whole_of self.now)) }
    {
        let sessions = sessions_len(self.entries)?;
        let handles = 4 * self.handles.as_slice().len();
        let size = HEADER_SIZE + handles + sessions + self.parameters.len();
        if size > 0xffff_ffff {
            return None;
        }
        Some(size)
    }

    /// Appends the encoded command. If it does not fit, if one of its sizes does not fit in two
    /// bytes, or if its total length does not fit in four bytes, writes nothing and returns an
    /// error.
    pub fn write<const N: usize>(&self, sink: &mut Sink<N>) -> Result<(), Full>
        ensures { PutsCommand N (whole_of self.now) sink.old result sink.new }
    {
        let Some(size) = self.text_len() else {
            return Err(Full);
        };
        if N - sink.len() < size {
            return Err(Full);
        }
        write_header(self.tag(), size as u32, self.code, sink);
        write_handles(self.handles.as_slice(), sink);
        write_sessions(self.entries, sink);
        sink.append(self.parameters);
        Ok(())
    }
}

/// The total size of the entries' encodings, or None if an entry cannot be encoded.
fn entries_len(entries: &[AuthEntry]) -> Option<usize>
    requires { length entries.now ≤ 3 }
    ensures value { SomeIff result (AllByRecursion HasSizes (map entry_of entries.now))
        (length (entries_text (map entry_of entries.now))) }
    ensures small { IfSome result (λ bytes. bytes ≤ 3 * 131_079) }
{
    let mut bytes = 0;
    for entry in entries {
        bytes += entry.text_len()?;
    }
    Some(bytes)
}

/// The size of the encoded authorization area: 0 if there are no entries, and None if an entry
/// cannot be encoded.
fn sessions_len(entries: &[AuthEntry]) -> Option<usize>
    requires { length entries.now ≤ 3 }
    ensures value { SomeIff result (AllByRecursion HasSizes (map entry_of entries.now))
        (length (sessions_text (map entry_of entries.now))) }
    ensures small { IfSome result (λ bytes. bytes ≤ 4 + 3 * 131_079) }
{
    if entries.is_empty() {
        return Some(0);
    }
    Some(4 + entries_len(entries)?)
}

#[tactic(auto, unfolding(crate::specs::Header::header_text))]
fn write_header<const N: usize>(tag: Tag, size: u32, code: CommandCode, sink: &mut Sink<N>)
    requires { length sink.old + 10 ≤ N }
    ensures { sink.new ≡ sink.old ++ header_text tag size code }
{
    sink.append_u16(tag.number());
    sink.append_u32(size);
    sink.append_u32(code.number());
}

fn write_handles<const N: usize>(handles: &[Handle], sink: &mut Sink<N>)
    requires { length sink.old + 4 * length handles.now ≤ N }
    ensures { sink.new ≡ sink.old ++ handles_text handles.now }
{
    for handle in handles {
        sink.append_u32(handle.number);
    }
}

fn write_entries<const N: usize>(entries: &[AuthEntry], sink: &mut Sink<N>)
    requires sizes { AllByRecursion HasSizes (map entry_of entries.now) }
    requires room { length sink.old + length (entries_text (map entry_of entries.now)) ≤ N }
    ensures { sink.new ≡ sink.old ++ entries_text (map entry_of entries.now) }
{
    for entry in entries {
        entry.append_to(sink);
    }
}

fn write_sessions<const N: usize>(entries: &[AuthEntry], sink: &mut Sink<N>)
    requires few { length entries.now ≤ 3 }
    requires sizes { AllByRecursion HasSizes (map entry_of entries.now) }
    requires room { length sink.old + length (sessions_text (map entry_of entries.now)) ≤ N }
    ensures { sink.new ≡ sink.old ++ sessions_text (map entry_of entries.now) }
{
    if !entries.is_empty() {
        let size = entries_len(entries).unwrap_or(0);
        sink.append_u32(size as u32);
        write_entries(entries, sink);
    }
}
