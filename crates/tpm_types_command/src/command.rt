//! A whole command: its code, handles, authorization entries and parameters (TPM 2.0 Library, Part
//! 1, section 18). The submodules read and write commands.

ghost use Rattle.std.specs.Prelude.{◌≡◌, length};
ghost use Rattle.tpm_commands.specs.CommandCode.{handle_count};

use crate::auth_entry::AuthEntry;
use arrayvec::ArrayVec;
use tpm_commands::CommandCode;
use tpm_types_common::Handle;

mod borrowing;
pub mod reading;

/// A whole command (Part 1, section 18). Its code determines the number of its handles. Its tag is
/// TPM_ST_SESSIONS if it has entries, and TPM_ST_NO_SESSIONS if not. All bytes after the entries
/// are parameters. The device's own form is [`crate::command_ref::CommandRef`], which borrows its
/// entries.
#[derive(Drop)]
pub struct Command<'a> {
    pub code: CommandCode,
    pub handles: ArrayVec<Handle, 3>,
    pub entries: ArrayVec<AuthEntry<'a>, 3>,
    pub parameters: &'a [u8],
    ghost handles_of_code: { length handles.items ≡ handle_count code },
}
