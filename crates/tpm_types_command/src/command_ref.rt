//! A command that borrows its entries, as the device passes it on.

ghost use Rattle.std.specs.Prelude.{◌≡◌, ◌≤◌, length};
ghost use Rattle.tpm_commands.specs.CommandCode.{handle_count};

use crate::auth_entry::AuthEntry;
use arrayvec::ArrayVec;
use tpm_commands::CommandCode;
use tpm_types_common::Handle;

mod writing;

/// A command whose entries are in an array of the caller. The device passes a command in this form,
/// because copying the entries takes longer than executing some commands.
#[derive(Drop)]
pub struct CommandRef<'a, 'b> {
    pub code: CommandCode,
    pub handles: ArrayVec<Handle, 3>,
    pub entries: &'a [AuthEntry<'b>],
    pub parameters: &'b [u8],
    ghost handles_of_code: { length handles.items ≡ handle_count code },
    ghost few_entries: { length entries.now ≤ 3 },
}
