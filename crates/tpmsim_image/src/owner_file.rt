//! Files that only their owner can read and write: they contain a device's seeds and every
//! authorization value, or lock an image.

use std::fs::{File, OpenOptions, Permissions};
use std::io;
use std::os::unix::fs::{OpenOptionsExt, PermissionsExt};

/// The permissions of a file that only its owner can use.
const OWNER_ALONE: u32 = 0o600;

/// Creates a file at this path. The call fails if anything is already there, even a link. The
/// file's owner can read and write it, whatever the umask is.
pub fn create_for_owner(rt: &HostRuntime, path: &str) -> io::Result<File> {
    let file = OpenOptions::new()
        .read(true)
        .write(true)
        .create_new(true)
        .mode(OWNER_ALONE)
        .open(rt, path)?;
    file.set_permissions(Permissions::from_mode(OWNER_ALONE))?;
    Ok(file)
}
