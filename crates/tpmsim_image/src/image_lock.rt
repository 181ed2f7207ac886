//! The lock of an image: only one run at a time can use an image.

use crate::owner_file::create_for_owner;
use std::fs::{File, OpenOptions};
use std::io;
use std::io::ErrorKind;

/// A lock that nobody else holds while this value exists. The lock is on an open file. Therefore
/// the system releases it when the process ends, for whatever reason.
#[derive(Drop)]
pub struct ImageLock {
    _file: File,
}

impl ImageLock {
    /// Takes the lock whose file is at this path, or fails at once if another run holds it. The
    /// file is created if it is missing. It is never removed: otherwise, one run could hold the
    /// lock of the removed file while another run holds the lock of a new file.
    pub fn take(rt: &HostRuntime, path: &str) -> io::Result<ImageLock> {
        let file = open_or_create(rt, path)?;
        file.try_lock()?;
        Ok(ImageLock { _file: file })
    }
}

/// Opens the file at a path. The file is created if it is missing, but not through a link. Only its
/// owner can open it: any other user who could open it could also lock it, and the owner could not
/// use the image. The file is opened for reading and writing, so that opening a pipe does not wait
/// for the pipe's other end.
fn open_or_create(rt: &HostRuntime, path: &str) -> io::Result<File> {
    match create_for_owner(rt, path) {
        Err(error) if error.kind() == ErrorKind::AlreadyExists => {
            OpenOptions::new().read(true).write(true).open(rt, path)
        }
        made => made,
    }
}
