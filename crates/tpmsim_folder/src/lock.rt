//! The lock of a kept device, which a process holds while it executes a command.

use crate::fault::{KeptFault, Place, Said};
use crate::folder::{Folder, OpenedFile, fault_of, identity_of};

/// The number of times that the lock's file is opened again if another file has replaced it.
const TRIES: u8 = 100;

/// The lock's file, if it is open.
#[derive(Drop)]
pub struct Lock {
    opened: Option<OpenedFile>,
}

impl Lock {
    /// Returns a lock whose file is not open yet.
    pub fn new() -> Lock {
        Lock { opened: None }
    }

    /// Waits until no other process has the lock, and takes it. On success, the locked file is the
    /// file that is now at the lock's path.
    pub fn take(&mut self, rt: &HostRuntime, folder: &Folder) -> Result<(), KeptFault> {
        for _ in 0..TRIES {
            let opened = match self.opened.take() {
                Some(opened) => opened,
                None => open(rt, folder)?,
            };
            if let Err(error) = opened.file.lock() {
                return Err(fault_of(&error, Place::Lock, Said::CannotBeLocked));
            }
            if stands(rt, folder, &opened)? {
                self.opened = Some(opened);
                return Ok(());
            }
        }
        Err(Place::Lock.that(Said::IsReplaced))
    }

    /// Releases the lock. If that fails, the file is closed, and the system releases the lock.
    pub fn give(&mut self) {
        if let Some(opened) = self.opened.take() {
            if opened.file.unlock().is_ok() {
                self.opened = Some(opened);
            }
        }
    }
}

/// Opens the lock's file. If it is missing, creates it; another process may create it at the same
/// time.
fn open(rt: &HostRuntime, folder: &Folder) -> Result<OpenedFile, KeptFault> {
    if folder.look(rt, Place::Lock)?.is_none() {
        let made = folder.make_file(rt, Place::Lock);
        if let Err(fault) = made {
            if folder.look(rt, Place::Lock)?.is_none() {
                return Err(fault);
            }
        }
    }
    folder.open_file(rt, Place::Lock)
}

/// Checks whether the open file is still the file at the lock's path.
fn stands(rt: &HostRuntime, folder: &Folder, opened: &OpenedFile) -> Result<bool, KeptFault> {
    match folder.look(rt, Place::Lock)? {
        Some(metadata) => Ok(identity_of(&metadata) == opened.identity),
        None => Ok(false),
    }
}
