//! The folder of a kept device, and the files that it may contain. Only files and folders of the
//! user who runs the process are opened, and no link is followed.

use crate::fault::{KeptFault, Place, Said};
use crate::standing::{file_fault, folder_fault, kind_of};
use std::fs::{DirBuilder, File, Metadata, OpenOptions, Permissions};
use std::io::ErrorKind;
use std::os::unix::fs::{DirBuilderExt, MetadataExt, OpenOptionsExt, PermissionsExt};
use std::{fs, io};

/// The permissions of a file that is created here, whatever the umask is.
const FILE_MODE: u32 = 0o600;

/// The permissions of a folder that is created here.
const FOLDER_MODE: u32 = 0o700;

/// The identity of a file, which distinguishes it from all others: its device and its inode.
#[derive(Clone, Copy, PartialEq, Eq)]
pub struct Identity {
    device: u64,
    inode: u64,
}

/// Returns the identity of the file with this metadata.
pub fn identity_of(metadata: &Metadata) -> Identity {
    Identity {
        device: metadata.dev(),
        inode: metadata.ino(),
    }
}

/// A file that was opened, and its identity.
#[derive(Drop)]
pub struct OpenedFile {
    pub file: File,
    pub identity: Identity,
}

/// A folder, and the paths of its files.
#[derive(Drop)]
pub struct Folder {
    path: String,
    journal: String,
    new_journal: String,
    last_journal: String,
    lock: String,
    /// The user who runs the process.
    user: u32,
    /// Whether this process created the folder.
    was_made: bool,
    /// Whether this process has synced the folder's own name to the disk, or is not allowed to.
    is_named: bool,
}

impl Folder {
    /// Opens the folder at a path. If the folder is missing and `makes` is true, creates it.
    pub fn open(rt: &HostRuntime, path: &str, makes: bool) -> Result<Folder, KeptFault> {
        let user = user_of(rt)?;
        let was_made = makes && make(rt, without_slashes(path))?;
        let folder = match paths_of(rt, without_slashes(path), user, was_made) {
            Ok(folder) => folder,
            Err(error) => return Err(fault_of(&error, Place::Folder, Said::CannotBeOpened)),
        };
        match fs::symlink_metadata(rt, folder.path.as_str()) {
            Ok(metadata) => match folder_fault(kind_of(&metadata), metadata.uid(), user) {
                Some(said) => Err(Place::Folder.that(said)),
                None => Ok(folder),
            },
            Err(error) if error.kind() == ErrorKind::NotFound => {
                Err(Place::Folder.that(Said::IsNotThere))
            }
            Err(error) => Err(fault_of(&error, Place::Folder, Said::CannotBeLookedAt)),
        }
    }

    /// Returns the path of this file or folder.
    pub fn path(&self, place: Place) -> &str {
        match place {
            Place::Folder => self.path.as_str(),
            Place::Journal => self.journal.as_str(),
            Place::NewJournal => self.new_journal.as_str(),
            Place::LastJournal => self.last_journal.as_str(),
            Place::Lock => self.lock.as_str(),
        }
    }

    /// Returns the metadata of a regular file of the user; None if there is no file at this place.
    pub fn look(&self, rt: &HostRuntime, place: Place) -> Result<Option<Metadata>, KeptFault> {
        match fs::symlink_metadata(rt, self.path(place)) {
            Ok(metadata) => match self.fault_at(place, &metadata) {
                Some(fault) => Err(fault),
                None => Ok(Some(metadata)),
            },
            Err(error) if error.kind() == ErrorKind::NotFound => Ok(None),
            Err(error) => Err(fault_of(&error, place, Said::CannotBeLookedAt)),
        }
    }

    /// Returns why the file is not a regular file of the user, or None if it is one.
    fn fault_at(&self, place: Place, metadata: &Metadata) -> Option<KeptFault> {
        match file_fault(kind_of(metadata), metadata.uid(), self.user) {
            Some(said) => Some(place.that(said)),
            None => None,
        }
    }

    /// Opens an existing file for reading and writing. The call fails if another file, perhaps a
    /// link, replaced this file just before it was opened.
    pub fn open_file(&self, rt: &HostRuntime, place: Place) -> Result<OpenedFile, KeptFault> {
        let Some(looked) = self.look(rt, place)? else {
            return Err(place.that(Said::IsNotThere));
        };
        let file = match open_both_ways(rt, self.path(place)) {
            Ok(file) => file,
            Err(error) => return Err(fault_of(&error, place, Said::CannotBeOpened)),
        };
        match file.metadata() {
            Ok(metadata) if identity_of(&metadata) == identity_of(&looked) => Ok(OpenedFile {
                file,
                identity: identity_of(&metadata),
            }),
            Ok(_) => Err(place.that(Said::CannotBeOpened)),
            Err(error) => Err(fault_of(&error, place, Said::CannotBeLookedAt)),
        }
    }

    /// Creates a new file that only its owner can use.
    pub fn make_file(&self, rt: &HostRuntime, place: Place) -> Result<File, KeptFault> {
        let file = match create(rt, self.path(place)) {
            Ok(file) => file,
            Err(error) => return Err(fault_of(&error, place, Said::CannotBeMade)),
        };
        match file.set_permissions(Permissions::from_mode(FILE_MODE)) {
            Ok(()) => Ok(file),
            Err(error) => Err(fault_of(&error, place, Said::CannotBeGivenItsMode)),
        }
    }

    /// Syncs the names of the folder's files to the disk. The first call also syncs the folder's
    /// own name, since the process that created the folder may have been killed before it did so.
    /// Returns true if this call could not sync the folder's own name because the user may not read
    /// the parent folder.
    pub fn force(&mut self, rt: &HostRuntime) -> Result<bool, KeptFault> {
        match self.force_names(rt) {
            Ok(is_left_out) => Ok(is_left_out),
            Err(error) => Err(fault_of(&error, Place::Folder, Said::CannotBeForced)),
        }
    }

    fn force_names(&mut self, rt: &HostRuntime) -> io::Result<bool> {
        fs::open(rt, self.path.as_str())?.sync_all()?;
        if self.is_named {
            return Ok(false);
        }
        let is_forced = force_above(rt, self.path.as_str(), self.was_made)?;
        self.is_named = true;
        Ok(!is_forced)
    }
}

/// Returns the fault for a system error: `Memory` if memory ran out, and otherwise `said`.
pub fn fault_of(error: &io::Error, place: Place, said: Said) -> KeptFault {
    let said = match error.kind() {
        ErrorKind::OutOfMemory => Said::memory(),
        _ => said,
    };
    KeptFault {
        place,
        said,
        error: error.raw_os_error(),
    }
}

/// Returns a path without its trailing slashes, because the system would follow a link that comes
/// before a slash.
fn without_slashes(path: &str) -> &str {
    let front = path.trim_end_matches('/');
    if front.is_empty() { path } else { front }
}

/// Returns the user who runs the process. This user owns the process's own folder in Linux's /proc.
fn user_of(rt: &HostRuntime) -> Result<u32, KeptFault> {
    match fs::metadata(rt, "/proc/self") {
        Ok(metadata) => Ok(metadata.uid()),
        Err(error) => Err(fault_of(&error, Place::Folder, Said::CannotBeLookedAt)),
    }
}

/// Creates the folder if it is missing, and sets its permissions, whatever the umask is. Returns
/// whether it created the folder.
fn make(rt: &HostRuntime, path: &str) -> Result<bool, KeptFault> {
    match DirBuilder::new().mode(FOLDER_MODE).create(rt, path) {
        Ok(()) => match fs::set_permissions(rt, path, Permissions::from_mode(FOLDER_MODE)) {
            Ok(()) => Ok(true),
            Err(error) => Err(fault_of(&error, Place::Folder, Said::CannotBeGivenItsMode)),
        },
        Err(error) if error.kind() == ErrorKind::AlreadyExists => Ok(false),
        Err(error) => Err(fault_of(&error, Place::Folder, Said::CannotBeMade)),
    }
}

/// Returns the folder with the paths of its files.
fn paths_of(rt: &HostRuntime, path: &str, user: u32, was_made: bool) -> io::Result<Folder> {
    Ok(Folder {
        path: String::from_str(rt.alloc(), path)?,
        journal: format!(in rt.alloc(); "{path}/journal")?,
        new_journal: format!(in rt.alloc(); "{path}/journal.new")?,
        last_journal: format!(in rt.alloc(); "{path}/journal.1")?,
        lock: format!(in rt.alloc(); "{path}/lock")?,
        user,
        was_made,
        is_named: false,
    })
}

fn open_both_ways(rt: &HostRuntime, path: &str) -> io::Result<File> {
    OpenOptions::new().read(true).write(true).open(rt, path)
}

fn create(rt: &HostRuntime, path: &str) -> io::Result<File> {
    OpenOptions::new()
        .read(true)
        .write(true)
        .create_new(true)
        .mode(FILE_MODE)
        .open(rt, path)
}

/// Syncs the parent of this folder to the disk, and returns whether the parent was synced. If the
/// user may not read the parent, it cannot be opened, and therefore cannot be synced. This is a
/// failure only if this process created the folder.
fn force_above(rt: &HostRuntime, path: &str, was_made: bool) -> io::Result<bool> {
    let above = format!(in rt.alloc(); "{path}/..")?;
    match fs::open(rt, above.as_str()) {
        Ok(above) => {
            above.sync_all()?;
            Ok(true)
        }
        Err(error) if !was_made && error.kind() == ErrorKind::PermissionDenied => Ok(false),
        Err(error) => Err(error),
    }
}
