//! The tasks of a keeper's host, in a folder. Each task is a function, which returns an error
//! unless the whole task was done.

use crate::fault::{KeptFault, Place, Said};
use crate::folder::{Folder, OpenedFile, fault_of, identity_of};
use crate::lock::Lock;
use crate::past::keep_past;
use std::fs;
use std::fs::Metadata;
use std::io::ErrorKind;
use std::os::unix::fs::FileExt;
use tpm_keeping::keeper::Got;

/// The host of a keeper: a folder, its lock, and the files that are open.
#[derive(Drop)]
pub struct Host<'a> {
    rt: &'a HostRuntime,
    folder: Folder,
    lock: Lock,
    /// The journal. It stays open while its number is in use, so that no other file can have its
    /// inode.
    journal: Option<OpenedFile>,
    /// The journal's number: the number of files that have been the journal so far.
    number: u64,
    /// The new journal, which has no name yet.
    fresh: Option<OpenedFile>,
    /// The number of finished journals that stay in the folder.
    past: u32,
}

impl<'a> Host<'a> {
    /// Returns the host for the folder at a path. If the folder is missing and `makes` is true,
    /// creates it. Opens no file in the folder yet. Whenever a new journal replaces the old
    /// journal, at most `past` finished journals stay.
    pub fn at(
        rt: &'a HostRuntime,
        path: &str,
        makes: bool,
        past: u32,
    ) -> Result<Host<'a>, KeptFault> {
        Ok(Host {
            rt,
            folder: Folder::open(rt, path, makes)?,
            lock: Lock::new(),
            journal: None,
            number: 0,
            fresh: None,
            past,
        })
    }

    /// Checks whether the folder contains a journal.
    pub fn is_there(&self) -> Result<bool, KeptFault> {
        Ok(self.folder.look(self.rt, Place::Journal)?.is_some())
    }

    /// Waits until no other process has the lock, and takes it.
    pub fn lock(&mut self) -> Result<(), KeptFault> {
        self.lock.take(self.rt, &self.folder)
    }

    /// Releases the lock.
    pub fn unlock(&mut self) {
        self.lock.give();
    }

    /// Opens the file that is named `journal`, unless it is already open, and returns its number
    /// and its size.
    pub fn look(&mut self) -> Result<Got<'static>, KeptFault> {
        let Some(metadata) = self.folder.look(self.rt, Place::Journal)? else {
            return Ok(Got::Gone);
        };
        if !self.is_open(&metadata) {
            let opened = self.folder.open_file(self.rt, Place::Journal)?;
            self.follow(opened);
        }
        Ok(Got::Stands {
            file: self.number,
            size: self.size()?,
        })
    }

    /// Checks whether the open journal is the file with this metadata.
    fn is_open(&self, metadata: &Metadata) -> bool {
        match &self.journal {
            Some(opened) => opened.identity == identity_of(metadata),
            None => false,
        }
    }

    /// Records that another file is the journal, with a new number.
    fn follow(&mut self, opened: OpenedFile) {
        self.journal = Some(opened);
        self.number = self.number.saturating_add(1);
    }

    /// Returns the open journal.
    fn opened(&self) -> Result<&OpenedFile, KeptFault> {
        match &self.journal {
            Some(opened) => Ok(opened),
            None => Err(Place::Journal.that(Said::IsNotThere)),
        }
    }

    /// Returns the size of the journal, in bytes.
    pub fn size(&self) -> Result<u64, KeptFault> {
        match self.opened()?.file.metadata() {
            Ok(metadata) => Ok(metadata.len()),
            Err(error) => Err(fault_of(&error, Place::Journal, Said::CannotBeLookedAt)),
        }
    }

    /// Returns the bytes of the journal from this offset on.
    pub fn read(&self, from: u64) -> Result<Vec<u8>, KeptFault> {
        let count = self.size()?.saturating_sub(from);
        let Ok(mut bytes) = vec![in self.rt.alloc(); 0u8; count as usize] else {
            return Err(Place::Journal.that(Said::memory()));
        };
        match self.opened()?.file.read_exact_at(&mut bytes, from) {
            Ok(()) => Ok(bytes),
            Err(error) if error.kind() == ErrorKind::UnexpectedEof => {
                Err(Place::Journal.that(Said::WasShortenedMeanwhile))
            }
            Err(error) => Err(fault_of(&error, Place::Journal, Said::CannotBeRead)),
        }
    }

    /// Truncates the journal to this size if it is larger, and returns the number of bytes dropped.
    pub fn cut(&self, size: u64) -> Result<u64, KeptFault> {
        let lost = self.size()?.saturating_sub(size);
        if lost == 0 {
            return Ok(0);
        }
        match self.opened()?.file.set_len(size) {
            Ok(()) => Ok(lost),
            Err(error) => Err(fault_of(&error, Place::Journal, Said::CannotBeCut)),
        }
    }

    /// Writes bytes to the journal at this offset.
    pub fn put(&self, text: &[u8], at: u64) -> Result<(), KeptFault> {
        let written = self.opened()?.file.write_all_at(text, at);
        written.map_err(|error| fault_of(&error, Place::Journal, Said::CannotBeWritten))
    }

    /// Syncs the journal to the disk.
    pub fn force(&self) -> Result<(), KeptFault> {
        let synced = self.opened()?.file.sync_data();
        synced.map_err(|error| fault_of(&error, Place::Journal, Said::CannotBeForced))
    }

    /// Creates a new journal with these bytes, and syncs it to the disk. If an earlier process was
    /// killed and left a new journal, that file is removed first. If the call fails, the file that
    /// it created is also removed.
    pub fn make(&mut self, text: &[u8]) -> Result<(), KeptFault> {
        if self.folder.look(self.rt, Place::NewJournal)?.is_some() {
            self.remove_new();
        }
        let made = self.write_new(text);
        if made.is_err() {
            self.remove_new();
        }
        self.fresh = Some(made?);
        Ok(())
    }

    fn write_new(&self, text: &[u8]) -> Result<OpenedFile, KeptFault> {
        let place = Place::NewJournal;
        let file = self.folder.make_file(self.rt, place)?;
        if let Err(error) = file.write_all_at(text, 0) {
            return Err(fault_of(&error, place, Said::CannotBeWritten));
        }
        if let Err(error) = file.sync_all() {
            return Err(fault_of(&error, place, Said::CannotBeForced));
        }
        match file.metadata() {
            Ok(metadata) => Ok(OpenedFile {
                file,
                identity: identity_of(&metadata),
            }),
            Err(error) => Err(fault_of(&error, place, Said::CannotBeLookedAt)),
        }
    }

    fn remove_new(&self) {
        let _ = fs::remove_file(self.rt, self.folder.path(Place::NewJournal));
    }

    /// Renames the new journal to `journal`, so that it replaces the old journal, and returns its
    /// number. If finished journals are to stay in the folder, the old journal stays as journal.1.
    /// If renaming fails, the new journal is removed.
    pub fn name(&mut self) -> Result<u64, KeptFault> {
        let Some(fresh) = self.fresh.take() else {
            return Err(Place::NewJournal.that(Said::IsNotThere));
        };
        match self.give_name() {
            Ok(()) => {
                self.follow(fresh);
                Ok(self.number)
            }
            Err(fault) => {
                self.remove_new();
                Err(fault)
            }
        }
    }

    fn give_name(&self) -> Result<(), KeptFault> {
        keep_past(self.rt, &self.folder, self.past)?;
        fs::rename(
            self.rt,
            self.folder.path(Place::NewJournal),
            self.folder.path(Place::Journal),
        )
        .map_err(|error| fault_of(&error, Place::NewJournal, Said::CannotTakeThePlace))
    }

    /// Syncs the folder to the disk. Returns true if the folder's own name could not be synced.
    pub fn settle(&mut self) -> Result<bool, KeptFault> {
        self.folder.force(self.rt)
    }
}
