//! The file with the device's image. It is locked and opened at the start, and each save replaces
//! it as a whole, so that a failed save leaves the old image intact.

use crate::fault::{DeviceFault, Subject};
use crate::folder::folder_of;
use crate::image_lock::ImageLock;
use crate::owner_file::create_for_owner;
use std::fs::File;
use std::io::ErrorKind;
use std::{fs, io};
use tpm_bytes::Tap;
use tpm_image::{open, save};
use tpm_machine::Machine;
use tpm_record::Keep;
use tpm_slots::SlotKeep;

/// An image file, which no other run can use while this value exists. The value contains all paths
/// that a save needs. Therefore a save allocates no memory, and a served device is not lost if
/// memory runs out.
#[derive(Drop)]
pub struct ImageFile<'a> {
    path: &'a str,
    /// The path of the file, in the old image's folder, to which a save writes the new image.
    new: String,
    folder: String,
    _lock: ImageLock,
}

impl<'a> ImageFile<'a> {
    /// Locks the file at this path, whether the file exists or not. The lock is on another file in
    /// the same folder, since each save replaces the image file. If another run holds the lock, the
    /// call fails and changes nothing.
    pub fn take(rt: &HostRuntime, path: &'a str) -> Result<ImageFile<'a>, DeviceFault> {
        let folder = folder_of(path);
        let new = format!(in rt.alloc(); "{path}.new")?;
        let folder = format!(in rt.alloc(); "{folder}.")?;
        let lock = format!(in rt.alloc(); "{path}.lock")?;
        let locked = lock_image(rt, path, lock.as_str());
        Ok(ImageFile {
            path,
            new,
            folder,
            _lock: DeviceFault::File(Subject::ImageLock.alone()).unless(locked)?,
        })
    }

    /// Returns the device whose image is in the file; None if there is no file.
    pub fn open(&self, rt: &HostRuntime) -> Result<Option<Machine<SlotKeep>>, DeviceFault> {
        match fs::read(rt, self.path) {
            Ok(image) => Ok(Some(open(rt.alloc(), image.as_slice())?)),
            Err(error) if error.kind() == ErrorKind::NotFound => Ok(None),
            Err(error) => {
                let fault = DeviceFault::File(Subject::Image.alone());
                Err(DeviceFault::of_io(error, fault))
            }
        }
    }

    /// Writes the image of a device to the new file, syncs that file to the disk, and replaces the
    /// old file with it; then syncs the folder. If a fault occurs before the replacement, the old
    /// image stays.
    pub fn save<K: Keep>(&self, rt: &HostRuntime, machine: &Machine<K>) -> Result<(), DeviceFault> {
        write_image(rt, self.new.as_str(), machine)?;
        let placed = put_in_place(rt, self.new.as_str(), self.path, self.folder.as_str());
        DeviceFault::File(Subject::Image.alone()).unless(placed)
    }
}

/// Locks an image, if a file at this path can be an image. The image must be a regular file, since
/// opening a pipe would wait for its writer.
fn lock_image(rt: &HostRuntime, path: &str, lock: &str) -> io::Result<ImageLock> {
    match fs::metadata(rt, path) {
        Ok(metadata) if !metadata.is_file() => return Err(io::Error::from(ErrorKind::InvalidInput)),
        Err(error) if error.kind() != ErrorKind::NotFound || folder_of(path) == path => {
            return Err(error);
        }
        _ => {}
    }
    ImageLock::take(rt, lock)
}

/// Writes the image of a device to a new file, and syncs the file to the disk.
fn write_image<K: Keep>(
    rt: &HostRuntime,
    path: &str,
    machine: &Machine<K>,
) -> Result<(), DeviceFault> {
    let fault = DeviceFault::File(Subject::NewImage.alone());
    let file = fault.unless(create_anew(rt, path))?;
    let mut tap = Tap::new(file);
    save(machine, &mut tap).map_err(|_| fault)?;
    let file = tap.into_inner();
    fault.unless(file.sync_all())
}

/// Creates a new file that only its owner can use. Removes the file at the path first: a file that
/// a killed run left, or a link, but not the link's target.
fn create_anew(rt: &HostRuntime, path: &str) -> io::Result<File> {
    match fs::remove_file(rt, path) {
        Err(error) if error.kind() != ErrorKind::NotFound => return Err(error),
        _ => {}
    }
    create_for_owner(rt, path)
}

/// Renames a file to another path in its folder, and syncs the folder to the disk. The folder is
/// opened first, so that nothing is renamed if opening fails.
fn put_in_place(rt: &HostRuntime, new: &str, path: &str, folder: &str) -> io::Result<()> {
    let folder = fs::open(rt, folder)?;
    fs::rename(rt, new, path)?;
    folder.sync_all()
}
