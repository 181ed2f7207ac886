//! The finished journals that stay in the folder: journal.1 is the latest, and journal.2 is the
//! journal before journal.1.

use crate::fault::{KeptFault, Place, Said};
use crate::folder::{Folder, fault_of, identity_of};
use std::io::ErrorKind;
use std::{fs, io};

/// Links the journal, which is about to be replaced, as journal.1. Before that, each journal below
/// the first free number is renamed to the next number. Therefore, at most `count` journals stay.
pub(crate) fn keep_past(rt: &HostRuntime, folder: &Folder, count: u32) -> Result<(), KeptFault> {
    if count == 0 || !is_unlinked(rt, folder)? {
        return Ok(());
    }
    if let Err(error) = move_on(rt, folder.path(Place::Folder), count) {
        let said = Said::CannotGetTheNextNumber;
        return Err(fault_of(&error, Place::LastJournal, said));
    }
    fs::hard_link(
        rt,
        folder.path(Place::Journal),
        folder.path(Place::LastJournal),
    )
    .map_err(|error| fault_of(&error, Place::LastJournal, Said::CannotBeMade))
}

/// Checks whether there is a journal that is not yet linked as journal.1. The journal is already
/// linked if a process was killed just after linking it.
fn is_unlinked(rt: &HostRuntime, folder: &Folder) -> Result<bool, KeptFault> {
    let Some(journal) = folder.look(rt, Place::Journal)? else {
        return Ok(false);
    };
    match folder.look(rt, Place::LastJournal)? {
        Some(last) => Ok(identity_of(&last) != identity_of(&journal)),
        None => Ok(true),
    }
}

/// Renames each journal below the first free number to the next number, so that there is no
/// journal.1. If a process was killed during an earlier renaming, one number is free. Only the
/// journals below that number are then renamed, and no further journal is lost.
fn move_on(rt: &HostRuntime, folder: &str, count: u32) -> io::Result<()> {
    if count == 1 {
        return remove_last(rt, folder);
    }
    let free = free_number(rt, folder, count)?;
    for step in 1..free {
        let number = free - step;
        let from = past_path(rt, folder, number)?;
        let to = past_path(rt, folder, number + 1)?;
        fs::rename(rt, from.as_str(), to.as_str())?;
    }
    Ok(())
}

/// Removes journal.1, if it is there.
fn remove_last(rt: &HostRuntime, folder: &str) -> io::Result<()> {
    let last = past_path(rt, folder, 1)?;
    match fs::remove_file(rt, last.as_str()) {
        Err(error) if error.kind() != ErrorKind::NotFound => Err(error),
        _ => Ok(()),
    }
}

/// Returns the lowest number that no journal has, or `count` if all numbers below `count` are
/// taken.
fn free_number(rt: &HostRuntime, folder: &str, count: u32) -> io::Result<u32> {
    for number in 1..count {
        let path = past_path(rt, folder, number)?;
        match fs::symlink_metadata(rt, path.as_str()) {
            Err(error) if error.kind() == ErrorKind::NotFound => return Ok(number),
            _ => {}
        }
    }
    Ok(count)
}

/// Returns the path of the finished journal with this number.
fn past_path(rt: &HostRuntime, folder: &str, number: u32) -> io::Result<String> {
    Ok(format!(in rt.alloc(); "{folder}/journal.{number}")?)
}
