//! The kinds of files at a path, and whether a kept device may use them.

ghost use Rattle.std.specs.Prelude.{◌≡◌};
ghost use Rattle.std.specs.Fs.{file_type};
ghost use Rattle.tpmsim_folder.specs.Standing.{IsOfKind, file_fault, folder_fault, owner_fault};

use crate::fault::Said;
use std::fs::Metadata;

/// The kind of file at a path.
#[derive(Clone, Copy, PartialEq, Eq)]
pub enum Kind {
    Link,
    File,
    Folder,
    Other,
}

/// Returns the kind of the file with this metadata. For a link it is the kind of the link, not of
/// the link's target.
pub fn kind_of(metadata: &Metadata) -> Kind
    ensures { IsOfKind result (file_type metadata.now) }
{
    let kind = metadata.file_type();
    if kind.is_symlink() {
        Kind::Link
    } else if kind.is_file() {
        Kind::File
    } else if kind.is_dir() {
        Kind::Folder
    } else {
        Kind::Other
    }
}

/// Returns why the file at a path is not a regular file of this user, or None if it is one.
pub fn file_fault(kind: Kind, owner: u32, user: u32) -> Option<Said>
    ensures { result ≡ file_fault kind owner user }
{
    match kind {
        Kind::Link => Some(Said::IsLink),
        Kind::Folder | Kind::Other => Some(Said::IsNoFile),
        Kind::File => owner_fault(owner, user),
    }
}

/// Returns why the file at a path is not a folder of this user, or None if it is one.
pub fn folder_fault(kind: Kind, owner: u32, user: u32) -> Option<Said>
    ensures { result ≡ folder_fault kind owner user }
{
    match kind {
        Kind::Link => Some(Said::IsLink),
        Kind::File | Kind::Other => Some(Said::IsNoFolder),
        Kind::Folder => owner_fault(owner, user),
    }
}

/// Returns the fault of a file that this user does not own, or None if the user owns it.
fn owner_fault(owner: u32, user: u32) -> Option<Said>
    ensures { result ≡ owner_fault owner user }
{
    if owner == user {
        None
    } else {
        Some(Said::IsOfAnother)
    }
}
