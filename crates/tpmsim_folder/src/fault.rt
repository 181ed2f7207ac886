//! The faults of a kept device: each concerns a file or the device's folder, and says what is wrong
//! with it.

ghost use Rattle.std.specs.Prelude.{◌≡◌, None};
ghost use Rattle.tpm_keeping.specs.declared.holder.Fault.TheVariants.{Memory};
ghost use Rattle.tpmsim_folder.specs.Fault.{is_of_contents, place_file, said_text};
ghost use Rattle.tpmsim_folder.specs.declared.fault.Said.TheVariants.{Keeper};

use std::alloc::AllocError;
use std::fmt;
use tpm_keeping::holder::Fault;

/// The file or folder that a fault concerns.
#[derive(Clone, Copy, PartialEq, Eq)]
pub enum Place {
    Folder,
    Journal,
    /// The new journal, which is to replace the old journal.
    NewJournal,
    /// The latest of the finished journals that stay in the folder.
    LastJournal,
    Lock,
}

/// What is wrong with the file or folder that a fault concerns.
#[derive(Clone, Copy, PartialEq, Eq)]
pub enum Said {
    IsLink,
    IsNoFile,
    IsNoFolder,
    IsOfAnother,
    IsNotThere,
    CannotBeMade,
    CannotBeGivenItsMode,
    CannotBeLookedAt,
    CannotBeOpened,
    CannotBeLocked,
    CannotBeRead,
    CannotBeWritten,
    CannotBeCut,
    CannotBeForced,
    CannotTakeThePlace,
    CannotGetTheNextNumber,
    WasShortenedMeanwhile,
    IsReplaced,
    WantsClock,
    WantsRandom,
    /// The journal does not begin with a head.
    IsNoJournal,
    /// The head's image is not an image of this version of the program.
    HoldsNoImage,
    /// The head's state text is not a state text of this version of the program.
    HoldsNoState,
    /// The head's state text has an earlier version. State texts of that version can contain
    /// flushed objects.
    HoldsEarlierState,
    WasAnsweredOtherwise,
    /// The keeper reported this fault.
    Keeper(Fault),
}

/// Why a task of a kept device failed.
#[derive(Clone, Copy, PartialEq, Eq)]
pub struct KeptFault {
    pub place: Place,
    pub said: Said,
    /// The number of the system's error, if the system reported one.
    pub error: Option<i32>,
}

impl Place {
    /// Returns the rest of the file's or folder's path, after the path of the device's folder.
    pub fn file(self) -> &'static str
        ensures { result.now ≡ place_file self }
    {
        match self {
            Place::Folder => "",
            Place::Journal => "/journal",
            Place::NewJournal => "/journal.new",
            Place::LastJournal => "/journal.1",
            Place::Lock => "/lock",
        }
    }

    /// Returns this fault of the file or folder, without a system error.
    pub fn that(self, said: Said) -> KeptFault
        ensures { result ≡ record { place = self; said = said; error = None } }
    {
        KeptFault {
            place: self,
            said,
            error: None,
        }
    }
}

impl Said {
    /// Returns the fault of a failed allocation.
    pub fn memory() -> Said
        ensures { result ≡ Keeper Memory }
    {
        Said::Keeper(Fault::Memory)
    }

    /// Returns the words of the message.
    pub fn words(self) -> &'static str
        ensures { result.now ≡ said_text self }
    {
        match self {
            Said::IsLink => "is a link, which is not followed",
            Said::IsNoFile => "is no regular file",
            Said::IsNoFolder => "is no folder",
            Said::IsOfAnother => "belongs to another user",
            Said::IsNotThere => "is not there",
            Said::CannotBeMade => "cannot be made",
            Said::CannotBeGivenItsMode => "cannot be given its mode",
            Said::CannotBeLookedAt => "cannot be looked at",
            Said::CannotBeOpened => "cannot be opened",
            Said::CannotBeLocked => "cannot be locked",
            Said::CannotBeRead => "cannot be read",
            Said::CannotBeWritten => "cannot be written",
            Said::CannotBeCut => "cannot be cut to whole records",
            Said::CannotBeForced => "cannot be forced to the disk",
            Said::CannotTakeThePlace => "cannot take the journal's place",
            Said::CannotGetTheNextNumber => "cannot get the next number",
            Said::WasShortenedMeanwhile => "was shortened while it was read",
            Said::IsReplaced => "is replaced again and again",
            Said::WantsClock => "needs the host's clock, which cannot be read or is before 1970",
            Said::WantsRandom => "needs random bytes, and the system gives none",
            Said::IsNoJournal => "is no journal of a device",
            Said::HoldsNoImage => "holds an image that this program does not open",
            Said::HoldsNoState => "holds a state that this program does not open",
            Said::HoldsEarlierState => {
                "holds a state text of version 1, which is no longer read: begin with a new device"
            }
            Said::WasAnsweredOtherwise => {
                "was written by a version that answers otherwise than this one, and stays as it is: power-cycle the device with that version, or drop its commands with tpmsim-power --cut"
            }
            Said::Keeper(fault) => fault.sentence(),
        }
    }

    /// Checks whether the fault is in the journal's contents, and not in the system.
    pub fn is_of_contents(self) -> bool
        ensures { result ≡ is_of_contents self }
    {
        matches!(
            self,
            Said::IsNoJournal
                | Said::HoldsNoImage
                | Said::HoldsNoState
                | Said::HoldsEarlierState
                | Said::WasAnsweredOtherwise
                | Said::Keeper(Fault::Damaged)
        )
    }
}

impl fmt::Display for KeptFault {
    ghost use Rattle.std.specs.Prelude.{Some};
    ghost use Rattle.tpmsim_folder.specs.Fault.{kept_fault_text};

    ghost output = { λ fault. Some (kept_fault_text fault) };

    fn fmt<W: fmt::Write>(&self, f: &mut fmt::Formatter<W>) -> fmt::Result {
        let file = self.place.file();
        let words = self.said.words();
        write!(f, "state{file} {words}")
    }
}

impl From<AllocError> for KeptFault {
    ghost use Rattle.std.specs.Prelude.{None};
    ghost use Rattle.tpm_keeping.specs.declared.holder.Fault.TheVariants.{Memory};
    ghost use Rattle.tpmsim_folder.specs.declared.fault.Place.TheVariants.{Journal};
    ghost use Rattle.tpmsim_folder.specs.declared.fault.Said.TheVariants.{Keeper};

    ghost from_gives = { λ _ fault. fault
        ≡ record { place = Journal; said = Keeper Memory; error = None } };

    fn from(_error: AllocError) -> KeptFault {
        Place::Journal.that(Said::memory())
    }
}
