//! Defines the jobs and phases of a holder, and the reasons why its calls fail.

ghost use Rattle.std.specs.Prelude.{◌≡◌};
ghost use Rattle.tpm_keeping.specs.Holder.{fault_of};
ghost use Rattle.tpm_keeping.specs.Sentence.{sentence};

/// A holder's `force` setting, which determines when the holder syncs its writes to the disk.
#[derive(Clone, Copy, PartialEq, Eq)]
pub enum Force {
    /// Only when the holder writes a new journal.
    Never,
    /// When the holder restarts a journal, for example at a power cycle or a checkpoint.
    Power,
    /// Before each response.
    Always,
}

/// The jobs of a holder.
#[derive(Clone, Copy, PartialEq, Eq)]
pub enum Job {
    /// Execute a command. Its entry is appended to the journal, or begins a new journal if the old
    /// journal has grown. After a command without an entry, such as a power cycle or restoring a
    /// snapshot, a new journal begins in the state after it.
    Execute,
    /// Restart the journal in the same state: a checkpoint.
    Renew,
    /// Return the encoded state: a snapshot.
    Show,
    /// Make sure that there is a device: open it, or create it from a seed.
    Begin,
    /// Make sure that there is a device. If the journal is damaged, begin a new journal in the
    /// state after its undamaged beginning. If a device is in memory and its file is damaged, the
    /// device is dropped first, and the job has to be requested again.
    Cut,
}

/// Why a call failed.
#[derive(Clone, Copy, PartialEq, Eq)]
pub enum Fault {
    /// No call was begun, or the call was interrupted.
    Idle,
    /// The host failed to take the lock.
    Lock,
    /// The host failed to look up the journal's file.
    Look,
    /// The host failed to read the journal, or the journal became shorter.
    Read,
    /// The host failed to write the journal.
    Write,
    /// The host failed to sync the journal to the disk.
    Force,
    /// The host failed to write a new journal, or to sync it to the disk.
    Make,
    /// The host failed to rename the new file to the journal's name.
    Name,
    /// The host failed to sync the folder to the disk.
    Settle,
    /// There is no journal.
    Absent,
    /// The bytes for a new device are not valid.
    Unreadable,
    /// The bytes to execute do not encode a command.
    NoCommand,
    /// The journal's file does not contain a journal.
    Damaged,
    /// An allocation failed, or a number is too large for the machine.
    Memory,
}

impl Fault {
    /// Returns the message for the fault, to be written after a path. The path is that of the lock
    /// for `Lock`, of the new journal for `Make` and `Name`, of the folder for `Settle`, and of the
    /// journal for all other faults.
    pub fn sentence(self) -> &'static str
        ensures { result.now ≡ sentence self }
    {
        match self {
            Fault::Idle => "was asked for nothing",
            Fault::Lock => "cannot be locked",
            Fault::Look => "cannot be looked at",
            Fault::Read => "cannot be read",
            Fault::Write => "cannot be written",
            Fault::Force => "cannot be forced to the disk",
            Fault::Make => "cannot be made",
            Fault::Name => "cannot take the journal's place",
            Fault::Settle => "cannot be forced to the disk",
            Fault::Absent => "is not there",
            Fault::Unreadable => "cannot begin with what is no text of a device",
            Fault::NoCommand => "cannot execute what is no command",
            Fault::Damaged => "is damaged, and stays as it is",
            Fault::Memory => "needs memory, and the system gives none",
        }
    }
}

/// How a call ends.
#[derive(Clone, Copy, PartialEq, Eq)]
pub enum End {
    Done,
    Failed(Fault),
}

/// The phase of a holder: what its host has to do next.
#[derive(Clone, Copy, PartialEq, Eq)]
pub enum Phase {
    /// Nothing. The last call ended with this result.
    Ended(End),
    /// Take the lock.
    Locking,
    /// Report which file is the journal.
    Looking,
    /// Read the next bytes of the file.
    Reading,
    /// Write the holder's output to the file.
    Putting,
    /// Sync the file.
    Forcing,
    /// Write a whole new file, and sync it.
    Making,
    /// Rename the new file to the journal's name.
    Naming,
    /// Sync the folder.
    Settling,
    /// Release the lock. Then the call ends with this result.
    Leaving(End),
}

impl Phase {
    /// Returns the fault with which a call ends if the host fails in this phase.
    pub fn fault(self) -> Fault
        ensures { result ≡ fault_of self }
    {
        match self {
            Phase::Locking => Fault::Lock,
            Phase::Looking => Fault::Look,
            Phase::Reading => Fault::Read,
            Phase::Putting => Fault::Write,
            Phase::Forcing => Fault::Force,
            Phase::Making => Fault::Make,
            Phase::Naming => Fault::Name,
            Phase::Settling => Fault::Settle,
            Phase::Ended(_) | Phase::Leaving(_) => Fault::Idle,
        }
    }
}
