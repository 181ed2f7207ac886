//! The keeper of a device, which decides what its host has to do next. It does no input and no
//! output itself.

ghost use Rattle.std.specs.Prelude.{◌≡◌, ◌+◌, ◌++◌, ℕ, List, [], IfOk, OnErr, OnOk, length};
ghost use Rattle.tpm_keeping.specs.Holder.{acts, begins, caught_up, executes, holder_after_ask, holder_after_fault};
ghost use Rattle.tpm_keeping.specs.Holder.{finishes, forgets, found_spot, has_named, has_put, has_read};
ghost use Rattle.tpm_keeping.specs.Holder.{Starved, holder_after_look, newborn, next_of, reads_on, rests};
ghost use Rattle.tpm_keeping.specs.Holder.{settles, shows, sure};
ghost use Rattle.tpm_keeping.specs.declared.holder.End.{End};
ghost use Rattle.tpm_keeping.specs.declared.holder.Phase.TheVariants.{Ended};
ghost use Rattle.tpm_keeping.specs.declared.holder.Fault.TheVariants.{Memory};
ghost use Rattle.tpm_keeping.specs.View.{ask_of, holder_of, told_of};

use crate::device::{Device, Exhausted};
use crate::holder::{End, Fault, Force, Job, Phase};
use std::alloc::Global;

/// What the host has to do next.
#[derive(Clone, Copy, PartialEq, Eq)]
pub enum Ask {
    /// Nothing: the call has ended. If it succeeded, the response may be sent.
    Nothing(End),
    /// Take the folder's lock, through an open file that only this process has. If that fails,
    /// close the file.
    Lock,
    /// Open the file that is named `journal`, unless it is already open, and report its number and
    /// its size.
    Look,
    /// Read some bytes of the file, from this offset on.
    Read(u64),
    /// Truncate the file to `cut` bytes if it is larger. Then write the keeper's output at the
    /// offset `at`, through the same open file that is synced later.
    Put { cut: u64, at: u64 },
    /// Sync the file to the disk.
    Force,
    /// Write the keeper's whole output to a new file and sync it to the disk. `whole` is the number
    /// of bytes of the old journal that the device has executed, or 0 if there is no old journal.
    Make { whole: u64 },
    /// Rename the new file to the journal's name, and report its number.
    Name,
    /// Sync the folder to the disk.
    Settle,
    /// Release the lock. If that fails, close the lock's file.
    Unlock,
}

/// The host's report: what it did or found.
#[derive(Clone, Copy)]
pub enum Got<'a> {
    Done,
    /// The journal is the file with this number, and has this size.
    Stands { file: u64, size: u64 },
    /// There is no journal.
    Gone,
    Bytes(&'a [u8]),
    /// The task was not done, or only in part, or its result is unknown.
    Failed,
}

/// The keeper of a device.
#[derive(Drop)]
pub struct Keeper<D: Device> {
    pub(crate) alloc: Global,
    pub(crate) force: Force,
    pub(crate) limit: u64,
    pub(crate) phase: Phase,
    pub(crate) job: Job,
    pub(crate) command: Vec<u8>,
    pub(crate) device: Option<D>,
    pub(crate) file: u64,
    pub(crate) place: u64,
    pub(crate) unsure: Vec<u8>,
    pub(crate) size: u64,
    pub(crate) seen: u64,
    pub(crate) read: Vec<u8>,
    pub(crate) settled: bool,
    pub(crate) out: Vec<u8>,
    pub(crate) response: Vec<u8>,
}

impl<D: Device> Keeper<D> {
    /// Creates a keeper that has not looked at any file yet. The keeper restarts a journal when the
    /// journal's size has reached both `limit` and twice the size of a new journal's head.
    pub fn new(alloc: Global, force: Force, limit: u64) -> Keeper<D>
        ensures { holder_of D.spot result ≡ newborn force limit }
    {
        Keeper {
            alloc,
            force,
            limit,
            phase: Phase::Ended(End::Failed(Fault::Idle)),
            job: Job::Show,
            command: Vec::new(alloc),
            device: None,
            file: 0,
            place: 0,
            unsure: Vec::new(alloc),
            size: 0,
            seen: 0,
            read: Vec::new(alloc),
            settled: false,
            out: Vec::new(alloc),
            response: Vec::new(alloc),
        }
    }

    /// Returns what the host has to do next.
    pub fn ask(&self) -> Ask
        ensures { result ≡ ask_of (holder_of D.spot self.now) }
    {
        match self.phase {
            Phase::Ended(end) => Ask::Nothing(end),
            Phase::Locking => Ask::Lock,
            Phase::Looking => Ask::Look,
            Phase::Reading => Ask::Read(self.seen),
            Phase::Putting => Ask::Put {
                cut: self.place,
                at: self.sure(),
            },
            Phase::Forcing => Ask::Force,
            Phase::Making => Ask::Make { whole: self.place },
            Phase::Naming => Ask::Name,
            Phase::Settling => Ask::Settle,
            Phase::Leaving(_) => Ask::Unlock,
        }
    }

    /// Returns the bytes that the host has to write for a `Put` or a `Make`.
    pub fn out(&self) -> &[u8]
        ensures { result.now ≡ self.now.out.items }
    {
        &self.out
    }

    /// Returns the response of the last call, if that call succeeded.
    pub fn response(&self) -> &[u8]
        ensures { result.now ≡ self.now.response.items }
    {
        &self.response
    }

    /// Returns the offset up to which this holder has nothing left to sync.
    pub(crate) fn sure(&self) -> u64
        ensures { result ≡ sure (holder_of D.spot self.now) }
    {
        self.place.saturating_sub(self.unsure.len() as u64)
    }

    /// Begins a call. A call that is still in progress is dropped, but first the host that
    /// interrupted that call, or a fork of this host, has to close the lock's file.
    pub fn begin(&mut self, job: Job, command: &[u8]) -> Result<(), Exhausted>
        ensures ok { OnOk result (holder_of D.spot self.new
            ≡ holder_after_ask (rests (holder_of D.spot self.old)) job command.now) }
        ensures err { OnErr result (holder_of D.spot self.new
            ≡ rests (holder_of D.spot self.old)) }
    {
        let Ok(command) = Vec::from_slice(self.alloc, command) else {
            self.rest();
            return Err(Exhausted);
        };
        self.begin_with(job, command);
        Ok(())
    }

    /// Begins a call with a command that the keeper then owns. A call that is still in progress is
    /// dropped.
    pub(crate) fn begin_with(&mut self, job: Job, command: Vec<u8>)
        ensures { holder_of D.spot self.new
            ≡ holder_after_ask (rests (holder_of D.spot self.old)) job command.items }
    {
        self.rest();
        self.command = command;
        self.job = job;
        self.phase = Phase::Locking;
    }

    /// If a call is in progress, drops the call and everything that the keeper knows.
    fn rest(&mut self)
        ensures holder { holder_of D.spot self.new ≡ rests (holder_of D.spot self.old) }
        ensures ended { (e : End) × (self.new.phase ≡ Ended e) }
    {
        if let Phase::Ended(_) = self.phase {
            return;
        }
        *self = Keeper::new(self.alloc, self.force, self.limit);
    }

    /// Forgets everything; in the next call, the keeper opens the device from the file.
    fn forget(&mut self, phase: Phase)
        ensures { holder_of D.spot self.new ≡ forgets phase (holder_of D.spot self.old) }
    {
        *self = Keeper::new(self.alloc, self.force, self.limit);
        self.phase = phase;
    }

    /// Ends the call with a fault.
    pub(crate) fn give_up(&mut self, fault: Fault)
        ensures { holder_of D.spot self.new ≡ holder_after_fault fault (holder_of D.spot self.old) }
    {
        self.forget(Phase::Leaving(End::Failed(fault)));
    }

    /// Accepts the host's report and does the next step. On `Err`, an allocation failed, and the
    /// call ends.
    pub fn next(&mut self, got: Got<'_>) -> Result<(), Exhausted>
        ensures ok { OnOk result (holder_of D.spot self.new
            ≡ next_of D.journal (holder_of D.spot self.old) (told_of got.entry)) }
        ensures err { OnErr result (holder_of D.spot self.new
            ≡ next_of D.journal (holder_of D.spot self.old) Starved) }
    {
        match (self.phase, got) {
            (Phase::Ended(_), _) => {}
            (Phase::Locking, Got::Done) => self.phase = Phase::Looking,
            (Phase::Locking, _) => self.forget(Phase::Ended(End::Failed(Fault::Lock))),
            (Phase::Looking, Got::Stands { file, size }) => return self.looked(file, size),
            (Phase::Looking, Got::Gone) => return self.begins(),
            (Phase::Reading, Got::Bytes(bytes)) => return self.has_read(bytes),
            (Phase::Putting, Got::Done) => return self.has_put(),
            (Phase::Forcing, Got::Done) => {
                self.phase = self.settles();
                self.unsure.clear();
            }
            (Phase::Making, Got::Done) => self.phase = Phase::Naming,
            (Phase::Naming, Got::Stands { file, .. }) => self.has_named(file),
            (Phase::Settling, Got::Done) => {
                self.phase = Phase::Leaving(End::Done);
                self.settled = true;
            }
            (Phase::Leaving(end), _) => self.phase = Phase::Ended(end),
            (phase, _) => self.give_up(phase.fault()),
        }
        Ok(())
    }

    /// Returns the phase after all work on the file is done. The holder syncs the folder once for
    /// each file that it opens, before its first response, unless it never syncs.
    pub(crate) fn settles(&self) -> Phase
        ensures { result ≡ settles (holder_of D.spot self.now) }
    {
        if self.settled || matches!(self.force, Force::Never) {
            Phase::Leaving(End::Done)
        } else {
            Phase::Settling
        }
    }
}
