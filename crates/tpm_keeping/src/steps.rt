//! The steps of a keeper, after a report of its host.

ghost use Rattle.std.specs.Prelude.{◌≡◌, ◌+◌, ◌++◌, ℕ, List, [], IfOk, OnErr, OnOk, length};
ghost use Rattle.std.specs.Prelude.{false, take, true};
ghost use Rattle.std.specs.declared.option.Option.TheVariants.{None, Some};
ghost use Rattle.tpm_keeping.specs.Holder.{acts, begins, caught_up, enters, executes, finishes, holder_after_fault};
ghost use Rattle.tpm_keeping.specs.Holder.{found_spot, has_named, has_put, has_read, holder_after_look, is_grown, leaps};
ghost use Rattle.tpm_keeping.specs.Holder.{reads_on, renews, settles, shows};
ghost use Rattle.tpm_keeping.specs.Holder.{begins_of, salvages};
ghost use Rattle.tpm_keeping.specs.declared.holder.Fault.TheVariants.{Memory};
ghost use Rattle.tpm_keeping.specs.View.{holder_of};

use crate::device::{Device, Exhausted};
use crate::holder::{End, Fault, Force, Job, Phase};
use crate::keeper::Keeper;
use std::mem;

impl<D: Device> Keeper<D> {
    /// Continues with the file that is now the journal. Forgets the device if this is a different
    /// file, or if the file no longer has all bytes that the device executed.
    pub(crate) fn looked(&mut self, file: u64, size: u64) -> Result<(), Exhausted>
        ensures ok { OnOk result (holder_of D.spot self.new
            ≡ holder_after_look D.journal (holder_of D.spot self.old) file size) }
        ensures err { OnErr result (holder_of D.spot self.new
            ≡ holder_after_fault Memory (holder_of D.spot self.old)) }
    {
        if self.file != file || size < self.place {
            *self = Keeper {
                job: self.job,
                command: mem::replace(&mut self.command, Vec::new(self.alloc)),
                ..Keeper::new(self.alloc, self.force, self.limit)
            };
            self.file = file;
        }
        self.size = size;
        self.seen = self.place;
        self.read.clear();
        self.reads_on()
    }

    /// Appends the bytes that were read, and continues.
    pub(crate) fn has_read(&mut self, bytes: &[u8]) -> Result<(), Exhausted>
        ensures ok { OnOk result (holder_of D.spot self.new
            ≡ has_read D.journal (holder_of D.spot self.old) bytes.now) }
        ensures err { OnErr result (holder_of D.spot self.new
            ≡ holder_after_fault Memory (holder_of D.spot self.old)) }
    {
        if bytes.is_empty() {
            self.give_up(Fault::Read);
            return Ok(());
        }
        let seen = self.seen.checked_add(bytes.len() as u64);
        let (Some(seen), Ok(())) = (seen, self.read.extend_from_slice(bytes)) else {
            self.give_up(Fault::Memory);
            return Err(Exhausted);
        };
        self.seen = seen;
        self.reads_on()
    }

    /// If the whole file was read, executes it and does the job; otherwise reads on.
    fn reads_on(&mut self) -> Result<(), Exhausted>
        ensures ok { OnOk result (holder_of D.spot self.new
            ≡ reads_on D.journal (holder_of D.spot self.old)) }
        ensures err { OnErr result (holder_of D.spot self.new
            ≡ holder_after_fault Memory (holder_of D.spot self.old)) }
    {
        if self.seen < self.size {
            self.phase = Phase::Reading;
            return Ok(());
        }
        let done = self.finishes();
        if done.is_err() {
            self.give_up(Fault::Memory);
        }
        done
    }

    /// Executes the bytes that were read, and does the job. On `Err`, the keeper has no device.
    fn finishes(&mut self) -> Result<(), Exhausted>
        ensures ok { OnOk result (holder_of D.spot self.new ≡ finishes D.journal
            (holder_of D.spot self.old)
            (found_spot D.journal (holder_of D.spot self.old).device self.old.read.items)) }
        ensures err { OnErr result (holder_after_fault Memory (holder_of D.spot self.new)
            ≡ holder_after_fault Memory (holder_of D.spot self.old)) }
    {
        let Some(mut device) = self.device.take() else {
            return self.opens();
        };
        let Some(taken) = device.follow(&self.read)? else {
            self.give_up(Fault::Damaged);
            return Ok(());
        };
        self.caught_up(taken)?;
        self.acts(device)
    }

    /// Opens the device from the bytes that were read, which are the whole file, and does the job.
    fn opens(&mut self) -> Result<(), Exhausted>
        requires { self.old.device ≡ None }
        ensures ok { OnOk result (holder_of D.spot self.new ≡ finishes D.journal
            (holder_of D.spot self.old) (D.journal.opened self.old.read.items)) }
        ensures err { OnErr result (holder_after_fault Memory (holder_of D.spot self.new)
            ≡ holder_after_fault Memory (holder_of D.spot self.old)) }
    {
        let Some((device, taken)) = D::open(self.alloc, &self.read)? else {
            return self.salvages();
        };
        self.caught_up(taken)?;
        self.acts(device)
    }

    /// Handles damage in the bytes that were read, which are the whole file. If the file has an
    /// undamaged beginning, the job `Cut` begins a new journal in the state after that beginning.
    /// Otherwise the call fails.
    fn salvages(&mut self) -> Result<(), Exhausted>
        ensures ok { OnOk result (holder_of D.spot self.new ≡ salvages D.journal self.old.job None
            (holder_of D.spot self.old)) }
        ensures err { OnErr result (holder_after_fault Memory (holder_of D.spot self.new)
            ≡ holder_after_fault Memory (holder_of D.spot self.old)) }
    {
        let salvaged = match self.job {
            Job::Cut => D::salvage(self.alloc, &self.read)?,
            _ => None,
        };
        let Some((device, taken)) = salvaged else {
            self.give_up(Fault::Damaged);
            return Ok(());
        };
        self.caught_up(taken)?;
        self.out.clear();
        self.response.clear();
        self.renews(device)
    }

    /// Records that the first `taken` of the bytes that were read are executed. A holder that syncs
    /// before each response remembers these bytes, because it does not know whether they are
    /// synced.
    fn caught_up(&mut self, taken: usize) -> Result<(), Exhausted>
        ensures ok { OnOk result (holder_of D.spot self.new
            ≡ caught_up (holder_of D.spot self.old) taken) }
        ensures err { OnErr result (holder_after_fault Memory (holder_of D.spot self.new)
            ≡ holder_after_fault Memory (holder_of D.spot self.old)) }
    {
        let Some(place) = self.place.checked_add(taken as u64) else {
            return Err(Exhausted);
        };
        self.place = place;
        self.read.truncate(taken);
        if let Force::Always = self.force {
            let Ok(()) = self.unsure.extend_from_slice(&self.read) else {
                return Err(Exhausted);
            };
        } else {
            self.unsure.clear();
        }
        self.read.clear();
        Ok(())
    }

    /// Does the job with the device, which has executed the whole file.
    fn acts(&mut self, device: D) -> Result<(), Exhausted>
        ensures ok { OnOk result (holder_of D.spot self.new
            ≡ acts D.journal self.old.job (holder_of D.spot self.old) (D.spot device)) }
        ensures err { OnErr result (holder_after_fault Memory (holder_of D.spot self.new)
            ≡ holder_after_fault Memory (holder_of D.spot self.old)) }
    {
        self.out.clear();
        self.response.clear();
        match self.job {
            Job::Execute => self.executes(device),
            Job::Renew => self.renews(device),
            Job::Show => {
                device.show(&mut self.response)?;
                self.shows(device)
            }
            Job::Begin | Job::Cut => self.shows(device),
        }
    }

    /// Executes the command, or refuses bytes that do not encode a command.
    fn executes(&mut self, device: D) -> Result<(), Exhausted>
        requires out { self.old.out.items ≡ [] }
        requires response { self.old.response.items ≡ [] }
        ensures ok { OnOk result (holder_of D.spot self.new ≡ executes D.journal
            (holder_of D.spot self.old) (D.spot device)) }
        ensures err { OnErr result (holder_after_fault Memory (holder_of D.spot self.new)
            ≡ holder_after_fault Memory (holder_of D.spot self.old)) }
    {
        if !D::is_command(&self.command) {
            self.phase = Phase::Leaving(End::Failed(Fault::NoCommand));
            self.device = Some(device);
            return Ok(());
        }
        if D::is_entered(&self.command) {
            self.enters(device)
        } else {
            self.leaps(device)
        }
    }

    /// Checks whether the journal has grown: its size has reached the limit and twice the size of a
    /// new journal's head.
    fn is_grown(&self, device: &D) -> Result<bool, Exhausted>
        ensures { IfOk result (λ grown. grown ≡ is_grown D.journal (holder_of D.spot self.now)
            (D.spot device.now)) }
    {
        if self.place < self.limit {
            return Ok(false);
        }
        let mut head = Vec::new(self.alloc);
        device.show(&mut head)?;
        Ok(head.len() as u64 <= self.place / 2)
    }

    /// Executes a command that has an entry. The keeper then has to write the bytes that may not be
    /// synced yet, followed by the entry. If the journal has grown, it has to write a new journal
    /// that begins with the entry.
    fn enters(&mut self, mut device: D) -> Result<(), Exhausted>
        requires out { self.old.out.items ≡ [] }
        requires response { self.old.response.items ≡ [] }
        requires entered { D.journal.is_entered self.old.command.items ≡ true }
        ensures ok { OnOk result (holder_of D.spot self.new ≡ enters D.journal
            (holder_of D.spot self.old) (D.spot device)
            (is_grown D.journal (holder_of D.spot self.old) (D.spot device))) }
        ensures err { OnErr result (holder_after_fault Memory (holder_of D.spot self.new)
            ≡ holder_after_fault Memory (holder_of D.spot self.old)) }
    {
        if self.is_grown(&device)? {
            device.renew(&mut self.out)?;
            self.phase = Phase::Making;
        } else {
            let Ok(()) = self.out.extend_from_slice(&self.unsure) else {
                return Err(Exhausted);
            };
            self.phase = Phase::Putting;
        }
        device.execute(&self.command, &mut self.out, &mut self.response)?;
        self.device = Some(device);
        Ok(())
    }

    /// Executes a command that has no entry, and begins a new journal in the state after it.
    fn leaps(&mut self, mut device: D) -> Result<(), Exhausted>
        requires out { self.old.out.items ≡ [] }
        requires response { self.old.response.items ≡ [] }
        requires command { D.journal.is_command self.old.command.items ≡ true }
        requires unentered { D.journal.is_entered self.old.command.items ≡ false }
        ensures ok { OnOk result (holder_of D.spot self.new ≡ leaps D.journal
            (holder_of D.spot self.old) (D.spot device)) }
        ensures err { OnErr result (holder_after_fault Memory (holder_of D.spot self.new)
            ≡ holder_after_fault Memory (holder_of D.spot self.old)) }
    {
        device.leap(&self.command, &mut self.response)?;
        self.renews(device)
    }

    /// Begins a new journal in the device's state.
    fn renews(&mut self, mut device: D) -> Result<(), Exhausted>
        requires out { self.old.out.items ≡ [] }
        ensures ok { OnOk result (holder_of D.spot self.new ≡ renews D.journal
            (holder_of D.spot self.old) (D.spot device).state self.old.response.items) }
        ensures err { OnErr result (holder_after_fault Memory (holder_of D.spot self.new)
            ≡ holder_after_fault Memory (holder_of D.spot self.old)) }
    {
        device.renew(&mut self.out)?;
        self.phase = Phase::Making;
        self.device = Some(device);
        Ok(())
    }

    /// Stores the device; the call adds no entry. A holder that syncs before each response first
    /// has to write and sync the bytes that may not be synced yet.
    fn shows(&mut self, device: D) -> Result<(), Exhausted>
        requires out { self.old.out.items ≡ [] }
        ensures ok { OnOk result (holder_of D.spot self.new ≡ shows (holder_of D.spot self.old)
            (D.spot device) self.old.response.items) }
        ensures err { OnErr result (holder_after_fault Memory (holder_of D.spot self.new)
            ≡ holder_after_fault Memory (holder_of D.spot self.old)) }
    {
        let Ok(()) = self.out.extend_from_slice(&self.unsure) else {
            return Err(Exhausted);
        };
        self.phase = match self.force {
            Force::Always => Phase::Putting,
            _ => self.settles(),
        };
        self.device = Some(device);
        Ok(())
    }

    /// Begins a journal if that is the job. Otherwise, the call fails because there is no journal.
    pub(crate) fn begins(&mut self) -> Result<(), Exhausted>
        ensures ok { OnOk result (holder_of D.spot self.new
            ≡ begins D.journal self.old.job (holder_of D.spot self.old)) }
        ensures err { OnErr result (holder_of D.spot self.new
            ≡ holder_after_fault Memory (holder_of D.spot self.old)) }
    {
        let Job::Begin = self.job else {
            self.give_up(Fault::Absent);
            return Ok(());
        };
        let done = self.makes();
        if done.is_err() {
            self.give_up(Fault::Memory);
        }
        done
    }

    /// Creates a device and the head of its journal. On `Err`, there is no device.
    fn makes(&mut self) -> Result<(), Exhausted>
        ensures ok { OnOk result (holder_of D.spot self.new ≡ begins_of D.journal
            (holder_of D.spot self.old) (D.journal.begun self.old.command.items)) }
        ensures err { OnErr result (holder_after_fault Memory (holder_of D.spot self.new)
            ≡ holder_after_fault Memory (holder_of D.spot self.old)) }
    {
        self.out.clear();
        self.response.clear();
        let Some(device) = D::begin(self.alloc, &self.command)? else {
            self.give_up(Fault::Unreadable);
            return Ok(());
        };
        self.place = 0;
        self.renews(device)
    }

    /// Records that the output is in the file. A holder that syncs before each response remembers
    /// the output until it is synced.
    pub(crate) fn has_put(&mut self) -> Result<(), Exhausted>
        ensures ok { OnOk result (holder_of D.spot self.new
            ≡ has_put (holder_of D.spot self.old)) }
        ensures err { OnErr result (holder_of D.spot self.new
            ≡ holder_after_fault Memory (holder_of D.spot self.old)) }
    {
        let Some(place) = self.sure().checked_add(self.out.len() as u64) else {
            self.give_up(Fault::Memory);
            return Err(Exhausted);
        };
        self.place = place;
        self.unsure.clear();
        if let Force::Always = self.force {
            mem::swap(&mut self.unsure, &mut self.out);
            self.phase = Phase::Forcing;
        } else {
            self.out.clear();
            self.phase = self.settles();
        }
        Ok(())
    }

    /// Records that the new file is the journal, and that this holder has synced it.
    pub(crate) fn has_named(&mut self, file: u64)
        ensures { holder_of D.spot self.new ≡ has_named (holder_of D.spot self.old) file }
    {
        self.file = file;
        self.place = self.out.len() as u64;
        self.unsure.clear();
        self.settled = false;
        self.phase = match self.force {
            Force::Never => Phase::Leaving(End::Done),
            _ => Phase::Settling,
        };
    }
}
