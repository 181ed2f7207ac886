//! A device that is kept in a folder: a keeper, and its host.

ghost use Rattle.std.specs.Prelude.{◌≤◌, IfOk, length};
ghost use Rattle.tpm_types_common.specs.Limits.{buffer_limit};

use crate::kept::said::said_of_text;
use crate::kept::tail::Tail;
use tpm_journal_text::{CONTENT_LIMIT, read_head};
use tpm_keeping::holder::{End, Fault, Force, Job};
use tpm_keeping::keeper::{Ask, Got, Keeper};
use tpm_kept_device::KeptDevice;
use tpm_kept_device::answer::{Answer, read_answer};
use tpm_kept_device::writing::{
    beginning, command_after, command_at, power_cycle, seed_of_random, seed_of_state,
};
use tpm_types_common::Locality;
use tpmsim_folder::moment::{clock_of, start_of};
use tpmsim_folder::{Host, KeptFault, Place, Said};

/// When a journal has this size in bytes, the next command begins a new journal.
const JOURNAL_LIMIT: u64 = 262_144;

/// A device that is kept in a folder. If a call fails, the command was not answered, and the next
/// call starts from the contents of the journal.
#[derive(Drop)]
pub struct Kept<'a> {
    rt: &'a HostRuntime,
    host: Host<'a>,
    keeper: Keeper<KeptDevice>,
    /// The contents of the journal when it was last opened.
    journal: Vec<u8>,
    /// The part of the old journal that the device did not execute, set when a new journal replaces
    /// the old one.
    tail: Tail,
    /// Whether the latest call began a new journal.
    has_begun: bool,
}

impl<'a> Kept<'a> {
    /// Opens the folder of a device. If the folder is missing and `makes` is true, creates it. Does
    /// not read the device yet. Keeps `past` finished journals in the folder.
    pub fn at(
        rt: &'a HostRuntime,
        path: &str,
        makes: bool,
        force: Force,
        past: u32,
    ) -> Result<Kept<'a>, KeptFault> {
        Ok(Kept {
            rt,
            host: Host::at(rt, path, makes, past)?,
            keeper: Keeper::new(rt.alloc(), force, JOURNAL_LIMIT),
            journal: Vec::new(rt.alloc()),
            tail: Tail::none(),
            has_begun: false,
        })
    }

    /// Whether the folder contains a device.
    pub fn is_there(&self) -> Result<bool, KeptFault> {
        self.host.is_there()
    }

    /// Creates a new device from these random bytes, unless the folder contains a device.
    pub fn manufacture(&mut self, random: &[u8; 256]) -> Result<(), KeptFault> {
        let now_ms = clock_of(self.rt)?;
        let seed = seed_of_random(self.rt.alloc(), now_ms, start_of(self.rt)?, random)?;
        self.perform(Job::Begin, &seed)
    }

    /// Opens the device that is in the folder.
    pub fn open(&mut self) -> Result<(), KeptFault> {
        self.perform(Job::Show, &[])
    }

    /// Executes a TPM command at the current time of the host's clock, with or without the
    /// completing layer.
    pub fn execute_now(
        &mut self,
        locality: Locality,
        completes: bool,
        random: &[u8; 256],
        buffer: &[u8],
    ) -> Result<Answer<'_>, KeptFault> {
        let now_ms = clock_of(self.rt)?;
        let alloc = self.rt.alloc();
        let command = command_at(alloc, now_ms, locality, completes, random, buffer)?;
        self.execute(&command)
    }

    /// Executes a TPM command this many milliseconds after the previous command, without the
    /// completing layer.
    pub fn execute_after(
        &mut self,
        elapsed_ms: u32,
        locality: Locality,
        random: &[u8; 256],
        buffer: &[u8],
    ) -> Result<Answer<'_>, KeptFault>
        ensures { IfOk result (λ answer. length answer.response.now ≤ buffer_limit) }
    {
        let alloc = self.rt.alloc();
        let command = command_after(alloc, elapsed_ms, locality, false, random, buffer)?;
        self.execute(&command)
    }

    /// Executes a TPM command. `command` is its encoding for the keeper.
    fn execute(&mut self, command: &[u8]) -> Result<Answer<'_>, KeptFault>
        ensures { IfOk result (λ answer. length answer.response.now ≤ buffer_limit) }
    {
        self.perform(Job::Execute, command)?;
        match read_answer(self.keeper.response()) {
            Ok(answer) => Ok(answer),
            Err(_) => Err(Place::Journal.that(Said::Keeper(Fault::NoCommand))),
        }
    }

    /// Power-cycles the device, for all processes that use it.
    pub fn cycle_power(&mut self) -> Result<(), KeptFault> {
        let now_ms = clock_of(self.rt)?;
        let command = power_cycle(self.rt.alloc(), now_ms, start_of(self.rt)?)?;
        self.perform(Job::Execute, &command)
    }

    /// If the journal is damaged, begins a new journal with the device as it was before the damage.
    pub fn cut(&mut self) -> Result<(), KeptFault> {
        self.perform(Job::Cut, &[])
    }

    /// Writes the state text of the device to `content`, and returns it. The journal is unchanged.
    pub fn snapshot<'b>(
        &mut self,
        content: &'b mut [u8; CONTENT_LIMIT],
    ) -> Result<&'b [u8], KeptFault> {
        self.perform(Job::Show, &[])?;
        match read_head(self.keeper.response(), content) {
            Some(head) => Ok(head.content),
            None => Err(Place::Journal.that(Said::IsNoJournal)),
        }
    }

    /// Replaces the device with the device in a state text, for all processes that use it. Creates
    /// the device if the folder contains none. If the journal is damaged, removes the damage first.
    pub fn restore(&mut self, state: &[u8]) -> Result<(), KeptFault> {
        let alloc = self.rt.alloc();
        let now_ms = clock_of(self.rt)?;
        let seed = seed_of_state(alloc, now_ms, start_of(self.rt)?, state)?;
        match self.perform(Job::Begin, &seed) {
            Ok(()) if self.has_begun => return Ok(()),
            Ok(()) => {}
            Err(fault) if fault.said.is_of_contents() => self.cut()?,
            Err(fault) => return Err(fault),
        }
        self.perform(Job::Execute, &beginning(alloc, &seed)?)?;
        match self.keeper.response() {
            [1] => Ok(()),
            _ => Err(Place::Journal.that(Said::Keeper(Fault::Unreadable))),
        }
    }

    /// The contents of the journal, even if it is damaged.
    pub fn journal(&mut self) -> Result<&[u8], KeptFault> {
        match self.perform(Job::Show, &[]) {
            Err(fault) if !fault.said.is_of_contents() => Err(fault),
            _ => Ok(&self.journal),
        }
    }

    /// Performs the keeper's requests, until the job is done or has failed.
    fn perform(&mut self, job: Job, text: &[u8]) -> Result<(), KeptFault> {
        self.has_begun = false;
        let Ok(()) = self.keeper.begin(job, text) else {
            return Err(Place::Journal.that(Said::memory()));
        };
        let mut fault = None;
        for _ in 0..u64::MAX {
            let ask = self.keeper.ask();
            if let Ask::Nothing(end) = ask {
                return self.end(end, fault);
            }
            if let Err(why) = self.perform_one(job, ask) {
                fault = Some(why);
                let _ = self.keeper.next(Got::Failed);
            }
        }
        Err(Place::Journal.that(Said::Keeper(Fault::Idle)))
    }

    /// Returns the result of a job: success, the fault of the host, or the fault of the keeper.
    fn end(&self, end: End, fault: Option<KeptFault>) -> Result<(), KeptFault> {
        match (end, fault) {
            (End::Done, _) => Ok(()),
            (End::Failed(_), Some(fault)) => Err(fault),
            (End::Failed(Fault::Damaged), None) => Err(Place::Journal.that(self.damage())),
            (End::Failed(fault), None) => Err(Place::Journal.that(Said::Keeper(fault))),
        }
    }

    /// Reads the journal again, and returns why it cannot be opened.
    fn damage(&self) -> Said {
        match self.host.read(0) {
            Ok(text) => said_of_text(self.rt.alloc(), &text),
            Err(_) => Said::Keeper(Fault::Damaged),
        }
    }

    /// Performs one of the keeper's requests, and passes the result to the keeper. If the request
    /// fails, returns the error to the caller instead.
    fn perform_one(&mut self, job: Job, ask: Ask) -> Result<(), KeptFault> {
        let got = match ask {
            Ask::Read(from) => return self.read(from),
            Ask::Look => self.host.look()?,
            Ask::Name => self.name()?,
            ask => {
                self.write(job, ask)?;
                Got::Done
            }
        };
        let _ = self.keeper.next(got);
        Ok(())
    }

    /// Passes the contents of the journal from this offset on to the keeper. If the offset is 0,
    /// also stores these contents.
    fn read(&mut self, from: u64) -> Result<(), KeptFault> {
        let bytes = self.host.read(from)?;
        let _ = self.keeper.next(Got::Bytes(&bytes));
        if from == 0 {
            self.journal = bytes;
        }
        Ok(())
    }

    /// Renames the new journal to `journal`, and reports which part of the old journal was dropped.
    fn name(&mut self) -> Result<Got<'static>, KeptFault> {
        let file = self.host.name()?;
        self.has_begun = true;
        self.tail.tell(self.rt);
        Ok(Got::Stands {
            file,
            size: self.keeper.out().len() as u64,
        })
    }

    /// Performs one of the keeper's requests that have no result.
    fn write(&mut self, job: Job, ask: Ask) -> Result<(), KeptFault> {
        match ask {
            Ask::Lock => self.host.lock(),
            Ask::Put { cut, at } => self.put(cut, at),
            Ask::Force => self.host.force(),
            Ask::Make { whole } => self.make(job, whole),
            Ask::Settle => self.settle(),
            _ => {
                self.host.unlock();
                Ok(())
            }
        }
    }

    /// Syncs the folder to disk. Reports on standard error if the folder's own name could not be
    /// synced.
    fn settle(&mut self) -> Result<(), KeptFault> {
        if self.host.settle()? {
            let _ = eprintln!(self.rt;
                "tpmsim: state/.. cannot be read, so a crash of the host may lose the name of state"
            );
        }
        Ok(())
    }

    /// Removes what a crash left after the first `cut` bytes, and writes the keeper's output at
    /// offset `at`. If the write fails, truncates the journal to `cut` bytes again.
    fn put(&mut self, cut: u64, at: u64) -> Result<(), KeptFault> {
        Tail::torn(cut, self.host.cut(cut)?).tell(self.rt);
        let put = self.host.put(self.keeper.out(), at);
        if put.is_err() {
            let _ = self.host.cut(cut);
        }
        put
    }

    /// Writes a new journal. The device executed the entries in the first `whole` bytes of the old
    /// journal.
    fn make(&mut self, job: Job, whole: u64) -> Result<(), KeptFault> {
        self.tail = match whole {
            0 => Tail::none(),
            _ => Tail {
                place: whole,
                size: self.host.size()?.saturating_sub(whole),
                is_damaged: job == Job::Cut,
            },
        };
        self.host.make(self.keeper.out())
    }
}
