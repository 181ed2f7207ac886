//! A folder in memory, and the host that runs its keepers.

use std::alloc::{AllocError, Global};
use std::mem;
use tpm_keeping::device::Device;
use tpm_keeping::holder::{End, Fault, Job};
use tpm_keeping::keeper::{Ask, Got, Keeper};

/// More steps than any call takes.
const STEPS: u32 = 40;

/// The number of bytes that are read at once.
const PART: usize = 3;

/// A folder contains the journal, and the new file that has no name yet. `whole` is the size of the
/// part of the old journal that had been executed when the new file was written. `did` has a letter
/// for each task that the host did in the last call; an exclamation mark means that the keeper ran
/// out of memory.
#[derive(Drop)]
pub struct Folder {
    pub number: u64,
    pub journal: Vec<u8>,
    fresh: Vec<u8>,
    pub whole: u64,
    pub did: Vec<u8>,
}

fn letter(ask: Ask) -> u8 {
    match ask {
        Ask::Nothing(_) => b'-',
        Ask::Lock => b'L',
        Ask::Look => b'K',
        Ask::Read(_) => b'R',
        Ask::Put { .. } => b'P',
        Ask::Force => b'F',
        Ask::Make { .. } => b'M',
        Ask::Name => b'N',
        Ask::Settle => b'S',
        Ask::Unlock => b'U',
    }
}

impl Folder {
    /// Creates an empty folder.
    pub fn new(alloc: Global) -> Folder {
        Folder {
            number: 0,
            journal: Vec::new(alloc),
            fresh: Vec::new(alloc),
            whole: 0,
            did: Vec::new(alloc),
        }
    }

    /// Does what a keeper requests until the call has ended, and returns how the call ended.
    pub fn runs<D: Device>(
        &mut self,
        keeper: &mut Keeper<D>,
        job: Job,
        command: &[u8],
    ) -> Result<End, AllocError> {
        self.did.clear();
        let begun = keeper.begin(job, command).is_ok();
        self.marks(begun)?;
        for _ in 0..STEPS {
            let ask = keeper.ask();
            if let Ask::Nothing(end) = ask {
                return Ok(end);
            }
            self.did.push(letter(ask))?;
            let went_on = self.does(keeper, ask)?;
            self.marks(went_on)?;
        }
        Ok(End::Failed(Fault::Idle))
    }

    /// If the keeper ran out of memory, records an exclamation mark.
    fn marks(&mut self, went_on: bool) -> Result<(), AllocError> {
        if !went_on {
            self.did.push(b'!')?;
        }
        Ok(())
    }

    /// Does one task, and reports it to the keeper. Returns whether the keeper had memory to
    /// continue.
    fn does<D: Device>(&mut self, keeper: &mut Keeper<D>, ask: Ask) -> Result<bool, AllocError> {
        match ask {
            Ask::Read(from) => return Ok(self.reads(keeper, from as usize)),
            Ask::Put { cut, at } => {
                self.journal.truncate(cut as usize);
                self.journal.truncate(at as usize);
                self.journal.extend_from_slice(keeper.out())?;
            }
            Ask::Make { whole } => {
                self.whole = whole;
                self.fresh.clear();
                self.fresh.extend_from_slice(keeper.out())?;
            }
            Ask::Name => {
                self.number = self.number.wrapping_add(1);
                mem::swap(&mut self.journal, &mut self.fresh);
            }
            _ => {}
        }
        Ok(keeper.next(self.tells(ask)).is_ok())
    }

    fn tells(&self, ask: Ask) -> Got<'static> {
        let stands = matches!(ask, Ask::Look | Ask::Name);
        if !stands {
            return Got::Done;
        }
        if self.number == 0 {
            return Got::Gone;
        }
        Got::Stands {
            file: self.number,
            size: self.journal.len() as u64,
        }
    }

    fn reads<D: Device>(&self, keeper: &mut Keeper<D>, from: usize) -> bool {
        let rest = self.journal.get(from..).unwrap_or(&[]);
        let part = rest.get(..PART).unwrap_or(rest);
        keeper.next(Got::Bytes(part)).is_ok()
    }
}
