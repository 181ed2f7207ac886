//! A folder in memory, and the host that runs its keepers.

use std::alloc::{AllocError, Global};
use std::mem;
use tpm_keeping::holder::{End, Job};
use tpm_keeping::keeper::{Ask, Got, Keeper};
use tpm_kept_device::KeptDevice;

/// More steps than any call in these tests takes.
const STEPS: u32 = 40;

/// The journal and its number, and the new file that has no name yet.
#[derive(Drop)]
pub struct Folder {
    number: u64,
    pub journal: Vec<u8>,
    fresh: Vec<u8>,
}

impl Folder {
    /// Creates an empty folder.
    pub fn new(alloc: Global) -> Folder {
        Folder {
            number: 0,
            journal: Vec::new(alloc),
            fresh: Vec::new(alloc),
        }
    }

    /// Begins a call of a keeper, and does what the keeper requests until the call ends. Returns
    /// whether the call succeeded.
    pub fn runs(
        &mut self,
        keeper: &mut Keeper<KeptDevice>,
        job: Job,
        command: &[u8],
    ) -> Result<bool, AllocError> {
        let _ = keeper.begin(job, command);
        for _ in 0..STEPS {
            let ask = keeper.ask();
            if let Ask::Nothing(end) = ask {
                return Ok(matches!(end, End::Done));
            }
            self.does(keeper, ask)?;
        }
        Ok(false)
    }

    /// Does what the keeper requests, and reports the result to the keeper.
    fn does(&mut self, keeper: &mut Keeper<KeptDevice>, ask: Ask) -> Result<(), AllocError> {
        match ask {
            Ask::Read(from) => {
                let rest = self.journal.get(from as usize..).unwrap_or(&[]);
                let _ = keeper.next(Got::Bytes(rest));
                return Ok(());
            }
            Ask::Put { cut, at } => {
                self.journal.truncate(cut as usize);
                self.journal.truncate(at as usize);
                self.journal.extend_from_slice(keeper.out())?;
            }
            Ask::Make { .. } => {
                self.fresh.clear();
                self.fresh.extend_from_slice(keeper.out())?;
            }
            Ask::Name => {
                self.number = self.number.wrapping_add(1);
                mem::swap(&mut self.journal, &mut self.fresh);
            }
            _ => {}
        }
        let _ = keeper.next(self.tells(ask));
        Ok(())
    }

    fn tells(&self, ask: Ask) -> Got<'static> {
        if !matches!(ask, Ask::Look | Ask::Name) {
            return Got::Done;
        }
        if self.number == 0 {
            return Got::Gone;
        }
        Got::Stands {
            file: self.number,
            size: self.journal.len() as u64,
        }
    }
}
