//! Random bytes for a served device, which are read from a file, and new devices that are
//! manufactured with these random bytes.

ghost use Rattle.std.specs.Prelude.{◌≡◌, IfOk, ℕ, List};
ghost use Rattle.std.specs.Io.KnownBytes.{Consumes};
ghost use Rattle.tpm_machine.specs.State.{state_of};
ghost use Rattle.tpm_record.specs.Record.{manufactured};
ghost use Rattle.tpm_slots.specs.SlotRecord.{slot_record};

use crate::fault::{DeviceFault, Subject};
use std::fs::File;
use std::io::{BufReader, ErrorKind, Read};
use std::{fs, io};
use tpm_machine::Machine;
use tpm_slots::SlotKeep;

/// The number of random bytes that are read at once: the bytes for sixteen commands.
const READ_SIZE: usize = 16 * 256;

/// A reader of random bytes.
#[derive(Drop)]
pub struct RandomReader<R> {
    pub(crate) reader: R,
}

/// The file of random bytes.
pub type Entropy = RandomReader<BufReader<File>>;

impl RandomReader<BufReader<File>> {
    /// Opens the file at this path, which may be a device or a pipe, but not a folder.
    pub fn open(rt: &HostRuntime, path: &str) -> Result<Entropy, DeviceFault> {
        let fault = DeviceFault::Entropy(Subject::Entropy.alone());
        let file = fault.unless(open_bytes(rt, path))?;
        let reader = BufReader::with_capacity(rt.alloc(), READ_SIZE, file);
        Ok(RandomReader {
            reader: fault.unless(reader)?,
        })
    }
}

impl<R: Read> RandomReader<R> {
    /// Returns the next 256 bytes of the reader.
    pub fn random(&mut self) -> io::Result<[u8; 256]>
        ensures { IfOk result (λ random. Consumes (R.remaining self.old.reader)
            (R.remaining self.new.reader) random) }
    {
        let mut random = [0; 256];
        self.reader.read_exact(&mut random)?;
        Ok(random)
    }

    /// Returns a new device, manufactured with the next 256 bytes of the reader.
    pub fn manufacture(&mut self, rt: &HostRuntime) -> Result<Machine<SlotKeep>, DeviceFault>
        ensures { IfOk result (λ machine. (random : List ℕ)
            × Consumes (R.remaining self.old.reader) (R.remaining self.new.reader) random
            × (state_of slot_record machine ≡ manufactured random)) }
    {
        let fault = DeviceFault::Entropy(Subject::Entropy.alone());
        let random = fault.unless(self.random())?;
        Ok(Machine::manufacture(rt.alloc(), &random)?)
    }
}

/// Opens the file at a path, if it can be read: a folder can be opened, but not read.
fn open_bytes(rt: &HostRuntime, path: &str) -> io::Result<File> {
    let file = fs::open(rt, path)?;
    if file.metadata()?.is_dir() {
        return Err(io::Error::from(ErrorKind::IsADirectory));
    }
    Ok(file)
}
