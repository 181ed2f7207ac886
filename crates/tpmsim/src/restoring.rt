//! Writes the state text of the device in a folder, and replaces this device with the device in a
//! state text.

ghost use Rattle.tpmsim.specs.Restoring.{IsChecked};

use crate::fault::Fault;
use crate::kept::Kept;
use crate::kept_playing::open_there;
use std::fs;
use std::io::Write;
use tpm_journal_text::CONTENT_LIMIT;
use tpm_keeping::holder::Force;
use tpm_machine::Machine;
use tpm_slots::SlotKeep;
use tpm_snapshot::{RestoreFault, restore_new};
use tpmsim_image::Subject;

/// Writes the state text of the device in a folder to standard output.
pub fn print_snapshot(rt: &HostRuntime, folder: &str) -> Result<(), Fault> {
    let mut kept = open_there(rt, folder, 0)?;
    let mut content = [0; CONTENT_LIMIT];
    let text = kept.snapshot(&mut content)?;
    Fault::file(Subject::Output).unless(rt.stdout().write_all(text))
}

/// Replaces the device in a folder with the device in a state text, which is in a file. Creates the
/// device if the folder contains none. Keeps `past` finished journals in the folder. If the text is
/// refused, the folder stays unchanged.
pub fn restore_snapshot(
    rt: &HostRuntime,
    folder: &str,
    path: &str,
    past: u32,
) -> Result<(), Fault> {
    let text = Fault::file(Subject::StateText).unless(fs::read(rt, path))?;
    check(rt, text.as_slice())?;
    let mut kept = Kept::at(rt, folder, true, Force::Power, past)?;
    Ok(kept.restore(text.as_slice())?)
}

/// Checks that these bytes are a state text.
fn check(rt: &HostRuntime, text: &[u8]) -> Result<(), Fault>
    ensures { IsChecked text.now result }
{
    let mut machine: Machine<SlotKeep> = Machine::manufacture(rt.alloc(), &[0; 256])?;
    match restore_new(&mut machine, text) {
        Ok(_) => Ok(()),
        Err(RestoreFault::Text(fault)) => Err(Fault::State(fault)),
        Err(RestoreFault::NoMemory) => Err(Fault::Memory),
    }
}
