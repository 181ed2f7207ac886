//! Runs scripts and power cycles on a device that is kept in a folder, and prints its history.

use crate::fault::Fault;
use crate::kept::{Kept, play, said_of_following, said_of_opening};
use std::fs;
use std::io::Read;
use tpm_bytes::Tap;
use tpm_journal::{RetellFault, Telling, retell};
use tpm_keeping::holder::Force;
use tpm_machine::Machine;
use tpm_slots::SlotKeep;
use tpm_step::Outcome;
use tpmsim_folder::{Place, Said};
use tpmsim_image::{Entropy, Subject};
use tpmsim_script::first_bytes;

/// Power-cycles the device in a folder. If `cuts` is set and the journal is damaged, a new journal
/// begins first. Keeps `past` finished journals in the folder.
pub fn cycle_power(rt: &HostRuntime, folder: &str, cuts: bool, past: u32) -> Result<(), Fault> {
    let mut kept = open_there(rt, folder, past)?;
    if cuts {
        kept.cut()?;
    }
    Ok(kept.cycle_power()?)
}

/// Prints the history of the device in a folder since its journal began, as a script.
pub fn print_script(rt: &HostRuntime, folder: &str) -> Result<(), Fault> {
    let mut kept = open_there(rt, folder, 0)?;
    print_journal(rt, kept.journal()?)
}

/// Prints a journal as a script.
fn print_journal(rt: &HostRuntime, text: &[u8]) -> Result<(), Fault> {
    let mut machine: Machine<SlotKeep> = Machine::manufacture(rt.alloc(), &[0; 256])?;
    let mut outcome = Outcome::empty();
    let output = &mut Tap::new(rt.stdout());
    retell(Telling::Script, &mut machine, text, &mut outcome, output).map_err(fault_of_retelling)
}

fn fault_of_retelling(fault: RetellFault) -> Fault {
    match fault {
        RetellFault::Open(fault) => Fault::Kept(Place::Journal.that(said_of_opening(fault))),
        RetellFault::Follow { fault, .. } => {
            Fault::Kept(Place::Journal.that(said_of_following(fault)))
        }
        RetellFault::Write => Fault::file(Subject::Output),
    }
}

/// Plays a script, from a file or from standard input, on the device in a folder. Keeps `past`
/// finished journals in the folder.
pub fn play_script(
    rt: &HostRuntime,
    script: &str,
    trace: bool,
    folder: &str,
    past: u32,
    entropy: Option<&str>,
) -> Result<(), Fault> {
    if script == "-" {
        let reader = &mut Tap::new(rt.stdin());
        return play_text(rt, reader, trace, folder, past, entropy);
    }
    let file = Fault::file(Subject::Script).unless(fs::open(rt, script))?;
    play_text(rt, &mut Tap::new(file), trace, folder, past, entropy)
}

/// Reads a script, and plays it on the device in a folder, or on a new device if the folder
/// contains none.
fn play_text<R: Read>(
    rt: &HostRuntime,
    reader: &mut Tap<R>,
    trace: bool,
    folder: &str,
    past: u32,
    entropy: Option<&str>,
) -> Result<(), Fault> {
    let mut kept = Kept::at(rt, folder, true, Force::Power, past)?;
    begin_missing(rt, &mut kept, entropy)?;
    play_on(rt, &mut kept, reader, trace)
}

/// Creates a new device if the folder contains none. Its secrets are the first random bytes of a
/// file, or the bytes 00 to ff if no file is given.
fn begin_missing(
    rt: &HostRuntime,
    kept: &mut Kept<'_>,
    entropy: Option<&str>,
) -> Result<(), Fault> {
    if kept.is_there()? {
        return Ok(());
    }
    let random = random_of(rt, entropy)?;
    Ok(kept.manufacture(&random)?)
}

/// Reads a script from `reader`, and plays it on a device.
fn play_on<R: Read>(
    rt: &HostRuntime,
    kept: &mut Kept<'_>,
    reader: &mut Tap<R>,
    trace: bool,
) -> Result<(), Fault> {
    let output = &mut Tap::new(rt.stdout());
    Ok(play(rt.alloc(), kept, reader, output, trace)?)
}

/// Opens the device in a folder, which must exist. Keeps `past` finished journals in the folder.
pub fn open_there<'a>(rt: &'a HostRuntime, folder: &str, past: u32) -> Result<Kept<'a>, Fault> {
    let kept = Kept::at(rt, folder, false, Force::Power, past)?;
    if kept.is_there()? {
        Ok(kept)
    } else {
        Err(Fault::Kept(Place::Journal.that(Said::IsNotThere)))
    }
}

/// The random bytes of a new device.
fn random_of(rt: &HostRuntime, entropy: Option<&str>) -> Result<[u8; 256], Fault> {
    let Some(path) = entropy else {
        return Ok(first_bytes());
    };
    let mut entropy = Entropy::open(rt, path)?;
    Fault::Entropy(Subject::Entropy.alone()).unless(entropy.random())
}
