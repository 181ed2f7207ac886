//! Runs a script on a device that is kept in a file, or on a device that is not kept.

use crate::fault::Fault;
use std::fs;
use std::io::Read;
use tpm_bytes::Tap;
use tpm_commands::Profile;
use tpm_machine::Machine;
use tpm_machine_saver::Saver;
use tpm_slots::SlotKeep;
use tpmsim_image::{Entropy, ImageFile, ImageSaver, Subject};
use tpmsim_script::{new_machine, run_device, run_script_for};

/// Runs a script, from a file or from standard input, on a new device of this profile that is not kept.
pub fn run_alone(
    rt: &HostRuntime,
    profile: Profile,
    script: &str,
    trace: bool,
) -> Result<(), Fault> {
    if script == "-" {
        return run_new(rt, profile, &mut Tap::new(rt.stdin()), trace);
    }
    let file = Fault::file(Subject::Script).unless(fs::open(rt, script))?;
    run_new(rt, profile, &mut Tap::new(file), trace)
}

/// Runs the script from a reader on a new device of this profile that is not kept.
fn run_new<R: Read>(
    rt: &HostRuntime,
    profile: Profile,
    reader: &mut Tap<R>,
    trace: bool,
) -> Result<(), Fault> {
    let output = &mut Tap::new(rt.stdout());
    Ok(run_script_for::<SlotKeep, _, _>(rt.alloc(), profile, reader, output, trace)?)
}

/// Runs the script on the device whose image is in a file, or on a new device if there is no such
/// file. Saves the device there during the run and at its end.
pub fn run_kept(
    rt: &HostRuntime,
    script: &str,
    trace: bool,
    image: &str,
    entropy: Option<&str>,
) -> Result<(), Fault> {
    let file = ImageFile::take(rt, image)?;
    let device = device_of(rt, &file, entropy)?;
    let mut saver = ImageSaver::new(rt, file);
    if device.was_kept {
        saver.opened(&device.machine);
    }
    let played = play(rt, device.machine, &mut saver, script, trace);
    match saver.fault() {
        Some(fault) => Err(Fault::from(fault)),
        None => played,
    }
}

/// A device for a script.
#[derive(Drop)]
struct Device {
    machine: Machine<SlotKeep>,
    /// Whether the device's image was in the file.
    was_kept: bool,
}

/// Returns the device whose image is in a file, or a new device if there is no such file. If a file
/// of random bytes is given, it is opened in both cases.
fn device_of(
    rt: &HostRuntime,
    file: &ImageFile<'_>,
    entropy: Option<&str>,
) -> Result<Device, Fault> {
    match file.open(rt)? {
        Some(machine) => with_entropy(rt, machine, entropy),
        None => Ok(Device {
            machine: manufacture(rt, entropy)?,
            was_kept: false,
        }),
    }
}

/// Opens the file of random bytes, if one is given. Then returns the machine as a device whose
/// image was in a file.
fn with_entropy(
    rt: &HostRuntime,
    machine: Machine<SlotKeep>,
    entropy: Option<&str>,
) -> Result<Device, Fault> {
    if let Some(path) = entropy {
        Entropy::open(rt, path)?;
    }
    Ok(Device {
        machine,
        was_kept: true,
    })
}

/// Returns a new device, manufactured with the first random bytes of a file, or with the bytes 00
/// to ff if no file is given.
fn manufacture(rt: &HostRuntime, entropy: Option<&str>) -> Result<Machine<SlotKeep>, Fault> {
    match entropy {
        Some(path) => {
            let mut entropy = Entropy::open(rt, path)?;
            Ok(entropy.manufacture(rt)?)
        }
        None => Ok(new_machine(rt.alloc(), Profile::Symmetric)?),
    }
}

/// Plays a script, from a file or from standard input, on a device.
fn play<S: Saver>(
    rt: &HostRuntime,
    machine: Machine<SlotKeep>,
    saver: &mut S,
    script: &str,
    trace: bool,
) -> Result<(), Fault> {
    if script == "-" {
        return play_text(rt, machine, saver, &mut Tap::new(rt.stdin()), trace);
    }
    let file = Fault::file(Subject::Script).unless(fs::open(rt, script))?;
    play_text(rt, machine, saver, &mut Tap::new(file), trace)
}

/// Plays the script from a reader on a device.
fn play_text<S: Saver, R: Read>(
    rt: &HostRuntime,
    machine: Machine<SlotKeep>,
    saver: &mut S,
    reader: &mut Tap<R>,
    trace: bool,
) -> Result<(), Fault> {
    let output = &mut Tap::new(rt.stdout());
    Ok(run_device(rt.alloc(), machine, saver, reader, output, trace)?)
}
