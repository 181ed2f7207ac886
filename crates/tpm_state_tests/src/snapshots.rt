//! A device with a session: its state text, and the devices that are restored from it.

use std::alloc::Global;
use std::process::Abort;
use std::test::Fail;
use tpm_completion::Completion;
use tpm_lists::{Task, run_over_lists};
use tpm_machine::Machine;
use tpm_record::Keep;
use tpm_slots::SlotKeep;
use tpm_snapshot::{Layer, completion_of, layer_of};
use tpm_state_text::{
    RestoreFault, STATE_TEXT_LIMIT, StateFault, restore_into, restored, snapshot_into,
};
use tpm_step::{Event, Outcome};
use tpm_types_common::Locality;

/// TPM2_Startup(CLEAR).
const STARTUP: &[u8] = b"\x80\x01\0\0\0\x0c\0\0\x01\x44\0\0";

/// TPM2_StartAuthSession of a policy session, with SHA-256 and without a cipher.
const START_SESSION: &[u8] = b"\x80\x01\0\0\0\x2b\0\0\x01\x76\x40\0\0\x07\x40\0\0\x07\0\x10\
    \0\0\0\0\0\0\0\0\0\0\0\0\0\0\0\0\0\0\x01\0\x10\0\x0b";

/// The last bytes of the state text that the Python device writes. These bytes are the end of the
/// text's digest.
const END: &[u8] = &[0x3f, 0x11, 0xe6, 0xe7, 0x23, 0xa3, 0x73, 0x6d];

/// Fails the test if the actual value is not the expected value.
pub fn check<R: Abort, T: PartialEq + Drop>(rt: &R, found: T, wanted: T) {
    assert!(rt; found == wanted);
}

/// A device that was manufactured with random bytes that are all zero, and that has one session.
pub fn device<K: Keep>(alloc: Global) -> Result<Machine<K>, Fail> {
    let mut machine: Machine<K> = Machine::manufacture(alloc, &[0; 256])?;
    let mut outcome = Outcome::empty();
    for buffer in [STARTUP, START_SESSION] {
        let event = Event::of_command(buffer, Locality::new(0).unwrap(), 0, [7; 256]);
        machine.execute_into(&event, &mut outcome);
    }
    Ok(machine)
}

/// The state text of a device without the completing layer.
pub fn text_of<K: Keep>(alloc: Global, keep: &K) -> Result<Vec<u8>, Fail> {
    let mut text = vec![in alloc; 0u8; STATE_TEXT_LIMIT]?;
    let size = snapshot_into(keep, None, &mut text);
    text.truncate(size);
    Ok(text)
}

/// A test that can run with any type that implements `Keep`.
pub trait Trial {
    fn run<K: Keep, R: Abort>(rt: &R, alloc: Global) -> Result<(), Fail>;
}

#[derive(Drop)]
struct Given<'a, T, R> {
    trial: T,
    rt: &'a R,
    alloc: Global,
}

impl<T: Trial + Drop, R: Abort> Task<Fail> for Given<'_, T, R> {
    ghost may_give = { λ _ _. Unit {0} };

    fn run<K: Keep>(self) -> Result<(), Fail> {
        T::run::<K, R>(self.rt, self.alloc)
    }
}

pub fn run_over_both<T: Trial + Drop, R: Abort>(
    trial: T,
    rt: &R,
    alloc: Global,
) -> Result<(), Fail> {
    T::run::<SlotKeep, R>(rt, alloc)?;
    run_over_lists(Given { trial, rt, alloc })
}

#[derive(Drop)]
struct WrittenAndRead;

impl Trial for WrittenAndRead {
    fn run<K: Keep, R: Abort>(rt: &R, alloc: Global) -> Result<(), Fail> {
        let machine: Machine<K> = device(alloc)?;
        let text = text_of(alloc, machine.keep())?;
        check(rt, text.len(), 1_733);
        check(rt, text.as_slice().ends_with(END), true);
        let Ok((keep, layer)) = restored::<K>(alloc, text.as_slice()) else {
            return Err(Fail::new("not restored"));
        };
        check(rt, layer.is_none(), true);
        check(rt, text_of(alloc, &keep)?.as_slice(), text.as_slice());
        Ok(())
    }
}

#[derive(Drop)]
struct PutInPlace;

impl Trial for PutInPlace {
    fn run<K: Keep, R: Abort>(rt: &R, alloc: Global) -> Result<(), Fail> {
        let machine: Machine<K> = device(alloc)?;
        let text = text_of(alloc, machine.keep())?;
        let mut other: K = K::empty(alloc)?;
        let before = text_of(alloc, &other)?;
        let Some((_, cut)) = text.as_slice().split_last() else {
            return Err(Fail::new("no text"));
        };
        let refused = restore_into(&mut other, alloc, cut).err();
        check(rt, refused, Some(RestoreFault::Text(StateFault::Length)));
        check(rt, text_of(alloc, &other)?.as_slice(), before.as_slice());
        let put = restore_into(&mut other, alloc, text.as_slice()).is_ok();
        check(rt, put, true);
        check(rt, text_of(alloc, &other)?.as_slice(), text.as_slice());
        Ok(())
    }
}

/// The state text of a machine with this layer.
fn text_with<K: Keep>(alloc: Global, machine: &Machine<K>, layer: &Layer) -> Result<Vec<u8>, Fail> {
    let mut text = vec![in alloc; 0u8; STATE_TEXT_LIMIT]?;
    let size = tpm_snapshot::snapshot_into(machine, Some(layer), &mut text);
    text.truncate(size);
    Ok(text)
}

#[derive(Drop)]
struct MachineWithLayer;

impl Trial for MachineWithLayer {
    fn run<K: Keep, R: Abort>(rt: &R, alloc: Global) -> Result<(), Fail> {
        let machine: Machine<K> = device(alloc)?;
        let layer = layer_of(&Completion::of_start(7));
        let text = text_with(alloc, &machine, &layer)?;
        let Ok((again, read)) = tpm_snapshot::restored::<K>(alloc, text.as_slice()) else {
            return Err(Fail::new("not restored"));
        };
        check(
            rt,
            completion_of(read.as_ref()) == Completion::of_start(7),
            true,
        );
        check(
            rt,
            text_with(alloc, &again, &layer)?.as_slice(),
            text.as_slice(),
        );
        let mut other: Machine<K> = Machine::manufacture(alloc, &[0; 256])?;
        let put = tpm_snapshot::restore_into(&mut other, alloc, text.as_slice()).is_ok();
        check(rt, put, true);
        check(
            rt,
            text_with(alloc, &other, &layer)?.as_slice(),
            text.as_slice(),
        );
        Ok(())
    }
}

#[test]
fn a_machine_is_restored_with_its_layer(rt: HostRuntime) -> Result<(), Fail> {
    run_over_both(MachineWithLayer, &rt, rt.alloc())
}

#[test]
fn a_device_is_restored_from_its_text(rt: HostRuntime) -> Result<(), Fail> {
    run_over_both(WrittenAndRead, &rt, rt.alloc())
}

#[test]
fn a_cut_text_leaves_the_device(rt: HostRuntime) -> Result<(), Fail> {
    run_over_both(PutInPlace, &rt, rt.alloc())
}
