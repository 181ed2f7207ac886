//! Saves a device to a writer. In each trial a different write fails.

use super::comparison::check;
use super::failing::Sink;
use super::keeps::{Trial, run_over_both};
use std::alloc::Global;
use std::process::Abort;
use std::test::Fail;
use tpm_bytes::Tap;
use tpm_image::{SaveFault, save};
use tpm_machine::Machine;
use tpm_record::Keep;

/// The number of writes, of at most 64 bytes each, for an image of a new device: one for its
/// header, and six for the following 351 bytes.
const WRITES: usize = 7;

/// How a save ended, and the bytes that were written.
#[derive(Drop)]
struct Saved {
    outcome: Result<(), SaveFault>,
    written: Vec<u8>,
}

/// Saves a device to a writer that fails after this many writes of at most 64 bytes.
fn save_by<K: Keep>(alloc: Global, machine: &Machine<K>, writes: usize) -> Saved {
    let mut tap = Tap::new(Sink {
        taken: Vec::new(alloc),
        size: 64,
        writes,
    });
    let outcome = save(machine, &mut tap);
    let written = tap.into_inner().taken;
    Saved { outcome, written }
}

#[derive(Drop)]
struct EachWrite;

impl Trial for EachWrite {
    fn run<K: Keep, R: Abort>(rt: &R, alloc: Global) -> Result<(), Fail> {
        let machine: Machine<K> = Machine::manufacture(alloc, &[0; 256])?;
        let whole = save_by(alloc, &machine, WRITES);
        check(rt, whole.outcome, Ok(()));
        for writes in 0..WRITES {
            let cut = save_by(alloc, &machine, writes);
            check(rt, cut.outcome, Err(SaveFault::Write));
            check(
                rt,
                whole.written.as_slice().starts_with(cut.written.as_slice()),
                true,
            );
            let again = save_by(alloc, &machine, WRITES);
            check(rt, again.written.as_slice(), whole.written.as_slice());
        }
        Ok(())
    }
}

#[test]
fn each_write_of_a_save_fails(rt: HostRuntime) -> Result<(), Fail> {
    run_over_both(EachWrite, &rt, rt.alloc())
}
