//! Tests Time, Clock and resetCount near their maximum values. A script would take too long to
//! reach these values.

use super::comparison::check;
use super::keeps::{Trial, run_over_both};
use std::alloc::Global;
use std::process::Abort;
use std::test::Fail;
use tpm_machine::Machine;
use tpm_record::{Fixed, Keep};
use tpm_step::Event;
use tpm_types_common::Locality;

/// The buffer of TPM2_Startup(CLEAR).
const STARTUP: &[u8] = b"\x80\x01\0\0\0\x0c\0\0\x01\x44\0\0";

/// Executes TPM2_Startup(CLEAR), this number of milliseconds after the previous command.
fn start<K: Keep>(machine: &mut Machine<K>, elapsed_ms: u32) {
    let here = Locality::new(0).unwrap();
    machine.execute(&Event::of_command(STARTUP, here, elapsed_ms, [0; 256]));
}

/// Sets Time and Clock close to their maximum values, and resetCount to its maximum.
fn set(fixed: &mut Fixed) {
    fixed.time = u64::MAX - 8;
    fixed.clock = u64::MAX - 6;
    fixed.reset_count = u32::MAX;
}

#[derive(Drop)]
struct CountersAtTheirEnds;

impl Trial for CountersAtTheirEnds {
    fn run<K: Keep, R: Abort>(rt: &R, alloc: Global) -> Result<(), Fail> {
        let mut keep = K::empty(alloc)?;
        set(keep.fixed_mut());
        let mut machine = Machine::from_keep(keep);
        start(&mut machine, 7);
        let fixed = machine.keep().fixed();
        check(rt, fixed.time, u64::MAX - 1);
        check(rt, fixed.clock, u64::MAX);
        check(rt, fixed.reset_count, u32::MAX);
        Ok(())
    }
}

#[test]
fn counters_stop_at_their_ends(rt: HostRuntime) -> Result<(), Fail> {
    run_over_both(CountersAtTheirEnds, &rt, rt.alloc())
}
