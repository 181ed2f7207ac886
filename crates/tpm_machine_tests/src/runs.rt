//! Tests what a run reports about each of its events.

use super::comparison::check;
use super::keeps::{Trial, run_over_both};
use std::alloc::Global;
use std::process::Abort;
use std::test::Fail;
use tpm_machine::Machine;
use tpm_record::Keep;
use tpm_step::{Event, Outcome, Row};
use tpm_types_common::Locality;

const STARTUP: u32 = 0x144;

const GET_RANDOM: u32 = 0x17b;

/// The event of a command from locality 0. No time has elapsed, and all random bytes are 0.
fn event_of(buffer: &[u8]) -> Event {
    Event::of_command(buffer, Locality::new(0).unwrap(), 0, [0; 256])
}

/// Three events: TPM2_Startup(CLEAR), a power cycle, and TPM2_GetRandom before the next startup.
fn events() -> [Event<'static>; 3] {
    [
        event_of(b"\x80\x01\0\0\0\x0c\0\0\x01\x44\0\0"),
        Event::PowerCycle,
        event_of(b"\x80\x01\0\0\0\x0c\0\0\x01\x7b\0\0"),
    ]
}

/// What a run reports about an event: the length of its response, and its row.
type Told = (usize, Row);

/// What a run reports about these events, in order.
fn told_of<K: Keep>(
    alloc: Global,
    machine: &mut Machine<K>,
    events: &[Event],
) -> Result<Vec<Told>, Fail> {
    let mut told = Vec::new(alloc);
    let mut kept = true;
    machine.run(
        events,
        &mut |outcome: &Outcome| {
            kept = kept && told.push((outcome.response.len(), outcome.row)).is_ok();
        },
    );
    if !kept {
        return Err(Fail::new("no memory"));
    }
    Ok(told)
}

/// The row with a command's code, and the number of the check that refused the command.
fn row(code: u32, check: u8) -> Row {
    Row { code, check }
}

#[derive(Drop)]
struct RunOfThree;

impl Trial for RunOfThree {
    fn run<K: Keep, R: Abort>(rt: &R, alloc: Global) -> Result<(), Fail> {
        let mut machine: Machine<K> = Machine::manufacture(alloc, &[0; 256])?;
        let told = told_of(alloc, &mut machine, &events())?;
        check(rt, told.get(0).copied(), Some((10, row(STARTUP, 0))));
        check(rt, told.get(1).copied(), Some((0, row(0, 0))));
        check(rt, told.get(2).copied(), Some((10, row(GET_RANDOM, 5))));
        check(rt, told.len(), 3);
        Ok(())
    }
}

#[test]
fn a_run_tells_each_outcome_once(rt: HostRuntime) -> Result<(), Fail> {
    run_over_both(RunOfThree, &rt, rt.alloc())
}
