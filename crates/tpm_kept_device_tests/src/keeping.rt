//! A keeper creates a device in a folder and executes commands. Later keepers open the device
//! again.

use crate::folder::Folder;
use crate::words::{cycle, given, given_after, restoring, seed};
use std::process::Abort;
use tpm_keeping::holder::{Force, Job};
use tpm_keeping::keeper::Keeper;
use tpm_kept_device::KeptDevice;

const FAR: u64 = 1_000_000;

const STARTUP: &[u8] = &[0x80, 1, 0, 0, 0, 12, 0, 0, 1, 0x44, 0, 0];

const GET_RANDOM: &[u8] = &[0x80, 1, 0, 0, 0, 12, 0, 0, 1, 0x7b, 0, 4];

/// The report on TPM2_Startup, which draws 64 bytes, and its response.
const STARTED: &[u8] = &[0, 0, 1, 0x44, 0, 0, 64, 0x80, 1, 0, 0, 0, 10, 0, 0, 0, 0];

/// The report on a TPM2_GetRandom that draws four bytes, and the response: each byte is 5.
const FOUR_FIVES: &[u8] = &[
    0, 0, 1, 0x7b, 0, 0, 4, 0x80, 1, 0, 0, 0, 16, 0, 0, 0, 0, 0, 4, 5, 5, 5, 5,
];

/// The report on TPM2_GetRandom without TPM2_Startup: check 5 refuses the command with INITIALIZE
/// (0x100).
const INITIALIZE: &[u8] = &[0, 0, 1, 0x7b, 5, 0, 0, 0x80, 1, 0, 0, 0, 10, 0, 0, 1, 0];

/// TPM2_ReadClock, and the report on it.
const READ_CLOCK: &[u8] = &[0x80, 1, 0, 0, 0, 10, 0, 0, 1, 0x81];

const CLOCK_READ: &[u8] = &[0, 0, 1, 0x81, 0, 0, 0];

/// Checks that a call of the keeper succeeds and returns this response.
fn answers<R: Abort>(
    rt: &R,
    folder: &mut Folder,
    keeper: &mut Keeper<KeptDevice>,
    job: Job,
    command: &[u8],
    response: &[u8],
) {
    let is_done = matches!(folder.runs(keeper, job, command), Ok(true));
    assert!(rt; is_done);
    assert!(rt; keeper.response() == response);
}

#[test]
fn a_device_is_opened_as_it_was(rt: HostRuntime) {
    let alloc = rt.alloc();
    let mut folder = Folder::new(alloc);
    let mut first = Keeper::new(alloc, Force::Always, FAR);
    let seed = seed(alloc, 1000, 3).expect(&rt, "memory");
    let startup = given(alloc, 1001, 4, STARTUP).expect(&rt, "memory");
    let random = given(alloc, 1002, 5, GET_RANDOM).expect(&rt, "memory");
    answers(&rt, &mut folder, &mut first, Job::Begin, &seed, &[]);
    answers(
        &rt,
        &mut folder,
        &mut first,
        Job::Execute,
        &random,
        INITIALIZE,
    );
    answers(
        &rt,
        &mut folder,
        &mut first,
        Job::Execute,
        &startup,
        STARTED,
    );
    answers(
        &rt,
        &mut folder,
        &mut first,
        Job::Execute,
        &random,
        FOUR_FIVES,
    );
    let is_shown = matches!(folder.runs(&mut first, Job::Show, &[]), Ok(true));
    assert!(rt; is_shown);
    let mut second = Keeper::new(alloc, Force::Never, FAR);
    answers(
        &rt,
        &mut folder,
        &mut second,
        Job::Show,
        &[],
        first.response(),
    );
    answers(
        &rt,
        &mut folder,
        &mut second,
        Job::Execute,
        &random,
        FOUR_FIVES,
    );
    answers(
        &rt,
        &mut folder,
        &mut first,
        Job::Execute,
        &random,
        FOUR_FIVES,
    );
}

#[test]
fn a_power_cycle_and_a_checkpoint_begin_journals(rt: HostRuntime) {
    let alloc = rt.alloc();
    let mut folder = Folder::new(alloc);
    let mut keeper = Keeper::new(alloc, Force::Power, FAR);
    let seed = seed(alloc, 1000, 3).expect(&rt, "memory");
    let startup = given(alloc, 1001, 4, STARTUP).expect(&rt, "memory");
    let random = given(alloc, 1002, 5, GET_RANDOM).expect(&rt, "memory");
    let power = cycle(alloc, 1003).expect(&rt, "memory");
    answers(&rt, &mut folder, &mut keeper, Job::Begin, &seed, &[]);
    answers(
        &rt,
        &mut folder,
        &mut keeper,
        Job::Execute,
        &startup,
        STARTED,
    );
    answers(&rt, &mut folder, &mut keeper, Job::Renew, &[], &[]);
    answers(
        &rt,
        &mut folder,
        &mut keeper,
        Job::Execute,
        &random,
        FOUR_FIVES,
    );
    answers(&rt, &mut folder, &mut keeper, Job::Execute, &power, &[]);
    let mut other = Keeper::new(alloc, Force::Power, FAR);
    answers(
        &rt,
        &mut folder,
        &mut other,
        Job::Execute,
        &random,
        INITIALIZE,
    );
}

#[test]
fn what_is_no_state_is_refused(rt: HostRuntime) {
    let alloc = rt.alloc();
    let mut folder = Folder::new(alloc);
    let mut keeper = Keeper::new(alloc, Force::Never, FAR);
    let seed = seed(alloc, 1000, 3).expect(&rt, "memory");
    let startup = given(alloc, 1001, 4, STARTUP).expect(&rt, "memory");
    let random = given(alloc, 1002, 5, GET_RANDOM).expect(&rt, "memory");
    answers(&rt, &mut folder, &mut keeper, Job::Begin, &seed, &[]);
    answers(
        &rt,
        &mut folder,
        &mut keeper,
        Job::Execute,
        &startup,
        STARTED,
    );
    let none = restoring(alloc, 1003, b"no state").expect(&rt, "memory");
    answers(&rt, &mut folder, &mut keeper, Job::Execute, &none, &[0]);
    answers(
        &rt,
        &mut folder,
        &mut keeper,
        Job::Execute,
        &random,
        FOUR_FIVES,
    );
}

/// Returns the value of Time in `response`: the report on a TPM2_ReadClock, followed by the
/// device's response.
fn time_in(response: &[u8]) -> u64 {
    match response.get(17..25) {
        Some([a, b, c, d, e, f, g, h]) => u64::from_be_bytes([*a, *b, *c, *d, *e, *f, *g, *h]),
        _ => 0,
    }
}

/// Executes a TPM2_ReadClock, and returns the time since power came on.
fn reads_time<R: Abort>(
    rt: &R,
    folder: &mut Folder,
    keeper: &mut Keeper<KeptDevice>,
    command: &[u8],
) -> u64 {
    let is_done = matches!(folder.runs(keeper, Job::Execute, command), Ok(true));
    assert!(rt; is_done);
    assert!(rt; keeper.response().starts_with(CLOCK_READ));
    time_in(keeper.response())
}

#[test]
fn a_command_comes_so_long_after_the_one_before(rt: HostRuntime) {
    let alloc = rt.alloc();
    let mut folder = Folder::new(alloc);
    let mut keeper = Keeper::new(alloc, Force::Never, FAR);
    let seed = seed(alloc, 1000, 3).expect(&rt, "memory");
    let startup = given(alloc, 1001, 4, STARTUP).expect(&rt, "memory");
    let by_clock = given(alloc, 1002, 5, READ_CLOCK).expect(&rt, "memory");
    let after = given_after(alloc, 5000, 5, READ_CLOCK).expect(&rt, "memory");
    answers(&rt, &mut folder, &mut keeper, Job::Begin, &seed, &[]);
    answers(
        &rt,
        &mut folder,
        &mut keeper,
        Job::Execute,
        &startup,
        STARTED,
    );
    let first = reads_time(&rt, &mut folder, &mut keeper, &by_clock);
    let second = reads_time(&rt, &mut folder, &mut keeper, &after);
    let third = reads_time(&rt, &mut folder, &mut keeper, &by_clock);
    assert!(rt; second.wrapping_sub(first) == 5000);
    assert!(rt; third == second);
}

#[test]
fn damage_is_cut(rt: HostRuntime) {
    let alloc = rt.alloc();
    let mut folder = Folder::new(alloc);
    let mut keeper = Keeper::new(alloc, Force::Always, FAR);
    let seed = seed(alloc, 1000, 3).expect(&rt, "memory");
    let startup = given(alloc, 1001, 4, STARTUP).expect(&rt, "memory");
    let random = given(alloc, 1002, 5, GET_RANDOM).expect(&rt, "memory");
    answers(&rt, &mut folder, &mut keeper, Job::Begin, &seed, &[]);
    answers(
        &rt,
        &mut folder,
        &mut keeper,
        Job::Execute,
        &startup,
        STARTED,
    );
    folder
        .journal
        .extend_from_slice(&[b'x'; 100])
        .expect(&rt, "memory");
    let mut other = Keeper::new(alloc, Force::Always, FAR);
    let is_done = matches!(folder.runs(&mut other, Job::Execute, &random), Ok(true));
    assert!(rt; !is_done);
    answers(&rt, &mut folder, &mut other, Job::Cut, &[], &[]);
    answers(
        &rt,
        &mut folder,
        &mut other,
        Job::Execute,
        &random,
        FOUR_FIVES,
    );
}
