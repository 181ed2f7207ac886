//! Tests of connections that take turns.

use super::comparison::check;
use super::device::{STARTUP, answer, feed, host, mux, turn};
use super::keeps::{Trial, run_over_both};
use std::alloc::Global;
use std::process::Abort;
use std::test::Fail;
use tpm_bytes::Tap;
use tpm_record::Keep;
use tpm_wire::{ConnectionNumber, Full, Mux, NoConnection, ServeFault, Turn, serve};

/// The buffers of TPM2_Startup, of TPM2_GetRandom for one byte, and of TPM2_GetRandom for two
/// bytes.
pub const FIRST: &[u8] = &[
    0x80, 1, 0, 0, 0, 12, 0, 0, 1, 0x44, 0, 0, 0x80, 1, 0, 0, 0, 12, 0, 0, 1, 0x7b, 0, 1, 0x80, 1,
    0, 0, 0, 12, 0, 0, 1, 0x7b, 0, 2,
];

/// The buffers of TPM2_GetRandom for three, four and five bytes.
const SECOND: &[u8] = &[
    0x80, 1, 0, 0, 0, 12, 0, 0, 1, 0x7b, 0, 3, 0x80, 1, 0, 0, 0, 12, 0, 0, 1, 0x7b, 0, 4, 0x80, 1,
    0, 0, 0, 12, 0, 0, 1, 0x7b, 0, 5,
];

/// The responses to the buffers in `FIRST`: success, one random byte, and two random bytes.
pub const FIRST_ANSWERS: &[u8] = &[
    0x80, 1, 0, 0, 0, 10, 0, 0, 0, 0, 0x80, 1, 0, 0, 0, 13, 0, 0, 0, 0, 0, 1, 7, 0x80, 1, 0, 0, 0,
    14, 0, 0, 0, 0, 0, 2, 7, 7,
];

/// The responses to the buffers in `SECOND`: three, four and five random bytes.
const SECOND_ANSWERS: &[u8] = &[
    0x80, 1, 0, 0, 0, 15, 0, 0, 0, 0, 0, 3, 7, 7, 7, 0x80, 1, 0, 0, 0, 16, 0, 0, 0, 0, 0, 4, 7, 7,
    7, 7, 0x80, 1, 0, 0, 0, 17, 0, 0, 0, 0, 0, 5, 7, 7, 7, 7, 7,
];

/// The response TPM_RC_COMMAND_SIZE.
const WRONG_SIZE: &[u8] = &[0x80, 1, 0, 0, 0, 10, 0, 0, 1, 0x42];

/// Feeds a byte to the connection, performs a turn, and appends the response, if there is one, to
/// the earlier responses.
fn add_answer<K: Keep>(
    mux: &mut Mux<K>,
    connection: ConnectionNumber,
    byte: u8,
    answers: &mut Vec<u8>,
) -> Result<(), Fail> {
    feed(mux, connection, &[byte])?;
    if let Turn::Answer(outcome) = turn(mux, connection)? {
        answers.extend_from_slice(outcome.response.as_slice())?;
    }
    Ok(())
}

#[derive(Drop)]
struct TwoInTurn;

impl Trial for TwoInTurn {
    fn run<K: Keep, R: Abort>(rt: &R, alloc: Global) -> Result<(), Fail> {
        let mut mux: Mux<K> = mux(alloc)?;
        let first = mux.open()?;
        let second = mux.open()?;
        let mut answers = Vec::new(alloc);
        let mut other_answers = Vec::new(alloc);
        for (one, other) in FIRST.iter().zip(SECOND) {
            add_answer(&mut mux, first, *one, &mut answers)?;
            add_answer(&mut mux, second, *other, &mut other_answers)?;
        }
        check(rt, answers.as_slice(), FIRST_ANSWERS);
        check(rt, other_answers.as_slice(), SECOND_ANSWERS);
        Ok(())
    }
}

#[test]
fn two_connections_are_fed_a_byte_in_turn(rt: HostRuntime) -> Result<(), Fail> {
    run_over_both(TwoInTurn, &rt, rt.alloc())
}

/// Whether a turn of a connection reports that the connection has ended.
fn has_ended<K: Keep>(mux: &mut Mux<K>, connection: ConnectionNumber) -> bool {
    matches!(turn(mux, connection), Ok(Turn::Ended))
}

/// Checks that a connection ends if its first buffer has this commandSize.
fn end_by<K: Keep, R: Abort>(rt: &R, mux: &mut Mux<K>, size: [u8; 4]) -> Result<(), Fail> {
    let connection = mux.open()?;
    check(rt, feed(mux, connection, &[0x80, 1]), Ok(2));
    check(rt, feed(mux, connection, &size), Ok(4));
    let outcome = answer(mux, connection)?;
    check(rt, outcome.response.as_slice(), WRONG_SIZE);
    check(rt, feed(mux, connection, STARTUP), Ok(12));
    check(rt, has_ended(mux, connection), true);
    check(rt, mux.close(connection), Ok(()));
    Ok(())
}

#[derive(Drop)]
struct WrongSizes;

impl Trial for WrongSizes {
    fn run<K: Keep, R: Abort>(rt: &R, alloc: Global) -> Result<(), Fail> {
        let mut mux: Mux<K> = mux(alloc)?;
        for size in [[0, 0, 0, 5], [0, 0, 0, 9], [0, 0, 0x10, 1]] {
            end_by(rt, &mut mux, size)?;
        }
        Ok(())
    }
}

#[test]
fn a_size_that_no_command_has_ends_a_connection(rt: HostRuntime) -> Result<(), Fail> {
    run_over_both(WrongSizes, &rt, rt.alloc())
}

/// Serves a connection that sends nothing.
fn serve_nothing<K: Keep>(alloc: Global, mux: &mut Mux<K>) -> Result<u64, ServeFault> {
    let mut reader = Tap::new(b"".as_slice());
    let mut writer = Tap::new(Vec::new(alloc));
    serve(mux, &mut reader, &mut writer, &mut || Ok(host()))
}

#[derive(Drop)]
struct NinthConnection;

impl Trial for NinthConnection {
    fn run<K: Keep, R: Abort>(rt: &R, alloc: Global) -> Result<(), Fail> {
        let mut mux: Mux<K> = mux(alloc)?;
        let first = mux.open()?;
        for _ in 0..7 {
            mux.open()?;
        }
        check(rt, mux.open(), Err(Full));
        check(rt, serve_nothing(alloc, &mut mux), Err(ServeFault::Full));
        check(rt, mux.close(first), Ok(()));
        check(rt, turn(&mut mux, first).err(), Some(NoConnection));
        check(rt, mux.open(), Ok(first));
        Ok(())
    }
}

#[test]
fn a_ninth_connection_is_refused(rt: HostRuntime) -> Result<(), Fail> {
    run_over_both(NinthConnection, &rt, rt.alloc())
}

#[derive(Drop)]
struct PowerCycle;

impl Trial for PowerCycle {
    fn run<K: Keep, R: Abort>(rt: &R, alloc: Global) -> Result<(), Fail> {
        let mut mux: Mux<K> = mux(alloc)?;
        let connection = mux.open()?;
        check(rt, feed(&mut mux, connection, STARTUP), Ok(12));
        mux.power_cycle();
        check(rt, answer(&mut mux, connection)?.row.check, 0);
        let machine = mux.into_machine();
        check(rt, Mux::new(machine).close(connection), Err(NoConnection));
        Ok(())
    }
}

#[test]
fn a_power_cycle_keeps_bytes(rt: HostRuntime) -> Result<(), Fail> {
    run_over_both(PowerCycle, &rt, rt.alloc())
}
