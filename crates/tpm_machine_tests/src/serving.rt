//! Serves one connection in memory, with the input split into pieces of two sizes. In further
//! trials, each read, each write and each value from the host fails in turn.

use super::comparison::check;
use super::connections::{FIRST, FIRST_ANSWERS};
use super::device::{host, mux};
use super::failing::{Sink, Source};
use super::keeps::{Trial, run_over_both};
use std::alloc::Global;
use std::process::Abort;
use std::test::Fail;
use tpm_bytes::Tap;
use tpm_record::Keep;
use tpm_wire::{HostFault, Mux, ServeFault, serve};

/// The size of each read, and how many reads, writes and requests for the host's values succeed.
#[derive(Clone, Copy)]
struct Limits {
    size: usize,
    reads: usize,
    writes: usize,
    values: usize,
}

/// Limits that suffice for three buffers: one read for each byte and one for the end, eight writes
/// of at most five bytes, and one value for each buffer.
const ENOUGH: Limits = Limits {
    size: 1,
    reads: 37,
    writes: 8,
    values: 3,
};

/// How a connection ended, the bytes that were written, and the number of commands executed. One
/// millisecond passes on the host's clock before each command.
#[derive(Drop)]
struct End {
    outcome: Result<u64, ServeFault>,
    written: Vec<u8>,
    executed: u64,
}

/// Serves a connection that sends the three buffers in `FIRST` to a new device.
fn serve_first<K: Keep>(alloc: Global, limits: Limits) -> Result<End, Fail> {
    let mut mux: Mux<K> = mux(alloc)?;
    let mut reader = Tap::new(Source {
        left: FIRST,
        size: limits.size,
        reads: limits.reads,
    });
    let mut writer = Tap::new(Sink {
        taken: Vec::new(alloc),
        size: 5,
        writes: limits.writes,
    });
    let mut values = limits.values;
    let mut ask = || {
        let Some(fewer) = values.checked_sub(1) else {
            return Err(HostFault);
        };
        values = fewer;
        Ok(host())
    };
    let outcome = serve(&mut mux, &mut reader, &mut writer, &mut ask);
    Ok(End {
        outcome,
        written: writer.into_inner().taken,
        executed: mux.machine().keep().fixed().time,
    })
}

/// Checks an outcome, the number of response bytes written, and the number of commands executed.
fn check_end<R: Abort>(
    rt: &R,
    end: &End,
    outcome: Result<u64, ServeFault>,
    written: usize,
    executed: u64,
) {
    check(rt, end.outcome, outcome);
    check(
        rt,
        Some(end.written.as_slice()),
        FIRST_ANSWERS.get(..written),
    );
    check(rt, end.executed, executed);
}

/// The total size of the responses to the first `buffers` buffers.
fn length_of_answers(buffers: usize) -> usize {
    match buffers {
        0 => 0,
        1 => 10,
        2 => 23,
        _ => 37,
    }
}

#[derive(Drop)]
struct NothingFails;

impl Trial for NothingFails {
    fn run<K: Keep, R: Abort>(rt: &R, alloc: Global) -> Result<(), Fail> {
        for (size, reads) in [(1, 37), (4_096, 2)] {
            let end = serve_first::<K>(
                alloc,
                Limits {
                    size,
                    reads,
                    ..ENOUGH
                },
            )?;
            check_end(rt, &end, Ok(3), 37, 3);
        }
        Ok(())
    }
}

#[test]
fn pieces_of_one_byte_and_of_all_are_one_stream(rt: HostRuntime) -> Result<(), Fail> {
    run_over_both(NothingFails, &rt, rt.alloc())
}

/// A trial in which each read of one byte fails in turn. The buffers that were complete before the
/// failure get their responses. Each buffer is twelve bytes long.
#[derive(Drop)]
struct EachRead;

impl Trial for EachRead {
    fn run<K: Keep, R: Abort>(rt: &R, alloc: Global) -> Result<(), Fail> {
        for reads in 0..37 {
            let end = serve_first::<K>(alloc, Limits { reads, ..ENOUGH })?;
            let written = length_of_answers(reads / 12);
            check_end(rt, &end, Err(ServeFault::Read), written, reads as u64 / 12);
        }
        Ok(())
    }
}

#[test]
fn each_read_fails(rt: HostRuntime) -> Result<(), Fail> {
    run_over_both(EachRead, &rt, rt.alloc())
}

/// For each write: the number of bytes written before it, and the number of commands executed by
/// then. The responses are ten, thirteen and fourteen bytes long.
const WRITES: [(usize, u64); 8] = [
    (0, 1),
    (5, 1),
    (10, 2),
    (15, 2),
    (20, 2),
    (23, 3),
    (28, 3),
    (33, 3),
];

/// A trial in which each write fails in turn; the command whose response is lost has been
/// executed.
#[derive(Drop)]
struct EachWrite;

impl Trial for EachWrite {
    fn run<K: Keep, R: Abort>(rt: &R, alloc: Global) -> Result<(), Fail> {
        for (writes, (written, executed)) in WRITES.iter().enumerate() {
            let end = serve_first::<K>(alloc, Limits { writes, ..ENOUGH })?;
            check_end(rt, &end, Err(ServeFault::Write), *written, *executed);
        }
        Ok(())
    }
}

#[test]
fn each_write_fails(rt: HostRuntime) -> Result<(), Fail> {
    run_over_both(EachWrite, &rt, rt.alloc())
}

/// A trial in which each value from the host fails in turn; the command that gets no value is not
/// executed.
#[derive(Drop)]
struct EachValue;

impl Trial for EachValue {
    fn run<K: Keep, R: Abort>(rt: &R, alloc: Global) -> Result<(), Fail> {
        for values in 0..3 {
            let end = serve_first::<K>(alloc, Limits { values, ..ENOUGH })?;
            let written = length_of_answers(values);
            check_end(rt, &end, Err(ServeFault::Host), written, values as u64);
        }
        Ok(())
    }
}

#[test]
fn each_value_of_the_host_fails(rt: HostRuntime) -> Result<(), Fail> {
    run_over_both(EachValue, &rt, rt.alloc())
}
