//! Tests of three clients of one device, which take turns in several orders. After each command, a
//! fourth connection reads PCRs. TPM2_PCR_Read must return the values that the accepted commands
//! determine.

use super::commands::{Answer, Authorization, Client, Command, Field, Step};
use super::comparison::check;
use super::device::{answer_with, feed, mux};
use super::keeps::{Trial, run_over_both};
use super::measurements::{FIRST, SECOND, THIRD};
use super::pcr_values::{Happening, append_values};
use super::rows::{EXTENDING, PCR_CHANGED, REPLAYING, THE_SECRET, UNSEALING};
use std::alloc::Global;
use std::process::Abort;
use std::test::Fail;
use tpm_mac::HashAlg;
use tpm_record::Keep;
use tpm_step::Outcome;
use tpm_wire::{ConnectionNumber, Mux};

/// The order in which three clients take turns, the number of commands in each turn, and the
/// response to the step whose response depends on the order.
#[derive(Clone, Copy)]
struct Order {
    clients: [usize; 3],
    at_once: usize,
    answer: &'static str,
}

/// In turn: the first client extends PCR 10 just before the second client sends TPM2_Unseal.
const IN_TURN: Order = Order {
    clients: [0, 1, 2],
    at_once: 1,
    answer: PCR_CHANGED,
};

/// In reverse turn: the first client extends PCR 10 just after TPM2_Unseal.
const IN_REVERSE_TURN: Order = Order {
    clients: [2, 1, 0],
    at_once: 1,
    answer: THE_SECRET,
};

/// One after another: the first client extends PCR 10 twice before the second client begins.
const ONE_AFTER_ANOTHER: Order = Order {
    clients: [0, 1, 2],
    at_once: LONGEST,
    answer: THE_SECRET,
};

/// The largest number of steps of a client.
const LONGEST: usize = 9;

const STARTUP_CLEAR: Command = Command {
    code: 0x144,
    handles: &[],
    authorization: Authorization::None,
    parameters: &[Field::Hex("0000")],
};

const SHUTDOWN_STATE: Command = Command {
    code: 0x145,
    handles: &[],
    authorization: Authorization::None,
    parameters: &[Field::Hex("0001")],
};

const STARTUP_STATE: Command = Command {
    code: 0x144,
    handles: &[],
    authorization: Authorization::None,
    parameters: &[Field::Hex("0001")],
};

/// The PCRs that `READ_BOTH` selects.
const READ_PCRS: &[u32] = &[10, 16, 17];

/// TPM2_PCR_Read of PCRs 10, 16 and 17 in both banks.
const READ_BOTH: Command = Command {
    code: 0x17e,
    handles: &[],
    authorization: Authorization::None,
    parameters: &[
        // pcrSelectionIn: count
        Field::Hex("00000002"),
        // TPM_ALG_SHA1, sizeofSelect, pcrSelect
        Field::Hex("0004"),
        Field::Hex("03"),
        Field::Hex("000403"),
        // TPM_ALG_SHA256, sizeofSelect, pcrSelect
        Field::Hex("000b"),
        Field::Hex("03"),
        Field::Hex("000403"),
    ],
};

/// The size of the response to `READ_BOTH` without its values.
const BEFORE_VALUES: usize = 34;

/// A device, the connection that reads its PCRs, and its history.
#[derive(Drop)]
struct Stage<K: Keep> {
    mux: Mux<K>,
    observer: ConnectionNumber,
    history: Vec<Happening>,
}

/// A new device without a client.
fn new_stage<K: Keep>(alloc: Global) -> Result<Stage<K>, Fail> {
    let mut mux: Mux<K> = mux(alloc)?;
    let observer = mux.open()?;
    Ok(Stage {
        mux,
        observer,
        history: Vec::new(alloc),
    })
}

/// Sends a buffer, and adds it to the history if the device accepts it.
fn send<K: Keep>(
    stage: &mut Stage<K>,
    connection: ConnectionNumber,
    buffer: Vec<u8>,
    random: u8,
) -> Result<Outcome, Fail> {
    feed(&mut stage.mux, connection, buffer.as_slice())?;
    let outcome = answer_with(&mut stage.mux, connection, random)?;
    if outcome.row.check == 0 {
        stage.history.push(Happening::Accepted(buffer))?;
    }
    Ok(outcome)
}

/// Sends a command of the observer, which must be accepted.
fn send_own<K: Keep, R: Abort>(
    rt: &R,
    alloc: Global,
    stage: &mut Stage<K>,
    command: Command,
) -> Result<Outcome, Fail> {
    let observer = stage.observer;
    let buffer = Client::new(observer, &[]).buffer_of(alloc, command)?;
    let outcome = send(stage, observer, buffer, 0)?;
    check(rt, outcome.row.check, 0);
    Ok(outcome)
}

/// Checks the values of the PCRs.
fn observe<K: Keep, R: Abort>(rt: &R, alloc: Global, stage: &mut Stage<K>) -> Result<(), Fail> {
    let mut wanted = Vec::new(alloc);
    for bank in [HashAlg::Sha1, HashAlg::Sha256] {
        append_values(stage.history.as_slice(), bank, READ_PCRS, &mut wanted)?;
    }
    let read = send_own(rt, alloc, stage, READ_BOTH)?;
    let values = read.response.as_slice().get(BEFORE_VALUES..);
    check(rt, values, Some(wanted.as_slice()));
    Ok(())
}

/// Checks the beginning of a response, from responseCode on.
fn check_answer<R: Abort>(
    rt: &R,
    alloc: Global,
    response: &[u8],
    digits: &str,
) -> Result<(), Fail> {
    let wanted = hex::decode(alloc, digits)?;
    let code_on = response.get(6..).unwrap_or(&[]);
    check(rt, code_on.starts_with(wanted.as_slice()), true);
    Ok(())
}

/// Performs the next step of a client, if there is one, and checks the PCRs.
fn step<K: Keep, R: Abort>(
    rt: &R,
    alloc: Global,
    stage: &mut Stage<K>,
    client: &mut Client,
    order: &Order,
) -> Result<(), Fail> {
    let Some((command, random, answer)) = client.next_step() else {
        return Ok(());
    };
    let buffer = client.buffer_of(alloc, command)?;
    let outcome = send(stage, client.connection, buffer, random)?;
    let response = outcome.response.as_slice();
    let digits = match answer {
        Answer::Begins(digits) => digits,
        Answer::OfOrder => order.answer,
    };
    check_answer(rt, alloc, response, digits)?;
    client.note(command.code, response);
    observe(rt, alloc, stage)
}

/// Performs one turn of each client.
fn round<K: Keep, R: Abort>(
    rt: &R,
    alloc: Global,
    stage: &mut Stage<K>,
    clients: &mut [Client],
    order: &Order,
) -> Result<(), Fail> {
    for number in order.clients {
        if let Some(client) = clients.get_mut(number) {
            for _ in 0..order.at_once {
                step(rt, alloc, stage, client, order)?;
            }
        }
    }
    Ok(())
}

/// Saves the state, power-cycles the device and restores the state. Checks the PCRs again.
fn resume<K: Keep, R: Abort>(rt: &R, alloc: Global, stage: &mut Stage<K>) -> Result<(), Fail> {
    send_own(rt, alloc, stage, SHUTDOWN_STATE)?;
    stage.mux.power_cycle();
    stage.history.push(Happening::PowerCycle)?;
    send_own(rt, alloc, stage, STARTUP_STATE)?;
    observe(rt, alloc, stage)
}

/// Lets three clients perform their steps in an order, with a new device.
fn play<K: Keep, R: Abort>(
    rt: &R,
    alloc: Global,
    steps: [&'static [Step]; 3],
    order: Order,
) -> Result<(), Fail> {
    let mut stage: Stage<K> = new_stage(alloc)?;
    let [first, second, third] = steps;
    let mut clients = [
        Client::new(stage.mux.open()?, first),
        Client::new(stage.mux.open()?, second),
        Client::new(stage.mux.open()?, third),
    ];
    send_own(rt, alloc, &mut stage, STARTUP_CLEAR)?;
    observe(rt, alloc, &mut stage)?;
    for _ in 0..LONGEST {
        round(rt, alloc, &mut stage, &mut clients, &order)?;
    }
    resume(rt, alloc, &mut stage)
}

/// Lets three clients perform their steps in each of the three orders.
fn play_in_all_orders<K: Keep, R: Abort>(
    rt: &R,
    alloc: Global,
    steps: [&'static [Step]; 3],
) -> Result<(), Fail> {
    play::<K, R>(rt, alloc, steps, IN_TURN)?;
    play::<K, R>(rt, alloc, steps, IN_REVERSE_TURN)?;
    play::<K, R>(rt, alloc, steps, ONE_AFTER_ANOTHER)
}

#[derive(Drop)]
struct ThreeRows;

impl Trial for ThreeRows {
    fn run<K: Keep, R: Abort>(rt: &R, alloc: Global) -> Result<(), Fail> {
        play_in_all_orders::<K, R>(rt, alloc, [EXTENDING, UNSEALING, REPLAYING])
    }
}

#[test]
fn pcrs_are_the_fold_of_what_three_clients_did(rt: HostRuntime) -> Result<(), Fail> {
    run_over_both(ThreeRows, &rt, rt.alloc())
}

#[derive(Drop)]
struct Measurements;

impl Trial for Measurements {
    fn run<K: Keep, R: Abort>(rt: &R, alloc: Global) -> Result<(), Fail> {
        play_in_all_orders::<K, R>(rt, alloc, [FIRST, SECOND, THIRD])
    }
}

#[test]
fn pcrs_are_the_fold_of_what_three_clients_measured(rt: HostRuntime) -> Result<(), Fail> {
    run_over_both(Measurements, &rt, rt.alloc())
}
