//! Serves one connection to its end, over any reader and writer: reads and executes buffers, and
//! writes their responses.

ghost use Rattle.tpm_types_common.specs.Limits.{buffer_limit};
ghost use Rattle.std.specs.Prelude.{◌≡◌, ◌≢◌, ◌+◌, ◌≤◌, Err, IfOk, List, None, OnOk, length, take};
ghost use Rattle.tpm_bytes.specs.Tap.{device_of, first_marks, marks_of};
ghost use Rattle.tpm_machine.specs.State.{state_of};
ghost use Rattle.tpm_machine.specs.Executions.{Execution, Leads};
ghost use Rattle.tpm_step.specs.step.Execution.{Executes};
ghost use Rattle.tpm_step.specs.step.Step.{outcome_step};
ghost use Rattle.tpm_containers.specs.Slots.{lowest_free};
ghost use Rattle.tpm_wire.specs.Serve.{Delivers, Finishes, Notes, Serves, buffers_of};
ghost use Rattle.tpm_wire.specs.Stream.{CutsTo, cut_at};
ghost use Rattle.tpm_wire.specs.Wire.{execution_of, given_event, wire_of};
ghost use Rattle.tpm_wire.specs.declared.fault.ServeFault.TheVariants.{Full, Save};

use crate::connection::Connection;
use crate::fault::{HostFault, ServeFault};
use crate::front::Front;
use crate::host::Host;
use crate::mux::{Mux, execute_front, free_place};
use crate::reading::fill;
use std::io::{Read, Write};
use tpm_bytes::Tap;
use tpm_machine::Machine;
use tpm_machine_saver::{SavesNothing, Witness};
use tpm_record::Keep;
use tpm_step::Outcome;
use tpm_types_common::BUFFER_LIMIT;

/// The maximum number of reads that return bytes, for one connection.
const READS: u32 = 1_048_576;

/// Serves one connection: reads buffers, executes each complete buffer with the host's values,
/// writes the responses, and returns their number. During the call, the connection counts towards
/// the limit in addition to the connections of the mux. The connection is closed at the end in
/// every case.
pub fn serve<K: Keep, R: Read, W: Write, H: FnMut() -> Result<Host, HostFault>>(
    mux: &mut Mux<K>,
    reader: &mut Tap<R>,
    writer: &mut Tap<W>,
    host: &mut H,
) -> Result<u64, ServeFault>
    requires callable { H.IsAlwaysCallable host.old }
    requires unread { marks_of reader.old ≡ first_marks }
    requires unwritten { marks_of writer.old ≡ first_marks }
    ensures closed { (wire_of K.record_of mux.new).streams ≡ (wire_of K.record_of mux.old).streams }
    ensures full { lowest_free (wire_of K.record_of mux.old).streams ≡ None
        → (result ≡ Err Full) × (mux.new ≡ mux.old) × (reader.new ≡ reader.old)
        × (writer.new ≡ writer.old) × (host.new ≡ host.old) }
    ensures served { lowest_free (wire_of K.record_of mux.old).streams ≢ None
        → Serves H.FnMut K.can_refuse
        (R.remaining (device_of reader.old)) (R.remaining (device_of reader.new))
        (W.contents (device_of writer.old)) (W.contents (device_of writer.new))
        (marks_of reader.new) (marks_of writer.new)
        (wire_of K.record_of mux.old).machine host.old
        result (wire_of K.record_of mux.new).machine host.new }
    ensures unsaved { result ≢ Err Save }
{
    serve_saving(mux, reader, writer, host, &mut SavesNothing)
}

/// Serves one connection like [`serve`], and notifies a witness of each command before its response
/// is written. If the witness fails, no part of that response is written.
pub fn serve_saving<K: Keep, R: Read, W: Write, H: FnMut() -> Result<Host, HostFault>, S: Witness>(
    mux: &mut Mux<K>,
    reader: &mut Tap<R>,
    writer: &mut Tap<W>,
    host: &mut H,
    witness: &mut S,
) -> Result<u64, ServeFault>
    requires callable { H.IsAlwaysCallable host.old }
    requires unread { marks_of reader.old ≡ first_marks }
    requires unwritten { marks_of writer.old ≡ first_marks }
    ensures closed { (wire_of K.record_of mux.new).streams ≡ (wire_of K.record_of mux.old).streams }
    ensures full { lowest_free (wire_of K.record_of mux.old).streams ≡ None
        → (result ≡ Err Full) × (mux.new ≡ mux.old) × (reader.new ≡ reader.old)
        × (writer.new ≡ writer.old) × (host.new ≡ host.old) × (witness.new ≡ witness.old) }
    ensures served { lowest_free (wire_of K.record_of mux.old).streams ≢ None
        → ((served : Serves H.FnMut K.can_refuse
        (R.remaining (device_of reader.old)) (R.remaining (device_of reader.new))
        (W.contents (device_of writer.old)) (W.contents (device_of writer.new))
        (marks_of reader.new) (marks_of writer.new)
        (wire_of K.record_of mux.old).machine host.old
        result (wire_of K.record_of mux.new).machine host.new)
        × Notes S.notes S.note_failed witness.old served.executions witness.new result) }
{
    if free_place(&mux.connections).is_none() {
        return Err(ServeFault::Full);
    }
    serve_connection(&mut mux.machine, reader, writer, host, witness)
}

/// Serves a connection to the machine.
fn serve_connection<K: Keep, R: Read, W: Write, H: FnMut() -> Result<Host, HostFault>, S: Witness>(
    machine: &mut Machine<K>,
    reader: &mut Tap<R>,
    writer: &mut Tap<W>,
    host: &mut H,
    witness: &mut S,
) -> Result<u64, ServeFault>
    requires callable { H.IsAlwaysCallable host.old }
    requires unread { marks_of reader.old ≡ first_marks }
    ensures { (served : Serves H.FnMut K.can_refuse
        (R.remaining (device_of reader.old)) (R.remaining (device_of reader.new))
        (W.contents (device_of writer.old)) (W.contents (device_of writer.new))
        (marks_of reader.new) (marks_of writer.new)
        (state_of K.record_of machine.old) host.old
        result (state_of K.record_of machine.new) host.new)
        × Notes S.notes S.note_failed witness.old served.executions witness.new result }
{
    let mut connection = Connection::new();
    let mut piece = [0; BUFFER_LIMIT];
    let mut outcome = Outcome::empty();
    let mut answered = 0;
    for _ in 0..READS {
        let count = match fill(reader, &mut connection, &mut piece) {
            Ok(count) => count,
            Err(_) => return Err(ServeFault::Read),
        };
        if count == 0 {
            return Ok(answered);
        }
        match answer_whole(
            machine,
            &mut connection,
            writer,
            host,
            witness,
            &mut outcome,
        ) {
            Ok(count) => answered += count,
            Err(fault) => return Err(fault),
        }
        if connection.has_ended() {
            return Ok(answered);
        }
    }
    Err(ServeFault::Read)
}

/// Executes all complete buffers of a connection, notifies a witness of each, writes their
/// responses, and returns their number. All executions reuse the memory of one outcome.
fn answer_whole<K: Keep, W: Write, H: FnMut() -> Result<Host, HostFault>, S: Witness>(
    machine: &mut Machine<K>,
    connection: &mut Connection,
    writer: &mut Tap<W>,
    host: &mut H,
    witness: &mut S,
    outcome: &mut Outcome,
) -> Result<u64, ServeFault>
    requires callable { H.IsAlwaysCallable host.old }
    requires small { length connection.old.taken ≤ buffer_limit }
    ensures callable { OnOk result (H.IsAlwaysCallable host.new) }
    ensures count { IfOk result
        (λ count. count + length connection.new.taken ≤ length connection.old.taken) }
    ensures ran { (executions : List Execution)
        × Leads K.can_refuse (state_of K.record_of machine.old) executions
        (state_of K.record_of machine.new)
        × CutsTo connection.old (buffers_of executions) connection.new
        × Finishes H.FnMut
        (W.contents (device_of writer.old)) (W.contents (device_of writer.new))
        (marks_of writer.old) (marks_of writer.new)
        host.old executions host.new connection.new result
        × Notes S.notes S.note_failed witness.old executions witness.new result }
{
    let mut answered = 0;
    while let Some(front) = connection.front() {
        let said = match host() {
            Ok(said) => said,
            Err(_) => return Err(ServeFault::Host),
        };
        match answer_front(machine, connection, front, said, writer, witness, outcome) {
            Ok(()) => answered += 1,
            Err(unsent) => return Err(unsent),
        }
    }
    Ok(answered)
}

/// Executes the next buffer of a connection, notifies a witness, and then writes the response.
fn answer_front<K: Keep, W: Write, S: Witness>(
    machine: &mut Machine<K>,
    connection: &mut Connection,
    front: Front,
    host: Host,
    writer: &mut Tap<W>,
    witness: &mut S,
    outcome: &mut Outcome,
) -> Result<(), ServeFault>
    requires { front.size ≤ length connection.old.taken }
    ensures executes { Executes K.can_refuse (state_of K.record_of machine.old)
        (given_event (take front.size connection.old.taken) host)
        (outcome_step (state_of K.record_of machine.new) outcome.new) }
    ensures after { connection.new ≡ (cut_at front.size front.last connection.old.taken).after }
    ensures delivers { Delivers S.notes S.note_failed
        (W.contents (device_of writer.old)) (W.contents (device_of writer.new))
        (marks_of writer.old) (marks_of writer.new)
        (execution_of (state_of K.record_of machine.old) (take front.size connection.old.taken)
        host (state_of K.record_of machine.new) outcome.new) witness.old result witness.new }
{
    let Ok(()) = execute_front(machine, connection, front, host, witness, outcome) else {
        return Err(ServeFault::Save);
    };
    writer
        .write_all(outcome.response.as_slice())
        .map_err(|_| ServeFault::Write)
}
