//! A machine with up to eight connections, which take turns as the caller decides.

ghost use Rattle.std.specs.Prelude.{◌≡◌, ◌<◌, ◌≤◌, ◌∷◌, IfSome, None, OnErr, OnOk, if◌then◌else◌, length, take, true};
ghost use Rattle.tpm_machine.specs.State.{state_of};
ghost use Rattle.tpm_step.specs.step.Execution.{Executes};
ghost use Rattle.tpm_step.specs.step.Step.{outcome_step};
ghost use Rattle.tpm_containers.specs.Slots.{lowest_free};
ghost use Rattle.tpm_record.specs.Cycle.{after_cycle};
ghost use Rattle.tpm_machine.specs.Follows.{Follows};
ghost use Rattle.tpm_machine.specs.History.{History, PowerCycled};
ghost use Rattle.tpm_wire.specs.History.{turn_history};
ghost use Rattle.tpm_wire.specs.Number.{number_of};
ghost use Rattle.tpm_wire.specs.Stream.{cut_at};
ghost use Rattle.tpm_wire.specs.Wire.{Closes, Feeds, Opens, Turns, execution_of, given_event, new_wire, wire_of};
ghost use Rattle.tpm_wire.specs.declared.turn.Turn.TheVariants.{Ended, Wants};

use crate::connection::Connection;
use crate::fault::{Full, NoConnection};
use crate::front::Front;
use crate::host::Host;
use crate::number::ConnectionNumber;
use crate::turn::Turn;
use tpm_machine::Machine;
use tpm_machine_saver::{SavesNothing, Unsaved, Witness};
use tpm_record::Keep;
use tpm_step::{Event, Outcome};

/// The maximum number of open connections.
const CONNECTION_LIMIT: usize = 8;

/// A machine with up to eight connections. Only the connections' turns and power cycles change
/// the machine.
#[derive(Drop)]
pub struct Mux<K: Keep> {
    pub(crate) machine: Machine<K>,
    pub(crate) connections: [Option<Connection>; CONNECTION_LIMIT],
}

impl<K: Keep> Mux<K> {
    /// Creates a `Mux` for a machine, without connections.
    pub fn new(machine: Machine<K>) -> Mux<K>
        ensures { wire_of K.record_of result ≡ new_wire (state_of K.record_of machine) }
    {
        Mux {
            machine,
            connections: [None, None, None, None, None, None, None, None],
        }
    }

    /// Returns the machine, and drops the connections.
    pub fn into_machine(self) -> Machine<K>
        ensures { state_of K.record_of result ≡ (wire_of K.record_of self).machine }
    {
        self.machine
    }

    /// Returns the machine, so that the caller can save it.
    pub fn machine(&self) -> &Machine<K>
        ensures { state_of K.record_of result.now ≡ (wire_of K.record_of self.now).machine }
    {
        &self.machine
    }

    /// Opens a new connection, which has received no bytes, with the lowest free number.
    pub fn open(&mut self) -> Result<ConnectionNumber, Full>
        ensures { Opens (wire_of K.record_of self.old) result (wire_of K.record_of self.new) }
    {
        let Some(place) = free_place(&self.connections) else {
            return Err(Full);
        };
        self.connections[place] = Some(Connection::new());
        Ok(ConnectionNumber::of(place))
    }

    /// Appends as many bytes of `piece` as fit into the connection, and returns their number.
    pub fn feed(
        &mut self,
        connection: ConnectionNumber,
        piece: &[u8],
    ) -> Result<usize, NoConnection>
        ensures { Feeds (wire_of K.record_of self.old) (number_of connection) piece.now
            result (wire_of K.record_of self.new) }
    {
        match &mut self.connections[connection.place()] {
            Some(connection) => Ok(connection.feed(piece)),
            None => Err(NoConnection),
        }
    }

    /// Executes the connection's next buffer with the host's values, if the buffer is complete.
    /// Executes no other buffer.
    pub fn turn(&mut self, connection: ConnectionNumber, host: Host) -> Result<Turn, NoConnection>
        ensures turns { Turns K.can_refuse (wire_of K.record_of self.old) (number_of connection)
            host result (wire_of K.record_of self.new) }

        // If the machine followed a history, it still follows that history. If a buffer was
        // executed and its command was accepted, the command is added to the history.
        ensures history { (history : History)
            → Follows (wire_of K.record_of self.old).machine history
            → Follows (wire_of K.record_of self.new).machine (turn_history
            (wire_of K.record_of self.old) (number_of connection) host result history) }
    {
        self.take_turn(connection, host)
    }

    /// Like [`Mux::turn`], but with a contract that does not mention histories.
    #[inline(always)]
    fn take_turn(&mut self, connection: ConnectionNumber, host: Host) -> Result<Turn, NoConnection>
        ensures { Turns K.can_refuse (wire_of K.record_of self.old) (number_of connection) host
            result (wire_of K.record_of self.new) }
    {
        let place = connection.place();
        let front = match &self.connections[place] {
            None => return Err(NoConnection),
            Some(connection) => match connection.front() {
                None => return Ok(waiting(connection)),
                Some(front) => front,
            },
        };
        match &mut self.connections[place] {
            None => Err(NoConnection),
            Some(connection) => {
                let mut outcome = Outcome::empty();
                let machine = &mut self.machine;
                let _ = execute_front(
                    machine,
                    connection,
                    front,
                    host,
                    &mut SavesNothing,
                    &mut outcome,
                );
                Ok(Turn::Answer(outcome))
            }
        }
    }

    /// Power-cycles the machine; the connections keep their bytes.
    pub fn power_cycle(&mut self)
        ensures cycled { wire_of K.record_of self.new ≡ record (wire_of K.record_of self.old)
            { machine = after_cycle (wire_of K.record_of self.old).machine } }

        // If the machine followed a history, it follows that history with one more power cycle.
        ensures history { (history : History)
            → Follows (wire_of K.record_of self.old).machine history
            → Follows (wire_of K.record_of self.new).machine (PowerCycled ∷ history) }
    {
        let _ = self.machine.execute(&Event::PowerCycle);
    }

    /// Closes a connection; bytes that are not yet executed are lost.
    pub fn close(&mut self, connection: ConnectionNumber) -> Result<(), NoConnection>
        ensures { Closes (wire_of K.record_of self.old) (number_of connection)
            result (wire_of K.record_of self.new) }
    {
        let place = connection.place();
        if self.connections[place].is_none() {
            return Err(NoConnection);
        }
        self.connections[place] = None;
        Ok(())
    }
}

/// The lowest number that no open connection uses.
pub(crate) fn free_place(places: &[Option<Connection>]) -> Option<usize>
    ensures value { result ≡ lowest_free places.now }
    ensures within { IfSome result (λ place. place < length places.now) }
{
    places.iter().position(|place| place.is_none())
}

/// Returns the result of a turn if there is no complete buffer.
fn waiting(connection: &Connection) -> Turn
    ensures { result ≡ (if connection.now.ended then Ended else Wants) }
{
    if connection.has_ended() {
        Turn::Ended
    } else {
        Turn::Wants
    }
}

/// Executes the next buffer of a connection without copying it, notifies a witness, and removes the
/// buffer.
pub(crate) fn execute_front<K: Keep, S: Witness>(
    machine: &mut Machine<K>,
    connection: &mut Connection,
    front: Front,
    host: Host,
    witness: &mut S,
    outcome: &mut Outcome,
) -> Result<(), Unsaved>
    requires { front.size ≤ length connection.old.taken }
    ensures executes { Executes K.can_refuse (state_of K.record_of machine.old)
        (given_event (take front.size connection.old.taken) host)
        (outcome_step (state_of K.record_of machine.new) outcome.new) }
    ensures after { connection.new ≡ (cut_at front.size front.last connection.old.taken).after }
    ensures told { OnOk result (S.notes witness.old
        (execution_of (state_of K.record_of machine.old) (take front.size connection.old.taken)
        host (state_of K.record_of machine.new) outcome.new) witness.new) }
    ensures failed { OnErr result (S.note_failed witness.new ≡ true) }
{
    let buffer = &connection.bytes()[..front.size];
    let event = Event::of_command(buffer, host.locality, host.elapsed_ms, host.random);
    machine.execute_into(&event, outcome);
    let noted = witness.note(machine, &event, outcome);
    connection.pass(front);
    noted
}
