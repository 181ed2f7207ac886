#![tactic(auto)]

//! Traits that save a device while it is in use. A [`Saver`] receives the device, and a [`Witness`]
//! receives each event that the device executed. [`SavesNothing`] implements both, for a device
//! that need not be saved.
//!
//! A script that uses a device calls a saver at each change and at the end. A server calls a
//! witness with each command before it sends the response. The contract of code that uses a saver
//! says which devices the saver receives, and in which order. The saver's own contract says what
//! the saver does with these devices. The same holds for witnesses.

ghost use Rattle.std.specs.Prelude.{◌≡◌, Bool, OnErr, OnOk, false, true};
ghost use Rattle.tpm_step.specs.history.Executions.{Execution};
ghost use Rattle.tpm_machine.specs.State.{latest_drawn, state_of};
ghost use Rattle.tpm_record.specs.Record.{Record};
ghost use Rattle.tpm_machine.specs.Latest.{IsLatest};
ghost use Rattle.tpm_step.specs.step.Events.{plain_event};

use tpm_machine::Machine;
use tpm_record::Keep;
use tpm_step::{Event, Outcome};

/// The error that a saver returns if it could not save the device.
#[derive(Clone, Copy, PartialEq, Eq)]
pub struct Unsaved;

/// Saves a device while it is in use. Contracts describe each successful call as a relation between
/// the saver before the call, the record of the device, and the saver after the call.
pub trait Saver {
    /// The relation between a saver before and after it saves a device with this record, including
    /// the device's clock.
    ghost saves: { Self → Record → Self → Type 0 };

    /// The relation between a saver before and after it saves a device with this record. If only
    /// the clock has changed, the saver need not save the device.
    ghost saves_change: { Self → Record → Self → Type 0 };

    /// Whether a save has failed. Once true, this stays true.
    ghost has_failed: { Self → Bool };

    /// Saves a device after a command, if more than its clock changed. The caller sends the
    /// response afterwards.
    fn save_change<K: Keep>(&mut self, machine: &Machine<K>) -> Result<(), Unsaved>
        ensures told { OnOk result
            (saves_change self.old (state_of K.record_of machine.now) self.new) }
        ensures failed { OnErr result (has_failed self.new ≡ true) }
        ensures stays { has_failed self.old ≡ true → has_failed self.new ≡ true };

    /// Saves a device, including its clock.
    fn save<K: Keep>(&mut self, machine: &Machine<K>) -> Result<(), Unsaved>
        ensures told { OnOk result (saves self.old (state_of K.record_of machine.now) self.new) }
        ensures failed { OnErr result (has_failed self.new ≡ true) }
        ensures stays { has_failed self.old ≡ true → has_failed self.new ≡ true };
}

/// Receives each event that a device executed, before the response is sent. Contracts describe each
/// successful call as a relation between the witness before the call, the execution, and the
/// witness after the call.
pub trait Witness {
    /// The relation between a witness before and after it receives an execution.
    ghost notes: { Self → Execution → Self → Type 0 };

    /// Whether a note has failed. Once true, this stays true.
    ghost note_failed: { Self → Bool };

    /// Notes the latest event of a machine, with its outcome.
    fn note<K: Keep>(
        &mut self,
        machine: &Machine<K>,
        event: &Event,
        outcome: &Outcome,
    ) -> Result<(), Unsaved>
        ensures told { (one : Execution) → IsLatest (state_of K.record_of machine.now)
            (latest_drawn machine.now) (plain_event event.now) outcome.now one
            → OnOk result (notes self.old one self.new) }
        ensures failed { OnErr result (note_failed self.new ≡ true) }
        ensures stays { note_failed self.old ≡ true → note_failed self.new ≡ true };
}

/// A saver and witness that saves nothing, for a device whose state is not needed later.
#[derive(Clone, Copy, PartialEq, Eq)]
pub struct SavesNothing;

impl Saver for SavesNothing {
    ghost saves = { λ old _ new. new ≡ old };

    ghost saves_change = { λ old _ new. new ≡ old };

    ghost has_failed = { λ _. false };

    fn save_change<K: Keep>(&mut self, _machine: &Machine<K>) -> Result<(), Unsaved> {
        Ok(())
    }

    fn save<K: Keep>(&mut self, _machine: &Machine<K>) -> Result<(), Unsaved> {
        Ok(())
    }
}

impl Witness for SavesNothing {
    ghost notes = { λ old _ new. new ≡ old };

    ghost note_failed = { λ _. false };

    fn note<K: Keep>(
        &mut self,
        _machine: &Machine<K>,
        _event: &Event,
        _outcome: &Outcome,
    ) -> Result<(), Unsaved> {
        Ok(())
    }
}
