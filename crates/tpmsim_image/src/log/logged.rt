//! A witness that keeps an optional log, and then notifies another witness.

ghost use Rattle.std.specs.Prelude.{◌≡◌, OnErr, OnOk, true};
ghost use Rattle.tpm_machine.specs.Executions.{Execution};
ghost use Rattle.tpmsim_image.specs.log.Log.{AddsWhereKept, log_failed};
ghost use Rattle.tpm_machine.specs.State.{latest_drawn, state_of};
ghost use Rattle.tpm_machine.specs.Latest.{IsLatest};
ghost use Rattle.tpm_step.specs.step.Events.{plain_event};

use crate::log::Log;
use std::io::Write;
use tpm_machine::Machine;
use tpm_machine_saver::{Unsaved, Witness};
use tpm_record::Keep;
use tpm_step::{Event, Outcome};

/// An optional log, and another witness, which is notified of each command after the log.
#[derive(Drop)]
pub struct Logged<W, S> {
    pub log: Option<Log<W>>,
    pub next: S,
}

impl<W: Write, S: Witness> Witness for Logged<W, S> {
    ghost use Rattle.std.specs.Prelude.{◌||◌};

    ghost notes = { λ old one new. AddsWhereKept W.contents old.log one new.log
        × S.notes old.next one new.next };

    ghost note_failed = { λ logged. log_failed logged.log || S.note_failed logged.next };

    fn note<K: Keep>(
        &mut self,
        machine: &Machine<K>,
        event: &Event,
        outcome: &Outcome,
    ) -> Result<(), Unsaved> {
        match note_where_kept(&mut self.log, machine, event, outcome) {
            Ok(()) => self.next.note(machine, event, outcome),
            Err(unsaved) => Err(unsaved),
        }
    }
}

/// Adds an event to the log, if there is a log.
fn note_where_kept<W: Write, K: Keep>(
    log: &mut Option<Log<W>>,
    machine: &Machine<K>,
    event: &Event,
    outcome: &Outcome,
) -> Result<(), Unsaved>
    ensures told { (one : Execution) → IsLatest (state_of K.record_of machine.now)
        (latest_drawn machine.now) (plain_event event.now) outcome.now one
        → OnOk result (AddsWhereKept W.contents log.old one log.new) }
    ensures failed { OnErr result (log_failed log.new ≡ true) }
    ensures stays { log_failed log.old ≡ true → log_failed log.new ≡ true }
{
    match log {
        Some(log) => log.note(machine, event, outcome),
        None => Ok(()),
    }
}
