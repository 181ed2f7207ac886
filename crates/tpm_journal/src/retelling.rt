//! Converts the journal of a device to a script, or to the answers that the device gave. The script
//! consists of the journal's head and, for each entry, a comment with the trace of the answer,
//! followed by the lines that execute the command. The answers consist of the same trace and the
//! response for each entry.
//!
//! [`retell`] executes the entries of a journal again, as opening a journal does, and converts
//! exactly the executed entries, one by one. It does no input or output except through the writer
//! that it takes.

ghost use Rattle.std.specs.Prelude.{◌≡◌, IfOk, OnErr, false, replicate, true};
ghost use Rattle.tpm_bytes.specs.Tap.{device_of, marks_of};
ghost use Rattle.tpm_machine.specs.State.{state_of};
ghost use Rattle.tpm_record.specs.Record.{manufactured};
ghost use Rattle.tpm_journal.specs.Retelling.{RetellsEntries, RetellsJournal};

mod comment;
mod lines;

use crate::following::{Deed, FollowFault, Followed};
use crate::journal::Journal;
use crate::opening::{OpenFault, start};
use crate::retelling::lines::{put_entry, put_head};
use std::io::Write;
use tpm_bytes::{Failed, Tap};
use tpm_journal_text::{BYTES_ROOM, ENTRY_ROOM};
use tpm_machine::Machine;
use tpm_record::Keep;
use tpm_step::Outcome;

/// What a journal is converted to.
#[derive(Clone, Copy, PartialEq, Eq)]
pub enum Telling {
    /// A script that executes the journal's commands again.
    Script,
    /// The trace and the response of each entry.
    Answers,
}

/// Why the conversion of a journal stopped before the journal's end.
#[derive(Clone, Copy, PartialEq, Eq)]
pub enum RetellFault {
    /// The journal has no head, or its head contains no device. Nothing was written.
    Open(OpenFault),
    /// The entries were converted up to this fault. The head and these entries are `taken` bytes
    /// long.
    Follow { fault: FollowFault, taken: usize },
    /// The output could not be written.
    Write,
}

/// Converts a journal: opens the device from its head in a machine just manufactured from all-zero
/// random bytes, and executes its entries again. An incomplete entry at the end was never answered,
/// and is not converted.
pub fn retell<K: Keep, W: Write>(
    form: Telling,
    machine: &mut Machine<K>,
    text: &[u8],
    outcome: &mut Outcome,
    writer: &mut Tap<W>,
) -> Result<(), RetellFault>
    requires new { state_of K.record_of machine.old ≡ manufactured (replicate 256 0) }
    requires never_refused { K.can_refuse ≡ false }
    ensures { RetellsJournal form text.now (W.contents (device_of writer.old))
        (W.contents (device_of writer.new)) (marks_of writer.new) result }
{
    let started = match start(machine, text) {
        Ok(started) => started,
        Err(fault) => return Err(RetellFault::Open(fault)),
    };
    let mut journal = started.journal;
    let (front, rest) = text.split_at(started.size);
    let Ok(()) = put_head(writer, form, front) else {
        return Err(RetellFault::Write);
    };
    let Ok(followed) = retell_entries(form, &mut journal, machine, rest, outcome, writer) else {
        return Err(RetellFault::Write);
    };
    match followed.fault {
        None => Ok(()),
        Some(fault) => Err(RetellFault::Follow {
            fault,
            taken: started.size + followed.taken,
        }),
    }
}

/// Executes the entries in input that continues a journal, and converts each entry.
fn retell_entries<K: Keep, W: Write>(
    form: Telling,
    journal: &mut Journal,
    machine: &mut Machine<K>,
    text: &[u8],
    outcome: &mut Outcome,
    writer: &mut Tap<W>,
) -> Result<Followed, Failed>
    ensures told { IfOk result (λ followed. RetellsEntries form K.can_refuse journal.old
        (state_of K.record_of machine.old) text.now (W.contents (device_of writer.old))
        (W.contents (device_of writer.new)) followed journal.new
        (state_of K.record_of machine.new)) }
    ensures failed { OnErr result ((marks_of writer.new).failed ≡ true) }
{
    let mut bytes = [0; BYTES_ROOM];
    let mut room = [0; ENTRY_ROOM];
    let mut taken = 0;
    loop {
        let (_, left) = text.split_at(taken);
        match journal.follow_one(machine, left, &mut bytes, &mut room, outcome) {
            Deed::Executed { entry, size } => {
                put_entry(writer, form, &entry, outcome, left, size)?;
                taken += size;
            }
            Deed::Otherwise { entry, size } => {
                put_entry(writer, form, &entry, outcome, left, size)?;
                return Ok(ended(taken + size, Some(FollowFault::Otherwise)));
            }
            Deed::Torn => return Ok(ended(taken, None)),
            Deed::Damaged => return Ok(ended(taken, Some(FollowFault::Damaged))),
        }
    }
}

fn ended(taken: usize, fault: Option<FollowFault>) -> Followed
    ensures { result ≡ record { taken = taken; fault = fault } }
{
    Followed { taken, fault }
}
