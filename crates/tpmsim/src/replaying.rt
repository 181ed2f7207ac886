//! Executes a journal or a log again, and prints the responses.

use crate::fault::{Fault, JournalFault};
use std::fs;
use tpm_bytes::Tap;
use tpm_journal::{FollowFault, OpenFault, RetellFault, Telling, retell};
use tpm_machine::Machine;
use tpm_slots::SlotKeep;
use tpm_state_text::{RestoreFault, StateFault};
use tpm_step::Outcome;
use tpmsim_image::Subject;

/// The number of lines in an entry.
const ENTRY_LINES: u64 = 5;

/// Prints the trace and the response of each command that a journal recorded. Each response must
/// equal the recorded response; otherwise the fault contains the line number of the entry in the
/// journal.
pub fn replay_journal(rt: &HostRuntime, path: &str) -> Result<(), Fault> {
    let text = Fault::file(Subject::Journal).unless(fs::read(rt, path))?;
    let mut machine: Machine<SlotKeep> = Machine::manufacture(rt.alloc(), &[0; 256])?;
    let mut outcome = Outcome::empty();
    let output = &mut Tap::new(rt.stdout());
    retell(
        Telling::Answers,
        &mut machine,
        text.as_slice(),
        &mut outcome,
        output,
    )
    .map_err(|fault| fault_of(fault, text.as_slice()))
}

/// Returns the fault of a journal that could not be executed to its end.
fn fault_of(fault: RetellFault, text: &[u8]) -> Fault {
    match fault {
        RetellFault::Open(OpenFault::Image(_)) => Fault::Journal(JournalFault::HoldsNoImage),
        RetellFault::Open(OpenFault::State(RestoreFault::Text(StateFault::Earlier))) => {
            Fault::Journal(JournalFault::HoldsEarlierState)
        }
        RetellFault::Open(OpenFault::State(_)) => Fault::Journal(JournalFault::HoldsNoState),
        RetellFault::Open(_) => Fault::Journal(JournalFault::IsNoJournal),
        RetellFault::Follow { fault, taken } => {
            let next = line_at(text, taken);
            match fault {
                FollowFault::Damaged => Fault::Journal(JournalFault::IsDamaged(next)),
                FollowFault::Otherwise => {
                    let line = next.saturating_sub(ENTRY_LINES);
                    Fault::Journal(JournalFault::WasAnsweredOtherwise(line))
                }
            }
        }
        RetellFault::Write => Fault::file(Subject::Output),
    }
}

/// Returns the number, counted from 1, of the line that begins at offset `place`.
fn line_at(text: &[u8], place: usize) -> u64 {
    let mut line: u64 = 1;
    for byte in text.get(..place).unwrap_or(text) {
        if *byte == b'\n' {
            line = line.saturating_add(1);
        }
    }
    line
}
