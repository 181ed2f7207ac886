//! Executes the entries of a journal again, on a device with its completing layer.

ghost use Rattle.std.specs.Prelude.{◌≡◌, ◌≤◌, length};
ghost use Rattle.tpm_completion.specs.Execution.{seen_of};
ghost use Rattle.tpm_journal.specs.Command.{IsPerformed, padded};
ghost use Rattle.tpm_journal.specs.Replay.{Does, Replays};
ghost use Rattle.tpm_journal_text.specs.Entry.{IsEntry, plain_entry};
ghost use Rattle.tpm_machine.specs.State.{state_of};

use crate::journal::Journal;
use tpm_completion::{Completion, execute};
use tpm_journal_text::{BYTES_ROOM, ENTRY_ROOM, Entry, Next, read_entry, sum_of};
use tpm_machine::Machine;
use tpm_record::Keep;
use tpm_step::{Event, Outcome};
use tpm_types_common::Locality;

/// The reasons why the execution of entries stopped early.
#[derive(Clone, Copy, PartialEq, Eq)]
pub enum FollowFault {
    /// The input continues neither with an entry nor with a part of an entry that a crash could
    /// leave.
    Damaged,
    /// The device's answer to the last entry differs from the answer that the entry records.
    Otherwise,
}

/// The result of executing entries.
#[derive(Clone, Copy, PartialEq, Eq)]
pub struct Followed {
    /// The total size of the executed entries, in bytes.
    pub taken: usize,
    pub fault: Option<FollowFault>,
}

/// The result of processing the beginning of the input.
#[derive(Clone, Copy)]
pub(crate) enum Deed<'a> {
    /// An entry of `size` bytes was executed, and the answer matches the recorded answer.
    Executed { entry: Entry<'a>, size: usize },
    /// An entry of `size` bytes was executed, but the answer differs from the recorded answer.
    Otherwise { entry: Entry<'a>, size: usize },
    /// The input is torn: it is shorter than an entry, not counting zeros at its end.
    Torn,
    /// The input is damaged.
    Damaged,
}

/// Executes the command of an entry again, with the completing layer if the entry says so. No other
/// function executes entries.
pub fn perform<K: Keep>(
    machine: &mut Machine<K>,
    layer: &mut Completion,
    entry: &Entry,
    outcome: &mut Outcome,
)
    requires { IsEntry (plain_entry entry.now) }
    ensures { IsPerformed K.can_refuse layer.old (state_of K.record_of machine.old)
        (plain_entry entry.now) (seen_of K.record_of machine.new layer.new outcome.new) }
{
    let Some(locality) = Locality::new(entry.locality) else {
        return;
    };
    let random = padded(entry.drawn);
    let event = Event::of_command(entry.buffer, locality, entry.elapsed_ms, random);
    execute(machine, layer, entry.completes, &event, outcome);
}

/// 256 random bytes: the bytes that a command drew, followed by zeros.
fn padded(drawn: &[u8]) -> [u8; 256]
    requires { length drawn.now ≤ 256 }
    ensures { result ≡ padded drawn.now }
{
    let mut random = [0; 256];
    let (front, _) = random.split_at_mut(drawn.len());
    front.copy_from_slice(drawn);
    random
}

impl Journal {
    /// Executes the entry at the beginning of the input. Decodes the entry into `bytes`, and
    /// encodes it again in `room` to compare it with the input.
    pub(crate) fn follow_one<'a, K: Keep>(
        &mut self,
        machine: &mut Machine<K>,
        text: &[u8],
        bytes: &'a mut [u8; BYTES_ROOM],
        room: &mut [u8; ENTRY_ROOM],
        outcome: &mut Outcome,
    ) -> Deed<'a>
        ensures { Does K.can_refuse self.old (state_of K.record_of machine.old) text.now result
            self.new (seen_of K.record_of machine.new self.new.layer outcome.new) }
    {
        let (entry, size, sum) = match read_entry(self.sum, text, bytes, room) {
            Next::Torn => return Deed::Torn,
            Next::Damaged => return Deed::Damaged,
            Next::Whole { entry, size, sum } => (entry, size, sum),
        };
        perform(machine, &mut self.layer, &entry, outcome);
        self.sum = sum;
        self.time = self.time.saturating_add(u64::from(entry.elapsed_ms));
        if sum_of(outcome.response.as_slice()) == entry.answered {
            Deed::Executed { entry, size }
        } else {
            Deed::Otherwise { entry, size }
        }
    }

    /// Executes the entries in input that continues this journal.
    pub fn follow<K: Keep>(
        &mut self,
        machine: &mut Machine<K>,
        text: &[u8],
        outcome: &mut Outcome,
    ) -> Followed
        ensures { Replays K.can_refuse self.old (state_of K.record_of machine.old) text.now result
            self.new (state_of K.record_of machine.new) }
    {
        let mut bytes = [0; BYTES_ROOM];
        let mut room = [0; ENTRY_ROOM];
        let mut taken = 0;
        loop {
            let (_, left) = text.split_at(taken);
            match self.follow_one(machine, left, &mut bytes, &mut room, outcome) {
                Deed::Executed { size, .. } => taken += size,
                Deed::Otherwise { size, .. } => {
                    return Followed {
                        taken: taken + size,
                        fault: Some(FollowFault::Otherwise),
                    };
                }
                Deed::Torn => return Followed { taken, fault: None },
                Deed::Damaged => {
                    return Followed {
                        taken,
                        fault: Some(FollowFault::Damaged),
                    };
                }
            }
        }
    }
}
