//! The parts of a kept device ([`Parts`]), and the calls that create a device, open it, execute its
//! commands and write its head.

ghost use Rattle.std.specs.Prelude.{◌≡◌, ◌≤◌, ◌++◌, IfOk, OnOk, false, length, option_copied, replicate, take, true};
ghost use Rattle.std.specs.Option.{MatchOption};
ghost use Rattle.tpm_journal.specs.Command.{Executed, entry_of};
ghost use Rattle.tpm_completion.specs.Execution.{seen_of};
ghost use Rattle.tpm_journal.specs.Opening.{OpensJournal};
ghost use Rattle.tpm_journal.specs.Replay.{Replays};
ghost use Rattle.tpm_journal.specs.State.{journal_after};
ghost use Rattle.tpm_keeping.specs.Journal.{first_spot, next_spot};
ghost use Rattle.tpm_kept_journal.specs.DeviceJournal.{device_journal};
ghost use Rattle.tpm_kept_journal.specs.Effect.{command_on, cycled_at};
ghost use Rattle.tpm_kept_journal.specs.Opening.{head_of, head_sum_of, opened_text, spot_after_walk};
ghost use Rattle.tpm_kept_journal.specs.Salvage.{salvaged_text};
ghost use Rattle.tpm_kept_journal.specs.Seed.{begun_in, layer_restored, state_made, state_opened, state_restored};
ghost use Rattle.tpm_kept_journal.specs.State.{IsDeviceState, bytes_of, whole_of};
ghost use Rattle.tpm_kept_device.specs.View.{BeginsAs, answer_in, plain_seed, spot_in, state_of};
ghost use Rattle.tpm_image_text.specs.Image.{image_of};
ghost use Rattle.tpm_bytes.specs.Reading.{AreBytes};
ghost use Rattle.tpm_journal_text.specs.Head.{content_limit, current_kind, head_sum, head_text};
ghost use Rattle.tpm_machine.specs.State.{latest_drawn};
ghost use Rattle.tpm_record.specs.Record.{manufactured};
ghost use Rattle.tpm_slots.specs.SlotRecord.{slot_record};
ghost use Rattle.tpm_state_text.specs.State.{state_of_text, state_text};

use crate::command::{Command, read_command};
use crate::front::whole_size;
use crate::seed::{Seed, read_seed};
use std::alloc::Global;
use tpm_completion::{Completion, execute as complete};
use tpm_image::open_into;
use tpm_journal::Journal;
use tpm_journal::opening::open;
use tpm_journal_text::{ENTRY_ROOM, HeadKind, head_size, write_head};
use tpm_keeping::device::Exhausted;
use tpm_machine::Machine;
use tpm_slots::SlotKeep;
use tpm_snapshot::{Layer, completion_of, layer_of, restore_new, snapshot_into};
use tpm_step::{Event, Outcome};

/// A device, its journal with the completing layer, the outcome of its last event (which the next
/// event overwrites), and buffers for random bytes and for an entry.
#[derive(Drop)]
pub struct Parts {
    machine: Machine<SlotKeep>,
    journal: Journal,
    outcome: Outcome,
    random: [u8; 256],
    entry: [u8; ENTRY_ROOM],
}

impl Parts {
    /// Creates a new device, whose secrets are these random bytes.
    fn manufacture(alloc: Global, random: &[u8; 256]) -> Result<Box<Parts>, Exhausted>
        ensures { IfOk result (λ b. slot_record b.value.machine.keep ≡ manufactured random.now) }
    {
        let Ok(machine) = Machine::manufacture(alloc, random) else {
            return Err(Exhausted);
        };
        let parts = Parts {
            machine,
            journal: Journal::begun(0, 0),
            outcome: Outcome::empty(),
            random: [0; 256],
            entry: [0; ENTRY_ROOM],
        };
        match Box::new(alloc, parts) {
            Ok(parts) => Ok(parts),
            Err(_) => Err(Exhausted),
        }
    }

    /// Begins a new journal for the device, with this time and this completing layer.
    fn begin_journal(&mut self, now_ms: u64, layer: Completion)
        ensures { state_of self.new ≡ record (state_of self.old) { time = now_ms; layer = layer } }
    {
        self.journal = Journal {
            sum: 0,
            time: now_ms,
            layer,
        };
    }

    /// Creates a device from a seed. Returns None if the bytes do not encode a valid seed.
    #[tactic(auto, unfolding(tpm_kept_journal::specs::Seed::begun_of))]
    pub fn begin(alloc: Global, seed: &[u8]) -> Result<Option<Box<Parts>>, Exhausted>
        ensures { IfOk result (BeginsAs (λ b. b.value) (begun_in seed.now)) }
    {
        let Ok(seed) = read_seed(seed) else {
            return Ok(None);
        };
        match seed.kind {
            0 => Parts::make(alloc, &seed),
            1 => Parts::power_on(alloc, &seed),
            2 => Parts::restore(alloc, &seed),
            _ => Ok(None),
        }
    }

    /// Creates a new device, whose secrets are the 256 random bytes of a seed.
    fn make(alloc: Global, seed: &Seed) -> Result<Option<Box<Parts>>, Exhausted>
        ensures { IfOk result (BeginsAs (λ b. b.value) (state_made (plain_seed seed.now))) }
    {
        if seed.content.len() != 256 {
            return Ok(None);
        }
        let mut random = [0; 256];
        random.copy_from_slice(seed.content);
        let mut parts = Parts::manufacture(alloc, &random)?;
        parts.begin_journal(seed.now_ms, Completion::of_start(seed.start));
        Ok(Some(parts))
    }

    /// Creates the device that a seed's image contains, after a power cycle.
    fn power_on(alloc: Global, seed: &Seed) -> Result<Option<Box<Parts>>, Exhausted>
        ensures { IfOk result (BeginsAs (λ b. b.value)
            (state_opened (plain_seed seed.now) (image_of seed.now.content.now))) }
    {
        let mut parts = Parts::manufacture(alloc, &[0; 256])?;
        let Ok(()) = open_into(&mut parts.machine, seed.content) else {
            return Ok(None);
        };
        parts.begin_journal(seed.now_ms, Completion::of_start(seed.start));
        Ok(Some(parts))
    }

    /// Creates the device that a seed's state text contains. The completing layer gets the seed's
    /// start number.
    fn restore(alloc: Global, seed: &Seed) -> Result<Option<Box<Parts>>, Exhausted>
        ensures { IfOk result (BeginsAs (λ b. b.value)
            (state_restored (plain_seed seed.now) (state_of_text seed.now.content.now))) }
    {
        let mut parts = Parts::manufacture(alloc, &[0; 256])?;
        let Ok(layer) = restore_new(&mut parts.machine, seed.content) else {
            return Ok(None);
        };
        parts.begin_journal(seed.now_ms, layer_restored(seed.start, layer.as_ref()));
        Ok(Some(parts))
    }

    /// Proves that the fields of the device's state fit their integer types. The call has no
    /// effect.
    pub fn read_widths(&self)
        ensures { IsDeviceState (state_of self.now) }
    {
        let _keep = self.machine.keep();
        let _layer = layer_of(&self.journal.layer);
        let _time = self.journal.time;
    }

    /// Opens a device from a journal. Returns None if the bytes are not a journal.
    pub fn open(alloc: Global, text: &[u8]) -> Result<Option<(Box<Parts>, usize)>, Exhausted>
        ensures { IfOk result (λ opened. MatchOption opened (opened_text text.now ≡ None)
            (λ found. opened_text text.now ≡ Some (spot_in found.0.value, found.1))) }
    {
        let mut parts = Parts::manufacture(alloc, &[0; 256])?;
        match parts.open_in_place(text) {
            Some(taken) => Ok(Some((parts, taken))),
            None => Ok(None),
        }
    }

    /// Opens a device from the head and the complete entries at the start of a journal, and ignores
    /// all bytes after them. Returns None if the head and these entries do not open as a journal.
    #[tactic(auto, unfolding(tpm_kept_journal::specs::Salvage::salvaged_text))]
    pub fn salvage(alloc: Global, text: &[u8]) -> Result<Option<(Box<Parts>, usize)>, Exhausted>
        ensures { IfOk result (λ opened. MatchOption opened (salvaged_text text.now ≡ None)
            (λ found. salvaged_text text.now ≡ Some (spot_in found.0.value, found.1))) }
    {
        let (front, _) = text.split_at(whole_size(text));
        Parts::open(alloc, front)
    }

    /// Opens a device from a journal in place: turns this new device, whose secrets are zeros, into
    /// the device that the journal contains. If the call returns None, the device's state is
    /// unspecified.
    fn open_in_place(&mut self, text: &[u8]) -> Option<usize>
        requires { slot_record self.old.machine.keep ≡ manufactured (replicate 256 0) }
        ensures { MatchOption result (opened_text text.now ≡ None)
            (λ taken. opened_text text.now ≡ Some (spot_in self.new, taken)) }
    {
        let Ok(opened) = open(&mut self.machine, text, &mut self.outcome) else {
            return None;
        };
        self.journal = opened.journal;
        Some(opened.taken)
    }

    /// Executes entries. Returns None if they do not continue the device's journal.
    pub fn follow(&mut self, text: &[u8]) -> Option<usize>
        ensures { MatchOption result (spot_after_walk (spot_in self.old) 0 text.now ≡ None)
            (λ taken. spot_after_walk (spot_in self.old) 0 text.now
            ≡ Some (spot_in self.new, taken)) }
    {
        self.read_widths();
        let followed = self
            .journal
            .follow(&mut self.machine, text, &mut self.outcome);
        match followed.fault {
            None => Some(followed.taken),
            Some(_) => None,
        }
    }

    /// Executes a command that gets an entry in the journal, and appends the entry and the
    /// response.
    pub fn execute(
        &mut self,
        command: &[u8],
        out: &mut Vec<u8>,
        response: &mut Vec<u8>,
    ) -> Result<(), Exhausted>
        requires { device_journal.is_entered command.now ≡ true }
        ensures spot { OnOk result (spot_in self.new
            ≡ next_spot device_journal (spot_in self.old) command.now) }
        ensures entry { OnOk result (out.new.items
            ≡ out.old.items ++ device_journal.entry (spot_in self.old) command.now) }
        ensures response { OnOk result (response.new.items
            ≡ response.old.items ++ device_journal.response (spot_in self.old).state command.now) }
    {
        let size = self.perform(command);
        let (entry, _) = self.entry.split_at(size);
        let Ok(()) = out.extend_from_slice(entry) else {
            return Err(Exhausted);
        };
        self.put_answer(response)
    }

    /// Appends the report on the latest command, and the response to this command.
    fn put_answer(&self, out: &mut Vec<u8>) -> Result<(), Exhausted>
        requires { latest_drawn self.now.machine ≤ 256 }
        ensures { OnOk result (out.new.items ≡ out.old.items ++ answer_in self.now) }
    {
        let row = self.outcome.row;
        let drawn = self.machine.drawn() as u16;
        match (
            out.extend_from_slice(&row.code.to_be_bytes()),
            out.push(row.check),
            out.extend_from_slice(&drawn.to_be_bytes()),
            out.extend_from_slice(self.outcome.response.as_slice()),
        ) {
            (Ok(()), Ok(()), Ok(()), Ok(())) => Ok(()),
            _ => Err(Exhausted),
        }
    }

    /// Executes a command that gets an entry in the journal, writes the entry to the buffer
    /// `entry`, and returns the entry's size. The response is in `outcome`. The report is in
    /// `outcome` and in the machine.
    fn perform(&mut self, command: &[u8]) -> usize
        requires { device_journal.is_entered command.now ≡ true }
        ensures spot { spot_in self.new ≡ next_spot device_journal (spot_in self.old) command.now }
        ensures entry { take result self.new.entry
            ≡ device_journal.entry (spot_in self.old) command.now }
        ensures fits { result ≤ length self.new.entry }
        ensures response { answer_in self.new
            ≡ device_journal.response (spot_in self.old).state command.now }
        ensures few { latest_drawn self.new.machine ≤ 256 }
    {
        self.read_widths();
        let Ok(
            Command::Execute {
                moment,
                locality,
                completes,
                random,
                buffer,
            },
        ) = read_command(command)
        else {
            return 0;
        };
        let now_ms = moment.clock(self.journal.time);
        self.random.copy_from_slice(random);
        self.journal.execute(
            &mut self.machine,
            buffer,
            locality,
            now_ms,
            completes,
            &self.random,
            &mut self.outcome,
            &mut self.entry,
        )
    }

    /// Power-cycles the device. The completing layer keeps its start number, and forgets its
    /// sequence objects and the contexts of sessions.
    #[tactic(auto, unfolding(tpm_completion::specs::Completed::device_effect))]
    pub fn cycle_power(&mut self, now_ms: u64)
        ensures { state_of self.new ≡ cycled_at (state_of self.old) now_ms }
    {
        let mut layer = self.journal.layer;
        let outcome = &mut self.outcome;
        complete(
            &mut self.machine,
            &mut layer,
            true,
            &Event::PowerCycle,
            outcome,
        );
        self.begin_journal(now_ms, layer);
    }

    /// Appends the head with the device's state, and returns the head's checksum.
    pub fn put_head(&self, alloc: Global, out: &mut Vec<u8>) -> Result<u64, Exhausted>
        ensures head { OnOk result (out.new.items
            ≡ out.old.items ++ head_of (bytes_of (state_of self.now))) }
        ensures sum { IfOk result (λ sum. sum ≡ head_sum_of (bytes_of (state_of self.now))) }
    {
        self.read_widths();
        let Ok(text) = self.state_text(alloc) else {
            return Err(Exhausted);
        };
        put_head_of(alloc, self.journal.time, &text, out)
    }

    /// Returns the state text of the device and its completing layer.
    fn state_text(&self, alloc: Global) -> Result<Vec<u8>, Exhausted>
        ensures { IfOk result (λ text. text.items ≡ state_text (whole_of (state_of self.now))) }
    {
        let layer = layer_of(&self.journal.layer);
        let size = snapshot_into(&self.machine, Some(&layer), &mut []);
        let Ok(mut text) = vec![in alloc; 0u8; size] else {
            return Err(Exhausted);
        };
        snapshot_into(&self.machine, Some(&layer), &mut text);
        Ok(text)
    }

    /// Continues the journal after a head with this checksum: the next entry is chained to this
    /// head.
    pub fn chain_to(&mut self, sum: u64)
        ensures { spot_in self.new ≡ record (spot_in self.old) { chain = sum } }
    {
        self.journal.sum = sum;
    }
}

/// Appends the head with this clock and this state text, and returns the head's checksum.
fn put_head_of(
    alloc: Global,
    clock_ms: u64,
    text: &[u8],
    out: &mut Vec<u8>,
) -> Result<u64, Exhausted>
    requires { length text.now ≤ content_limit current_kind }
    ensures head { OnOk result (out.new.items
        ≡ out.old.items ++ head_text current_kind clock_ms text.now) }
    ensures sum { IfOk result (λ sum. sum ≡ head_sum clock_ms text.now) }
    ensures bytes { AreBytes text.now }
{
    let Ok(mut head) = vec![in alloc; 0u8; head_size(text.len())] else {
        return Err(Exhausted);
    };
    let sum = write_head(HeadKind::current(), clock_ms, text, &[], &mut head);
    match out.extend_from_slice(&head) {
        Ok(()) => Ok(sum),
        Err(_) => Err(Exhausted),
    }
}

/// Returns the completing layer of a restored device: the stored layer with this start number, or a
/// new layer if none is stored.
fn layer_restored(start: u64, layer: Option<&Layer>) -> Completion
    ensures { result ≡ layer_restored start (option_copied layer.entry) }
{
    match layer {
        Some(_) => {
            let mut restored = completion_of(layer);
            restored.start = start;
            restored
        }
        None => Completion::of_start(start),
    }
}
