//! A device in its own heap allocation.

ghost use Rattle.std.specs.Prelude.{◌≡◌, ◌≤◌, ◌∷◌, [], IfErr, IfOk, IfSome, drop, false, length};
ghost use Rattle.std.specs.Prelude.{replicate, take, true};
ghost use Rattle.tpm_machine.specs.Follows.{After, Follows};
ghost use Rattle.tpm_machine.specs.History.{History, PowerCycled};
ghost use Rattle.tpm_image_text.specs.Image.{IsImage, device_image};
ghost use Rattle.tpm_image_text.specs.KeptText.{kept_text};
ghost use Rattle.tpm_image_text.specs.NonVolatile.{kept_of};
ghost use Rattle.tpm_image_text.specs.Opening.{Opens};
ghost use Rattle.tpm_image_text.specs.Saving.{PutsFront};
ghost use Rattle.tpm_image_text.specs.declared.version.Version.{Version};
ghost use Rattle.tpm_machine.specs.Drawn.{drawn_by};
ghost use Rattle.tpm_record.specs.IsRecord.{IsRecord};
ghost use Rattle.tpm_record.specs.Record.{Record, manufactured};
ghost use Rattle.tpm_step.specs.step.Events.{Cycled, plain_event};
ghost use Rattle.tpm_step.specs.step.Execution.{Executes};
ghost use Rattle.tpm_completion.specs.Completion.{forgotten};
ghost use Rattle.tpm_completion.specs.Execution.{CompletesIf};
ghost use Rattle.tpm_journal.specs.Replay.{Replays};
ghost use Rattle.tpm_journal.specs.State.{journal_of};
ghost use Rattle.tpm_journal_text.specs.Head.{head_text};
ghost use Rattle.tpm_journal_text.specs.declared.head.HeadKind.TheVariants.{Image};
ghost use Rattle.tpm_types_common.specs.Locality.{locality_number};
ghost use Rattle.tpmsim_library.specs.Journal.{CheckpointsIfFits, checkpoint_clock, checkpoint_head};
ghost use Rattle.tpmsim_library.specs.Journal.{BeginsIfRoom, HasFault, IsOfJournal, OpensDevice};
ghost use Rattle.tpmsim_library.specs.Journal.{Records, command_by, image_at_power};
ghost use Rattle.tpmsim_library.specs.Journal.{journal_with, seen_in};
ghost use Rattle.tpm_state_text.specs.Body.{IsWholeState};
ghost use Rattle.tpm_state_text.specs.Sizes.{state_text_size};
ghost use Rattle.tpm_state_text.specs.State.{state_text};
ghost use Rattle.tpmsim_library.specs.Restoring.{RestoresDevice};
ghost use Rattle.tpmsim_library.specs.State.{command_seen, cycle_seen, record_of, whole_state};

use crate::scratch::Scratch;
use std::alloc::Global;
use tpm_completion::execute as complete;
use tpm_image::{ImageFault, fault_of, open_into};
use tpm_journal::opening::open;
use tpm_journal::{Followed, Journal, OpenFault};
use tpm_machine::Machine;
use tpm_slots::SlotKeep;
use tpm_snapshot::{RestoreFault, completion_of, layer_of, restore_new};
use tpm_step::{Event, Outcome};
use tpm_types_common::Locality;

/// A device, the outcome of its last event, the state of its journal, and a buffer for what is
/// saved. The next event overwrites the outcome.
#[derive(Drop)]
pub struct Device {
    machine: Machine<SlotKeep>,
    outcome: Outcome,
    journal: Journal,
    scratch: Scratch,
}

/// What a call returns about a command in addition to its response.
#[repr(C)]
#[derive(Clone, Copy, PartialEq, Eq)]
pub struct Answered {
    /// The size of the response.
    pub size: usize,
    /// The number of random bytes that the command used, from the first one on.
    pub drawn: usize,
    /// The command code, or 0 if no command code was found.
    pub code: u32,
    /// The number of the check that refused the command; 0 if the command was accepted.
    pub check: u8,
}

impl Device {
    /// Creates a new device without a journal, whose secrets are these random bytes. Returns None
    /// if an allocation fails.
    pub fn manufacture(alloc: Global, random: &[u8; 256]) -> Option<Box<Device>>
        ensures state { IfSome result (λ b. record_of b.value ≡ manufactured random.now) }
        ensures history { IfSome result (λ b. Follows (record_of b.value) []) }
        ensures journal { IfSome result (λ b. b.value.journal ≡ journal_of 0 0) }
    {
        let Ok(machine) = Machine::manufacture(alloc, random) else {
            return None;
        };
        let device = Device {
            machine,
            outcome: Outcome::empty(),
            journal: Journal::begun(0, 0),
            scratch: Scratch::new(),
        };
        match Box::new(alloc, device) {
            Ok(device) => Some(device),
            Err(_) => None,
        }
    }

    /// Opens the device whose image is passed, or returns the first error. Returns NoMemory if the
    /// bytes are an image but an allocation fails.
    pub fn open(alloc: Global, image: &[u8]) -> Result<Box<Device>, ImageFault>
        ensures exact { Opens (λ b. record_of b.value) true image.now result }
        ensures history { (version : Version) (r : Record) (history : History) → IsRecord r
            → Follows r history → IsImage version (kept_of r) image.now
            → IfOk result (λ b. Follows (record_of b.value) (PowerCycled ∷ history)) }
        ensures journal { IfOk result (λ b. b.value.journal ≡ journal_of 0 0) }
    {
        let Some(mut device) = Device::manufacture(alloc, &[0; 256]) else {
            return Err(fault_of(alloc, image));
        };
        open_into(&mut device.machine, image)?;
        Ok(device)
    }

    /// Executes a command, and writes its response to the start of a buffer, whose remaining bytes
    /// are unchanged.
    pub fn execute(&mut self, event: &Event, response: &mut [u8; 4096]) -> Answered
        ensures executes { Executes false (record_of self.old) (plain_event event.now)
            (command_seen response.new result self.new) }
        ensures history { After Follows (record_of self.old) (plain_event event.now)
            (command_seen response.new result self.new) }
        ensures drawn { result.drawn
            ≡ drawn_by (record_of self.old) (plain_event event.now) result.check }
        ensures journal { self.new.journal ≡ self.old.journal }
        ensures rest { drop result.size response.new ≡ drop result.size response.old }
    {
        self.machine.execute_into(event, &mut self.outcome);
        tell(&self.outcome, self.machine.drawn(), response)
    }

    /// Executes a command with the completing layer above the device. Writes its response to the
    /// start of a buffer, whose remaining bytes are unchanged.
    pub fn complete(&mut self, event: &Event, response: &mut [u8; 4096]) -> Answered
        ensures completes { CompletesIf false true self.old.journal.layer (record_of self.old)
            (plain_event event.now) (seen_in response.new result self.new) }
        ensures journal { self.new.journal
            ≡ journal_with self.old.journal self.new.journal.layer }
        ensures rest { drop result.size response.new ≡ drop result.size response.old }
    {
        let layer = &mut self.journal.layer;
        complete(&mut self.machine, layer, true, event, &mut self.outcome);
        let drawn = self.machine.drawn();
        tell(&self.outcome, drawn, response)
    }

    /// Power-cycles the device. The layer forgets the contexts of sessions, and its sequence
    /// objects.
    pub fn cycle_power(&mut self)
        ensures executes { Executes false (record_of self.old) Cycled (cycle_seen self.new) }
        ensures history { After Follows (record_of self.old) Cycled (cycle_seen self.new) }
        ensures journal { self.new.journal ≡ journal_with self.old.journal
            (forgotten (record_of self.new) self.old.journal.layer) }
    {
        self.machine
            .execute_into(&Event::PowerCycle, &mut self.outcome);
        self.journal.layer.forget(self.machine.keep());
    }

    /// Writes the image to the start of a buffer, if it fits. Returns the image's size.
    pub fn save_into(&mut self, room: &mut [u8]) -> usize
        ensures put { PutsFront (device_image (record_of self.old)) room.old result
            room.new }
        ensures kept { self.new ≡ self.old }
    {
        self.scratch.save_into(&self.machine, room)
    }

    /// If they fit, writes the data that the device keeps without power, except its clock, to the
    /// start of a buffer. Returns the size of these data.
    pub fn kept_into(&mut self, room: &mut [u8]) -> usize
        ensures put { PutsFront (kept_text (record_of self.old)) room.old result room.new }
        ensures kept { self.new ≡ self.old }
    {
        self.scratch.kept_into(&self.machine, room)
    }

    /// Writes the state text to the start of a buffer, if it fits. Returns the size of the state
    /// text.
    pub fn snapshot_into(&mut self, buffer: &mut [u8]) -> usize
        ensures put { PutsFront (state_text (whole_state self.old)) buffer.old result buffer.new }
        ensures small { result ≤ state_text_size }
        ensures is_state { IsWholeState (whole_state self.old) }
        ensures kept { self.new ≡ self.old }
    {
        let layer = layer_of(&self.journal.layer);
        self.scratch
            .snapshot_into(&self.machine, Some(&layer), buffer)
    }

    /// Restores a device from a state text, or returns the first error in the bytes. Returns
    /// NoMemory if an allocation fails, whatever the bytes are.
    pub fn restored(alloc: Global, text: &[u8]) -> Result<Box<Device>, RestoreFault>
        ensures { RestoresDevice (λ b. b.value) text.now result }
    {
        let Some(mut device) = Device::manufacture(alloc, &[0; 256]) else {
            return Err(RestoreFault::NoMemory);
        };
        device.restore(text)?;
        Ok(device)
    }

    /// Restores a state text in a new device, whose secrets are zeros. On error, the device's state
    /// is unspecified.
    fn restore(&mut self, text: &[u8]) -> Result<(), RestoreFault>
        requires { record_of self.old ≡ manufactured (replicate 256 0) }
        ensures { RestoresDevice (λ done. self.new) text.now result }
    {
        let layer = restore_new(&mut self.machine, text)?;
        self.journal = Journal {
            sum: 0,
            time: 0,
            layer: completion_of(layer.as_ref()),
        };
        Ok(())
    }

    /// Power-cycles the device, and writes the head of its new journal to the start of a buffer.
    /// Returns the size of the head. If the buffer is too small, the call has no effect.
    pub fn begin_journal(&mut self, now_ms: u64, room: &mut [u8]) -> usize
        ensures head { PutsFront (head_text Image now_ms (image_at_power self.old)) room.old result
            room.new }
        ensures begins { BeginsIfRoom self.old now_ms (length room.old) result self.new }
    {
        self.journal
            .begin(&mut self.machine, now_ms, &mut self.outcome, room)
    }

    /// Returns the clock that a checkpoint stores: the journal's clock, or `now_ms` if no journal
    /// has been started yet.
    fn checkpoint_clock(&self, now_ms: u64) -> u64
        ensures { result ≡ checkpoint_clock self.now now_ms }
    {
        if self.journal.sum == 0 {
            now_ms
        } else {
            self.journal.time
        }
    }

    /// Restarts the device's journal with a checkpoint, and writes its head to the start of a
    /// buffer. Returns the size of the head. If the buffer is too small, the call has no effect.
    pub fn checkpoint(&mut self, now_ms: u64, buffer: &mut [u8]) -> usize
        ensures head { PutsFront (checkpoint_head self.old now_ms) buffer.old result buffer.new }
        ensures checkpoints { CheckpointsIfFits self.old now_ms (length buffer.old) result
            self.new }
    {
        let clock_ms = self.checkpoint_clock(now_ms);
        self.journal.checkpoint(&self.machine, clock_ms, buffer)
    }

    /// Opens a journal: returns its device, and reports the size of its head and entries. If the
    /// bytes cannot be opened, returns the first error. Returns None if an allocation fails.
    pub fn open_journal(
        alloc: Global,
        text: &[u8],
        taken: &mut usize,
    ) -> Option<Result<Box<Device>, OpenFault>>
        ensures { OpensDevice (λ b. b.value) text.now taken.old result taken.new }
    {
        let mut device = Device::manufacture(alloc, &[0; 256])?;
        match device.open_in_place(text) {
            Ok(size) => {
                *taken = size;
                Some(Ok(device))
            }
            Err(fault) => Some(Err(fault)),
        }
    }

    /// Opens a journal in a new device, whose secrets are zeros. Returns the size of the journal's
    /// head and entries. On error, the device's state is unspecified.
    fn open_in_place(&mut self, text: &[u8]) -> Result<usize, OpenFault>
        requires { record_of self.old ≡ manufactured (replicate 256 0) }
        ensures opens { IfOk result (λ taken. IsOfJournal text.now taken self.new) }
        ensures fault { IfErr result (λ fault. HasFault text.now fault) }
    {
        let opened = open(&mut self.machine, text, &mut self.outcome)?;
        self.journal = opened.journal;
        Ok(opened.taken)
    }

    /// Executes further entries of the device's journal.
    pub fn follow(&mut self, text: &[u8]) -> Followed
        ensures { Replays false self.old.journal (record_of self.old) text.now result
            self.new.journal (record_of self.new) }
    {
        self.journal
            .follow(&mut self.machine, text, &mut self.outcome)
    }

    /// Executes a command at the time `now_ms` of the host's clock, with or without the completing
    /// layer. Writes the response to the start of `response`, whose remaining bytes are unchanged.
    /// Writes the entry to the start of `entry`, and returns the size of the entry.
    pub fn execute_recorded(
        &mut self,
        buffer: &[u8],
        locality: Locality,
        now_ms: u64,
        completes: bool,
        random: &[u8; 256],
        response: &mut [u8; 4096],
        answered: &mut Answered,
        entry: &mut [u8; 9216],
    ) -> usize
        ensures records { Records self.old
            (command_by self.old buffer.now (locality_number locality) now_ms completes random.now)
            response.new answered.new result entry.new self.new }
        ensures rest { drop answered.new.size response.new ≡ drop answered.new.size response.old }
    {
        let size = self.journal.execute(
            &mut self.machine,
            buffer,
            locality,
            now_ms,
            completes,
            random,
            &mut self.outcome,
            entry,
        );
        *answered = tell(&self.outcome, self.machine.drawn(), response);
        size
    }
}

/// Writes a response to the start of a buffer, and returns the other data about the command.
fn tell(outcome: &Outcome, drawn: usize, response: &mut [u8; 4096]) -> Answered
    ensures front { take result.size response.new ≡ outcome.now.response.items }
    ensures rest { drop result.size response.new ≡ drop result.size response.old }
    ensures code { result.code ≡ outcome.now.row.code }
    ensures check { result.check ≡ outcome.now.row.check }
    ensures drawn { result.drawn ≡ drawn }
{
    let text = outcome.response.as_slice();
    let (front, _) = response.split_at_mut(text.len());
    front.copy_from_slice(text);
    Answered {
        size: text.len(),
        drawn,
        code: outcome.row.code,
        check: outcome.row.check,
    }
}
