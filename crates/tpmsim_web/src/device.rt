//! A device in the page's memory.

ghost use Rattle.std.specs.Prelude.{◌≡◌, ◌∷◌, ◌≤◌, [], IfErr, IfOk, OnErr, OnOk, drop, false, length};
ghost use Rattle.std.specs.Prelude.{take, true};
ghost use Rattle.tpm_journal.specs.State.{journal_of};
ghost use Rattle.tpm_completion.specs.Completion.{forgotten};
ghost use Rattle.tpm_completion.specs.Execution.{CompletesIf};
ghost use Rattle.tpm_image_text.specs.Image.{IsImage, device_image};
ghost use Rattle.tpm_image_text.specs.KeptText.{kept_text};
ghost use Rattle.tpm_image_text.specs.NonVolatile.{kept_of};
ghost use Rattle.tpm_image_text.specs.Opening.{Opens};
ghost use Rattle.tpm_image_text.specs.Saving.{PutsFront};
ghost use Rattle.tpm_image_text.specs.declared.version.Version.{Version};
ghost use Rattle.tpm_machine.specs.Drawn.{drawn_by};
ghost use Rattle.tpm_machine.specs.Follows.{After, Follows};
ghost use Rattle.tpm_machine.specs.History.{History, PowerCycled};
ghost use Rattle.tpm_record.specs.IsRecord.{IsRecord};
ghost use Rattle.tpm_record.specs.Record.{Record, manufactured};
ghost use Rattle.tpm_slots.specs.SlotRecord.{slot_record};
ghost use Rattle.tpm_state_text.specs.Body.{IsWholeState};
ghost use Rattle.tpm_state_text.specs.Sizes.{state_text_size};
ghost use Rattle.tpm_state_text.specs.State.{state_text};
ghost use Rattle.tpm_step.specs.step.Events.{Cycled, plain_event};
ghost use Rattle.tpm_step.specs.step.Execution.{Executes};
ghost use Rattle.tpm_text.specs.Trace.{IsAnswered, IsRow, trace_text};
ghost use Rattle.tpmsim_web.specs.Journal.{journal_with, seen_in};
ghost use Rattle.tpmsim_web.specs.Restoring.{RestoresDevice};
ghost use Rattle.tpmsim_web.specs.State.{command_seen, cycle_seen, record_of, whole_state};

use std::alloc::Global;
use tpm_completion::execute as complete;
use tpm_image::{ImageFault, kept_into, open_into, save_into};
use tpm_journal::Journal;
use tpm_machine::Machine;
use tpm_slots::SlotKeep;
use tpm_snapshot::{RestoreFault, completion_of, layer_of, restore_new, snapshot_into};
use tpm_step::{Event, Outcome};
use tpm_text::{trace_text, traceable_laws};

/// A device, the outcome of its last event, and the state of its journal. The next event overwrites
/// the outcome. The state of the journal includes the state of the completing layer.
#[derive(Drop)]
pub struct Device {
    pub(crate) machine: Machine<SlotKeep>,
    pub(crate) outcome: Outcome,
    pub(crate) journal: Journal,
}

/// What a call returns about a command in addition to its response.
#[repr(C)]
#[derive(Clone, Copy, PartialEq, Eq)]
pub struct Answered {
    /// The size of the response.
    pub size: usize,
    /// The number of random bytes that the command used, from the first one on.
    pub drawn: usize,
    /// The size of the trace; 0 if no trace is written.
    pub traced: usize,
    /// The command code, or 0 if no command code was found.
    pub code: u32,
    /// The number of the check that refused the command; 0 if the command was accepted.
    pub check: u8,
}

/// Creates a new machine, whose secrets are these random bytes.
pub(crate) fn new_machine(alloc: Global, random: &[u8; 256]) -> Machine<SlotKeep>
    ensures state { slot_record result.keep ≡ manufactured random.now }
    ensures history { Follows (slot_record result.keep) [] }
{
    let Ok(machine) = Machine::manufacture(alloc, random) else {
        unreachable!()
    };
    machine
}

impl Device {
    /// Creates a new device, whose secrets are these random bytes.
    pub fn manufacture(alloc: Global, random: &[u8; 256]) -> Device
        ensures state { record_of result ≡ manufactured random.now }
        ensures history { Follows (record_of result) [] }
        ensures journal { result.journal ≡ journal_of 0 0 }
    {
        Device {
            machine: new_machine(alloc, random),
            outcome: Outcome::empty(),
            journal: Journal::begun(0, 0),
        }
    }

    /// Executes a command. Writes its response to the start of one buffer, whose remaining bytes
    /// are unchanged, and its trace to the start of another.
    pub fn execute(
        &mut self,
        event: &Event,
        response: &mut [u8; 4096],
        trace: &mut [u8; 64],
    ) -> Answered
        ensures executes { Executes false (record_of self.old) (plain_event event.now)
            (command_seen response.new result self.new) }
        ensures history { After Follows (record_of self.old) (plain_event event.now)
            (command_seen response.new result self.new) }
        ensures drawn { result.drawn
            ≡ drawn_by (record_of self.old) (plain_event event.now) result.check }
        ensures journal { self.new.journal ≡ self.old.journal }
        ensures rest { drop result.size response.new ≡ drop result.size response.old }
        ensures traced { take result.traced trace.new ≡ trace_text (plain_event event.now)
            (record { code = result.code; check = result.check }) (take result.size response.new) }
    {
        self.machine.execute_into(event, &mut self.outcome);
        traceable_laws();
        let traced = put_trace(event, &self.outcome, trace);
        let drawn = self.machine.drawn();
        tell(&self.outcome, drawn, traced, response)
    }

    /// Executes a command with the completing layer above the device. Writes its response to the
    /// start of a buffer, whose remaining bytes are unchanged.
    pub fn complete(&mut self, event: &Event, response: &mut [u8; 4096]) -> Answered
        ensures completes { CompletesIf false true self.old.journal.layer (record_of self.old)
            (plain_event event.now) (seen_in response.new result self.new) }
        ensures journal { self.new.journal
            ≡ journal_with self.old.journal self.new.journal.layer }
        ensures rest { drop result.size response.new ≡ drop result.size response.old }
        ensures untraced { result.traced ≡ 0 }
    {
        let layer = &mut self.journal.layer;
        complete(&mut self.machine, layer, true, event, &mut self.outcome);
        let drawn = self.machine.drawn();
        tell(&self.outcome, drawn, 0, response)
    }

    /// Power-cycles the device. The layer forgets the contexts of sessions, and its sequence
    /// objects.
    pub fn cycle_power(&mut self)
        ensures executes { Executes false (record_of self.old) Cycled (cycle_seen self.new) }
        ensures history { After Follows (record_of self.old) Cycled (cycle_seen self.new) }
        ensures journal { self.new.journal ≡ journal_with self.old.journal
            (forgotten (record_of self.new) self.old.journal.layer) }
    {
        self.machine
            .execute_into(&Event::PowerCycle, &mut self.outcome);
        self.journal.layer.forget(self.machine.keep());
    }

    /// Writes the image to the start of a buffer, if it fits. Returns the image's size.
    pub fn save_into(&self, buffer: &mut [u8]) -> usize
        ensures { PutsFront (device_image (record_of self.now)) buffer.old result
            buffer.new }
    {
        save_into(&self.machine, buffer)
    }

    /// If they fit, writes the data that the device keeps without power, except its clock, to the
    /// start of a buffer. Returns the size of these data.
    pub fn kept_into(&self, buffer: &mut [u8]) -> usize
        ensures { PutsFront (kept_text (record_of self.now)) buffer.old result buffer.new }
    {
        kept_into(&self.machine, buffer)
    }

    /// Replaces this device with the device whose image is passed, and power-cycles that device. On
    /// error, the device is unchanged.
    pub fn open(&mut self, alloc: Global, image: &[u8]) -> Result<(), ImageFault>
        ensures exact { Opens (λ done. record_of self.new) false image.now result }
        ensures kept { OnErr result (self.new ≡ self.old) }
        ensures history { (version : Version) (r : Record) (history : History) → IsRecord r
            → Follows r history → IsImage version (kept_of r) image.now
            → OnOk result (Follows (record_of self.new) (PowerCycled ∷ history)) }
        ensures journal { OnOk result (self.new.journal ≡ journal_of 0 0) }
    {
        let mut machine = new_machine(alloc, &[0; 256]);
        open_into(&mut machine, image)?;
        self.machine = machine;
        self.journal = Journal::begun(0, 0);
        Ok(())
    }

    /// Writes the state text to the start of a buffer, if it fits. Returns the size of the state
    /// text.
    pub fn snapshot_into(&self, buffer: &mut [u8]) -> usize
        ensures put { PutsFront (state_text (whole_state self.now)) buffer.old result buffer.new }
        ensures small { result ≤ state_text_size }
        ensures is_state { IsWholeState (whole_state self.now) }
    {
        let layer = layer_of(&self.journal.layer);
        snapshot_into(&self.machine, Some(&layer), buffer)
    }

    /// Replaces this device with the device in a state text. On error, the device is unchanged.
    pub fn restore(&mut self, alloc: Global, text: &[u8]) -> Result<(), RestoreFault>
        ensures restores { RestoresDevice self.new text.now result }
        ensures kept { OnErr result (self.new ≡ self.old) }
    {
        let mut machine = new_machine(alloc, &[0; 256]);
        let layer = restore_new(&mut machine, text)?;
        self.machine = machine;
        self.journal = Journal {
            sum: 0,
            time: 0,
            layer: completion_of(layer.as_ref()),
        };
        Ok(())
    }
}

/// Writes a response to the start of a buffer, and returns the other data about the command.
pub(crate) fn tell(
    outcome: &Outcome,
    drawn: usize,
    traced: usize,
    response: &mut [u8; 4096],
) -> Answered
    ensures front { take result.size response.new ≡ outcome.now.response.items }
    ensures rest { drop result.size response.new ≡ drop result.size response.old }
    ensures code { result.code ≡ outcome.now.row.code }
    ensures check { result.check ≡ outcome.now.row.check }
    ensures drawn { result.drawn ≡ drawn }
    ensures traced { result.traced ≡ traced }
{
    let text = outcome.response.as_slice();
    let (front, _) = response.split_at_mut(text.len());
    front.copy_from_slice(text);
    Answered {
        size: text.len(),
        drawn,
        traced,
        code: outcome.row.code,
        check: outcome.row.check,
    }
}

/// Writes the trace of an event to the start of a buffer. Returns the trace's size.
fn put_trace(event: &Event, outcome: &Outcome, buffer: &mut [u8; 64]) -> usize
    requires row { IsRow outcome.now.row }
    requires response { IsAnswered (plain_event event.now) outcome.now.response.items }
    ensures { take result buffer.new
        ≡ trace_text (plain_event event.now) outcome.now.row outcome.now.response.items }
{
    let line = trace_text(event, outcome.row, outcome.response.as_slice());
    let text = line.as_str().as_bytes();
    let (front, _) = buffer.split_at_mut(text.len());
    front.copy_from_slice(text);
    text.len()
}
