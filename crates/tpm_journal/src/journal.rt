//! How a journal begins, and how each command extends it.

ghost use Rattle.std.specs.Prelude.{◌≡◌, ◌≤◌, ◌<◌, ◌+◌, ◌++◌, [], Ok, Some, false, length, option_copied, take};
ghost use Rattle.tpm_completion.specs.Execution.{seen_of};
ghost use Rattle.tpm_machine.specs.Follows.{After, Follows};
ghost use Rattle.tpm_image_text.specs.Image.{device_image};
ghost use Rattle.tpm_image_text.specs.Saving.{PutsFront};
ghost use Rattle.tpm_journal.specs.Checkpoint.{checkpointed_journal, state_beside};
ghost use Rattle.tpm_journal.specs.Command.{Executed, command_at, elapsed_of, entry_of};
ghost use Rattle.tpm_journal.specs.Starting.{start_by};
ghost use Rattle.tpm_journal.specs.State.{journal_after, journal_begun, journal_of, journal_resumed, layer_in};
ghost use Rattle.tpm_journal_text.specs.Entry.{IsEntry, entry_text};
ghost use Rattle.tpm_journal_text.specs.Head.{IsKind, content_limit, head_sum, head_text};
ghost use Rattle.tpm_journal_text.specs.declared.head.HeadKind.TheVariants.{Image, State};
ghost use Rattle.tpm_machine.specs.State.{state_of};
ghost use Rattle.tpm_record.specs.Cycle.{after_cycle};
ghost use Rattle.tpm_record.specs.IsRecord.{IsRecord};
ghost use Rattle.tpm_state_text.specs.Filling.{state_of as whole_state};
ghost use Rattle.tpm_state_text.specs.State.{state_text};
ghost use Rattle.tpm_step.specs.step.Events.{Cycled};
ghost use Rattle.tpm_step.specs.step.Execution.{Executes};
ghost use Rattle.tpm_step.specs.step.Step.{outcome_step};
ghost use Rattle.tpm_types_common.specs.Locality.{locality_number};

use tpm_bytes::Sink;
use tpm_completion::{Completion, execute as complete};
use tpm_image_text::laws::image_laws;
use tpm_image_text::{Text, write_image as write_text};
use tpm_journal_text::{ENTRY_LIMIT, ENTRY_ROOM, Entry, HeadKind, head_size, sum_of, write_head};
use tpm_machine::Machine;
use tpm_record::Keep;
use tpm_snapshot::{completion_of, layer_of};
use tpm_state_text::{Layer, StateBody, write_state};
use tpm_step::{Event, Outcome};
use tpm_types_common::Locality;

/// The state of a journal, apart from its device.
#[derive(Clone, Copy, PartialEq, Eq)]
pub struct Journal {
    /// The checksum of the marks of the head and of all entries.
    pub sum: u64,
    /// The time of the journal in milliseconds: the clock in its head, plus the elapsed times of
    /// its commands.
    pub time: u64,
    /// The state of the completing layer.
    pub layer: Completion,
}

impl Journal {
    /// The journal after a head with this checksum and clock. The completing layer restarts, with
    /// the checksum as its start number.
    pub fn begun(sum: u64, clock_ms: u64) -> Journal
        ensures { result ≡ journal_of sum clock_ms }
    {
        Journal {
            sum,
            time: clock_ms,
            layer: Completion::of_start(sum),
        }
    }

    /// The journal after a head with this checksum and clock, if the state text in the head
    /// contains this layer.
    pub(crate) fn resumed(sum: u64, clock_ms: u64, layer: Option<&Layer>) -> Journal
        ensures { result ≡ journal_resumed sum clock_ms (option_copied layer.entry) }
    {
        Journal {
            sum,
            time: clock_ms,
            layer: layer_in(sum, layer),
        }
    }

    /// Power-cycles the device, and writes the head of its new journal to the beginning of a
    /// buffer. Returns the size of the head. If the buffer is too small, the call has no effect.
    pub fn begin<K: Keep>(
        &mut self,
        machine: &mut Machine<K>,
        now_ms: u64,
        outcome: &mut Outcome,
        buffer: &mut [u8],
    ) -> usize
        ensures head { PutsFront (head_text Image now_ms
            (device_image (after_cycle (state_of K.record_of machine.old))))
            buffer.old result buffer.new }
        ensures executes { result ≤ length buffer.old → Executes K.can_refuse
            (state_of K.record_of machine.old) Cycled
            (outcome_step (state_of K.record_of machine.new) outcome.new) }
        ensures history { result ≤ length buffer.old → After Follows
            (state_of K.record_of machine.old) Cycled
            (outcome_step (state_of K.record_of machine.new) outcome.new) }
        ensures journal { result ≤ length buffer.old → self.new ≡ journal_begun now_ms
            (device_image (after_cycle (state_of K.record_of machine.old))) }
        ensures no_room { length buffer.old < result
            → state_of K.record_of machine.new ≡ state_of K.record_of machine.old }
        ensures no_journal { length buffer.old < result → self.new ≡ self.old }
    {
        let mut sum = 0;
        let size = put_image(machine, now_ms, &mut sum, buffer);
        if size > buffer.len() {
            return size;
        }
        machine.execute_into(&Event::PowerCycle, outcome);
        *self = Journal::begun(sum, now_ms);
        size
    }

    /// Restarts the journal: writes a head with the whole state of the device and the completing
    /// layer to the beginning of a buffer. Returns the size of the head. If the buffer is too
    /// small, the call has no effect. The device and the layer are unchanged. No time is lost if
    /// `clock_ms` is the journal's own time.
    pub fn checkpoint<K: Keep>(
        &mut self,
        machine: &Machine<K>,
        clock_ms: u64,
        buffer: &mut [u8],
    ) -> usize
        ensures head { PutsFront (head_text State clock_ms
            (state_text (state_beside self.old (state_of K.record_of machine.now))))
            buffer.old result buffer.new }
        ensures journal { result ≤ length buffer.old
            → self.new ≡ checkpointed_journal self.old clock_ms (state_of K.record_of machine.now) }
        ensures no_journal { length buffer.old < result → self.new ≡ self.old }
        // Opening the written head yields this device and the new state of this journal.
        ensures starts { result ≤ length buffer.old → start_by State clock_ms
            (state_text (state_beside self.old (state_of K.record_of machine.now)))
            ≡ Ok (record { journal = self.new; device = state_of K.record_of machine.now }) }
    {
        let mut sum = 0;
        let layer = layer_of(&self.layer);
        let size = put_state(machine, &layer, clock_ms, &mut sum, buffer);
        if size <= buffer.len() {
            self.sum = sum;
            self.time = clock_ms;
        }
        size
    }

    /// The milliseconds since the latest command, according to the host's clock.
    fn elapsed(&self, now_ms: u64) -> u32
        ensures { result ≡ elapsed_of now_ms self.now.time }
    {
        now_ms.saturating_sub(self.time).min(u64::from(u32::MAX)) as u32
    }

    /// Executes a command, with or without the completing layer, and writes its entry to the
    /// beginning of a buffer. `now_ms` is the time of the host's clock. Returns the size of the
    /// entry. A command of more than 4,097 bytes is truncated to 4,097, and is still refused in the
    /// same way.
    pub fn execute<K: Keep>(
        &mut self,
        machine: &mut Machine<K>,
        buffer: &[u8],
        locality: Locality,
        now_ms: u64,
        completes: bool,
        random: &[u8; 256],
        outcome: &mut Outcome,
        room: &mut [u8; ENTRY_ROOM],
    ) -> usize
        ensures executes { let c = command_at buffer.now (locality_number locality)
            (elapsed_of now_ms self.old.time) completes random.now in
            Executed K.can_refuse self.old.layer (state_of K.record_of machine.old) c
            (seen_of K.record_of machine.new self.new.layer outcome.new) }
        ensures written { let c = command_at buffer.now (locality_number locality)
            (elapsed_of now_ms self.old.time) completes random.now in
            let seen = seen_of K.record_of machine.new self.new.layer outcome.new in
            take result room.new ≡ entry_text self.old.sum (entry_of c seen) }
        ensures fits { result ≤ length room.new }

        // The written bytes encode an entry, and can be read again.
        ensures entry { let c = command_at buffer.now (locality_number locality)
            (elapsed_of now_ms self.old.time) completes random.now in
            let seen = seen_of K.record_of machine.new self.new.layer outcome.new in
            IsEntry (entry_of c seen) }
        ensures journal { let c = command_at buffer.now (locality_number locality)
            (elapsed_of now_ms self.old.time) completes random.now in
            let seen = seen_of K.record_of machine.new self.new.layer outcome.new in
            self.new ≡ journal_after self.old (entry_of c seen) self.new.layer }
    {
        let buffer = cut(buffer);
        let elapsed_ms = self.elapsed(now_ms);
        let event = Event::of_command(buffer, locality, elapsed_ms, *random);
        complete(machine, &mut self.layer, completes, &event, outcome);
        let (drawn, _) = random.split_at(machine.drawn());
        let entry = Entry {
            elapsed_ms,
            locality: locality.number(),
            completes,
            drawn,
            buffer,
            answered: sum_of(outcome.response.as_slice()),
        };
        self.time = self.time.saturating_add(u64::from(elapsed_ms));
        entry.write(&mut self.sum, room)
    }
}

/// The layer in the state of a device, or a new layer if the state contains none. The start number
/// of a new layer is the checksum of the head.
fn layer_in(sum: u64, layer: Option<&Layer>) -> Completion
    ensures { result ≡ layer_in sum (option_copied layer.entry) }
{
    match layer {
        Some(_) => completion_of(layer),
        None => Completion::of_start(sum),
    }
}

/// Writes a head to the beginning of a buffer, if the head fits. The content is passed in two
/// parts. Returns the head's size, and sets `sum` to the checksum of the head's mark.
fn put_head(
    kind: HeadKind,
    clock_ms: u64,
    front: &[u8],
    back: &[u8],
    sum: &mut u64,
    buffer: &mut [u8],
) -> usize
    requires named { IsKind kind }
    requires small { length front.now + length back.now ≤ content_limit kind }
    ensures head { PutsFront (head_text kind clock_ms (front.now ++ back.now)) buffer.old result
        buffer.new }
    ensures sum { result ≤ length buffer.old
        → sum.new ≡ head_sum clock_ms (front.now ++ back.now) }
{
    let size = head_size(front.len() + back.len());
    if size <= buffer.len() {
        let (head, _) = buffer.split_at_mut(size);
        *sum = write_head(kind, clock_ms, front, back, head);
    }
    size
}

/// Writes the image of a device: returns its header, and appends the rest to an empty buffer.
fn write_image<K: Keep>(machine: &Machine<K>, text: &mut Text) -> Sink<10>
    requires { text.old ≡ [] }
    ensures image { result ++ text.new
        ≡ device_image (state_of K.record_of machine.now) }
    ensures small { length result + length text.new ≤ content_limit Image }
{
    image_laws();
    write_text(machine.keep(), text)
}

/// Writes a head with the image of a device to the beginning of a buffer, if it fits.
fn put_image<K: Keep>(
    machine: &Machine<K>,
    clock_ms: u64,
    sum: &mut u64,
    buffer: &mut [u8],
) -> usize
    ensures head { PutsFront (head_text Image clock_ms
        (device_image (state_of K.record_of machine.now))) buffer.old result
        buffer.new }
    ensures sum { result ≤ length buffer.old → sum.new ≡ head_sum clock_ms
        (device_image (state_of K.record_of machine.now)) }
{
    let mut text = Text::new();
    let head = write_image(machine, &mut text);
    put_head(
        HeadKind::Image,
        clock_ms,
        head.as_slice(),
        text.as_slice(),
        sum,
        buffer,
    )
}

/// Writes a head with the state text of a device and its layer to the beginning of a buffer, if
/// it fits.
fn put_state<K: Keep>(
    machine: &Machine<K>,
    layer: &Layer,
    clock_ms: u64,
    sum: &mut u64,
    buffer: &mut [u8],
) -> usize
    ensures head { PutsFront (head_text State clock_ms
        (state_text (whole_state (state_of K.record_of machine.now) (Some layer.now))))
        buffer.old result buffer.new }
    ensures sum { result ≤ length buffer.old → sum.new ≡ head_sum clock_ms
        (state_text (whole_state (state_of K.record_of machine.now) (Some layer.now))) }
    ensures is_record { IsRecord (state_of K.record_of machine.now) }
{
    let mut text = StateBody::new();
    let head = write_state(machine.keep(), Some(layer), &mut text);
    put_head(
        HeadKind::State,
        clock_ms,
        head.as_slice(),
        text.as_slice(),
        sum,
        buffer,
    )
}

/// The buffer, truncated to the largest size that an entry can record.
#[tactic(auto, using(std::proofs::lemmas::List::take_all))]
fn cut(buffer: &[u8]) -> &[u8]
    ensures { result.now ≡ take 4097 buffer.now }
{
    if buffer.len() <= ENTRY_LIMIT {
        return buffer;
    }
    let (front, _) = buffer.split_at(ENTRY_LIMIT);
    front
}
