//! Executes one event, with or without the layer.

ghost use Rattle.std.specs.Prelude.{◌≡◌, ◌≤◌, ◌+◌, Ok, Some, List, ℕ, length, true, false};
ghost use Rattle.tpm_types_common.specs.Limits.{buffer_limit};
ghost use Rattle.tpm_types_common.specs.Locality.{locality_number};
ghost use Rattle.tpm_step.specs.step.Events.{plain_event};
ghost use Rattle.tpm_machine.specs.State.{state_of};
ghost use Rattle.tpm_completion.specs.Completed.{completed_effect};
ghost use Rattle.tpm_completion.specs.Hiding.{heard, heard_buffer, hidden_at};
ghost use Rattle.tpm_completion.specs.Execution.{AsksFirst, LoadsOrSends, Completes, CompletesIf, Loads, Passes, Sends, asked_after, effect_with_reply, opened_after, reply_after, seen_of, sent_after};

use crate::answer::answer;
use crate::codes::{MEMORY, OBJECT_MEMORY, SUCCESS};
use crate::completion::Completion;
use crate::hiding::hide;
use crate::loading::context_asked;
use crate::sending::{Sent, may_send_for};
use tpm_containers::SlotFault;
use tpm_machine::Machine;
use tpm_object::Object;
use tpm_record::Keep;
use tpm_step::{Event, Outcome};
use tpm_types_common::{BUFFER_LIMIT, Locality};

/// Executes one event, and overwrites `outcome`. If `completes` is true, the layer may answer after
/// the device; otherwise the device alone executes the event. The outcome's row is always the
/// device's own. Afterwards, the machine's `drawn` refers to the last event that the machine
/// executed.
pub fn execute<K: Keep>(
    machine: &mut Machine<K>,
    layer: &mut Completion,
    completes: bool,
    event: &Event,
    outcome: &mut Outcome,
)
    ensures executes { CompletesIf K.can_refuse completes layer.old
        (state_of K.record_of machine.old) (plain_event event.now)
        (seen_of K.record_of machine.new layer.new outcome.new) }

    // If no allocation can fail, the layer, the record and the event determine the whole effect.
    ensures exactly { K.can_refuse ≡ false
        → seen_of K.record_of machine.new layer.new outcome.new
        ≡ completed_effect completes layer.old (state_of K.record_of machine.old)
        (plain_event event.now) }
{
    complete_if(machine, layer, completes, event, outcome);
}

/// Executes one event, with or without the layer.
fn complete_if<K: Keep>(
    machine: &mut Machine<K>,
    layer: &mut Completion,
    completes: bool,
    event: &Event,
    outcome: &mut Outcome,
)
    ensures off { completes ≡ false → Passes K.can_refuse layer.old
        (state_of K.record_of machine.old) (plain_event event.now)
        (seen_of K.record_of machine.new layer.new outcome.new) }
    ensures on { completes ≡ true → Completes K.can_refuse layer.old
        (state_of K.record_of machine.old) (heard layer.old (plain_event event.now))
        (seen_of K.record_of machine.new layer.new outcome.new) }
{
    if !completes {
        return pass(machine, layer, event, outcome);
    }
    match event {
        Event::PowerCycle => pass(machine, layer, event, outcome),
        Event::Command {
            buffer,
            locality,
            elapsed_ms,
            random,
        } => hide_and_complete(
            machine,
            layer,
            buffer,
            *locality,
            *elapsed_ms,
            random,
            outcome,
        ),
    }
}

/// Executes an event on the device, without the layer.
fn pass<K: Keep>(
    machine: &mut Machine<K>,
    layer: &mut Completion,
    event: &Event,
    outcome: &mut Outcome,
)
    ensures passes { Passes K.can_refuse layer.old (state_of K.record_of machine.old)
        (plain_event event.now) (seen_of K.record_of machine.new layer.new outcome.new) }
    ensures count { layer.new.count ≡ layer.old.count }
{
    machine.execute_into(event, outcome);
    layer.forget(machine.keep());
}

/// Executes a command with the layer. The device gets the command in which saved sessions are hidden.
fn hide_and_complete<K: Keep>(
    machine: &mut Machine<K>,
    layer: &mut Completion,
    buffer: &[u8],
    locality: Locality,
    elapsed_ms: u32,
    random: &[u8; 256],
    outcome: &mut Outcome,
)
    ensures { AsksFirst K.can_refuse layer.old (state_of K.record_of machine.old)
        (heard_buffer layer.old buffer.now) (locality_number locality) elapsed_ms random.now
        (seen_of K.record_of machine.new layer.new outcome.new) }
{
    match layer.saved_place(buffer) {
        Some(place) => complete_hidden(
            machine, layer, buffer, place, locality, elapsed_ms, random, outcome,
        ),
        None => complete(
            machine, layer, buffer, locality, elapsed_ms, random, outcome,
        ),
    }
}

/// Executes a command with the layer, in which the handle at an offset is hidden. The function is
/// not inlined, so that its large buffer is not in its caller's stack frame.
#[inline(never)]
fn complete_hidden<K: Keep>(
    machine: &mut Machine<K>,
    layer: &mut Completion,
    buffer: &[u8],
    place: usize,
    locality: Locality,
    elapsed_ms: u32,
    random: &[u8; 256],
    outcome: &mut Outcome,
)
    requires small { length buffer.now ≤ buffer_limit }
    requires within { place + 4 ≤ length buffer.now }
    ensures { AsksFirst K.can_refuse layer.old (state_of K.record_of machine.old)
        (hidden_at buffer.now place) (locality_number locality) elapsed_ms random.now
        (seen_of K.record_of machine.new layer.new outcome.new) }
{
    let mut heard = [0; BUFFER_LIMIT];
    let (command, _) = heard.split_at_mut(buffer.len());
    command.copy_from_slice(buffer);
    hide(command, place);
    complete(
        machine, layer, command, locality, elapsed_ms, random, outcome,
    );
}

/// Executes a command with the layer: the device executes it first, and the layer answers after it.
fn complete<K: Keep>(
    machine: &mut Machine<K>,
    layer: &mut Completion,
    buffer: &[u8],
    locality: Locality,
    elapsed_ms: u32,
    random: &[u8; 256],
    outcome: &mut Outcome,
)
    ensures { AsksFirst K.can_refuse layer.old (state_of K.record_of machine.old) buffer.now
        (locality_number locality) elapsed_ms random.now
        (seen_of K.record_of machine.new layer.new outcome.new) }
{
    let event = Event::of_command(buffer, locality, elapsed_ms, *random);
    pass(machine, layer, &event, outcome);
    answer_after(machine, layer, buffer, locality, random, outcome);
}

/// Loads an object if the command is to load an object's context. Otherwise, the layer may send a
/// command to the device, or answer.
fn answer_after<K: Keep>(
    machine: &mut Machine<K>,
    layer: &mut Completion,
    buffer: &[u8],
    locality: Locality,
    random: &[u8; 256],
    outcome: &mut Outcome,
)
    ensures { LoadsOrSends K.can_refuse (seen_of K.record_of machine.old layer.old outcome.old)
        buffer.now (locality_number locality) random.now
        (asked_after (seen_of K.record_of machine.old layer.old outcome.old) buffer.now)
        (seen_of K.record_of machine.new layer.new outcome.new) }
{
    match context_asked(machine.keep(), buffer, outcome.response.as_slice()) {
        Some(context) => load(machine, layer, context, outcome),
        None => send_or_answer(machine, layer, buffer, locality, random, outcome),
    }
}

/// Sends a command to the device if the client's command asks for it. Otherwise, the layer may
/// answer.
fn send_or_answer<K: Keep>(
    machine: &mut Machine<K>,
    layer: &mut Completion,
    buffer: &[u8],
    locality: Locality,
    random: &[u8; 256],
    outcome: &mut Outcome,
)
    ensures { Sends K.can_refuse (seen_of K.record_of machine.old layer.old outcome.old)
        buffer.now (locality_number locality) random.now
        (sent_after (seen_of K.record_of machine.old layer.old outcome.old) buffer.now)
        (seen_of K.record_of machine.new layer.new outcome.new) }
{
    if !may_send_for(buffer) {
        return reply(machine, layer, buffer, outcome);
    }
    match layer.sent_for(machine.keep(), buffer, outcome.response.as_slice()) {
        Some(sent) => send(machine, layer, &sent, locality, random, outcome),
        None => reply(machine, layer, buffer, outcome),
    }
}

/// Answers a command for which the layer sends nothing to the device.
fn reply<K: Keep>(
    machine: &Machine<K>,
    layer: &mut Completion,
    buffer: &[u8],
    outcome: &mut Outcome,
)
    ensures { seen_of K.record_of machine.now layer.new outcome.new
        ≡ effect_with_reply (seen_of K.record_of machine.now layer.old outcome.old)
        (reply_after (seen_of K.record_of machine.now layer.old outcome.old) buffer.now) }
{
    let was_told = outcome.row.check == 0;
    layer.reply(machine.keep(), buffer, was_told, &mut outcome.response);
}

/// Sends a command to the device, and answers the client's command afterwards. The outcome's row
/// remains the row of the client's command.
fn send<K: Keep>(
    machine: &mut Machine<K>,
    layer: &mut Completion,
    sent: &Sent,
    locality: Locality,
    random: &[u8; 256],
    outcome: &mut Outcome,
)
    ensures { (buffer : List ℕ)
        → Sends K.can_refuse (seen_of K.record_of machine.old layer.old outcome.old) buffer
        (locality_number locality) random.now (Some sent.now)
        (seen_of K.record_of machine.new layer.new outcome.new) }
{
    let row = outcome.row;
    let event = Event::of_command(sent.command.as_slice(), locality, 0, *random);
    pass(machine, layer, &event, outcome);
    let accepted = outcome.row.check == 0;
    outcome.row = row;
    layer.answer_sent(accepted, sent, &mut outcome.response);
}

/// Loads the object of a context, or refuses the context.
fn load<K: Keep>(
    machine: &mut Machine<K>,
    layer: &Completion,
    context: &[u8],
    outcome: &mut Outcome,
)
    ensures { Loads K.can_refuse (seen_of K.record_of machine.old layer.now outcome.old)
        (opened_after (seen_of K.record_of machine.old layer.now outcome.old) context.now)
        (seen_of K.record_of machine.new layer.now outcome.new) }
{
    match layer.open_object(machine.keep(), context) {
        Ok(object) => place(machine, layer, object, outcome),
        Err(fault) => answer(fault.rc().number(), &[], &mut outcome.response),
    }
}

/// Places an object in the lowest free slot of the device.
fn place<K: Keep>(
    machine: &mut Machine<K>,
    layer: &Completion,
    object: Object,
    outcome: &mut Outcome,
)
    ensures { Loads K.can_refuse (seen_of K.record_of machine.old layer.now outcome.old)
        (Ok object) (seen_of K.record_of machine.new layer.now outcome.new) }
{
    let text = &mut outcome.response;
    match machine.place(object) {
        Ok(handle) => answer(SUCCESS, &handle.number.to_be_bytes(), text),
        Err(SlotFault::Full) => answer(OBJECT_MEMORY, &[], text),
        Err(SlotFault::NoMemory) => answer(MEMORY, &[], text),
    }
}
