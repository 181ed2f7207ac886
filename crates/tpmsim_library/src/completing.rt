//! The export that executes a command through the completing layer.

ghost use Rattle.std.specs.Prelude.{◌≡◌, ◌≢◌, ◌<◌, drop, false, true};
ghost use Rattle.std.specs.declared.option.Option.TheVariants.{None, Some};
ghost use Rattle.tpm_completion.specs.Execution.{CompletesIf};
ghost use Rattle.tpm_step.specs.step.Events.{Given};
ghost use Rattle.tpmsim_library.specs.Journal.{journal_with, seen_in};
ghost use Rattle.tpmsim_library.specs.State.{record_of};
ghost use Rattle.tpmsim_library.specs.Told.{done_code, no_device, no_locality};
ghost use Rattle.tpmsim_library.specs.declared.device.Device.{Device};

use crate::device::{Answered, Device};
use crate::holder::Holder;
use crate::told::{DONE, NO_DEVICE, NO_LOCALITY};
use std::alloc::Global;
use tpm_step::Event;
use tpm_types_common::Locality;

/// Like tpmsim_execute, but executes the command with the completing layer above the device.
#[unsafe(no_mangle)]
pub extern "C" fn tpmsim_complete(
    alloc: Global,
    holder: &mut Holder,
    buffer: &[u8],
    locality: u8,
    elapsed_ms: u32,
    random: &[u8; 256],
    response: &mut [u8; 4096],
    answered: &mut Answered,
) -> u8
    ensures completes { result ≡ done_code → (before : Device) × (after : Device)
        × (holder.old.device ≡ Some before) × (holder.new.device ≡ Some after)
        × CompletesIf false true before.journal.layer (record_of before)
        (Given buffer.now locality elapsed_ms random.now) (seen_in response.new answered.new after)
        × (after.journal ≡ journal_with before.journal after.journal.layer) }
    ensures rest { result ≡ done_code
        → drop answered.new.size response.new ≡ drop answered.new.size response.old }
    ensures refused { result ≢ done_code → (holder.new.device ≡ holder.old.device)
        × (response.new ≡ response.old) × (answered.new ≡ answered.old) }
    ensures told { result ≢ done_code → result ≢ no_locality
        → (result ≡ no_device) × (holder.old.device ≡ None) }
    ensures locality { result ≡ no_locality → 4 < locality }
{
    let Some(locality) = Locality::new(locality) else {
        return NO_LOCALITY;
    };
    let Some(mut device) = holder.take(alloc) else {
        return NO_DEVICE;
    };
    let event = Event::of_command(buffer, locality, elapsed_ms, *random);
    *answered = device.complete(&event, response);
    holder.put(device);
    DONE
}
