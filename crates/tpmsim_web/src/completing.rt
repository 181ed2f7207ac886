//! The export that executes a command through the completing layer.

ghost use Rattle.std.specs.Prelude.{◌≡◌, ◌≢◌, ◌<◌, drop, false, true};
ghost use Rattle.std.specs.declared.option.Option.TheVariants.{None, Some};
ghost use Rattle.tpm_completion.specs.Execution.{CompletesIf};
ghost use Rattle.tpm_step.specs.step.Events.{Given};
ghost use Rattle.tpmsim_web.specs.Journal.{journal_with, seen_in};
ghost use Rattle.tpmsim_web.specs.State.{record_of};
ghost use Rattle.tpmsim_web.specs.Told.{done_code, no_device, no_locality};
ghost use Rattle.tpmsim_web.specs.declared.device.Device.{Device};

use crate::device::{Answered, Device};
use crate::holder::Holder;
use crate::told::{DONE, NO_DEVICE, NO_LOCALITY};
use tpm_step::Event;
use tpm_types_common::Locality;

/// Like device_execute, but executes the command with the completing layer above the device, and
/// writes no trace.
#[unsafe(no_mangle)]
pub extern "C" fn device_complete(
    holder: &mut Holder,
    buffer: &[u8],
    locality: u8,
    elapsed_ms: u32,
    random: &[u8; 256],
    response: &mut [u8; 4096],
    answered: &mut Answered,
) -> u8
    ensures completes { result ≡ done_code → (before : Device) × (after : Device)
        × (holder.old.device ≡ Some before) × (holder.new.device ≡ Some after)
        × CompletesIf false true before.journal.layer (record_of before)
        (Given buffer.now locality elapsed_ms random.now) (seen_in response.new answered.new after)
        × (after.journal ≡ journal_with before.journal after.journal.layer) }
    ensures rest { result ≡ done_code
        → drop answered.new.size response.new ≡ drop answered.new.size response.old }
    ensures untraced { result ≡ done_code → answered.new.traced ≡ 0 }
    ensures refused { result ≢ done_code → (holder.new.device ≡ holder.old.device)
        × (response.new ≡ response.old) × (answered.new ≡ answered.old) }
    ensures told { result ≢ done_code → result ≢ no_locality
        → (result ≡ no_device) × (holder.old.device ≡ None) }
    ensures locality { result ≡ no_locality → 4 < locality }
{
    let Some(locality) = Locality::new(locality) else {
        return NO_LOCALITY;
    };
    let Some(mut device) = holder.take() else {
        return NO_DEVICE;
    };
    let event = Event::of_command(buffer, locality, elapsed_ms, *random);
    *answered = device.complete(&event, response);
    holder.put(device);
    DONE
}
