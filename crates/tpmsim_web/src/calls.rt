//! The exports that execute events on a device, and that save and open its image. A call takes the
//! device out of its holder, uses it, and puts it back, which moves only a pointer.

ghost use Rattle.std.specs.Prelude.{◌≡◌, ◌≢◌, ◌<◌, ◌∷◌, [], drop, false, take};
ghost use Rattle.std.specs.Option.{MatchOption};
ghost use Rattle.std.specs.declared.option.Option.TheVariants.{None, Some};
ghost use Rattle.std.specs.declared.result.Result.{Result};
ghost use Rattle.tpm_journal.specs.State.{journal_of};
ghost use Rattle.tpm_image_text.specs.Image.{IsImage, device_image};
ghost use Rattle.tpm_image_text.specs.KeptText.{kept_text};
ghost use Rattle.tpm_image_text.specs.NonVolatile.{kept_of};
ghost use Rattle.tpm_image_text.specs.Opening.{Opens};
ghost use Rattle.tpm_image_text.specs.Saving.{PutsFront};
ghost use Rattle.tpm_image_text.specs.declared.fault.ImageFault.{ImageFault as Fault};
ghost use Rattle.tpm_image_text.specs.declared.version.Version.{Version};
ghost use Rattle.tpm_machine.specs.Drawn.{drawn_by};
ghost use Rattle.tpm_machine.specs.Follows.{After, Follows};
ghost use Rattle.tpm_machine.specs.History.{History, PowerCycled};
ghost use Rattle.tpm_record.specs.IsRecord.{IsRecord};
ghost use Rattle.tpm_record.specs.Record.{Record, manufactured};
ghost use Rattle.tpm_step.specs.step.Events.{Cycled, Given};
ghost use Rattle.tpm_step.specs.step.Execution.{Executes};
ghost use Rattle.tpm_text.specs.Trace.{trace_text};
ghost use Rattle.tpm_completion.specs.Completion.{forgotten};
ghost use Rattle.tpmsim_web.specs.Journal.{journal_with};
ghost use Rattle.tpmsim_web.specs.State.{command_seen, cycle_seen, record_of};
ghost use Rattle.tpmsim_web.specs.Told.{Tells, done_code, no_device, no_locality};
ghost use Rattle.tpmsim_web.specs.Version.{version_number};
ghost use Rattle.tpmsim_web.specs.declared.device.Device.{Device};

use crate::device::{Answered, Device};
use crate::holder::{Holder, Place};
use crate::told::{DONE, NO_DEVICE, NO_LOCALITY, fault_number};
use std::alloc::Global;
use std::mem;
use tpm_step::Event;
use tpm_types_common::Locality;

/// Returns the version as one number: 65,536 times major, plus 256 times minor, plus patch.
#[unsafe(no_mangle)]
pub extern "C" fn device_version() -> u32
    ensures { result ≡ version_number 0 1 0 }
{
    0x00_01_00
}

/// Returns the size in bytes of a place, which is the memory for one device.
#[unsafe(no_mangle)]
pub extern "C" fn device_size() -> usize {
    mem::size_of::<Device>()
}

/// Creates a new device in the place. Its secrets are these random bytes. The device replaces any
/// device that the holder had.
#[unsafe(no_mangle)]
pub extern "C" fn device_manufacture(
    alloc: Global,
    holder: &mut Holder,
    place: Place,
    random: &[u8; 256],
)
    ensures { (device : Device) × (holder.new.device ≡ Some device)
        × (record_of device ≡ manufactured random.now) × Follows (record_of device) []
        × (device.journal ≡ journal_of 0 0) }
{
    *holder = Holder::new(place, Device::manufacture(alloc, random));
}

/// Executes a command, and writes its response and its trace to the start of their buffers. Returns
/// NO_LOCALITY if the locality is above 4, and NO_DEVICE if the holder is empty. In both cases,
/// nothing is written.
#[unsafe(no_mangle)]
pub extern "C" fn device_execute(
    holder: &mut Holder,
    buffer: &[u8],
    locality: u8,
    elapsed_ms: u32,
    random: &[u8; 256],
    response: &mut [u8; 4096],
    answered: &mut Answered,
    trace: &mut [u8; 64],
) -> u8
    ensures executes { result ≡ done_code → (before : Device) × (after : Device)
        × (holder.old.device ≡ Some before) × (holder.new.device ≡ Some after)
        × Executes false (record_of before) (Given buffer.now locality elapsed_ms random.now)
        (command_seen response.new answered.new after)
        × After Follows (record_of before) (Given buffer.now locality elapsed_ms random.now)
        (command_seen response.new answered.new after)
        × (answered.new.drawn ≡ drawn_by (record_of before)
        (Given buffer.now locality elapsed_ms random.now) answered.new.check)
        × (after.journal ≡ before.journal) }
    ensures rest { result ≡ done_code
        → drop answered.new.size response.new ≡ drop answered.new.size response.old }
    ensures traced { result ≡ done_code → take answered.new.traced trace.new
        ≡ trace_text (Given buffer.now locality elapsed_ms random.now)
        (record { code = answered.new.code; check = answered.new.check })
        (take answered.new.size response.new) }
    ensures refused { result ≢ done_code → (holder.new.device ≡ holder.old.device)
        × (response.new ≡ response.old) × (answered.new ≡ answered.old)
        × (trace.new ≡ trace.old) }
    ensures told { result ≢ done_code → result ≢ no_locality
        → (result ≡ no_device) × (holder.old.device ≡ None) }
    ensures locality { result ≡ no_locality → 4 < locality }
{
    let Some(locality) = Locality::new(locality) else {
        return NO_LOCALITY;
    };
    let Some(mut device) = holder.take() else {
        return NO_DEVICE;
    };
    let event = Event::of_command(buffer, locality, elapsed_ms, *random);
    *answered = device.execute(&event, response, trace);
    holder.put(device);
    DONE
}

/// Power-cycles the device. Returns NO_DEVICE if the holder is empty.
#[unsafe(no_mangle)]
pub extern "C" fn device_cycle_power(holder: &mut Holder) -> u8
    ensures executes { MatchOption holder.old.device (holder.new.device ≡ None) (λ before.
        (after : Device) × (holder.new.device ≡ Some after)
        × Executes false (record_of before) Cycled (cycle_seen after)
        × After Follows (record_of before) Cycled (cycle_seen after)
        × (after.journal ≡ journal_with before.journal
        (forgotten (record_of after) before.journal.layer))) }
    ensures told { MatchOption holder.old.device (result ≡ no_device)
        (λ before. result ≡ done_code) }
{
    let Some(mut device) = holder.take() else {
        return NO_DEVICE;
    };
    device.cycle_power();
    holder.put(device);
    DONE
}

/// Writes the image of the device to the start of a buffer, if it fits. Returns the size of the
/// image, even if it does not fit, or 0 if the holder is empty.
#[unsafe(no_mangle)]
pub extern "C" fn device_save(holder: &mut Holder, buffer: &mut [u8]) -> usize
    ensures saved { MatchOption holder.old.device ((result ≡ 0) × (buffer.new ≡ buffer.old))
        (λ device. PutsFront (device_image (record_of device)) buffer.old result
        buffer.new) }
    ensures kept { holder.new.device ≡ holder.old.device }
{
    let Some(device) = holder.take() else {
        return 0;
    };
    let size = device.save_into(buffer);
    holder.put(device);
    size
}

/// Writes the data that the device keeps while its power is off, except its clock, to the start of a
/// buffer, if the data fit. Returns the size of the data, even if they do not fit, or 0 if the
/// holder is empty.
#[unsafe(no_mangle)]
pub extern "C" fn device_kept(holder: &mut Holder, buffer: &mut [u8]) -> usize
    ensures told { MatchOption holder.old.device ((result ≡ 0) × (buffer.new ≡ buffer.old))
        (λ device. PutsFront (kept_text (record_of device)) buffer.old result buffer.new) }
    ensures kept { holder.new.device ≡ holder.old.device }
{
    let Some(device) = holder.take() else {
        return 0;
    };
    let size = device.kept_into(buffer);
    holder.put(device);
    size
}

/// Replaces the holder's device with the device whose image is passed, and power-cycles that
/// device. On failure, returns the number of the first error, or NO_DEVICE, and leaves the holder
/// unchanged.
#[unsafe(no_mangle)]
pub extern "C" fn device_open(alloc: Global, holder: &mut Holder, image: &[u8]) -> u8
    ensures opens { MatchOption holder.old.device
        ((result ≡ no_device) × (holder.new.device ≡ None))
        (λ before. (opened : Result Device Fault) × Opens record_of false image.now opened
        × Tells opened holder.old.device holder.new.device result) }
    ensures history { result ≡ done_code → (version : Version) (r : Record) (history : History)
        → IsRecord r → Follows r history → IsImage version (kept_of r) image.now
        → (device : Device) × (holder.new.device ≡ Some device)
        × Follows (record_of device) (PowerCycled ∷ history) }
    ensures journal { result ≡ done_code → (device : Device) × (holder.new.device ≡ Some device)
        × (device.journal ≡ journal_of 0 0) }
{
    let Some(mut device) = holder.take() else {
        return NO_DEVICE;
    };
    let opened = device.open(alloc, image);
    holder.put(device);
    match opened {
        Ok(()) => DONE,
        Err(fault) => fault_number(fault),
    }
}

/// Discards the holder's device, if any, and leaves the holder empty.
#[unsafe(no_mangle)]
pub extern "C" fn device_release(holder: &mut Holder)
    ensures { holder.new.device ≡ None }
{
    let _before = holder.take();
}
