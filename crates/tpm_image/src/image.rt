//! Saves the image of a device, and opens a device from an image.

ghost use Rattle.std.specs.Prelude.{◌≡◌, ◌||◌, ◌∷◌, IfOk, OnErr, OnOk, false, replicate, true};
ghost use Rattle.std.specs.Io.KnownBytes.{Appends};
ghost use Rattle.tpm_bytes.specs.Reading.{AreBytes};
ghost use Rattle.tpm_bytes.specs.Tap.{AppendsFront, device_of, marks_of};
ghost use Rattle.tpm_image_text.specs.Image.{IsImage, device_image};
ghost use Rattle.tpm_image_text.specs.NonVolatile.{IsNonVolatile, NonVolatile, kept_of, powered_on};
ghost use Rattle.tpm_image_text.specs.Opening.{Opens, OpensAgain, OpensSymmetric};
ghost use Rattle.tpm_commands.specs.declared.profile.Profile.TheVariants.{Symmetric};
ghost use Rattle.tpm_image_text.specs.Saving.{PutsFront};
ghost use Rattle.tpm_image_text.specs.declared.version.Version.{Version};
ghost use Rattle.tpm_machine.specs.State.{state_of};
ghost use Rattle.tpm_machine.specs.Follows.{Follows};
ghost use Rattle.tpm_machine.specs.History.{History, PowerCycled};
ghost use Rattle.tpm_record.specs.IsRecord.{IsRecord};
ghost use Rattle.tpm_record.specs.Record.{Record, manufactured};

use std::alloc::Global;
use std::io::Write;
use tpm_bytes::Tap;
use tpm_image_text::{
    FRAME_BYTES, FillFault, ImageFault, SYMMETRIC_WORD, SaveFault, Text, Version, fill,
    framed_body, is_body, put_front, read_body, send, write_image,
};
use tpm_machine::Machine;
use tpm_record::Keep;

/// Writes the image of a device, in the version of the device's profile, and leaves the device
/// unchanged. If the tap had not failed before, the result is the fault `Write` exactly when the
/// writer failed. In that case, only a prefix of the image was written.
pub fn save<K: Keep, D: Write>(machine: &Machine<K>, tap: &mut Tap<D>) -> Result<(), SaveFault>
    ensures written { OnOk result (Appends (D.contents (device_of tap.old))
        (D.contents (device_of tap.new))
        (device_image (state_of K.record_of machine.now))) }
    ensures cut_off { OnErr result (AppendsFront (D.contents (device_of tap.old))
        (D.contents (device_of tap.new))
        (device_image (state_of K.record_of machine.now))) }
    ensures unmarked { OnOk result (marks_of tap.new ≡ marks_of tap.old) }
    ensures failed { OnErr result ((marks_of tap.new).failed ≡ true) }
{
    let mut text = Text::new();
    let head = write_image(machine.keep(), &mut text);
    send(tap, head.as_slice(), text.as_slice())
}

/// Writes the image of a device, in the version of the device's profile, to the beginning of a
/// buffer, and leaves the device unchanged. Returns the size of the image; if the buffer is smaller,
/// nothing is written.
pub fn save_into<K: Keep>(machine: &Machine<K>, room: &mut [u8]) -> usize
    ensures { PutsFront (device_image (state_of K.record_of machine.now)) room.old result room.new }
{
    let mut text = Text::new();
    let head = write_image(machine.keep(), &mut text);
    put_front(head.as_slice(), text.as_slice(), room)
}

/// Opens a device of the symmetric profile from its image, in either version. The result is the saved
/// device after a power cycle, or the first fault in the order of [`ImageFault`]; NoMemory is
/// returned only if the bytes are an image. The image of a device of the complete profile begins with
/// another magic word, so the fault is Magic; [`open_into`] opens both.
pub fn open<K: Keep>(alloc: Global, text: &[u8]) -> Result<Machine<K>, ImageFault>
    // The result is the opened device, or the first fault.
    ensures exact { OpensSymmetric (state_of K.record_of) (K.empty_can_refuse || K.can_refuse)
        text.now result }
    // Bytes that can be opened are an image of the device in some version, within that version's
    // limits.
    ensures found { IfOk result (λ machine. (version : Version) × (kept : NonVolatile)
        × IsNonVolatile kept × IsImage version kept text.now
        × (state_of K.record_of machine ≡ powered_on kept)) }
    // Opening the image of a device of the symmetric profile succeeds unless an allocation fails.
    ensures only { (version : Version) (r : Record) → IsRecord r → r.fixed.profile ≡ Symmetric
        → IsImage version (kept_of r) text.now
        → OpensAgain (state_of K.record_of) (K.empty_can_refuse || K.can_refuse) r result }

    // If a device of the symmetric profile followed a history, the device opened from its image
    // follows that history with one more power cycle.
    ensures history { (version : Version) (r : Record) (history : History) → IsRecord r
        → r.fixed.profile ≡ Symmetric → Follows r history → IsImage version (kept_of r) text.now
        → IfOk result (λ machine. Follows (state_of K.record_of machine) (PowerCycled ∷ history)) }
{
    open_symmetric(alloc, text)
}

/// Opens a device of the symmetric profile. The contract does not mention how images are encoded.
fn open_symmetric<K: Keep>(alloc: Global, text: &[u8]) -> Result<Machine<K>, ImageFault>
    ensures exact { OpensSymmetric (state_of K.record_of) (K.empty_can_refuse || K.can_refuse)
        text.now result }
    ensures bytes { AreBytes text.now }
{
    if text.len() < FRAME_BYTES {
        return Err(ImageFault::Short);
    }
    if !text.starts_with(&SYMMETRIC_WORD) {
        return Err(ImageFault::Magic);
    }
    open_device(alloc, text)
}

/// Opens a device from its image. The contract does not mention how images are encoded.
fn open_device<K: Keep>(alloc: Global, text: &[u8]) -> Result<Machine<K>, ImageFault>
    ensures exact { Opens (state_of K.record_of) (K.empty_can_refuse || K.can_refuse) text.now
        result }
    ensures bytes { AreBytes text.now }
{
    let (version, body) = framed_body(text)?;
    match fill(alloc, version, body) {
        Ok(keep) => Ok(Machine::from_keep(keep)),
        Err(FillFault::Malformed) => Err(ImageFault::Body),
        Err(FillFault::NoMemory) => {
            if is_body(alloc, version, body) {
                Err(ImageFault::NoMemory)
            } else {
                Err(ImageFault::Body)
            }
        }
    }
}

/// Opens a device of either profile from its image, in any version, in a machine just manufactured from
/// all-zero random bytes. `K` must be a type that never runs out of memory. The device is not moved. On
/// error, the machine's state is unspecified.
pub fn open_into<K: Keep>(machine: &mut Machine<K>, text: &[u8]) -> Result<(), ImageFault>
    requires new { state_of K.record_of machine.old ≡ manufactured (replicate 256 0) }
    requires never_refused { K.can_refuse ≡ false }
    // The machine is the opened device, or the result is the first fault.
    ensures exact { Opens (λ done. state_of K.record_of machine.new) false text.now result }

    // The device follows the history of the saved device, with one more power cycle.
    ensures history { (version : Version) (r : Record) (history : History) → IsRecord r
        → Follows r history → IsImage version (kept_of r) text.now
        → IfOk result (λ done. Follows (state_of K.record_of machine.new)
        (PowerCycled ∷ history)) }
{
    fill_machine(machine, text)
}

/// Opens a device from its image in a new machine. The contract does not mention histories.
fn fill_machine<K: Keep>(machine: &mut Machine<K>, text: &[u8]) -> Result<(), ImageFault>
    requires new { state_of K.record_of machine.old ≡ manufactured (replicate 256 0) }
    requires never_refused { K.can_refuse ≡ false }
    ensures { Opens (λ done. state_of K.record_of machine.new) false text.now result }
{
    let (version, body) = framed_body(text)?;
    match read_body(version, machine.keep_mut(), body) {
        Ok(()) => Ok(()),
        Err(FillFault::Malformed) => Err(ImageFault::Body),
        Err(FillFault::NoMemory) => Err(ImageFault::NoMemory),
    }
}
