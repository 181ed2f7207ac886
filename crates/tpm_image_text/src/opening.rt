//! Decodes the state of a device, or finds out why bytes do not encode a state.

ghost use Rattle.std.specs.Prelude.{◌≡◌, ◌||◌, Err, is_ok, true};
ghost use Rattle.tpm_image_text.specs.Body.{body_of};
ghost use Rattle.tpm_image_text.specs.Filling.{Filled};
ghost use Rattle.tpm_image_text.specs.Opening.{Opens};
ghost use Rattle.tpm_image_text.specs.declared.version.Version.{Version};
ghost use Rattle.tpm_record.specs.Record.{Record};

use crate::body::read_body;
use crate::fault::{FillFault, ImageFault};
use crate::frame::framed_body;
use crate::version::Version;
use std::alloc::Global;
use tpm_record::Keep;
use tpm_slots::SlotKeep;

/// Returns the state that a body of the given version encodes, as a new `Keep`.
pub fn fill<K: Keep>(alloc: Global, version: Version, body: &[u8]) -> Result<K, FillFault>
    ensures { Filled K.record_of (K.empty_can_refuse || K.can_refuse) (body_of version body.now)
        result }
{
    let Ok(mut keep) = K::empty(alloc) else {
        return Err(FillFault::NoMemory);
    };
    read_body(version, &mut keep, body)?;
    Ok(keep)
}

/// Whether a body of the given version encodes a state. The call decodes the body into a
/// `SlotKeep`, which never runs out of memory.
pub fn is_body(alloc: Global, version: Version, body: &[u8]) -> bool
    ensures { result ≡ is_ok (body_of version body.now) }
{
    match fill::<SlotKeep>(alloc, version, body) {
        Ok(_) => true,
        Err(_) => false,
    }
}

/// Returns the fault to report if opening an image ran out of memory: the first fault of the bytes,
/// or NoMemory if they are an image. The call itself allocates no memory.
#[inline(never)]
pub fn fault_of(alloc: Global, text: &[u8]) -> ImageFault
    ensures { Opens (λ (r : Record). r) true text.now (Err result) }
{
    let (version, body) = match framed_body(text) {
        Ok(framed) => framed,
        Err(fault) => return fault,
    };
    if is_body(alloc, version, body) {
        ImageFault::NoMemory
    } else {
        ImageFault::Body
    }
}
