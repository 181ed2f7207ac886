//! Creates or replaces a device from a state text.

ghost use Rattle.std.specs.Prelude.{◌≡◌, ◌||◌, replicate};
ghost use Rattle.tpm_record.specs.Record.{manufactured};
ghost use Rattle.tpm_state_text.specs.Body.{IsWholeState, WholeState};
ghost use Rattle.tpm_state_text.specs.Filling.{Restores, RestoresAgain, RestoresInto, RestoresNew};
ghost use Rattle.tpm_state_text.specs.State.{state_of_text, state_text};

use crate::body::read_body;
use crate::fault::{RestoreFault, StateFault};
use crate::frame::framed_body;
use crate::layer::Layer;
use std::alloc::Global;
use tpm_image_text::FillFault;
use tpm_record::Keep;

/// Replaces a device just manufactured from all-zero random bytes with the device that a state text
/// encodes, without moving it. Returns the completing layer, or the first fault found in the bytes.
/// On error, the device's state is unspecified.
pub fn restore_new<K: Keep>(keep: &mut K, text: &[u8]) -> Result<Option<Layer>, RestoreFault>
    requires { K.record_of keep.old ≡ manufactured (replicate 256 0) }
    ensures { RestoresNew K.can_refuse (state_of_text text.now) (K.record_of keep.new) result }
{
    let (version, body) = match framed_body(text) {
        Ok(framed) => framed,
        Err(fault) => return Err(RestoreFault::Text(fault)),
    };
    let Some(profile) = version.profile() else {
        return Err(RestoreFault::Text(StateFault::Earlier));
    };
    match read_body(profile, keep, body) {
        Ok(layer) => Ok(layer),
        Err(FillFault::Malformed) => Err(RestoreFault::Text(StateFault::Body)),
        Err(FillFault::NoMemory) => Err(RestoreFault::NoMemory),
    }
}

/// Creates the device that a state text encodes. The contract does not mention the device that
/// wrote the state text.
fn made<K: Keep>(alloc: Global, text: &[u8]) -> Result<(K, Option<Layer>), RestoreFault>
    ensures { Restores K.record_of (K.empty_can_refuse || K.can_refuse) text.now result }
{
    let Ok(mut keep) = K::empty(alloc) else {
        return Err(RestoreFault::NoMemory);
    };
    let layer = restore_new(&mut keep, text)?;
    Ok((keep, layer))
}

/// Returns the device that a state text encodes, as a new `Keep`, with its completing layer; or the
/// first fault found in the bytes.
#[tactic(auto, using(crate::proofs::RestoringLaws::restored_again))]
pub fn restored<K: Keep>(alloc: Global, text: &[u8]) -> Result<(K, Option<Layer>), RestoreFault>
    ensures exact { Restores K.record_of (K.empty_can_refuse || K.can_refuse) text.now result }
    // The state text of a device restores exactly that device, unless an allocation fails.
    ensures again { (state : WholeState) → IsWholeState state → text.now ≡ state_text state
        → RestoresAgain K.record_of (K.empty_can_refuse || K.can_refuse) state result }
{
    made(alloc, text)
}

/// Replaces a device with the device that a state text encodes, and returns the completing layer.
/// On error, the device is unchanged. The new device is created next to the old device and then
/// moved.
pub fn restore_into<K: Keep>(
    keep: &mut K,
    alloc: Global,
    text: &[u8],
) -> Result<Option<Layer>, RestoreFault>
    ensures { RestoresInto (K.empty_can_refuse || K.can_refuse) text.now (K.record_of keep.old)
        result (K.record_of keep.new) }
{
    let (restored, layer) = made(alloc, text)?;
    *keep = restored;
    Ok(layer)
}
