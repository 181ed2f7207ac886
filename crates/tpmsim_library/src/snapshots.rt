//! The exports for the state text of a device.

ghost use Rattle.std.specs.Prelude.{◌≡◌, ◌≢◌, ◌≤◌, IfSome};
ghost use Rattle.std.specs.Option.{MatchOption};
ghost use Rattle.std.specs.declared.option.Option.TheVariants.{Some};
ghost use Rattle.tpm_machine.specs.Follows.{Follows};
ghost use Rattle.tpm_machine.specs.History.{History};
ghost use Rattle.tpm_image_text.specs.Saving.{PutsFront};
ghost use Rattle.tpm_state_text.specs.Body.{IsWholeState, WholeState};
ghost use Rattle.tpm_state_text.specs.Sizes.{state_text_size};
ghost use Rattle.tpm_state_text.specs.State.{state_of_text, state_text};
ghost use Rattle.tpm_state_text.specs.declared.fault.StateFault.{StateFault};
ghost use Rattle.tpmsim_library.specs.Restoring.{IsOfState};
ghost use Rattle.tpmsim_library.specs.State.{record_of, whole_state};
ghost use Rattle.tpmsim_library.specs.Told.{done_code, no_memory};
ghost use Rattle.tpmsim_library.specs.Told.{state_number};
ghost use Rattle.tpmsim_library.specs.declared.device.Device.{Device};

use crate::device::Device;
use crate::holder::Holder;
use crate::told::{DONE, restore_number};
use std::alloc::Global;

/// Writes the state text of the device to the start of a buffer, if it fits. Returns the size of
/// the state text, even if it does not fit, or 0 if the holder is empty.
#[unsafe(no_mangle)]
pub extern "C" fn tpmsim_snapshot(alloc: Global, holder: &mut Holder, buffer: &mut [u8]) -> usize
    ensures written { MatchOption holder.old.device
        ((result ≡ 0) × (buffer.new ≡ buffer.old))
        (λ device. PutsFront (state_text (whole_state device)) buffer.old result buffer.new) }
    ensures small { result ≤ state_text_size }
    ensures is_state { IfSome holder.old.device (λ device. IsWholeState (whole_state device)) }
    ensures kept { holder.new.device ≡ holder.old.device }
{
    let Some(mut device) = holder.take(alloc) else {
        return 0;
    };
    let size = device.snapshot_into(buffer);
    holder.put(device);
    size
}

/// Replaces the holder's device with the device in a state text. On failure, returns the number of
/// the first error, or NO_MEMORY, and leaves the holder unchanged.
#[unsafe(no_mangle)]
pub extern "C" fn tpmsim_restore(alloc: Global, holder: &mut Holder, text: &[u8]) -> u8
    ensures restores { result ≡ done_code → (device : Device) × (holder.new.device ≡ Some device)
        × IsOfState text.now device }
    ensures refused { result ≢ done_code → holder.new.device ≡ holder.old.device }
    ensures told { result ≢ done_code → result ≢ no_memory → (fault : StateFault)
        × (result ≡ state_number fault) × (state_of_text text.now ≡ Err fault) }

    // Unless an allocation fails, restoring the state text of a device yields exactly that device,
    // including its layer and its history.
    ensures taken { (state : WholeState) → IsWholeState state → text.now ≡ state_text state
        → result ≢ done_code → result ≡ no_memory }
    ensures again { (before : Device) → IsWholeState (whole_state before)
        → text.now ≡ state_text (whole_state before) → result ≡ done_code
        → (after : Device) × (holder.new.device ≡ Some after)
        × (record_of after ≡ record_of before) × (after.journal.layer ≡ before.journal.layer) }
    ensures history { (state : WholeState) (history : History) → IsWholeState state
        → Follows state.device history → text.now ≡ state_text state → result ≡ done_code
        → (after : Device) × (holder.new.device ≡ Some after)
        × Follows (record_of after) history }
{
    match Device::restored(alloc, text) {
        Ok(device) => {
            holder.put(device);
            DONE
        }
        Err(fault) => restore_number(fault),
    }
}
