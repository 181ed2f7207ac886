//! Restores objects from saved contexts (TPM 2.0 Library, Part 1, section 30). The device itself
//! has no TPM2_ContextLoad; the completing layer above it calls `Machine::place`.

ghost use Rattle.std.specs.Prelude.{◌≡◌};
ghost use Rattle.tpm_machine.specs.Placing.{IfMemory, Places, placing_seen};
ghost use Rattle.tpm_machine.specs.State.{state_of};
ghost use Rattle.tpm_record.specs.AnyObject.{AddsObject};
ghost use Rattle.tpm_step.specs.step.Events.{Placed};
ghost use Rattle.tpm_step.specs.step.Execution.{Executes};
ghost use Rattle.tpm_step.specs.history.Follows.{FollowsOn};

use crate::machine::Machine;
use tpm_containers::{Sizes, SlotFault};
use tpm_object::Object;
use tpm_record::{Keep, read_widths};
use tpm_types_common::Handle;

/// Adds an object with the lowest free handle, and returns the handle.
fn add_object<K: Keep>(keep: &mut K, object: Object) -> Result<Handle, SlotFault>
    ensures { AddsObject K.can_refuse (K.record_of keep.old) object result (K.record_of keep.new) }
{
    keep.objects_mut().add(object)
}

impl<K: Keep> Machine<K> {
    ghost use Rattle.tpm_machine.specs.State.{latest_drawn};

    /// Puts an object from a saved context into the lowest free slot for transient objects, and
    /// returns its handle. If all slots are taken or an allocation fails, nothing changes.
    pub fn place(&mut self, object: Object) -> Result<Handle, SlotFault>
        ensures places { Places K.can_refuse (state_of K.record_of self.old) result
            (state_of K.record_of self.new) }

        // Unless an allocation failed, the call counts as the execution of an event, which draws no
        // random bytes.
        ensures executes { IfMemory result (Executes K.can_refuse (state_of K.record_of self.old)
            (Placed object) (placing_seen (state_of K.record_of self.new))) }
        ensures drawn { latest_drawn self.new ≡ 0 }

        // If the device followed a history, it now follows that history, extended by the placed
        // object. Therefore all laws about histories still apply to the device.
        ensures follows { IfMemory result (FollowsOn (state_of K.record_of self.old)
            (Placed object) (placing_seen (state_of K.record_of self.new))) }
    {
        object.read_sizes();
        read_widths(&self.keep);
        self.drawn = 0;
        add_object(&mut self.keep, object)
    }
}
