//! The buffer into which an image or a state text is written before it is copied to the caller's
//! buffer.

ghost use Rattle.std.specs.Prelude.{◌≡◌, ◌≤◌, option_copied};
ghost use Rattle.tpm_image_text.specs.Image.{device_image};
ghost use Rattle.tpm_image_text.specs.KeptText.{kept_text};
ghost use Rattle.tpm_image_text.specs.Saving.{PutsFront};
ghost use Rattle.tpm_record.specs.IsRecord.{IsRecord};
ghost use Rattle.tpm_slots.specs.SlotRecord.{slot_record};
ghost use Rattle.tpm_state_text.specs.Filling.{state_of};
ghost use Rattle.tpm_state_text.specs.Sizes.{state_text_size};
ghost use Rattle.tpm_state_text.specs.State.{state_text};

use std::marker::Model;
use tpm_image_text::{Text, put_front, write_body_at, write_image};
use tpm_machine::Machine;
use tpm_slots::SlotKeep;
use tpm_snapshot::Layer;
use tpm_state_text::write_state;

/// A buffer that is allocated once, because it is almost as large as a device. Each use clears it.
/// It is not part of the device's state, so contracts do not mention its bytes.
#[derive(Drop)]
pub struct Scratch {
    text: Text,
}

impl Model for Scratch {
    ghost Value = { Unit {0} };

    ghost view = { λ s. tt };
}

impl Scratch {
    /// An empty buffer.
    pub fn new() -> Scratch {
        Scratch { text: Text::new() }
    }

    /// Writes the image of a machine to the start of a buffer, if it fits. Returns the size of the
    /// image.
    pub fn save_into(&mut self, machine: &Machine<SlotKeep>, buffer: &mut [u8]) -> usize
        ensures { PutsFront (device_image (slot_record machine.now.keep)) buffer.old
            result buffer.new }
    {
        self.text.clear();
        let head = write_image(machine.keep(), &mut self.text);
        put_front(head.as_slice(), self.text.as_slice(), buffer)
    }

    /// If they fit, writes the data that a machine keeps without power, except its clock, to the
    /// start of a buffer. Returns the size of these data.
    pub fn kept_into(&mut self, machine: &Machine<SlotKeep>, buffer: &mut [u8]) -> usize
        ensures { PutsFront (kept_text (slot_record machine.now.keep)) buffer.old result
            buffer.new }
    {
        self.text.clear();
        write_body_at(machine.keep(), 0, &mut self.text);
        put_front(&[], self.text.as_slice(), buffer)
    }

    /// Writes the state text of a machine, with its completing layer, to the start of a buffer, if
    /// it fits. Returns its size.
    pub fn snapshot_into(
        &mut self,
        machine: &Machine<SlotKeep>,
        layer: Option<&Layer>,
        buffer: &mut [u8],
    ) -> usize
        ensures put { PutsFront
            (state_text (state_of (slot_record machine.now.keep) (option_copied layer.entry)))
            buffer.old result buffer.new }
        ensures small { result ≤ state_text_size }
        ensures is_record { IsRecord (slot_record machine.now.keep) }
    {
        self.text.clear();
        let head = write_state(machine.keep(), layer, &mut self.text);
        put_front(head.as_slice(), self.text.as_slice(), buffer)
    }
}
