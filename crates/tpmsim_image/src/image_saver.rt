//! Saves a script's device to its image file.

ghost use Rattle.std.specs.Prelude.{◌≡◌, [], None, OnErr, OnOk, is_some, true};
ghost use Rattle.tpm_image_text.specs.KeptText.{kept_text};
ghost use Rattle.tpm_machine.specs.State.{state_of};

use crate::fault::DeviceFault;
use crate::image_file::ImageFile;
use tpm_image::KeptText;
use tpm_machine::Machine;
use tpm_machine_saver::{Saver, Unsaved};
use tpm_record::Keep;

/// A saver of a script's device. It remembers what it wrote last. Therefore a command that changes
/// only the clock causes no save, and a device that is already in the file is not written again.
#[derive(Drop)]
pub struct ImageSaver<'a> {
    rt: &'a HostRuntime,
    file: ImageFile<'a>,
    /// The contents of the image in the file, without the clock, if they are known.
    kept: KeptText,
    /// The clock of the device that was written last, if no save has failed since then.
    clock: Option<u64>,
    /// Why a save failed.
    fault: Option<DeviceFault>,
}

impl<'a> ImageSaver<'a> {
    /// Creates a saver that has saved nothing.
    pub fn new(rt: &'a HostRuntime, file: ImageFile<'a>) -> ImageSaver<'a> {
        ImageSaver {
            rt,
            file,
            kept: KeptText::none(),
            clock: None,
            fault: None,
        }
    }

    /// Records that the file contains this device. Even so, the first save with the clock writes
    /// the file again, since it may have an older version, or be readable by other users.
    pub fn opened<K: Keep>(&mut self, machine: &Machine<K>)
        ensures { self.new
            ≡ record self.old { kept = kept_text (state_of K.record_of machine.now) } }
    {
        let _ = self.kept.renew(machine);
    }

    /// Returns why a save failed, or None if no save failed.
    pub fn fault(&self) -> Option<DeviceFault> {
        self.fault
    }

    /// Whether the device that was written last had this clock.
    fn has_clock(&self, clock: u64) -> bool
        ensures { result ≡ true → self.now.clock ≡ Some clock }
    {
        match self.clock {
            Some(written) => written == clock,
            None => false,
        }
    }

    /// Writes a device, and remembers its clock. If the write fails, the saver forgets the contents
    /// of the file, so that the next save writes again.
    fn write<K: Keep>(&mut self, machine: &Machine<K>) -> Result<(), Unsaved>
        ensures written { OnOk result (self.new
            ≡ record self.old { clock = Some (state_of K.record_of machine.now).fixed.clock }) }
        ensures failed { OnErr result (is_some self.new.fault ≡ true) }
        ensures forgets { OnErr result ((self.new.kept ≡ []) × (self.new.clock ≡ None)) }
        ensures stays { is_some self.old.fault ≡ true → is_some self.new.fault ≡ true }
    {
        match self.file.save(self.rt, machine) {
            Ok(()) => {
                self.clock = Some(machine.keep().fixed().clock);
                Ok(())
            }
            Err(fault) => {
                self.kept = KeptText::none();
                self.clock = None;
                self.fault = Some(fault);
                Err(Unsaved)
            }
        }
    }
}

impl Saver for ImageSaver<'_> {
    ghost use Rattle.std.specs.Prelude.{Some};
    ghost use Rattle.tpmsim_image.specs.Saving.{saver_after_change};

    ghost saves = { λ old r new. new
        ≡ record old { kept = kept_text r; clock = Some r.fixed.clock } };

    ghost saves_change = { λ old r new. new ≡ saver_after_change old r };

    ghost has_failed = { λ saver. is_some saver.fault };

    fn save_change<K: Keep>(&mut self, machine: &Machine<K>) -> Result<(), Unsaved> {
        if !self.kept.renew(machine) {
            return Ok(());
        }
        self.write(machine)
    }

    fn save<K: Keep>(&mut self, machine: &Machine<K>) -> Result<(), Unsaved> {
        let changed = self.kept.renew(machine);
        if !changed && self.has_clock(machine.keep().fixed().clock) {
            return Ok(());
        }
        self.write(machine)
    }
}
