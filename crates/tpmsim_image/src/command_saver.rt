//! Saves a served device's image before each response, if that is requested.

ghost use Rattle.std.specs.Prelude.{◌≡◌, is_some, true};

use crate::image_saver::ImageSaver;
use tpm_machine::Machine;
use tpm_machine_saver::{Saver, Unsaved, Witness};
use tpm_record::Keep;
use tpm_step::{Event, Outcome};

/// The saver of a served device's image.
#[derive(Drop)]
pub struct CommandSaver<'a> {
    pub image: ImageSaver<'a>,
    /// Whether the image is saved before each response.
    pub saves_each: bool,
}

impl Witness for CommandSaver<'_> {
    ghost use Rattle.std.specs.Prelude.{if◌then◌else◌};
    ghost use Rattle.tpmsim_image.specs.Saving.{saver_after_change};

    ghost notes = { λ old one new. new ≡ (if old.saves_each
        then record old { image = saver_after_change old.image one.seen.after } else old) };

    ghost note_failed = { λ saver. is_some saver.image.fault };

    fn note<K: Keep>(
        &mut self,
        machine: &Machine<K>,
        _event: &Event,
        _outcome: &Outcome,
    ) -> Result<(), Unsaved> {
        if self.saves_each {
            self.image.save_change(machine)?;
        }
        Ok(())
    }
}
