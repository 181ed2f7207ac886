//! Opens a device from a journal.

ghost use Rattle.std.specs.Prelude.{◌≡◌, false, option_copied, replicate};
ghost use Rattle.tpm_image_text.specs.Image.{image_of};
ghost use Rattle.tpm_journal.specs.Opening.{OpensJournal};
ghost use Rattle.tpm_journal.specs.Starting.{IsStart, StartsBy, start_by, start_by_image, start_by_state};
ghost use Rattle.tpm_journal_text.specs.Head.{head_sum};
ghost use Rattle.tpm_machine.specs.State.{state_of};
ghost use Rattle.tpm_record.specs.Record.{manufactured};
ghost use Rattle.tpm_state_text.specs.State.{state_of_text};

use crate::following::FollowFault;
use crate::journal::Journal;
use tpm_image::{ImageFault, open_into};
use tpm_journal_text::{CONTENT_LIMIT, Head, HeadKind, read_head};
use tpm_machine::Machine;
use tpm_record::Keep;
use tpm_snapshot::restore_new;
use tpm_state_text::RestoreFault;
use tpm_step::Outcome;

/// The reasons why bytes could not be opened as a journal.
#[derive(Clone, Copy, PartialEq, Eq)]
pub enum OpenFault {
    /// The bytes do not begin with a head.
    NoJournal,
    /// The head contains no image from which this device can be opened.
    Image(ImageFault),
    /// The head contains no state text from which this device can be restored.
    State(RestoreFault),
    /// The execution of the entries after the head stopped at a fault.
    Follow(FollowFault),
}

/// A head that was opened.
#[derive(Clone, Copy, PartialEq, Eq)]
pub(crate) struct Started {
    /// The journal before its first entry.
    pub(crate) journal: Journal,
    /// The size of the head.
    pub(crate) size: usize,
}

/// A journal that was opened.
#[derive(Clone, Copy, PartialEq, Eq)]
pub struct Opened {
    pub journal: Journal,
    /// The total size of the head and the entries.
    pub taken: usize,
}

/// Opens the device from a head's image in a new machine.
fn open_image<K: Keep>(machine: &mut Machine<K>, head: &Head) -> Result<Journal, OpenFault>
    requires new { state_of K.record_of machine.old ≡ manufactured (replicate 256 0) }
    requires never_refused { K.can_refuse ≡ false }
    requires sum { head.now.sum ≡ head_sum head.now.clock head.now.content.now }
    ensures { IsStart (start_by_image head.now.clock head.now.content.now
        (image_of head.now.content.now)) result (state_of K.record_of machine.new) }
{
    match open_into(machine, head.content) {
        Ok(()) => Ok(Journal::begun(head.sum, head.clock)),
        Err(fault) => Err(OpenFault::Image(fault)),
    }
}

/// Restores the device from a head's state text in a new machine.
fn open_state<K: Keep>(machine: &mut Machine<K>, head: &Head) -> Result<Journal, OpenFault>
    requires new { state_of K.record_of machine.old ≡ manufactured (replicate 256 0) }
    requires never_refused { K.can_refuse ≡ false }
    requires sum { head.now.sum ≡ head_sum head.now.clock head.now.content.now }
    ensures { IsStart (start_by_state head.now.clock head.now.content.now
        (state_of_text head.now.content.now)) result (state_of K.record_of machine.new) }
{
    match restore_new(machine, head.content) {
        Ok(layer) => Ok(Journal::resumed(head.sum, head.clock, layer.as_ref())),
        Err(fault) => Err(OpenFault::State(fault)),
    }
}

/// Opens the device from a head in a new machine. Returns the journal that the head starts. On
/// error, the machine's state is unspecified.
fn open_head<K: Keep>(machine: &mut Machine<K>, head: &Head) -> Result<Journal, OpenFault>
    requires new { state_of K.record_of machine.old ≡ manufactured (replicate 256 0) }
    requires never_refused { K.can_refuse ≡ false }
    requires sum { head.now.sum ≡ head_sum head.now.clock head.now.content.now }
    ensures { IsStart (start_by head.now.kind head.now.clock head.now.content.now) result
        (state_of K.record_of machine.new) }
{
    match head.kind {
        HeadKind::Image => open_image(machine, head),
        HeadKind::State | HeadKind::Versioned(_) => open_state(machine, head),
    }
}

/// Opens the device from the head of a journal, in a machine just manufactured from all-zero random
/// bytes. On error, the machine's state is unspecified.
pub(crate) fn start<K: Keep>(machine: &mut Machine<K>, text: &[u8]) -> Result<Started, OpenFault>
    requires new { state_of K.record_of machine.old ≡ manufactured (replicate 256 0) }
    requires never_refused { K.can_refuse ≡ false }
    ensures { StartsBy text.now result (state_of K.record_of machine.new) }
{
    let mut content = [0; CONTENT_LIMIT];
    let Some(head) = read_head(text, &mut content) else {
        return Err(OpenFault::NoJournal);
    };
    match open_head(machine, &head) {
        Ok(journal) => Ok(Started {
            journal,
            size: head.size,
        }),
        Err(fault) => Err(fault),
    }
}

/// Opens a device and its completing layer from their journal, in a machine just manufactured from
/// all-zero random bytes. On error, the machine's state is unspecified.
pub fn open<K: Keep>(
    machine: &mut Machine<K>,
    text: &[u8],
    outcome: &mut Outcome,
) -> Result<Opened, OpenFault>
    requires new { state_of K.record_of machine.old ≡ manufactured (replicate 256 0) }
    requires never_refused { K.can_refuse ≡ false }
    ensures { OpensJournal text.now result (state_of K.record_of machine.new) }
{
    let started = match start(machine, text) {
        Ok(started) => started,
        Err(fault) => return Err(fault),
    };
    let mut journal = started.journal;
    let (_, rest) = text.split_at(started.size);
    let followed = journal.follow(machine, rest, outcome);
    match followed.fault {
        None => Ok(Opened {
            journal,
            taken: started.size + followed.taken,
        }),
        Some(fault) => Err(OpenFault::Follow(fault)),
    }
}
