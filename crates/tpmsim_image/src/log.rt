//! The log of a device: a script that repeats what the device executed. Each command is added to
//! the log before its response is sent.
//!
//! A log has the form of a journal: its head contains the image of the device at power-on, and each
//! command has an entry. [`Log`] is a log that is written to any writer, and is notified of the
//! commands as the device's witness; [`Logged`] is a witness that keeps an optional log. The
//! contracts say that a log's text contains exactly the commands of which it was notified, in their
//! order ([`laws`]).

ghost use Rattle.std.specs.Prelude.{◌≡◌, ◌≤◌, ◌+◌, ◌++◌, [], IfOk, OnErr, OnOk, false, length, true};
ghost use Rattle.tpm_bytes.specs.Tap.{marks_of};
ghost use Rattle.tpm_step.specs.step.Events.{plain_event};
ghost use Rattle.tpm_image_text.specs.Image.{device_image};
ghost use Rattle.tpm_journal_text.specs.Head.{content_limit};
ghost use Rattle.tpm_journal_text.specs.declared.head.HeadKind.TheVariants.{Image};
ghost use Rattle.tpm_machine.specs.State.{state_of};

mod entry;
pub mod laws;
pub mod logged;

use crate::log::entry::entry_of;
pub use logged::Logged;
use std::io::Write;
use tpm_bytes::{Sink, Tap};
use tpm_image_text::laws::image_laws;
use tpm_image_text::{Text, write_image as write_text};
use tpm_journal_text::{ENTRY_ROOM, HeadKind, head_size, write_head};
use tpm_machine::Machine;
use tpm_machine_saver::{Unsaved, Witness};
use tpm_record::Keep;
use tpm_step::{Event, Outcome};

/// The size of the buffer for a log's head.
const HEAD_ROOM: usize = 57_472;

/// A log. After a write has failed, nothing more is added.
#[derive(Drop)]
pub struct Log<W> {
    pub(crate) writer: Tap<W>,
    /// The checksum of the marks of the head and of all entries so far.
    pub(crate) sum: u64,
    pub(crate) failed: bool,
    /// The buffer for an entry, which is written in one write.
    pub(crate) room: [u8; ENTRY_ROOM],
}

impl<W: Write + Drop> Log<W> {
    ghost use Rattle.tpmsim_image.specs.log.Log.{Begins, written_of};

    /// Begins the log of a device whose power has just come on. Writes the head of the log, with
    /// the device's image and the time `now_ms` of the host's clock, in milliseconds.
    pub fn begin<K: Keep>(writer: W, machine: &Machine<K>, now_ms: u64) -> Result<Log<W>, Unsaved>
        ensures begins { IfOk result (λ log. Begins now_ms
            (device_image (state_of K.record_of machine.now))
            (W.contents writer) (written_of W.contents log)) }
        ensures goes { IfOk result (λ log. log.failed ≡ false) }
    {
        let mut text = Text::new();
        let image = write_image(machine, &mut text);
        let (front, back) = (image.as_slice(), text.as_slice());
        let mut head = [0; HEAD_ROOM];
        let (head, _) = head.split_at_mut(head_size(front.len() + back.len()));
        let sum = write_head(HeadKind::Image, now_ms, front, back, head);
        let mut writer = Tap::new(writer);
        let Ok(()) = writer.write_all(head) else {
            return Err(Unsaved);
        };
        let room = [0; ENTRY_ROOM];
        Ok(Log {
            writer,
            sum,
            failed: false,
            room,
        })
    }
}

/// Encodes the image of a device: returns the head of the image, and writes the rest to `text`,
/// which must be empty.
fn write_image<K: Keep>(machine: &Machine<K>, text: &mut Text) -> Sink<10>
    requires { text.old ≡ [] }
    ensures image { result ++ text.new
        ≡ device_image (state_of K.record_of machine.now) }
    ensures small { length result + length text.new ≤ content_limit Image }
{
    image_laws();
    write_text(machine.keep(), text)
}

impl<W: Write> Witness for Log<W> {
    ghost use Rattle.tpmsim_image.specs.log.Log.{Adds, written_of};

    ghost notes = { λ old one new. Adds (written_of W.contents old) one (written_of W.contents new) };

    ghost note_failed = { λ log. log.failed };

    #[tactic(auto, using(crate::proofs::log::Noting::adds_latest))]
    fn note<K: Keep>(
        &mut self,
        machine: &Machine<K>,
        event: &Event,
        outcome: &Outcome,
    ) -> Result<(), Unsaved> {
        self.add(event, machine.drawn(), outcome.response.as_slice())
    }
}

impl<W: Write> Log<W> {
    ghost use Rattle.tpmsim_image.specs.log.Executed.{entry_by, has_entry};
    ghost use Rattle.tpmsim_image.specs.log.Log.{AddsSome, written_of};

    /// Adds the entry of an event to the log. The event had this response, and drew `drawn` random
    /// bytes. If the event has no entry, or the write fails, nothing more can be added to the log.
    fn add(&mut self, event: &Event, drawn: usize, response: &[u8]) -> Result<(), Unsaved>
        ensures added { OnOk result (AddsSome (written_of W.contents self.old)
            (entry_by (plain_event event.now) drawn response.now) (written_of W.contents self.new)) }
        ensures ended { self.old.failed ≡ true → OnOk result ⊥ }
        ensures failed { OnErr result (self.new.failed ≡ true) }
        ensures stays { self.old.failed ≡ true → self.new.failed ≡ true }
        ensures takes { self.old.failed ≡ false → has_entry (plain_event event.now) drawn ≡ true
            → OnErr result ((marks_of self.new.writer).failed ≡ true) }
    {
        if self.failed {
            return Err(Unsaved);
        }
        let Some(entry) = entry_of(event, drawn, response) else {
            self.failed = true;
            return Err(Unsaved);
        };
        let size = entry.write(&mut self.sum, &mut self.room);
        let (text, _) = self.room.split_at(size);
        match self.writer.write_all(text) {
            Ok(()) => Ok(()),
            Err(_) => {
                self.failed = true;
                Err(Unsaved)
            }
        }
    }
}
