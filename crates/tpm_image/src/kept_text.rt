//! The state that a device keeps without power, except for Clock, as bytes. If anything except
//! Clock has changed, the bytes differ.

ghost use Rattle.std.specs.Prelude.{◌≡◌, List, [], not, ℕ};
ghost use Rattle.std.specs.Str.{bytes_eq};
ghost use Rattle.tpm_image_text.specs.KeptText.{kept_text};
ghost use Rattle.tpm_image_text.specs.Saving.{PutsFront};
ghost use Rattle.tpm_machine.specs.State.{state_of};

use std::marker::Model;
use tpm_image_text::{Text, put_front, write_body_at};
use tpm_machine::Machine;
use tpm_record::Keep;

/// The state that a device keeps without power, except for Clock. Contracts represent it by its
/// encoding.
#[derive(Drop)]
pub struct KeptText {
    text: Text,
}

impl Model for KeptText {
    ghost Value = { List ℕ };

    ghost view = { λ k. k.text };
}

impl KeptText {
    /// The empty encoding, which differs from the encoding of every device.
    pub fn none() -> KeptText
        ensures { result ≡ [] }
    {
        KeptText { text: Text::new() }
    }

    /// Replaces the stored encoding with the encoding of this device, and returns whether the two
    /// encodings differ.
    pub fn renew<K: Keep>(&mut self, machine: &Machine<K>) -> bool
        ensures text { self.new ≡ kept_text (state_of K.record_of machine.now) }
        ensures told { result ≡ not (bytes_eq self.old
            (kept_text (state_of K.record_of machine.now))) }
    {
        let mut text = Text::new();
        write_body_at(machine.keep(), 0, &mut text);
        let is_another = self.text.as_slice() != text.as_slice();
        self.text = text;
        is_another
    }
}

/// Writes the encoding of the state that a device keeps without power, except for Clock, to the
/// beginning of a buffer, if it fits. Returns the size of the encoding in either case.
pub fn kept_into<K: Keep>(machine: &Machine<K>, room: &mut [u8]) -> usize
    ensures { PutsFront (kept_text (state_of K.record_of machine.now)) room.old result room.new }
{
    let mut text = Text::new();
    write_body_at(machine.keep(), 0, &mut text);
    put_front(&[], text.as_slice(), room)
}
