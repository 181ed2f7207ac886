//! The enumerated values of a slot, each encoded as one byte.

ghost use Rattle.std.specs.Prelude.{◌≡◌};
ghost use Rattle.tpm_bytes.specs.Reading.{Reads};
ghost use Rattle.tpm_sequence_text.specs.Kind.{beginning_in, beginning_named, beginning_number, kind_in, kind_named, kind_number, sequence_kind};

use tpm_bytes::Cursor;
use tpm_image_text::{Malformed, read_u8};
use tpm_sequence::{Beginning, Sequence};

/// The kind of a sequence.
#[derive(Clone, Copy, PartialEq, Eq)]
pub enum SequenceKind {
    Hash,
    Event,
    Hmac,
}

/// The kind of this sequence.
pub(crate) fn kind_of(sequence: &Sequence) -> SequenceKind
    ensures { result ≡ sequence_kind sequence.now }
{
    match sequence {
        Sequence::Hash {
            state: _,
            beginning: _,
        } => SequenceKind::Hash,
        Sequence::Event { sha1: _, sha256: _ } => SequenceKind::Event,
        Sequence::Hmac { state: _ } => SequenceKind::Hmac,
    }
}

/// The byte that encodes the kind of the sequence in a slot, or a free slot.
pub(crate) fn kind_number(kind: Option<SequenceKind>) -> u8
    ensures { result ≡ kind_number kind }
{
    match kind {
        None => 0,
        Some(SequenceKind::Hash) => 1,
        Some(SequenceKind::Event) => 2,
        Some(SequenceKind::Hmac) => 3,
    }
}

fn kind_named(number: u8) -> Option<Option<SequenceKind>>
    ensures { result ≡ kind_named number }
{
    match number {
        0 => Some(None),
        1 => Some(Some(SequenceKind::Hash)),
        2 => Some(Some(SequenceKind::Event)),
        3 => Some(Some(SequenceKind::Hmac)),
        _ => None,
    }
}

/// Reads the kind of the sequence in a slot, or None for a free slot.
#[tactic(auto, unfolding(crate::specs::Kind::kind_in))]
pub(crate) fn read_kind(text: &mut Cursor) -> Result<Option<SequenceKind>, Malformed>
    ensures { Reads (λ kind. kind) (kind_in text.old) text.old result text.new }
{
    let mut ahead = Cursor::new(text.rest());
    let number = read_u8(&mut ahead)?;
    let Some(kind) = kind_named(number) else {
        return Err(Malformed);
    };
    *text = ahead;
    Ok(kind)
}

/// The byte that encodes how the data of a hash sequence begin.
pub(crate) fn beginning_number(beginning: Beginning) -> u8
    ensures { result ≡ beginning_number beginning }
{
    match beginning {
        Beginning::Empty => 0,
        Beginning::One => 1,
        Beginning::Two => 2,
        Beginning::Three => 3,
        Beginning::Generated => 4,
        Beginning::Ordinary => 5,
    }
}

fn beginning_named(number: u8) -> Option<Beginning>
    ensures { result ≡ beginning_named number }
{
    match number {
        0 => Some(Beginning::Empty),
        1 => Some(Beginning::One),
        2 => Some(Beginning::Two),
        3 => Some(Beginning::Three),
        4 => Some(Beginning::Generated),
        5 => Some(Beginning::Ordinary),
        _ => None,
    }
}

/// Reads how the data of a hash sequence begin.
#[tactic(auto, unfolding(crate::specs::Kind::beginning_in))]
pub(crate) fn read_beginning(text: &mut Cursor) -> Result<Beginning, Malformed>
    ensures { Reads (λ beginning. beginning) (beginning_in text.old) text.old result text.new }
{
    let mut ahead = Cursor::new(text.rest());
    let number = read_u8(&mut ahead)?;
    let Some(beginning) = beginning_named(number) else {
        return Err(Malformed);
    };
    *text = ahead;
    Ok(beginning)
}
