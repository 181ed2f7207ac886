//! The head of a context: its sequence, its savedHandle and its hierarchy.

ghost use Rattle.std.specs.Prelude.{◌≡◌, length};
ghost use Rattle.tpm_bytes.specs.Reading.{Reads};
ghost use Rattle.tpm_context.specs.Head.{head_at, head_of, head_text, hierarchy_at, is_of, is_sequence_head, saved_at, saved_named, saved_number, saved_of, sequence_head};

use crate::fault::ContextFault;
use tpm_bytes::{Cursor, Sink};
use tpm_object::Object;
use tpm_types_common::{Handle, HierarchyHandle};
use tpm_types_object::{ObjectAttribute, Public};

/// The size of a head, in bytes.
pub(crate) const HEAD_SIZE: usize = 16;

/// The savedHandle of an object or of a sequence object: TPMI_DH_SAVED of TPM 2.0 Library, Part 2.
#[derive(Clone, Copy, PartialEq, Eq)]
pub enum SavedHandle {
    /// An object without stClear: 80000000.
    Ordinary,
    /// A sequence object: 80000001.
    Sequence,
    /// An object with stClear: 80000002.
    StClear,
}

/// The fields of a context before its contextBlob.
#[derive(Clone, Copy, PartialEq, Eq)]
pub struct ContextHead {
    pub sequence: u64,
    pub saved: SavedHandle,
    pub hierarchy: HierarchyHandle,
}

impl SavedHandle {
    /// The number that encodes this savedHandle.
    pub fn number(self) -> u32
        ensures { result ≡ saved_number self }
    {
        match self {
            SavedHandle::Ordinary => 0x8000_0000,
            SavedHandle::Sequence => 0x8000_0001,
            SavedHandle::StClear => 0x8000_0002,
        }
    }

    fn named(number: u32) -> Option<SavedHandle>
        ensures { result ≡ saved_named number }
    {
        match number {
            0x8000_0000 => Some(SavedHandle::Ordinary),
            0x8000_0001 => Some(SavedHandle::Sequence),
            0x8000_0002 => Some(SavedHandle::StClear),
            _ => None,
        }
    }

    /// Returns the savedHandle of an object with this public area.
    fn of(public: &Public) -> SavedHandle
        ensures { result ≡ saved_of public.now }
    {
        if public.attributes.has(ObjectAttribute::StClear) {
            SavedHandle::StClear
        } else {
            SavedHandle::Ordinary
        }
    }
}

#[tactic(auto, unfolding(crate::specs::Head::saved_at))]
fn read_saved(text: &mut Cursor) -> Result<SavedHandle, ContextFault>
    ensures { Reads (λ one. one) (saved_at text.old) text.old result text.new }
{
    let mut ahead = Cursor::new(text.rest());
    let Ok(number) = ahead.u32() else {
        return Err(ContextFault::Truncated);
    };
    let Some(saved) = SavedHandle::named(number) else {
        return Err(ContextFault::SavedHandle);
    };
    *text = ahead;
    Ok(saved)
}

#[tactic(auto, unfolding(crate::specs::Head::hierarchy_at))]
fn read_hierarchy(text: &mut Cursor) -> Result<HierarchyHandle, ContextFault>
    ensures { Reads (λ one. one) (hierarchy_at text.old) text.old result text.new }
{
    let mut ahead = Cursor::new(text.rest());
    let Ok(number) = ahead.u32() else {
        return Err(ContextFault::Truncated);
    };
    let handle = Handle { number };
    let Some(hierarchy) = handle.hierarchy() else {
        return Err(ContextFault::Hierarchy);
    };
    *text = ahead;
    Ok(hierarchy)
}

impl ContextHead {
    /// Returns the head of an object's context.
    pub(crate) fn of(sequence: u64, object: &Object) -> ContextHead
        ensures { result ≡ head_of sequence object.now }
    {
        ContextHead {
            sequence,
            saved: SavedHandle::of(&object.public),
            hierarchy: object.hierarchy,
        }
    }

    /// Returns the head of a sequence object's context.
    pub(crate) fn of_sequence(number: u64) -> ContextHead
        ensures { result ≡ sequence_head number }
    {
        ContextHead {
            sequence: number,
            saved: SavedHandle::Sequence,
            hierarchy: HierarchyHandle::Null,
        }
    }

    /// Reads the head at the beginning of a context.
    #[tactic(auto, unfolding(crate::specs::Head::head_at))]
    pub(crate) fn read(text: &mut Cursor) -> Result<ContextHead, ContextFault>
        ensures { Reads (λ head. head) (head_at text.old) text.old result text.new }
    {
        let mut ahead = Cursor::new(text.rest());
        let Ok(sequence) = ahead.u64() else {
            return Err(ContextFault::Truncated);
        };
        let saved = read_saved(&mut ahead)?;
        let hierarchy = read_hierarchy(&mut ahead)?;
        *text = ahead;
        Ok(ContextHead {
            sequence,
            saved,
            hierarchy,
        })
    }

    /// Returns the encoding of the head.
    pub(crate) fn text(self) -> Sink<HEAD_SIZE>
        ensures text { result ≡ head_text self }
        ensures size { length result ≡ HEAD_SIZE }
    {
        let mut text = Sink::new();
        text.append_u64(self.sequence);
        text.append_u32(self.saved.number());
        text.append_u32(self.hierarchy.handle().number);
        text
    }

    /// Whether an object has the hierarchy and the savedHandle of this head.
    pub(crate) fn is_of(self, object: &Object) -> bool
        ensures { result ≡ is_of self object.now }
    {
        object.hierarchy.handle().number == self.hierarchy.handle().number
            && SavedHandle::of(&object.public).number() == self.saved.number()
    }
    /// Whether this is the head of a sequence object's context.
    pub(crate) fn is_of_sequence(self) -> bool
        ensures { result ≡ is_sequence_head self }
    {
        matches!(self.saved, SavedHandle::Sequence)
            && matches!(self.hierarchy, HierarchyHandle::Null)
    }
}
