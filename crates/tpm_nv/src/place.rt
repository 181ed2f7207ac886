//! The location of an index in the stored state. Each call looks it up once.

ghost use Rattle.std.specs.Prelude.{◌≡◌};
ghost use Rattle.tpm_nv.specs.Place.{piece_at_place, place_of};

use crate::head::Head;
use crate::pieces::Piece;
use tpm_types_nv::{NvAttribute, NvAttributes};

/// An index that was found: its head, and the offset of its bytes in the shared data area.
#[derive(Clone, Copy)]
pub(crate) struct Found<'a> {
    pub(crate) head: &'a Head,
    pub(crate) start: usize,
}

/// The location of an index's data, with everything that is needed to change the data.
#[derive(Clone, Copy)]
pub(crate) struct DataPlace {
    pub(crate) attributes: NvAttributes,
    pub(crate) start: usize,
    pub(crate) size: usize,
}

impl Found<'_> {
    pub(crate) fn place(&self) -> DataPlace
        ensures { result ≡ place_of self.now.head.now self.now.start }
    {
        DataPlace {
            attributes: self.head.public.attributes,
            start: self.start,
            size: usize::from(self.head.public.data_size),
        }
    }
}

impl DataPlace {
    /// The part of the area with the index's bytes, and whether the index is written.
    pub(crate) fn piece(&self) -> Piece
        ensures { result ≡ piece_at_place self.now }
    {
        Piece {
            start: self.start,
            size: self.size,
            is_written: self.attributes.has(NvAttribute::Written),
        }
    }
}
