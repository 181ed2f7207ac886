//! Two kinds of area that can contain all NV data: a growable list, which may fail to allocate
//! memory, and an area of fixed size, which never allocates memory.

ghost use Rattle.tpm_types_common.specs.Limits.{nv_space_limit};
ghost use Rattle.std.specs.Prelude.{◌≡◌, ◌≤◌, ◌+◌, ◌++◌, length, replicate, true, OnErr, OnOk};
ghost use Rattle.tpm_nv.specs.Bytes.{moved_from_end};

use crate::area::{Area, copy_down, fill_piece, move_from_end, move_to_end, put_piece};
use arrayvec::ArrayVec;
use std::alloc::Global;
use tpm_bytes::NoMemory;
use tpm_containers::Items;
use tpm_types_common::NV_SPACE_LIMIT;

/// A container of bytes with room for all NV data.
pub trait ByteItems: Items<NV_SPACE_LIMIT, Item = u8> {
    /// Appends `size` zeros.
    fn append_zeros(&mut self, size: usize) -> Result<(), NoMemory>
        requires { length (Self.items self.old) + size ≤ nv_space_limit }
        ensures appended { OnOk result
            (Self.items self.new ≡ Self.items self.old ++ replicate size 0) }
        ensures unchanged { OnErr result (Self.items self.new ≡ Self.items self.old) }
        ensures refused { OnErr result (Self.can_refuse ≡ true) };
}

impl ByteItems for Vec<u8> {
    fn append_zeros(&mut self, size: usize) -> Result<(), NoMemory> {
        let whole = self.len() + size;
        self.resize(whole, 0).map_err(|_| NoMemory)
    }
}

impl ByteItems for ArrayVec<u8, NV_SPACE_LIMIT> {
    fn append_zeros(&mut self, size: usize) -> Result<(), NoMemory> {
        for _ in 0..size {
            self.push(0);
        }
        Ok(())
    }
}

/// An area whose bytes are the items of a container.
#[derive(Drop)]
pub struct ItemArea<B: ByteItems> {
    bytes: B,
}

/// An area in a growable list, which may fail to allocate memory.
pub type ListArea = ItemArea<Vec<u8>>;

/// An area of fixed size, which never allocates memory.
pub type SlotArea = ItemArea<ArrayVec<u8, NV_SPACE_LIMIT>>;

impl<B: ByteItems> Area for ItemArea<B> {
    ghost bytes = { λ area. B.items area.bytes };

    ghost can_refuse = { B.can_refuse };

    fn new(alloc: Global) -> ItemArea<B> {
        ItemArea {
            bytes: B::new(alloc),
        }
    }

    fn as_slice(&self) -> &[u8] {
        self.bytes.as_slice()
    }

    fn put(&mut self, start: usize, piece: &[u8]) {
        put_piece(self.bytes.slice_mut(), start, piece);
    }

    fn fill(&mut self, start: usize, size: usize, byte: u8) {
        fill_piece(self.bytes.slice_mut(), start, size, byte);
    }

    fn open(&mut self, start: usize, size: usize) -> Result<(), NoMemory> {
        self.bytes.append_zeros(size)?;
        move_from_end(self.bytes.slice_mut(), start, size);
        Ok(())
    }

    #[tactic(auto, using(crate::proofs::ByteLaws::closed_by_moving))]
    fn close_up(&mut self, start: usize, size: usize) {
        let left = self.bytes.as_slice().len() - size;
        move_to_end(self.bytes.slice_mut(), start, size);
        self.bytes.truncate(left);
    }

    fn move_down(&mut self, start: usize, size: usize, place: usize) {
        copy_down(self.bytes.slice_mut(), start, size, place);
    }

    fn truncate(&mut self, size: usize) {
        self.bytes.truncate(size);
    }
}
