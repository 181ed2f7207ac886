//! The slots of the NV indices.

use std::alloc::Global;
use tpm_nv::{
    DefineFault, Head, Indices, LockFault, ReadFault, RestoreFault, SlotIndices, Undefined,
    WriteFault,
};
use tpm_types_common::{AuthValue, Handle};
use tpm_types_nv::NvPublic;

/// A slot for each NV index that a device can have, and space for its data.
#[derive(Drop)]
pub struct IndexPlaces {
    stored: SlotIndices,
}

impl Indices for IndexPlaces {
    ghost use Rattle.std.specs.Prelude.{false};

    ghost contents = { λ all. all.stored };

    ghost can_refuse = { false };

    #[inline(always)]
    fn new(alloc: Global) -> IndexPlaces {
        IndexPlaces {
            stored: SlotIndices::new(alloc),
        }
    }

    fn get(&self, handle: Handle) -> Option<&Head> {
        self.stored.get(handle)
    }

    fn heads(&self) -> &[(u32, Head)] {
        self.stored.heads()
    }

    fn bytes(&self) -> &[u8] {
        self.stored.bytes()
    }

    fn next(&self, handle: Handle) -> Option<u32> {
        self.stored.next(handle)
    }

    fn define(&mut self, public: NvPublic, auth_value: AuthValue) -> Result<(), DefineFault> {
        self.stored.define(public, auth_value)
    }

    fn restore(
        &mut self,
        public: NvPublic,
        auth_value: AuthValue,
        bytes: &[u8],
    ) -> Result<(), RestoreFault> {
        self.stored.restore(public, auth_value, bytes)
    }

    fn undefine(&mut self, handle: Handle) -> bool {
        self.stored.undefine(handle)
    }

    fn write(&mut self, handle: Handle, offset: u16, bytes: &[u8]) -> Result<(), WriteFault> {
        self.stored.write(handle, offset, bytes)
    }

    fn increment(&mut self, handle: Handle) -> Result<(), WriteFault> {
        self.stored.increment(handle)
    }

    fn set_bits(&mut self, handle: Handle, bits: u64) -> Result<(), WriteFault> {
        self.stored.set_bits(handle, bits)
    }

    fn extend(&mut self, handle: Handle, bytes: &[u8]) -> Result<(), WriteFault> {
        self.stored.extend(handle, bytes)
    }

    fn read(&self, handle: Handle, offset: u16, size: u16) -> Result<&[u8], ReadFault> {
        self.stored.read(handle, offset, size)
    }

    fn lock_write(&mut self, handle: Handle) -> Result<(), LockFault> {
        self.stored.lock_write(handle)
    }

    fn lock_read(&mut self, handle: Handle) -> Result<(), LockFault> {
        self.stored.lock_read(handle)
    }

    fn change_auth(&mut self, handle: Handle, value: AuthValue) -> Result<(), Undefined> {
        self.stored.change_auth(handle, value)
    }

    fn startup(&mut self) {
        self.stored.startup();
    }

    fn clear(&mut self) {
        self.stored.clear();
    }

    fn max_count(&self) -> u64 {
        self.stored.max_count()
    }

    fn set_max_count(&mut self, count: u64) {
        self.stored.set_max_count(count);
    }

    fn read_sizes(&self) {
        self.stored.read_sizes();
    }
}
