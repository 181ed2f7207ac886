//! The memory that a page provides, as an allocator.

ghost use Prim.Native.Nat.{◌^◌};
ghost use base.Fml.{flt};
ghost use denote.RawPtr.{count_of};

use std::alloc::{AllocError, Allocator};

/// The allocator for the page's memory. It allocates nothing, and there is nothing to free. An
/// address in this memory may be compared with null.
#[repr(C)]
#[derive(Clone, Copy)]
pub struct Lent;

unsafe impl Allocator for Lent {
    ghost dealloc_token = { λ _ _ at. flt (count_of at) (2 ^ 63) };

    fn allocate(&self, _size: usize, _align: usize) -> Result<*mut u8, AllocError> {
        Err(AllocError)
    }

    unsafe fn deallocate(&self, _ptr: *mut u8, _size: usize, _align: usize) {}
}
