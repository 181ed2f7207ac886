//! The trait of a device's NV indices: calls that define, change, read or remove an index, each
//! specified by one equation (TPM 2.0 Library, Part 3, section 31).

ghost use Rattle.tpm_bytes.specs.Reading.{Gives};
ghost use Rattle.std.specs.Prelude.{◌≡◌, Bool, is_some};
ghost use Rattle.std.specs.Prelude.{length, option_copied, option_map, OnOk};
ghost use Rattle.tpm_nv.specs.Access.{ChangesContents, bits_set, contents_after_extend, contents_after_increment, contents_after_write, read_at, read_locked, with_auth_value, write_locked};
ghost use Rattle.tpm_nv.specs.Clear.{contents_after_clear};
ghost use Rattle.tpm_nv.specs.Definition.{Defines, Restores, defined_index};
ghost use Rattle.tpm_nv.specs.Head.{head_of, heads_of, indices_of};
ghost use Rattle.tpm_nv.specs.Index.{NvContents, data_bytes, index_at, next_index, no_indices, without_index};
ghost use Rattle.tpm_nv.specs.IsContents.{IsContents};
ghost use Rattle.tpm_nv.specs.Startup.{contents_after_startup};

use crate::fault::{DefineFault, LockFault, ReadFault, RestoreFault, Undefined, WriteFault};
use crate::head::Head;
use std::alloc::Global;
use tpm_types_common::{AuthValue, Handle};
use tpm_types_nv::NvPublic;

/// The NV indices of a device, keyed by handle, within the limits on the number of indices and on
/// the size of their data. A call that fails changes nothing. These calls do not check who may read
/// or write.
pub trait Indices: Drop + Sized {
    /// The indices, and the largest value that any counter has ever had.
    ghost contents: { Self → NvContents };

    /// Whether a definition can fail to allocate memory.
    ghost can_refuse: { Bool };

    /// An empty set of indices; nothing is allocated.
    fn new(alloc: Global) -> Self
        ensures { contents result ≡ no_indices };

    /// The public area and authorization value of the index with this handle.
    fn get(&self, handle: Handle) -> Option<&Head>
        ensures { option_copied result ≡ option_map head_of (index_at (contents self.now) handle) };

    /// The public area of the index with this handle.
    fn public(&self, handle: Handle) -> Option<&NvPublic>
        ensures { option_copied result ≡ option_map (λ index. index.public)
            (index_at (contents self.now) handle) }
    {
        Some(&self.get(handle)?.public)
    }

    /// The authorization value of the index with this handle.
    fn auth(&self, handle: Handle) -> Option<&AuthValue>
        ensures { option_copied result ≡ option_map (λ index. index.auth_value)
            (index_at (contents self.now) handle) }
    {
        Some(&self.get(handle)?.auth_value)
    }

    /// The public areas and authorization values of all indices, in ascending order of handle.
    fn heads(&self) -> &[(u32, Head)]
        ensures { result.now ≡ heads_of (contents self.now) };

    /// The bytes of all indices, in ascending order of handle. Each index occupies as many bytes as
    /// its public area says. Once the index is written, these bytes are its data.
    fn bytes(&self) -> &[u8]
        ensures seen { indices_of (heads_of (contents self.now)) result.now
            ≡ (contents self.now).indices }
        ensures whole { length result.now ≡ data_bytes (contents self.now) };

    /// The lowest handle of an index at or above this handle.
    fn next(&self, handle: Handle) -> Option<u32>
        ensures { result ≡ next_index (contents self.now) handle.number };

    /// Defines an index, initially without data (TPM 2.0 Library, Part 3, section 31.3). Makes only
    /// the checks whose faults [`DefineFault`] lists; [`crate::definition::check_definition`] makes
    /// the others.
    fn define(&mut self, public: NvPublic, auth_value: AuthValue) -> Result<(), DefineFault>
        ensures { Defines can_refuse (contents self.old) (defined_index public auth_value) result
            (contents self.new) };

    /// Restores an index, including its data if it is written. Fails if the public area cannot be
    /// encoded, or if the data has a wrong size ([`RestoreFault`]).
    fn restore(
        &mut self,
        public: NvPublic,
        auth_value: AuthValue,
        bytes: &[u8],
    ) -> Result<(), RestoreFault>
        ensures { Restores can_refuse (contents self.old)
            (record { public = public; auth_value = auth_value; bytes = bytes.now }) result
            (contents self.new) };

    /// Removes an index and its data. Returns whether the index existed (Part 3, section 31.4).
    fn undefine(&mut self, handle: Handle) -> bool
        ensures there { result ≡ is_some (index_at (contents self.old) handle) }
        ensures after { contents self.new ≡ without_index (contents self.old) handle };

    /// Writes data at an offset (Part 3, section 31.7).
    fn write(&mut self, handle: Handle, offset: u16, bytes: &[u8]) -> Result<(), WriteFault>
        ensures { ChangesContents (contents_after_write (contents self.old) handle offset bytes.now)
            (contents self.old) result (contents self.new) };

    /// Increments a counter (Part 3, section 31.8).
    fn increment(&mut self, handle: Handle) -> Result<(), WriteFault>
        ensures { ChangesContents (contents_after_increment (contents self.old) handle)
            (contents self.old)
            result (contents self.new) };

    /// Sets bits of a bit field (Part 3, section 31.10).
    fn set_bits(&mut self, handle: Handle, bits: u64) -> Result<(), WriteFault>
        ensures { ChangesContents (bits_set (contents self.old) handle bits) (contents self.old)
            result (contents self.new) };

    /// Extends the digest in an index with `bytes` (Part 3, section 31.9).
    fn extend(&mut self, handle: Handle, bytes: &[u8]) -> Result<(), WriteFault>
        ensures { ChangesContents (contents_after_extend (contents self.old) handle bytes.now)
            (contents self.old) result (contents self.new) };

    /// Reads `size` bytes of the data at an offset (Part 3, section 31.13).
    fn read(&self, handle: Handle, offset: u16, size: u16) -> Result<&[u8], ReadFault>
        ensures { Gives (λ bytes. bytes.now)
            (read_at (contents self.now) handle offset size) result };

    /// Locks an index against writing (Part 3, section 31.11).
    fn lock_write(&mut self, handle: Handle) -> Result<(), LockFault>
        ensures { ChangesContents (write_locked (contents self.old) handle) (contents self.old)
            result (contents self.new) };

    /// Locks an index against reading (Part 3, section 31.14).
    fn lock_read(&mut self, handle: Handle) -> Result<(), LockFault>
        ensures { ChangesContents (read_locked (contents self.old) handle) (contents self.old)
            result (contents self.new) };

    /// Replaces the authorization value of an index (Part 3, section 31.15).
    fn change_auth(&mut self, handle: Handle, value: AuthValue) -> Result<(), Undefined>
        ensures { ChangesContents (with_auth_value (contents self.old) handle value)
            (contents self.old) result (contents self.new) };

    /// Applies the effect of a TPM2_Startup with CLEAR to all indices (Part 3, section 9.3).
    fn startup(&mut self)
        ensures { contents self.new ≡ contents_after_startup (contents self.old) };

    /// Applies the effect of TPM2_Clear: removes the indices that the platform did not define (Part
    /// 3, section 24.6). Moves the bytes of each remaining index at most once.
    fn clear(&mut self)
        ensures { contents self.new ≡ contents_after_clear (contents self.old) };

    /// The largest value that any counter has ever had.
    fn max_count(&self) -> u64
        ensures { result ≡ (contents self.now).max_count };

    /// Sets the largest value that any counter has ever had.
    fn set_max_count(&mut self, count: u64)
        ensures { contents self.new ≡ record (contents self.old) { max_count = count } };

    /// States the facts that always hold for the indices. This function is only a proof: it has no
    /// effect at run time.
    fn read_sizes(&self)
        ensures { IsContents (contents self.now) };
}
