//! How NV indices are stored: the heads in a map keyed by handle, and the data of all indices in
//! one area. One type covers both kinds of storage: growable lists, and storage of fixed size.

ghost use Rattle.std.specs.Prelude.{◌≡◌, ◌≢◌, ◌<◌, ◌≤◌, ◌+◌, ◌||◌, ℕ, List, ◌++◌, None, Some, Ok, Err};
ghost use Rattle.std.specs.Prelude.{IfErr, IfNone, IfOk, IfSome, IsSomeAnd, OnErr, OnOk};
ghost use Rattle.std.specs.Prelude.{is_some, length, true, if◌then◌else◌};
ghost use Rattle.tpm_mac.specs.Digest.{digest_size, hash_of};
ghost use Rattle.tpm_nv.specs.Access.{check_writable, data_or, marked_index, number_or, with_data, writable};
ghost use Rattle.tpm_nv.specs.Bytes.{put_over};
ghost use Rattle.tpm_nv.specs.Definition.{HasRoomFor, has_type_size};
ghost use Rattle.tpm_nv.specs.Head.{IsIndexOf, index_with, start_in};
ghost use Rattle.tpm_nv.specs.Place.{IsFound, IsPlaceOf};
ghost use Rattle.tpm_nv.specs.Index.{NvIndex, changed_index, has_room, index_at, with_index};
ghost use Rattle.tpm_types_nv.specs.NvAttributes.{attribute_bit, has};
ghost use Rattle.tpm_types_nv.specs.NvPublic.{IsNvPublic};
ghost use Rattle.tpm_types_nv.specs.declared.nv_attributes.NvAttribute.TheVariants as attributes;

use crate::area::Area;
use crate::clear::{PlatformIndices, keep_bytes};
use crate::definition::{has_data_size, has_type_size};
use crate::fault::{DefineFault, LockFault, ReadFault, RestoreFault, Undefined, WriteFault};
use crate::head::Head;
use crate::heads::{auth_value_fits, found_at, put_head, set_attributes, set_auth_value, start_of};
use crate::indices::Indices;
use crate::item_area::{ListArea, SlotArea};
use crate::pieces::{piece_at, put_between, put_bytes};
use crate::place::{DataPlace, Found};
use crate::startup::start_heads;
use crate::values::{digest_of, is_part, is_room, is_write_lockable, number_of};
use std::alloc::Global;
use std::marker::Model;
use tpm_bytes::NoMemory;
use tpm_containers::{ListMap, SlotMap, SortedMap};
use tpm_mac::Digest;
use tpm_types_common::{AuthValue, Handle, NV_INDEX_LIMIT};
use tpm_types_nv::{NvAttribute, NvAttributes, NvPublic, NvType};

/// NV indices: the heads in a map keyed by handle, and the bytes of all indices in one area, in
/// order of handle. The bytes of an index are reserved when it is defined, so no write allocates
/// memory.
#[derive(Drop)]
pub struct StoredIndices<H: SortedMap<Head, NV_INDEX_LIMIT>, R: Area> {
    heads: H,
    area: R,
    max_count: u64,
}

/// NV indices in growable lists. A definition can run out of memory.
pub type ListIndices = StoredIndices<ListMap<Head, NV_INDEX_LIMIT>, ListArea>;

/// NV indices in fixed-size storage, so no allocation can fail. A value takes about 23,600 bytes,
/// including the data of all indices. Therefore it is created once and passed by reference.
pub type SlotIndices = StoredIndices<SlotMap<Head, NV_INDEX_LIMIT>, SlotArea>;

impl<H: SortedMap<Head, NV_INDEX_LIMIT>, R: Area> Model for StoredIndices<H, R> {
    ghost use Rattle.tpm_nv.specs.Head.{AreKept, indices_of};
    ghost use Rattle.tpm_nv.specs.Index.{NvContents};

    ghost Value = { NvContents };

    ghost view = { λ stored. record {
      indices = indices_of (H.entries stored.heads) (R.bytes stored.area);
      max_count = stored.max_count;
    } };

    ghost invariant = { λ stored. AreKept (H.entries stored.heads) (R.bytes stored.area) };
}

impl<H: SortedMap<Head, NV_INDEX_LIMIT>, R: Area> StoredIndices<H, R> {
    /// The head of the index with this handle.
    fn head(&self, handle: Handle) -> Option<&Head>
        ensures absent { IfNone result (index_at self.now handle ≡ None) }
        ensures there { IfSome result (λ head. (old : List ℕ)
            × IsIndexOf self.now handle head.now old) }
    {
        self.heads.get(handle.number)
    }

    /// The head of an index, and the offset of its bytes in the shared data area.
    fn find(&self, handle: Handle) -> Option<Found<'_>>
        ensures absent { IfNone result (index_at self.now handle ≡ None) }
        ensures there { IfSome result (λ found. (old : List ℕ)
            × IsIndexOf self.now handle found.head.now old
            × (found.start ≡ start_in self.now handle)) }
    {
        found_at(self.heads.as_slice(), handle.number)
    }

    /// Finds the index with this handle. Returns a fault if no index has this handle, or if a
    /// command for indices of this type may not write the index.
    fn writable(&self, handle: Handle, kind: NvType) -> Result<Found<'_>, WriteFault>
        ensures refused { IfErr result (λ fault. check_writable self.now handle kind ≡ Err fault) }
        ensures there { IfOk result (λ found. (old : List ℕ)
            × IsIndexOf self.now handle found.head.now old
            × (writable kind (index_with found.head.now old) ≡ Ok tt)
            × (found.start ≡ start_in self.now handle)) }
    {
        let Some(found) = self.find(handle) else {
            return Err(WriteFault::Undefined);
        };
        if found.head.public.attributes.has(NvAttribute::WriteLocked) {
            return Err(WriteFault::Locked);
        }
        if !found.head.public.attributes.is_of(kind) {
            return Err(WriteFault::Attributes);
        }
        Ok(found)
    }

    /// Overwrites the data of an index at an offset, and sets WRITTEN. If WRITTEN was clear, all
    /// other bytes of its data become `first`.
    fn put_data(&mut self, handle: Handle, place: DataPlace, offset: usize, first: u8, bytes: &[u8])
        requires there { IsPlaceOf self.old handle place }
        requires within { offset + length bytes.now ≤ place.size }
        ensures { (index : NvIndex) → index_at self.old handle ≡ Some index
            → self.new ≡ changed_index self.old handle
            (with_data index (put_over offset bytes.now (data_or first index))) }
    {
        put_bytes(&mut self.area, place.piece(), first, offset, bytes);
        let written = place.attributes.with(NvAttribute::Written);
        set_attributes(&mut self.heads, handle.number, written);
    }

    /// Sets one more attribute of an index. `of` contains the index's current attributes.
    fn mark(&mut self, handle: Handle, of: NvAttributes, attribute: NvAttribute)
        requires there { IsSomeAnd (index_at self.old handle) (λ index.
            of ≡ index.public.attributes) }
        requires other { attribute_bit attribute ≢ attribute_bit attributes.Written }
        ensures { (index : NvIndex) → index_at self.old handle ≡ Some index
            → self.new ≡ changed_index self.old handle (marked_index index attribute) }
    {
        set_attributes(&mut self.heads, handle.number, of.with(attribute));
    }

    /// Replaces all data of an index, and sets WRITTEN.
    fn set_data(&mut self, handle: Handle, place: DataPlace, bytes: &[u8])
        requires there { IsPlaceOf self.old handle place }
        requires whole { IsSomeAnd (index_at self.old handle) (λ index.
            (length bytes.now ≡ index.public.data_size)
            × (length (data_or 0 index) ≡ index.public.data_size)) }
        ensures { (index : NvIndex) → index_at self.old handle ≡ Some index
            → self.new ≡ changed_index self.old handle (with_data index bytes.now) }
    {
        self.put_data(handle, place, 0, 0, bytes);
    }

    /// Replaces the authorization value of an index, which must exist.
    fn replace_auth(&mut self, handle: Handle, value: AuthValue)
        requires { is_some (index_at self.old handle) ≡ true }
        ensures { (index : NvIndex) → index_at self.old handle ≡ Some index
            → self.new ≡ changed_index self.old handle (record index { auth_value = value }) }
    {
        auth_value_fits(&value);
        set_auth_value(&mut self.heads, handle.number, value);
    }

    /// Whether there is room for an index of this size.
    fn has_room(&self, size: usize) -> bool
        requires { size < 65536 }
        ensures { result ≡ has_room self.now size }
    {
        is_room(self.heads.len(), self.area.as_slice().len(), size)
    }

    /// Checks that the handle of a new index is free and that there is room for the index.
    fn check_room(&self, public: &NvPublic) -> Result<(), RestoreFault>
        ensures { HasRoomFor self.now public.now result }
    {
        if let Some(_) = self.head(public.nv_index) {
            return Err(RestoreFault::Defined);
        }
        if !self.has_room(usize::from(public.data_size)) {
            return Err(RestoreFault::Space);
        }
        Ok(())
    }

    /// Adds an index with its handle; there must be room for it.
    fn add(&mut self, public: NvPublic, auth_value: AuthValue, bytes: &[u8]) -> Result<(), NoMemory>
        requires named { IsNvPublic public }
        requires sized { has_type_size public ≡ true }
        requires data_size { length bytes.now
            ≡ (if has public.attributes attributes.Written then public.data_size else 0) }
        requires absent { index_at self.old public.nv_index ≡ None }
        requires room { has_room self.old public.data_size ≡ true }
        ensures added { OnOk result (self.new ≡ with_index self.old public.nv_index
            (record { public = public; auth_value = auth_value; bytes = bytes.now })) }
        ensures unchanged { OnErr result (self.new ≡ self.old) }
        ensures refused { OnErr result ((H.can_refuse || R.can_refuse) ≡ true) }
    {
        let key = public.nv_index.number;
        let size = usize::from(public.data_size);
        let start = start_of(self.heads.as_slice(), key);
        auth_value_fits(&auth_value);
        put_between(&mut self.area, start, size, bytes)?;
        match put_head(&mut self.heads, key, Head { public, auth_value }) {
            Ok(()) => Ok(()),
            Err(NoMemory) => {
                self.area.close_up(start, size);
                Err(NoMemory)
            }
        }
    }

    /// The bytes of the index that was found.
    fn data(&self, found: Found) -> &[u8]
        requires { (handle : Handle) × IsFound self.now handle found }
        ensures { let head = found.entry.head.now in (handle : Handle) (old : List ℕ)
            → IsIndexOf self.now handle head old → found.entry.start ≡ start_in self.now handle
            → has head.public.attributes attributes.Written ≡ true → result.now ≡ old }
    {
        let size = usize::from(found.head.public.data_size);
        piece_at(self.area.as_slice(), found.start, size)
    }

    /// The number encoded by the data of an index, or `first` if the index is not written yet.
    fn number(&self, found: Found, first: u64) -> u64
        requires { (handle : Handle) × IsFound self.now handle found }
        ensures { let head = found.entry.head.now in (handle : Handle) (old : List ℕ)
            → IsIndexOf self.now handle head old → found.entry.start ≡ start_in self.now handle
            → length old ≡ 8 → result ≡ number_or first (index_with head old) }
    {
        if found.head.public.attributes.has(NvAttribute::Written) {
            return number_of(self.data(found));
        }
        first
    }

    /// The digest of the old data followed by these bytes. If the index is not written yet, the
    /// old data is zeros.
    fn extended_digest(&self, found: Found, bytes: &[u8]) -> Digest
        requires { (handle : Handle) × IsFound self.now handle found }
        ensures value { let head = found.entry.head.now in (handle : Handle) (old : List ℕ)
            → IsIndexOf self.now handle head old → found.entry.start ≡ start_in self.now handle
            → head.public.data_size ≡ digest_size head.public.name_alg
            → result.items ≡ hash_of head.public.name_alg
            (data_or 0 (index_with head old) ++ bytes.now) }
        ensures size { length result.items ≡ digest_size found.entry.head.now.public.name_alg }
    {
        let name_alg = found.head.public.name_alg;
        if found.head.public.attributes.has(NvAttribute::Written) {
            return digest_of(name_alg, self.data(found), bytes);
        }
        digest_of(name_alg, name_alg.zeros(), bytes)
    }
}

impl<H: SortedMap<Head, NV_INDEX_LIMIT>, R: Area> Indices for StoredIndices<H, R> {
    ghost use Rattle.std.specs.Prelude.{◌||◌};

    ghost contents = { λ stored. stored };

    ghost can_refuse = { H.can_refuse || R.can_refuse };

    fn new(alloc: Global) -> StoredIndices<H, R> {
        StoredIndices {
            heads: H::new(alloc),
            area: R::new(alloc),
            max_count: 0,
        }
    }

    fn get(&self, handle: Handle) -> Option<&Head> {
        self.heads.get(handle.number)
    }

    #[tactic(auto, using(crate::proofs::Cuts::heads_among))]
    fn heads(&self) -> &[(u32, Head)] {
        self.heads.as_slice()
    }

    fn bytes(&self) -> &[u8] {
        self.area.as_slice()
    }

    fn next(&self, handle: Handle) -> Option<u32> {
        self.heads.next(handle.number)
    }

    fn define(&mut self, public: NvPublic, auth_value: AuthValue) -> Result<(), DefineFault> {
        if public.attributes.has(NvAttribute::Written) {
            return Err(DefineFault::Written);
        }
        if !has_type_size(&public) {
            return Err(DefineFault::DataSize);
        }
        match self.restore(public, auth_value, &[]) {
            Ok(()) => Ok(()),
            Err(RestoreFault::Public) => Err(DefineFault::Public),
            Err(RestoreFault::DataSize) => Err(DefineFault::DataSize),
            Err(RestoreFault::Defined) => Err(DefineFault::Defined),
            Err(RestoreFault::Space) => Err(DefineFault::Space),
            Err(RestoreFault::NoMemory) => Err(DefineFault::NoMemory),
        }
    }

    fn restore(
        &mut self,
        public: NvPublic,
        auth_value: AuthValue,
        bytes: &[u8],
    ) -> Result<(), RestoreFault> {
        if !public.is_valid() {
            return Err(RestoreFault::Public);
        }
        if !has_data_size(&public, bytes.len()) {
            return Err(RestoreFault::DataSize);
        }
        self.check_room(&public)?;
        self.add(public, auth_value, bytes)
            .map_err(|_| RestoreFault::NoMemory)
    }

    fn undefine(&mut self, handle: Handle) -> bool {
        let Some(head) = self.heads.get(handle.number) else {
            return false;
        };
        let size = usize::from(head.public.data_size);
        let start = start_of(self.heads.as_slice(), handle.number);
        self.area.close_up(start, size);
        let _ = self.heads.remove(handle.number);
        true
    }

    #[tactic(auto, unfolding(crate::specs::Access::contents_after_write))]
    fn write(&mut self, handle: Handle, offset: u16, bytes: &[u8]) -> Result<(), WriteFault> {
        let place = self.writable(handle, NvType::Ordinary)?.place();
        let offset = usize::from(offset);
        if offset + bytes.len() > place.size {
            return Err(WriteFault::PastData);
        }
        if is_part(place.attributes, bytes.len(), place.size) {
            return Err(WriteFault::Partial);
        }
        self.put_data(handle, place, offset, 0xff, bytes);
        Ok(())
    }

    #[tactic(auto, unfolding(crate::specs::Access::contents_after_increment))]
    fn increment(&mut self, handle: Handle) -> Result<(), WriteFault> {
        let found = self.writable(handle, NvType::Counter)?;
        let place = found.place();
        let last = self.number(found, self.max_count);
        if last == u64::MAX {
            return Err(WriteFault::Exhausted);
        }
        let count = last + 1;
        self.set_data(handle, place, &count.to_be_bytes());
        self.max_count = self.max_count.max(count);
        Ok(())
    }

    #[tactic(auto, unfolding(crate::specs::Access::bits_set))]
    fn set_bits(&mut self, handle: Handle, bits: u64) -> Result<(), WriteFault> {
        let found = self.writable(handle, NvType::Bits)?;
        let place = found.place();
        let number = self.number(found, 0) | bits;
        self.set_data(handle, place, &number.to_be_bytes());
        Ok(())
    }

    #[tactic(auto, unfolding(crate::specs::Access::contents_after_extend))]
    fn extend(&mut self, handle: Handle, bytes: &[u8]) -> Result<(), WriteFault> {
        let found = self.writable(handle, NvType::Extend)?;
        let place = found.place();
        let digest = self.extended_digest(found, bytes);
        self.set_data(handle, place, digest.as_slice());
        Ok(())
    }

    #[tactic(auto, unfolding(crate::specs::Access::read_at))]
    fn read(&self, handle: Handle, offset: u16, size: u16) -> Result<&[u8], ReadFault> {
        let Some(found) = self.find(handle) else {
            return Err(ReadFault::Undefined);
        };
        let head = found.head;
        if head.public.attributes.has(NvAttribute::ReadLocked) {
            return Err(ReadFault::Locked);
        }
        if !head.public.attributes.has(NvAttribute::Written) {
            return Err(ReadFault::Uninitialized);
        }
        let offset = usize::from(offset);
        let size = usize::from(size);
        if offset + size > usize::from(head.public.data_size) {
            return Err(ReadFault::PastData);
        }
        Ok(piece_at(self.data(found), offset, size))
    }

    #[tactic(auto, unfolding(crate::specs::Access::write_locked))]
    fn lock_write(&mut self, handle: Handle) -> Result<(), LockFault> {
        let Some(head) = self.head(handle) else {
            return Err(LockFault::Undefined);
        };
        let attributes = head.public.attributes;
        if !is_write_lockable(attributes) {
            return Err(LockFault::Attributes);
        }
        self.mark(handle, attributes, NvAttribute::WriteLocked);
        Ok(())
    }

    #[tactic(auto, unfolding(crate::specs::Access::read_locked))]
    fn lock_read(&mut self, handle: Handle) -> Result<(), LockFault> {
        let Some(head) = self.head(handle) else {
            return Err(LockFault::Undefined);
        };
        let attributes = head.public.attributes;
        if !attributes.has(NvAttribute::ReadStClear) {
            return Err(LockFault::Attributes);
        }
        self.mark(handle, attributes, NvAttribute::ReadLocked);
        Ok(())
    }

    #[tactic(auto, unfolding(crate::specs::Access::with_auth_value))]
    fn change_auth(&mut self, handle: Handle, value: AuthValue) -> Result<(), Undefined> {
        let Some(_) = self.head(handle) else {
            return Err(Undefined);
        };
        self.replace_auth(handle, value);
        Ok(())
    }

    #[tactic(auto, unfolding(crate::specs::Startup::contents_after_startup))]
    fn startup(&mut self) {
        start_heads(&mut self.heads);
    }

    #[tactic(auto, unfolding(crate::specs::Clear::contents_after_clear))]
    fn clear(&mut self) {
        keep_bytes(&mut self.area, self.heads.as_slice());
        self.heads.retain::<PlatformIndices>();
    }

    fn max_count(&self) -> u64 {
        self.max_count
    }

    fn set_max_count(&mut self, count: u64) {
        self.max_count = count;
    }

    fn read_sizes(&self) {
        let _count = self.max_count;
    }
}
