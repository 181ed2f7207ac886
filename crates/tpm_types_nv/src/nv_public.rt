//! The public area of an NV index (TPMS_NV_PUBLIC; TPM 2.0 Library, Part 2, section 13.5).

ghost use Rattle.std.specs.Prelude.{◌≡◌, ℕ, ◌≤◌, List, ◌++◌, length, true, Ok, IfOk};
ghost use Rattle.tpm_bytes.specs.Reading.{AreBytes, Reads};
ghost use Rattle.tpm_bytes.specs.Writing.{Puts, sized_text};

use crate::nv_attributes::NvAttributes;
use tpm_bytes::{Cursor, Full, Readable, Sink};
use tpm_mac::HashAlg;
use tpm_types_common::{Handle, Octets, Rc, ResponseCode, hash_number, read_filled, read_hash};

/// The public area of an NV index: TPMS_NV_PUBLIC (Part 2, section 13.5).
#[derive(Drop)]
pub struct NvPublic {
    /// The handle of the index.
    pub nv_index: Handle,
    /// The hash algorithm for the index's Name and policy, and for the data of an extend index.
    pub name_alg: HashAlg,
    pub attributes: NvAttributes,
    pub auth_policy: Octets<32>,
    /// The size of the index's data once it has been written.
    pub data_size: u16,
}

impl NvPublic {
    ghost use Rattle.tpm_types_nv.specs.NvPublic.{IsNvPublic, is_nv_public, nv_index_at, nv_public_at, nv_public_text};
    ghost use Rattle.tpm_types_nv.specs.declared.nv_public.NvPublic.{NvPublic};
    ghost use Rattle.tpm_types_common.specs.Filled.{filled_by};

    /// Reads a public area. Fails with INSUFFICIENT if it is truncated, or else with the first
    /// fault of a field.
    pub fn read(text: &mut Cursor) -> Result<NvPublic, Rc>
        // The result is the decoded value, or the first fault.
        ensures exact { Reads (λ public. public) (nv_public_at text.old) text.old result text.new }
        // If decoding succeeds, the input starts with the encoding of the returned value.
        ensures found { IfOk result (λ public. IsNvPublic public
            × (text.old ≡ nv_public_text public ++ text.new)) }
        // The encoding of a value decodes to that value, whatever bytes follow.
        ensures only { (public : NvPublic) (rest : List ℕ) → IsNvPublic public
            → text.old ≡ nv_public_text public ++ rest
            → Reads (λ public. public) (Ok (public, rest)) text.old result text.new }
    {
        NvPublic::read_fields(text)
    }

    /// Reads a public area that fills a sized buffer (TPM2B_NV_PUBLIC). Fails under the same
    /// conditions as [`tpm_types_common::read_filled`].
    pub fn read_sized(text: &mut Cursor) -> Result<NvPublic, Rc>
        ensures exact { Reads (λ public. public) (filled_by nv_public_at text.old) text.old
            result text.new }
        ensures found { IfOk result (λ public. IsNvPublic public
            × (text.old ≡ sized_text (nv_public_text public) ++ text.new)) }
        ensures only { (public : NvPublic) (rest : List ℕ) → IsNvPublic public
            → text.old ≡ sized_text (nv_public_text public) ++ rest
            → Reads (λ public. public) (Ok (public, rest)) text.old result text.new }
    {
        read_filled(text)
    }

    /// Whether the public area can be encoded: its handle is that of an index, and no reserved
    /// attribute is set.
    #[tactic(auto, using(crate::proofs::NvPublicLaws::valid_public))]
    pub fn is_valid(&self) -> bool
        ensures value { result ≡ is_nv_public self.now }
        ensures valid { result ≡ true → IsNvPublic self.now }
    {
        // The types of these fields bound them.
        let (_handle, _bits) = (self.nv_index.number, self.attributes.bits);
        let (_policy, _size) = (self.auth_policy.as_slice(), self.data_size);
        self.nv_index.is_nv_index() && self.attributes.has_no_reserved_bits()
    }

    /// Reads the handle of an index. Fails with INSUFFICIENT if it is truncated, or with VALUE if
    /// its most significant byte is not 0x01.
    #[tactic(auto, unfolding(crate::specs::NvPublic::nv_index_at))]
    fn read_index(text: &mut Cursor) -> Result<Handle, Rc>
        ensures { Reads (λ handle. handle) (nv_index_at text.old) text.old result text.new }
    {
        let mut ahead = Cursor::new(text.rest());
        let Ok(number) = ahead.u32() else {
            return Err(ResponseCode::Insufficient.anywhere());
        };
        let handle = Handle { number };
        if !handle.is_nv_index() {
            return Err(ResponseCode::Value.anywhere());
        }
        *text = ahead;
        Ok(handle)
    }

    #[tactic(auto, unfolding(crate::specs::NvPublic::nv_public_at))]
    fn read_fields(text: &mut Cursor) -> Result<NvPublic, Rc>
        ensures exact { Reads (λ public. public) (nv_public_at text.old) text.old result text.new }
        ensures bytes { AreBytes text.old }
    {
        let mut ahead = Cursor::new(text.rest());
        let nv_index = NvPublic::read_index(&mut ahead)?;
        let name_alg = read_hash(&mut ahead)?;
        let attributes = NvAttributes::read(&mut ahead)?;
        let auth_policy = Octets::read(&mut ahead)?;
        let Ok(data_size) = ahead.u16() else {
            return Err(ResponseCode::Insufficient.anywhere());
        };
        *text = ahead;
        Ok(NvPublic {
            nv_index,
            name_alg,
            attributes,
            auth_policy,
            data_size,
        })
    }

    /// A copy of the public area.
    pub fn copy(&self) -> NvPublic
        ensures { result ≡ self.now }
    {
        NvPublic {
            nv_index: self.nv_index,
            name_alg: self.name_alg,
            attributes: self.attributes,
            auth_policy: self.auth_policy.copy(),
            data_size: self.data_size,
        }
    }

    /// The encoding of the public area, in a buffer large enough for the longest encoding.
    #[tactic(auto, unfolding(crate::specs::NvPublic::nv_public_text))]
    pub fn text(&self) -> Sink<46>
        ensures { result ≡ nv_public_text self.now }
    {
        let mut text = Sink::new();
        text.append_u32(self.nv_index.number);
        text.append_u16(hash_number(self.name_alg));
        text.append_u32(self.attributes.bits);
        text.append_sized(self.auth_policy.as_slice());
        text.append_u16(self.data_size);
        text
    }

    /// Appends the encoded public area, which is at most 46 bytes long. If it does not fit, writes
    /// nothing and returns an error.
    pub fn write<const N: usize>(&self, sink: &mut Sink<N>) -> Result<(), Full>
        ensures written { Puts N (nv_public_text self.now) sink.old result sink.new }
        ensures small { length (nv_public_text self.now) ≤ 46 }
    {
        let text = self.text();
        sink.put(text.as_slice())
    }

    /// Appends the public area as a sized buffer (TPM2B_NV_PUBLIC), which is at most 48 bytes long.
    /// If it does not fit, writes nothing and returns an error.
    pub fn write_sized<const N: usize>(&self, sink: &mut Sink<N>) -> Result<(), Full>
        ensures written { Puts N (sized_text (nv_public_text self.now)) sink.old result sink.new }
        ensures small { length (sized_text (nv_public_text self.now)) ≤ 48 }
    {
        let text = self.text();
        sink.put_sized(text.as_slice())
    }
}

impl<'a> Readable<'a> for NvPublic {
    ghost use Rattle.tpm_types_nv.specs.NvPublic.{nv_public_at};
    ghost use Rattle.tpm_types_nv.specs.declared.nv_public.NvPublic.{NvPublic};

    type Fault = Rc;

    ghost Seen = { NvPublic };

    ghost seen = { λ public. public };

    ghost at = { nv_public_at };

    fn read(text: &mut Cursor<'a>) -> Result<NvPublic, Rc> {
        NvPublic::read(text)
    }
}
