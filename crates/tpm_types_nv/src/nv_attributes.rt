//! The attributes of NV indices, one bit each, and the four bits of the type (TPMA_NV; TPM 2.0
//! Library, Part 2, section 13.4).

ghost use Rattle.std.specs.Prelude.{◌≡◌, ◌<◌, ◌==◌, bit_and};
ghost use Rattle.tpm_bytes.specs.Reading.{Reads};

use crate::nv_type::NvType;
use tpm_bytes::Cursor;
use tpm_types_common::{Rc, read_attribute_bits};

/// The bits that are used neither for an attribute nor for the type: 8, 9 and 20 to 24.
const RESERVED_BITS: u32 = 0x01f0_0300;

/// An attribute of an NV index (TPMA_NV, Part 2, section 13.4). Its value is its bit number.
#[derive(Clone, Copy, PartialEq, Eq)]
pub enum NvAttribute {
    PpWrite = 0,
    OwnerWrite = 1,
    AuthWrite = 2,
    PolicyWrite = 3,
    PolicyDelete = 10,
    WriteLocked = 11,
    WriteAll = 12,
    WriteDefine = 13,
    WriteStClear = 14,
    GlobalLock = 15,
    PpRead = 16,
    OwnerRead = 17,
    AuthRead = 18,
    PolicyRead = 19,
    NoDa = 25,
    Orderly = 26,
    ClearStClear = 27,
    ReadLocked = 28,
    Written = 29,
    PlatformCreate = 30,
    ReadStClear = 31,
}

impl NvAttribute {
    ghost use Rattle.tpm_types_nv.specs.NvAttributes.{attribute_bit};

    /// The bit number of the attribute.
    pub fn bit(self) -> u32
        ensures value { result ≡ attribute_bit self }
        ensures small { result < 32 }
    {
        self as u32
    }
}

/// The attributes of an NV index, one bit each, and four bits for its type.
#[derive(Clone, Copy, PartialEq, Eq)]
pub struct NvAttributes {
    pub bits: u32,
}

impl NvAttributes {
    ghost use Rattle.tpm_types_nv.specs.NvAttributes.{has, index_type, is_of, nv_attributes_at, reserved_bits, with_attribute, without_attribute};

    /// Whether no reserved bit is set.
    pub fn has_no_reserved_bits(self) -> bool
        ensures { result ≡ bit_and self.bits reserved_bits == 0 }
    {
        self.bits & RESERVED_BITS == 0
    }

    /// Whether the index has this attribute.
    #[tactic(auto, using(std::proofs::lemmas::Nat::Bits::shr_and_one))]
    pub fn has(self, attribute: NvAttribute) -> bool
        ensures { result ≡ has self attribute }
    {
        (self.bits >> attribute.bit()) & 1 == 1
    }

    /// The attributes with this attribute set.
    pub fn with(self, attribute: NvAttribute) -> NvAttributes
        ensures { result ≡ with_attribute self attribute }
    {
        NvAttributes {
            bits: self.bits | (1 << attribute.bit()),
        }
    }

    /// The attributes with this attribute cleared.
    pub fn without(self, attribute: NvAttribute) -> NvAttributes
        ensures { result ≡ without_attribute self attribute }
    {
        NvAttributes {
            bits: self.bits & !(1 << attribute.bit()),
        }
    }

    /// The type of the index, or None if it is not supported.
    pub fn index_type(self) -> Option<NvType>
        ensures { result ≡ index_type self }
    {
        NvType::named((self.bits >> 4) % 16)
    }

    /// Whether the index is of this type.
    pub fn is_of(self, kind: NvType) -> bool
        ensures { result ≡ is_of self kind }
    {
        (self.bits >> 4) % 16 == kind.number()
    }

    /// Reads attributes. Fails with INSUFFICIENT if they are truncated, or with RESERVED_BITS if a
    /// bit is set that is used neither for an attribute nor for the type.
    #[tactic(auto, unfolding(crate::specs::NvAttributes::nv_attributes_at))]
    pub fn read(text: &mut Cursor) -> Result<NvAttributes, Rc>
        ensures { Reads (λ attributes. attributes) (nv_attributes_at text.old) text.old
            result text.new }
    {
        let bits = read_attribute_bits(text, RESERVED_BITS)?;
        Ok(NvAttributes { bits })
    }
}
