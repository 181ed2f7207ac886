//! The attributes of objects, one bit each (TPMA_OBJECT; TPM 2.0 Library, Part 2, section 8.3).

ghost use Rattle.std.specs.Prelude.{◌≡◌, ◌<◌};
ghost use Rattle.tpm_bytes.specs.Reading.{Reads};

use std::marker::Model;
use tpm_bytes::Cursor;
use tpm_types_common::{Rc, read_attribute_bits};

/// The bits of the 32-bit field that are not used for attributes.
const RESERVED_BITS: u32 = 0xfff8_f309;

/// An attribute of an object (TPMA_OBJECT, Part 2, section 8.3). Its value is its bit number.
#[derive(Clone, Copy, PartialEq, Eq)]
pub enum ObjectAttribute {
    FixedTpm = 1,
    StClear = 2,
    FixedParent = 4,
    SensitiveDataOrigin = 5,
    UserWithAuth = 6,
    AdminWithPolicy = 7,
    NoDa = 10,
    EncryptedDuplication = 11,
    Restricted = 16,
    Decrypt = 17,
    Sign = 18,
}

impl ObjectAttribute {
    ghost use Rattle.tpm_types_object.specs.ObjectAttributes.{attribute_bit};

    /// The bit number of the attribute.
    pub fn bit(self) -> u32
        ensures value { result ≡ attribute_bit self }
        ensures small { result < 32 }
    {
        self as u32
    }
}

/// The attributes of an object, one bit each. No other bit is set. Contracts represent them by the
/// number that these bits form.
#[derive(Clone, Copy, PartialEq, Eq)]
pub struct ObjectAttributes {
    bits: u32,
}

impl Model for ObjectAttributes {
    ghost use Rattle.std.specs.Prelude.{◌≡◌, ℕ, bit_and};
    ghost use Rattle.tpm_types_object.specs.ObjectAttributes.{reserved_bits};

    ghost Value = { ℕ };

    ghost view = { λ a. a.bits };

    ghost invariant = { λ a. bit_and a.bits reserved_bits ≡ 0 };

    ghost inverse = { λ n. record { bits = n } };
}

impl ObjectAttributes {
    ghost use Rattle.tpm_types_object.specs.ObjectAttributes.{IsAttributes, attributes_at, has};

    /// The empty set of attributes.
    pub fn none() -> ObjectAttributes
        ensures { result ≡ 0 }
    {
        ObjectAttributes { bits: 0 }
    }

    /// The attributes as a 32-bit number.
    pub fn bits(self) -> u32
        ensures value { result ≡ self }
        ensures is_attributes { IsAttributes self }
    {
        self.bits
    }

    /// Whether the object has this attribute.
    #[tactic(auto, using(std::proofs::lemmas::Nat::Bits::shr_and_one))]
    pub fn has(self, attribute: ObjectAttribute) -> bool
        ensures { result ≡ has self attribute }
    {
        (self.bits >> attribute.bit()) & 1 == 1
    }

    /// Reads attributes. Fails with INSUFFICIENT if they are truncated, or with RESERVED_BITS if a
    /// bit is set that is not used for an attribute.
    pub fn read(text: &mut Cursor) -> Result<ObjectAttributes, Rc>
        ensures { Reads (λ attributes. attributes) (attributes_at text.old) text.old
            result text.new }
    {
        let bits = read_attribute_bits(text, RESERVED_BITS)?;
        Ok(ObjectAttributes { bits })
    }
}
