//! The types of NV indices: ordinary bytes, a counter, a bit field, or a digest to extend (TPM_NT;
//! TPM 2.0 Library, Part 2, section 13.2).

ghost use Rattle.std.specs.Prelude.{◌≡◌};
ghost use Rattle.tpm_types_nv.specs.NvType.{nv_type_named, nv_type_number};

/// The type of an NV index: TPM_NT (Part 2, section 13.2).
#[derive(Clone, Copy, PartialEq, Eq)]
pub enum NvType {
    /// Bytes that are written and read.
    Ordinary,
    /// An eight-byte number that can only increase.
    Counter,
    /// An eight-byte number whose bits can be set.
    Bits,
    /// A digest that can be extended.
    Extend,
}

impl NvType {
    /// The number that encodes the type in the attributes of an index.
    pub fn number(self) -> u32
        ensures { result ≡ nv_type_number self }
    {
        match self {
            NvType::Ordinary => 0,
            NvType::Counter => 1,
            NvType::Bits => 2,
            NvType::Extend => 4,
        }
    }

    /// The type with this number, or None if it is not supported.
    pub fn named(number: u32) -> Option<NvType>
        ensures { result ≡ nv_type_named number }
    {
        match number {
            0 => Some(NvType::Ordinary),
            1 => Some(NvType::Counter),
            2 => Some(NvType::Bits),
            4 => Some(NvType::Extend),
            _ => None,
        }
    }
}
