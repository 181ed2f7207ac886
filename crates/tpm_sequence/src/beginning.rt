//! How the data of a hash sequence begin.

ghost use Rattle.std.specs.Prelude.{◌≡◌};
ghost use Rattle.tpm_sequence.specs.Beginning.{beginning_after, byte_after, is_decided, is_generated};

/// How the data so far begin, compared with TPM_GENERATED_VALUE (ff 54 43 47; Part 2, section 6.2).
#[derive(Clone, Copy, PartialEq, Eq)]
pub enum Beginning {
    /// There are no data.
    Empty,
    /// The data are the first byte of the value.
    One,
    /// The data are the first two bytes of the value.
    Two,
    /// The data are the first three bytes of the value.
    Three,
    /// The data begin with the value.
    Generated,
    /// The first bytes of the data differ from the value.
    Ordinary,
}

impl Beginning {
    /// How the data begin after these bytes are appended.
    pub fn after(self, bytes: &[u8]) -> Beginning
        ensures { result ≡ beginning_after self bytes.now }
    {
        let mut beginning = self;
        for byte in bytes {
            if beginning.is_decided() {
                return beginning;
            }
            beginning = beginning.after_byte(*byte);
        }
        beginning
    }

    /// Whether the beginning stays the same, whatever bytes follow.
    fn is_decided(self) -> bool
        ensures { result ≡ is_decided self }
    {
        match self {
            Beginning::Generated | Beginning::Ordinary => true,
            _ => false,
        }
    }

    /// How the data begin after one more byte is appended.
    fn after_byte(self, byte: u8) -> Beginning
        ensures { result ≡ byte_after self byte }
    {
        match (self, byte) {
            (Beginning::Empty, 0xff) => Beginning::One,
            (Beginning::One, 0x54) => Beginning::Two,
            (Beginning::Two, 0x43) => Beginning::Three,
            (Beginning::Three, 0x47) => Beginning::Generated,
            (Beginning::Generated, _) => Beginning::Generated,
            _ => Beginning::Ordinary,
        }
    }

    /// Whether the data begin with TPM_GENERATED_VALUE.
    pub fn is_generated(self) -> bool
        ensures { result ≡ is_generated self }
    {
        match self {
            Beginning::Generated => true,
            _ => false,
        }
    }
}
