//! The hash algorithms of the device.

ghost use Rattle.std.specs.Prelude.{◌≡◌, replicate};

/// A hash algorithm of FIPS 180-4.
#[derive(Clone, Copy, PartialEq, Eq)]
pub enum HashAlg {
    /// SHA-1.
    Sha1,
    /// SHA-256.
    Sha256,
}

impl HashAlg {
    ghost use Rattle.tpm_mac.specs.Digest.{digest_size};

    /// The size of a digest in bytes: 20 or 32.
    pub fn size(self) -> usize
        ensures { result ≡ digest_size self }
    {
        match self {
            HashAlg::Sha1 => 20,
            HashAlg::Sha256 => 32,
        }
    }

    /// A list of zeros as long as a digest.
    pub fn zeros(self) -> &'static [u8]
        ensures { result.now ≡ replicate (digest_size self) 0 }
    {
        match self {
            HashAlg::Sha1 => &[0; 20],
            HashAlg::Sha256 => &[0; 32],
        }
    }
}
