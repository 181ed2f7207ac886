//! The attributes of a session in an authorization entry (TPMA_SESSION; TPM 2.0 Library, Part 2,
//! section 8.4).

ghost use Rattle.std.specs.Prelude.{◌≡◌};
ghost use Rattle.tpm_types_common.specs.SessionAttributes.{audits, continues_session, decrypts, encrypts, has_bits, has_reserved_bits, uses_cipher};

/// The attributes of a session in an authorization entry: TPMA_SESSION (Part 2, section 8.4).
#[derive(Clone, Copy, PartialEq, Eq, Default)]
pub struct SessionAttributes {
    pub octet: u8,
}

/// The bit continueSession.
const CONTINUE_SESSION: u8 = 0x01;

/// The bits auditExclusive, auditReset and audit.
const AUDIT: u8 = 0x86;

/// The reserved bits 3 and 4.
const RESERVED: u8 = 0x18;

const DECRYPT: u8 = 0x20;

const ENCRYPT: u8 = 0x40;

impl SessionAttributes {
    /// Whether any of these bits is set.
    fn has_any(self, bits: u8) -> bool
        ensures { result ≡ has_bits bits self }
    {
        self.octet & bits != 0
    }

    /// Whether the session continues after the command.
    pub fn continues_session(self) -> bool
        ensures { result ≡ continues_session self }
    {
        self.has_any(CONTINUE_SESSION)
    }

    /// Whether the client requests an audit session.
    pub fn audits(self) -> bool
        ensures { result ≡ audits self }
    {
        self.has_any(AUDIT)
    }

    /// Whether a reserved bit is set.
    pub fn has_reserved_bits(self) -> bool
        ensures { result ≡ has_reserved_bits self }
    {
        self.has_any(RESERVED)
    }

    /// Whether the device decrypts the command's first parameter with the session.
    pub fn decrypts(self) -> bool
        ensures { result ≡ decrypts self }
    {
        self.has_any(DECRYPT)
    }

    /// Whether the device encrypts the response's first parameter with the session.
    pub fn encrypts(self) -> bool
        ensures { result ≡ encrypts self }
    {
        self.has_any(ENCRYPT)
    }

    /// Whether the session is used to encrypt a parameter of the command or of the response.
    pub fn uses_cipher(self) -> bool
        ensures { result ≡ uses_cipher self }
    {
        self.has_any(DECRYPT | ENCRYPT)
    }
}
