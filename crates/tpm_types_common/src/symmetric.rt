//! How a session encrypts parameters: not at all, by AES-128 in CFB mode, or by XOR with a mask
//! (TPMT_SYM_DEF; TPM 2.0 Library, Part 2, section 11.1.6).

ghost use Rattle.std.specs.Prelude.{◌≡◌, ◌+◌, ◌≤◌, ℕ, List, ◌++◌, length, Ok, IfOk};
ghost use Rattle.tpm_bytes.specs.Reading.{AreBytes, Reads};
ghost use Rattle.tpm_bytes.specs.Writing.{Puts};

use crate::algorithm::read_hash;
use crate::rc::{Rc, ResponseCode};
use tpm_bytes::{Cursor, Full, Sink};
use tpm_mac::HashAlg;

/// How a session encrypts parameters: TPMT_SYM_DEF (Part 2, section 11.1.6).
#[derive(Clone, Copy, PartialEq, Eq)]
pub enum SymmetricDefinition {
    /// Parameters are not encrypted.
    Null,
    /// Parameters are encrypted by AES with a 128-bit key, in cipher feedback mode.
    Aes128Cfb,
    /// Parameters are encrypted by XOR with masks that this hash algorithm generates.
    Xor(HashAlg),
}

impl SymmetricDefinition {
    ghost use Rattle.tpm_types_common.specs.Symmetric.{aes_at, cipher_at, symmetric_at, symmetric_text, xor_at};
    ghost use Rattle.tpm_types_common.specs.declared.symmetric.SymmetricDefinition.{SymmetricDefinition};

    /// Reads a symmetric definition. Fails with INSUFFICIENT if it is truncated; with SYMMETRIC if
    /// the algorithm is not NULL, AES or XOR; with VALUE if the key is not 128 bits long; with MODE
    /// if the mode is not CFB; or with HASH if the hash algorithm is not supported.
    pub fn read(text: &mut Cursor) -> Result<SymmetricDefinition, Rc>
        // The result is the decoded definition, or the first fault.
        ensures exact { Reads (λ definition. definition) (symmetric_at text.old) text.old
            result text.new }
        // If decoding succeeds, the input starts with the encoding of the returned value.
        ensures found { IfOk result (λ definition.
            text.old ≡ symmetric_text definition ++ text.new) }
        // The encoding of a value decodes to that value, whatever bytes follow.
        ensures only { (definition : SymmetricDefinition) (rest : List ℕ)
            → text.old ≡ symmetric_text definition ++ rest
            → Reads (λ definition. definition) (Ok (definition, rest)) text.old result text.new }
    {
        SymmetricDefinition::read_fields(text)
    }

    #[tactic(auto, unfolding(crate::specs::Symmetric::symmetric_at))]
    fn read_fields(text: &mut Cursor) -> Result<SymmetricDefinition, Rc>
        ensures exact { Reads (λ definition. definition) (symmetric_at text.old) text.old
            result text.new }
        ensures bytes { AreBytes text.old }
    {
        let mut ahead = Cursor::new(text.rest());
        let Ok(number) = ahead.u16() else {
            return Err(ResponseCode::Insufficient.anywhere());
        };
        let definition = match number {
            0x0010 => SymmetricDefinition::Null,
            0x0006 => SymmetricDefinition::read_aes(&mut ahead)?,
            0x000a => SymmetricDefinition::read_xor(&mut ahead)?,
            _ => return Err(ResponseCode::Symmetric.anywhere()),
        };
        *text = ahead;
        Ok(definition)
    }

    /// Reads the fields that follow the algorithm AES in a symmetric definition.
    #[tactic(auto, unfolding(crate::specs::Symmetric::aes_at))]
    fn read_aes(text: &mut Cursor) -> Result<SymmetricDefinition, Rc>
        ensures { Reads (λ definition. definition) (aes_at text.old) text.old result text.new }
    {
        let mut ahead = Cursor::new(text.rest());
        let Ok(key_bits) = ahead.u16() else {
            return Err(ResponseCode::Insufficient.anywhere());
        };
        if key_bits != 0x0080 {
            return Err(ResponseCode::Value.anywhere());
        }
        let Ok(mode) = ahead.u16() else {
            return Err(ResponseCode::Insufficient.anywhere());
        };
        if mode != 0x0043 {
            return Err(ResponseCode::Mode.anywhere());
        }
        *text = ahead;
        Ok(SymmetricDefinition::Aes128Cfb)
    }

    /// Reads the field that follows the algorithm XOR in a symmetric definition.
    #[tactic(auto, unfolding(crate::specs::Symmetric::xor_at))]
    fn read_xor(text: &mut Cursor) -> Result<SymmetricDefinition, Rc>
        ensures { Reads (λ definition. definition) (xor_at text.old) text.old result text.new }
    {
        Ok(SymmetricDefinition::Xor(read_hash(text)?))
    }

    /// Reads the definition of a cipher, which must be AES. Fails with INSUFFICIENT if it is
    /// truncated; with SYMMETRIC if the algorithm is not AES; with VALUE if the key is not 128 bits
    /// long; or with MODE if the mode is not CFB.
    #[tactic(auto, unfolding(crate::specs::Symmetric::cipher_at))]
    pub fn read_cipher(text: &mut Cursor) -> Result<SymmetricDefinition, Rc>
        ensures { Reads (λ definition. definition) (cipher_at text.old) text.old result text.new }
    {
        let mut ahead = Cursor::new(text.rest());
        let Ok(number) = ahead.u16() else {
            return Err(ResponseCode::Insufficient.anywhere());
        };
        if number != 0x0006 {
            return Err(ResponseCode::Symmetric.anywhere());
        }
        let cipher = SymmetricDefinition::read_aes(&mut ahead)?;
        *text = ahead;
        Ok(cipher)
    }

    /// Appends the encoded definition, which is two, four or six bytes long. If it does not fit,
    /// writes nothing and returns an error.
    pub fn write<const N: usize>(&self, sink: &mut Sink<N>) -> Result<(), Full>
        ensures { Puts N (symmetric_text self.now) sink.old result sink.new }
    {
        sink.put(self.text())
    }

    /// Appends the encoded definition. The sink must have room for the longest encoding, six bytes.
    pub fn append_to<const N: usize>(&self, sink: &mut Sink<N>)
        requires { length sink.old + 6 ≤ N }
        ensures written { sink.new ≡ sink.old ++ symmetric_text self.now }
        ensures small { length sink.new ≤ length sink.old + 6 }
    {
        sink.append(self.text());
    }

    /// The encoding of the definition.
    #[tactic(auto, unfolding(crate::specs::Symmetric::symmetric_text))]
    fn text(&self) -> &'static [u8]
        ensures value { result.now ≡ symmetric_text self.now }
        ensures small { length result.now ≤ 6 }
    {
        match *self {
            SymmetricDefinition::Null => b"\x00\x10",
            SymmetricDefinition::Aes128Cfb => b"\x00\x06\x00\x80\x00\x43",
            SymmetricDefinition::Xor(HashAlg::Sha1) => b"\x00\x0a\x00\x04",
            SymmetricDefinition::Xor(HashAlg::Sha256) => b"\x00\x0a\x00\x0b",
        }
    }
}
