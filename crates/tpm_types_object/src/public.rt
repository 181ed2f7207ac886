//! The public area of an object, including its type and parameters (TPMT_PUBLIC; TPM 2.0 Library,
//! Part 2, section 12.2).

ghost use Rattle.std.specs.Prelude.{◌≡◌, ℕ, ◌+◌, ◌≤◌, List, ◌++◌, length, Ok, IfOk};
ghost use Rattle.tpm_bytes.specs.Reading.{AreBytes, Reads};
ghost use Rattle.tpm_bytes.specs.Writing.{Puts, sized_text};

use crate::object_attributes::ObjectAttributes;
use tpm_bytes::{Cursor, Full, Readable, Sink};
use tpm_mac::HashAlg;
use tpm_types_common::{
    Octets, Rc, ResponseCode, SymmetricDefinition, hash_number, read_filled, read_hash,
};

/// The type of an object: TPMI_ALG_PUBLIC (Part 2, section 12.2.2).
#[derive(Clone, Copy, PartialEq, Eq)]
pub enum ObjectType {
    /// TPM_ALG_KEYEDHASH: an HMAC key or sealed data.
    KeyedHash,
    /// TPM_ALG_SYMCIPHER: a symmetric key.
    SymCipher,
}

impl ObjectType {
    ghost use Rattle.tpm_types_object.specs.Public.{object_type_at, object_type_named, object_type_number};

    /// The wire number of the type.
    pub fn number(self) -> u16
        ensures { result ≡ object_type_number self }
    {
        match self {
            ObjectType::KeyedHash => 0x0008,
            ObjectType::SymCipher => 0x0025,
        }
    }

    /// The type with this number, or None.
    pub fn named(number: u16) -> Option<ObjectType>
        ensures { result ≡ object_type_named number }
    {
        match number {
            0x0008 => Some(ObjectType::KeyedHash),
            0x0025 => Some(ObjectType::SymCipher),
            _ => None,
        }
    }

    /// Reads an object type. Fails with INSUFFICIENT if it is truncated, or with TYPE if it is not
    /// supported.
    #[tactic(auto, unfolding(crate::specs::Public::object_type_at))]
    pub fn read(text: &mut Cursor) -> Result<ObjectType, Rc>
        ensures { Reads (λ kind. kind) (object_type_at text.old) text.old result text.new }
    {
        let mut ahead = Cursor::new(text.rest());
        let Ok(number) = ahead.u16() else {
            return Err(ResponseCode::Insufficient.anywhere());
        };
        let Some(kind) = ObjectType::named(number) else {
            return Err(ResponseCode::Type.anywhere());
        };
        *text = ahead;
        Ok(kind)
    }
}

/// The scheme of a KEYEDHASH object, which restricts the use of the object: TPMT_KEYEDHASH_SCHEME
/// (Part 2, section 11.1).
#[derive(Clone, Copy, PartialEq, Eq)]
pub enum KeyedHashScheme {
    /// TPM_ALG_NULL: no scheme is set, and the object may be used with any scheme.
    Null,
    /// TPM_ALG_HMAC: the object is an HMAC key for this hash algorithm.
    Hmac(HashAlg),
}

impl KeyedHashScheme {
    ghost use Rattle.tpm_types_object.specs.Public.{scheme_at, scheme_text};

    /// Reads a scheme. Fails with INSUFFICIENT if it is truncated, with SCHEME if it is neither
    /// NULL nor HMAC, or with HASH if the hash algorithm of HMAC is not supported.
    #[tactic(auto, unfolding(crate::specs::Public::scheme_at))]
    pub fn read(text: &mut Cursor) -> Result<KeyedHashScheme, Rc>
        ensures { Reads (λ scheme. scheme) (scheme_at text.old) text.old result text.new }
    {
        let mut ahead = Cursor::new(text.rest());
        let Ok(number) = ahead.u16() else {
            return Err(ResponseCode::Insufficient.anywhere());
        };
        let scheme = match number {
            0x0010 => KeyedHashScheme::Null,
            0x0005 => KeyedHashScheme::Hmac(read_hash(&mut ahead)?),
            _ => return Err(ResponseCode::Scheme.anywhere()),
        };
        *text = ahead;
        Ok(scheme)
    }

    /// Appends the encoded scheme, which is at most four bytes long. If it does not fit, writes
    /// nothing and returns an error.
    #[tactic(auto, unfolding(crate::specs::Public::scheme_text))]
    pub fn write<const N: usize>(self, sink: &mut Sink<N>) -> Result<(), Full>
        ensures written { Puts N (scheme_text self) sink.old result sink.new }
        ensures small { length (scheme_text self) ≤ 4 }
    {
        let mut text: Sink<4> = Sink::new();
        self.append_to(&mut text);
        sink.put(text.as_slice())
    }

    /// Appends the encoded scheme. The sink must have room for the longest encoding, four bytes.
    #[tactic(auto, unfolding(crate::specs::Public::scheme_text))]
    pub fn append_to<const N: usize>(self, sink: &mut Sink<N>)
        requires { length sink.old + 4 ≤ N }
        ensures written { sink.new ≡ sink.old ++ scheme_text self }
        ensures small { length sink.new ≤ length sink.old + 4 }
    {
        match self {
            KeyedHashScheme::Null => sink.append_u16(0x0010),
            KeyedHashScheme::Hmac(hash) => {
                sink.append_u16(0x0005);
                sink.append_u16(hash_number(hash));
            }
        }
    }
}

/// The parameters of an object, which depend on its type: TPMU_PUBLIC_PARMS (Part 2, section
/// 12.2.3).
#[derive(Clone, Copy, PartialEq, Eq)]
pub enum PublicParameters {
    KeyedHash(KeyedHashScheme),
    /// AES with a 128-bit key, in cipher feedback mode.
    SymCipher,
}

impl PublicParameters {
    ghost use Rattle.tpm_types_object.specs.Public.{parameters_at, parameters_text, sym_cipher_at, type_of_parameters};

    /// The type of an object with these parameters.
    pub fn object_type(self) -> ObjectType
        ensures { result ≡ type_of_parameters self }
    {
        match self {
            PublicParameters::KeyedHash(_) => ObjectType::KeyedHash,
            PublicParameters::SymCipher => ObjectType::SymCipher,
        }
    }

    /// Reads the parameters of an object of this type. Fails with the first fault of the scheme or
    /// cipher.
    pub fn read(kind: ObjectType, text: &mut Cursor) -> Result<PublicParameters, Rc>
        ensures { Reads (λ parameters. parameters) (parameters_at kind text.old) text.old
            result text.new }
    {
        match kind {
            ObjectType::KeyedHash => Ok(PublicParameters::KeyedHash(KeyedHashScheme::read(text)?)),
            ObjectType::SymCipher => PublicParameters::read_cipher(text),
        }
    }

    /// Reads the cipher of a SYMCIPHER object.
    #[tactic(auto, unfolding(crate::specs::Public::sym_cipher_at))]
    fn read_cipher(text: &mut Cursor) -> Result<PublicParameters, Rc>
        ensures { Reads (λ parameters. parameters) (sym_cipher_at text.old) text.old
            result text.new }
    {
        SymmetricDefinition::read_cipher(text)?;
        Ok(PublicParameters::SymCipher)
    }

    /// Appends the encoded parameters, which are at most six bytes long. If they do not fit, writes
    /// nothing and returns an error.
    #[tactic(auto, unfolding(tpm_types_common::specs::Symmetric::symmetric_text))]
    pub fn write<const N: usize>(self, sink: &mut Sink<N>) -> Result<(), Full>
        ensures written { Puts N (parameters_text self) sink.old result sink.new }
        ensures small { length (parameters_text self) ≤ 6 }
    {
        match self {
            PublicParameters::KeyedHash(scheme) => scheme.write(sink),
            PublicParameters::SymCipher => SymmetricDefinition::Aes128Cfb.write(sink),
        }
    }

    /// Appends the encoded parameters. The sink must have room for the longest encoding, six bytes.
    #[tactic(auto, unfolding(tpm_types_common::specs::Symmetric::symmetric_text))]
    pub fn append_to<const N: usize>(self, sink: &mut Sink<N>)
        requires { length sink.old + 6 ≤ N }
        ensures written { sink.new ≡ sink.old ++ parameters_text self }
        ensures small { length sink.new ≤ length sink.old + 6 }
    {
        match self {
            PublicParameters::KeyedHash(scheme) => scheme.append_to(sink),
            PublicParameters::SymCipher => SymmetricDefinition::Aes128Cfb.append_to(sink),
        }
    }
}

/// The public area of an object: TPMT_PUBLIC (Part 2, section 12.2.4).
#[derive(Drop)]
pub struct Public {
    /// The hash algorithm for the object's Name and policy.
    pub name_alg: HashAlg,
    pub attributes: ObjectAttributes,
    pub auth_policy: Octets<32>,
    pub parameters: PublicParameters,
    pub unique: Octets<32>,
}

impl Public {
    ghost use Rattle.tpm_types_object.specs.Public.{IsPublic, object_type, public_at, public_text};
    ghost use Rattle.tpm_types_common.specs.Filled.{filled_by};
    ghost use Rattle.tpm_types_object.specs.declared.public.Public.{Public};

    /// Reads a public area. Fails with INSUFFICIENT if it is truncated, or else with the first
    /// fault of a field.
    pub fn read(text: &mut Cursor) -> Result<Public, Rc>
        // The result is the decoded value, or the first fault.
        ensures exact { Reads (λ public. public) (public_at text.old) text.old result text.new }
        // If decoding succeeds, the input starts with the encoding of the returned value.
        ensures found { IfOk result (λ public. IsPublic public
            × (text.old ≡ public_text public ++ text.new)) }
        // The encoding of a value decodes to that value, whatever bytes follow.
        ensures only { (public : Public) (rest : List ℕ) → IsPublic public
            → text.old ≡ public_text public ++ rest
            → Reads (λ public. public) (Ok (public, rest)) text.old result text.new }
    {
        Public::read_fields(text)
    }

    /// Reads a public area that fills a sized buffer (TPM2B). Fails under the same conditions as
    /// [`read_filled`].
    pub fn read_sized(text: &mut Cursor) -> Result<Public, Rc>
        ensures exact { Reads (λ public. public) (filled_by public_at text.old) text.old
            result text.new }
        ensures found { IfOk result (λ public. IsPublic public
            × (text.old ≡ sized_text (public_text public) ++ text.new)) }
        ensures only { (public : Public) (rest : List ℕ) → IsPublic public
            → text.old ≡ sized_text (public_text public) ++ rest
            → Reads (λ public. public) (Ok (public, rest)) text.old result text.new }
    {
        read_filled(text)
    }

    #[tactic(auto, unfolding(crate::specs::Public::public_at))]
    fn read_fields(text: &mut Cursor) -> Result<Public, Rc>
        ensures exact { Reads (λ public. public) (public_at text.old) text.old result text.new }
        ensures bytes { AreBytes text.old }
    {
        let mut ahead = Cursor::new(text.rest());
        let kind = ObjectType::read(&mut ahead)?;
        let name_alg = read_hash(&mut ahead)?;
        let attributes = ObjectAttributes::read(&mut ahead)?;
        let auth_policy = Octets::read(&mut ahead)?;
        let parameters = PublicParameters::read(kind, &mut ahead)?;
        let unique = Octets::read(&mut ahead)?;
        *text = ahead;
        Ok(Public {
            name_alg,
            attributes,
            auth_policy,
            parameters,
            unique,
        })
    }

    /// The type of the object.
    pub fn object_type(&self) -> ObjectType
        ensures { result ≡ object_type self.now }
    {
        self.parameters.object_type()
    }

    /// A copy of the public area.
    pub fn copy(&self) -> Public
        ensures { result ≡ self.now }
    {
        Public {
            name_alg: self.name_alg,
            attributes: self.attributes,
            auth_policy: self.auth_policy.copy(),
            parameters: self.parameters,
            unique: self.unique.copy(),
        }
    }

    /// The encoding of the public area, in a buffer large enough for the longest encoding.
    #[tactic(auto, unfolding(crate::specs::Public::public_text))]
    pub fn text(&self) -> Sink<82>
        ensures { result ≡ public_text self.now }
    {
        let mut text = Sink::new();
        text.append_u16(self.object_type().number());
        text.append_u16(hash_number(self.name_alg));
        text.append_u32(self.attributes.bits());
        text.append_sized(self.auth_policy.as_slice());
        self.parameters.append_to(&mut text);
        text.append_sized(self.unique.as_slice());
        text
    }

    /// Appends the encoded public area, which is at most 82 bytes long. If it does not fit, writes
    /// nothing and returns an error.
    pub fn write<const N: usize>(&self, sink: &mut Sink<N>) -> Result<(), Full>
        ensures written { Puts N (public_text self.now) sink.old result sink.new }
        ensures small { length (public_text self.now) ≤ 82 }
    {
        let text = self.text();
        sink.put(text.as_slice())
    }
}

impl<'a> Readable<'a> for Public {
    ghost use Rattle.tpm_types_object.specs.Public.{public_at};
    ghost use Rattle.tpm_types_object.specs.declared.public.Public.{Public};

    type Fault = Rc;

    ghost Seen = { Public };

    ghost seen = { λ public. public };

    ghost at = { public_at };

    fn read(text: &mut Cursor<'a>) -> Result<Public, Rc> {
        Public::read(text)
    }
}
