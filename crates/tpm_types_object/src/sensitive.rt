//! The sensitive area of an object: its authorization value, its seed, and its key or sealed data
//! (TPMT_SENSITIVE; TPM 2.0 Library, Part 2, section 12.3.2.4).

ghost use Rattle.std.specs.Prelude.{◌≡◌, ℕ, ◌≤◌, List, ◌++◌, length, Ok, IfOk};
ghost use Rattle.tpm_bytes.specs.Reading.{AreBytes, Reads};
ghost use Rattle.tpm_bytes.specs.Writing.{Puts, sized_text};

use crate::public::ObjectType;
use tpm_bytes::{Cursor, Full, Readable, Sink};
use tpm_types_common::{Octets, Rc, SENSITIVE_LIMIT, read_filled};

/// The sensitive area of an object: TPMT_SENSITIVE (Part 2, section 12.3.2.4).
#[derive(Drop)]
pub struct Sensitive {
    pub object_type: ObjectType,
    /// The authorization value as it is encoded, including its trailing zeros.
    pub auth_value: Octets<32>,
    /// For a storage key, its seed. For any other object, the obfuscation value, which hides
    /// `sensitive` in the public area.
    pub seed_value: Octets<32>,
    /// The key or the sealed data.
    pub sensitive: Octets<SENSITIVE_LIMIT>,
}

impl Sensitive {
    ghost use Rattle.tpm_types_object.specs.Sensitive.{IsSensitive, sensitive_at, sensitive_text};
    ghost use Rattle.tpm_types_common.specs.Filled.{filled_by};
    ghost use Rattle.tpm_types_object.specs.declared.sensitive.Sensitive.{Sensitive};

    /// Reads a sensitive area. Fails with INSUFFICIENT if it is truncated, with TYPE if its type is
    /// not supported, or with SIZE if a buffer is too long.
    pub fn read(text: &mut Cursor) -> Result<Sensitive, Rc>
        // The result is the decoded value, or the first fault.
        ensures exact { Reads (λ area. area) (sensitive_at text.old) text.old result text.new }
        // If decoding succeeds, the input starts with the encoding of the returned value.
        ensures found { IfOk result (λ area. IsSensitive area
            × (text.old ≡ sensitive_text area ++ text.new)) }
        // The encoding of a value decodes to that value, whatever bytes follow.
        ensures only { (area : Sensitive) (rest : List ℕ) → IsSensitive area
            → text.old ≡ sensitive_text area ++ rest
            → Reads (λ area. area) (Ok (area, rest)) text.old result text.new }
    {
        Sensitive::read_fields(text)
    }

    /// Reads a sensitive area that fills a sized buffer (TPM2B). Fails under the same conditions as
    /// [`read_filled`].
    pub fn read_sized(text: &mut Cursor) -> Result<Sensitive, Rc>
        ensures exact { Reads (λ area. area) (filled_by sensitive_at text.old) text.old
            result text.new }
        ensures found { IfOk result (λ area. IsSensitive area
            × (text.old ≡ sized_text (sensitive_text area) ++ text.new)) }
        ensures only { (area : Sensitive) (rest : List ℕ) → IsSensitive area
            → text.old ≡ sized_text (sensitive_text area) ++ rest
            → Reads (λ area. area) (Ok (area, rest)) text.old result text.new }
    {
        read_filled(text)
    }

    #[tactic(auto, unfolding(crate::specs::Sensitive::sensitive_at))]
    fn read_fields(text: &mut Cursor) -> Result<Sensitive, Rc>
        ensures exact { Reads (λ area. area) (sensitive_at text.old) text.old result text.new }
        ensures bytes { AreBytes text.old }
    {
        let mut ahead = Cursor::new(text.rest());
        let object_type = ObjectType::read(&mut ahead)?;
        let auth_value = Octets::read(&mut ahead)?;
        let seed_value = Octets::read(&mut ahead)?;
        let sensitive = Octets::read(&mut ahead)?;
        *text = ahead;
        Ok(Sensitive {
            object_type,
            auth_value,
            seed_value,
            sensitive,
        })
    }

    /// A copy of the sensitive area.
    pub fn copy(&self) -> Sensitive
        ensures { result ≡ self.now }
    {
        Sensitive {
            object_type: self.object_type,
            auth_value: self.auth_value.copy(),
            seed_value: self.seed_value.copy(),
            sensitive: self.sensitive.copy(),
        }
    }

    /// The encoding of the sensitive area, in a buffer large enough for the longest encoding.
    #[inline(never)]
    #[tactic(auto, unfolding(crate::specs::Sensitive::sensitive_text))]
    pub fn text(&self) -> Sink<200>
        ensures value { result ≡ sensitive_text self.now }
        // Each buffer of the area is within its size limit.
        ensures fits { IsSensitive self.now }
    {
        let mut text = Sink::new();
        text.append_u16(self.object_type.number());
        text.append_sized(self.auth_value.as_slice());
        text.append_sized(self.seed_value.as_slice());
        text.append_sized(self.sensitive.as_slice());
        text
    }

    /// Appends the encoded sensitive area, which is at most 200 bytes long. If it does not fit,
    /// writes nothing and returns an error.
    pub fn write<const N: usize>(&self, sink: &mut Sink<N>) -> Result<(), Full>
        ensures written { Puts N (sensitive_text self.now) sink.old result sink.new }
        ensures small { length (sensitive_text self.now) ≤ 200 }
    {
        let text = self.text();
        sink.put(text.as_slice())
    }
}

impl<'a> Readable<'a> for Sensitive {
    ghost use Rattle.tpm_types_object.specs.Sensitive.{sensitive_at};
    ghost use Rattle.tpm_types_object.specs.declared.sensitive.Sensitive.{Sensitive};

    type Fault = Rc;

    ghost Seen = { Sensitive };

    ghost seen = { λ area. area };

    ghost at = { sensitive_at };

    fn read(text: &mut Cursor<'a>) -> Result<Sensitive, Rc> {
        Sensitive::read(text)
    }
}
