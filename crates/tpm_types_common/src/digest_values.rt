//! Reads and writes digests with their hash algorithm, singly (TPMT_HA) and in lists
//! (TPML_DIGEST_VALUES; TPM 2.0 Library, Part 2, sections 10.3.2 and 10.9.6).

ghost use Rattle.std.specs.Prelude.{◌≡◌, ◌+◌, ◌*◌, ◌≤◌, ℕ, List, ◌++◌, length, replicate, Ok, IfOk};
ghost use Rattle.tpm_bytes.specs.Reading.{AreBytes, Reads};
ghost use Rattle.tpm_bytes.specs.Writing.{Puts};
ghost use Rattle.tpm_types_common.specs.declared.digest_values.DigestValue.{DigestValue};
ghost use Rattle.tpm_types_common.specs.DigestValues.{IsDigestValues, digest_value_at, digest_value_text};
ghost use Rattle.tpm_types_common.specs.DigestValues.{digest_values_at, digest_values_text, values_text};

use crate::algorithm::{hash_number, read_hash};
use crate::rc::{Rc, ResponseCode};
use arrayvec::ArrayVec;
use tpm_bytes::{Cursor, Full, Readable, Sink, read_many};
use tpm_mac::HashAlg;

/// The maximum number of digests in a list: one for each hash algorithm.
pub const DIGEST_VALUES_LIMIT: u32 = 2;

/// A digest and its hash algorithm: TPMT_HA (Part 2, section 10.3.2).
#[derive(Clone, Copy, PartialEq, Eq)]
pub enum DigestValue {
    Sha1([u8; 20]),
    Sha256([u8; 32]),
}

impl Default for DigestValue {
    fn default() -> DigestValue
        ensures { result ≡ DigestValue.Sha1 (replicate 20 0) }
    {
        DigestValue::Sha1([0; 20])
    }
}

/// Up to two digests, each with its hash algorithm: TPML_DIGEST_VALUES (Part 2, section 10.9.6).
#[derive(Drop)]
pub struct DigestValues {
    pub values: ArrayVec<DigestValue, 2>,
}

impl DigestValue {
    ghost use Rattle.tpm_types_common.specs.DigestValues.{digest_of, hash_of_value};

    /// The hash algorithm of the digest.
    pub fn hash(&self) -> HashAlg
        ensures { result ≡ hash_of_value self.now }
    {
        match self {
            DigestValue::Sha1(_) => HashAlg::Sha1,
            DigestValue::Sha256(_) => HashAlg::Sha256,
        }
    }

    /// The bytes of the digest.
    pub fn digest(&self) -> &[u8]
        ensures value { result.now ≡ digest_of self.now }
        ensures fits { length result.now ≤ 32 }
    {
        match self {
            DigestValue::Sha1(digest) => digest,
            DigestValue::Sha256(digest) => digest,
        }
    }

    /// Reads a digest. Fails with INSUFFICIENT if it is truncated, or with HASH if its algorithm is
    /// not supported.
    #[tactic(auto, unfolding(crate::specs::DigestValues::digest_value_at))]
    pub fn read(text: &mut Cursor) -> Result<DigestValue, Rc>
        ensures { Reads (λ value. value) (digest_value_at text.old) text.old result text.new }
    {
        let mut ahead = Cursor::new(text.rest());
        let value = match read_hash(&mut ahead)? {
            HashAlg::Sha1 => DigestValue::Sha1(read_octets::<20>(&mut ahead)?),
            HashAlg::Sha256 => DigestValue::Sha256(read_octets::<32>(&mut ahead)?),
        };
        *text = ahead;
        Ok(value)
    }

    /// Appends the encoded digest, which is at most 34 bytes long. If it does not fit, writes
    /// nothing and returns an error.
    #[tactic(auto, unfolding(crate::specs::DigestValues::digest_value_text))]
    pub fn write<const N: usize>(&self, sink: &mut Sink<N>) -> Result<(), Full>
        ensures written { Puts N (digest_value_text self.now) sink.old result sink.new }
        ensures small { length (digest_value_text self.now) ≤ 34 }
    {
        let mut text: Sink<34> = Sink::new();
        self.append_to(&mut text);
        sink.put(text.as_slice())
    }

    /// Appends the encoded digest. The sink must have room for the longest encoding, 34 bytes.
    #[tactic(auto, unfolding(crate::specs::DigestValues::digest_value_text))]
    pub fn append_to<const N: usize>(&self, sink: &mut Sink<N>)
        requires { length sink.old + 34 ≤ N }
        ensures written { sink.new ≡ sink.old ++ digest_value_text self.now }
        ensures small { length sink.new ≤ length sink.old + 34 }
    {
        sink.append_u16(hash_number(self.hash()));
        sink.append(self.digest());
    }
}

impl<'a> Readable<'a> for DigestValue {
    type Fault = Rc;

    ghost Seen = { DigestValue };

    ghost seen = { λ value. value };

    ghost at = { digest_value_at };

    fn read(text: &mut Cursor<'a>) -> Result<DigestValue, Rc> {
        DigestValue::read(text)
    }
}

ghost use Rattle.tpm_types_common.specs.DigestValues.{octets_at};

/// Reads the next `N` bytes. Fails with INSUFFICIENT if fewer are left.
fn read_octets<const N: usize>(text: &mut Cursor) -> Result<[u8; N], Rc>
    ensures { Reads (λ octets. octets) (octets_at N text.old) text.old result text.new }
{
    let Ok(bytes) = text.take(N) else {
        return Err(ResponseCode::Insufficient.anywhere());
    };
    let mut octets = [0; N];
    octets.copy_from_slice(bytes);
    Ok(octets)
}

impl DigestValues {
    /// Reads a list of digests. Fails with INSUFFICIENT if it is truncated, with SIZE if it has
    /// more than two digests, or else with the first fault of a digest.
    pub fn read(text: &mut Cursor) -> Result<DigestValues, Rc>
        // The result is the decoded digests, or the first fault.
        ensures exact { Reads (λ digests. digests.values.items) (digest_values_at text.old)
            text.old result text.new }
        // If decoding succeeds, the input starts with the encoding of the returned value.
        ensures found { IfOk result (λ digests. IsDigestValues digests.values.items
            × (text.old ≡ digest_values_text digests.values.items ++ text.new)) }
        // The encoding of a value decodes to that value, whatever bytes follow.
        ensures only { (values : List DigestValue) (rest : List ℕ) → IsDigestValues values
            → text.old ≡ digest_values_text values ++ rest
            → Reads (λ digests. digests.values.items) (Ok (values, rest)) text.old result text.new }
    {
        DigestValues::read_fields(text)
    }

    #[tactic(auto, unfolding(crate::specs::DigestValues::digest_values_at))]
    fn read_fields(text: &mut Cursor) -> Result<DigestValues, Rc>
        ensures exact { Reads (λ digests. digests.values.items) (digest_values_at text.old)
            text.old result text.new }
        ensures bytes { AreBytes text.old }
    {
        let mut ahead = Cursor::new(text.rest());
        let Ok(count) = ahead.u32() else {
            return Err(ResponseCode::Insufficient.anywhere());
        };
        if count > DIGEST_VALUES_LIMIT {
            return Err(ResponseCode::Size.anywhere());
        }
        let values = read_many(&mut ahead, count as usize)?;
        *text = ahead;
        Ok(DigestValues { values })
    }

    /// Appends the encoded list, which is at most 72 bytes long. If it does not fit, writes nothing
    /// and returns an error.
    pub fn write<const N: usize>(&self, sink: &mut Sink<N>) -> Result<(), Full>
        ensures written { Puts N (digest_values_text self.now.values.items)
            sink.old result sink.new }
        ensures small { length (digest_values_text self.now.values.items) ≤ 72 }
    {
        let text = self.text();
        sink.put(text.as_slice())
    }

    /// The encoding of the list, in a buffer for the longest list: four bytes, and two digests of 2
    /// + 32 bytes.
    fn text(&self) -> Sink<72>
        ensures { result ≡ digest_values_text self.now.values.items }
    {
        let mut text = Sink::new();
        self.append_to(&mut text);
        text
    }

    /// Appends the encoded list. The sink must have room for the longest encoding, 72 bytes.
    pub fn append_to<const N: usize>(&self, sink: &mut Sink<N>)
        requires { length sink.old + 72 ≤ N }
        ensures written { sink.new ≡ sink.old ++ digest_values_text self.now.values.items }
        ensures small { length sink.new ≤ length sink.old + 72 }
    {
        let values = self.values.as_slice();
        sink.append_u32(values.len() as u32);
        append_values(values, sink);
    }
}

fn append_values<const N: usize>(values: &[DigestValue], sink: &mut Sink<N>)
    requires { length sink.old + 34 * length values.now ≤ N }
    ensures written { sink.new ≡ sink.old ++ values_text values.now }
    ensures small { length sink.new ≤ length sink.old + 34 * length values.now }
{
    for value in values {
        value.append_to(sink);
    }
}
