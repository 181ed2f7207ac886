//! Reads and writes lists of up to eight digests (TPML_DIGEST; TPM 2.0 Library, Part 2, section
//! 10.9.5).

ghost use Rattle.std.specs.Prelude.{◌≡◌, ◌+◌, ◌≤◌, ℕ, List, ◌++◌, length, Ok, IfOk};
ghost use Rattle.tpm_bytes.specs.Reading.{AreBytes, Reads};
ghost use Rattle.tpm_bytes.specs.Writing.{Puts};
ghost use Rattle.tpm_types_common.specs.DigestList.{digest_at};

use crate::buffer::read_buffer;
use crate::rc::{Rc, ResponseCode};
use arrayvec::ArrayVec;
use tpm_bytes::{Cursor, Full, Readable, Sink, append, read_many};
use tpm_mac::Digest;

/// The minimum number of digests in a list that can be read.
pub const FEWEST_DIGESTS: u32 = 2;

/// The maximum number of digests in a list that can be read.
pub const DIGEST_LIST_LIMIT: u32 = 8;

/// A digest in a list, borrowed from the input.
#[derive(Drop)]
struct ListedDigest<'a> {
    bytes: &'a [u8],
    ghost fits: { length bytes.now ≤ 32 },
}

impl<'a> Default for ListedDigest<'a> {
    fn default() -> ListedDigest<'a> {
        ListedDigest { bytes: &[] }
    }
}

impl<'a> Readable<'a> for ListedDigest<'a> {
    type Fault = Rc;

    ghost Seen = { List ℕ };

    ghost seen = { λ listed. listed.bytes.now };

    ghost at = { digest_at };

    fn read(text: &mut Cursor<'a>) -> Result<ListedDigest<'a>, Rc> {
        let bytes = read_buffer(text, 32)?;
        Ok(ListedDigest { bytes })
    }
}

/// Up to eight digests: TPML_DIGEST (Part 2, section 10.9.5).
#[derive(Drop)]
pub struct DigestList {
    pub digests: ArrayVec<Digest, 8>,
}

impl DigestList {
    ghost use Rattle.tpm_types_common.specs.DigestList.{IsDigestList, digest_list_at, digest_list_text, digests_of};

    /// Reads a list of two to eight digests. Fails with INSUFFICIENT if the list is truncated, with
    /// SIZE if it has fewer than two or more than eight digests, or else with the first fault of a
    /// digest.
    pub fn read(text: &mut Cursor) -> Result<DigestList, Rc>
        // The result is the decoded digests, or the first fault.
        ensures exact { Reads (λ list. digests_of list.digests.items) (digest_list_at text.old)
            text.old result text.new }
        // If decoding succeeds, the input starts with the encoding of the returned value.
        ensures found { IfOk result (λ list. IsDigestList (digests_of list.digests.items)
            × (text.old ≡ digest_list_text (digests_of list.digests.items) ++ text.new)) }
        // The encoding of a value decodes to that value, whatever bytes follow.
        ensures only { (digests : List (List ℕ)) (rest : List ℕ) → IsDigestList digests
            → text.old ≡ digest_list_text digests ++ rest
            → Reads (λ list. digests_of list.digests.items) (Ok (digests, rest))
            text.old result text.new }
    {
        DigestList::read_fields(text)
    }

    #[tactic(auto, unfolding(crate::specs::DigestList::digest_list_at))]
    fn read_fields(text: &mut Cursor) -> Result<DigestList, Rc>
        ensures exact { Reads (λ list. digests_of list.digests.items) (digest_list_at text.old)
            text.old result text.new }
        ensures bytes { AreBytes text.old }
    {
        let mut ahead = Cursor::new(text.rest());
        let Ok(count) = ahead.u32() else {
            return Err(ResponseCode::Insufficient.anywhere());
        };
        if count < FEWEST_DIGESTS || count > DIGEST_LIST_LIMIT {
            return Err(ResponseCode::Size.anywhere());
        }
        let listed = read_many::<ListedDigest, 8>(&mut ahead, count as usize)?;
        *text = ahead;
        Ok(DigestList {
            digests: copied(listed.as_slice()),
        })
    }

    /// Appends the encoded list, which is at most 276 bytes long. If it does not fit, writes
    /// nothing and returns an error.
    pub fn write<const N: usize>(&self, sink: &mut Sink<N>) -> Result<(), Full>
        ensures written { Puts N (digest_list_text (digests_of self.now.digests.items))
            sink.old result sink.new }
        ensures small { length (digest_list_text (digests_of self.now.digests.items)) ≤ 276 }
    {
        let text = self.text();
        sink.put(text.as_slice())
    }

    /// The encoding of the list, in a buffer for the longest list: four bytes, and eight digests of
    /// 2 + 32 bytes.
    fn text(&self) -> Sink<276>
        ensures { result ≡ digest_list_text (digests_of self.now.digests.items) }
    {
        let mut text = Sink::new();
        self.append_to(&mut text);
        text
    }

    /// Appends the encoded list. The sink must have room for the longest encoding, 276 bytes.
    pub fn append_to<const N: usize>(&self, sink: &mut Sink<N>)
        requires { length sink.old + 276 ≤ N }
        ensures written { sink.new
            ≡ sink.old ++ digest_list_text (digests_of self.now.digests.items) }
        ensures small { length sink.new ≤ length sink.old + 276 }
    {
        let digests = self.digests.as_slice();
        sink.append_u32(digests.len() as u32);
        append_digests(digests, sink);
    }
}

ghost use Rattle.std.specs.Prelude.{◌*◌, map};
ghost use Rattle.tpm_types_common.specs.DigestList.{digests_of, digests_text};

fn append_digests<const N: usize>(digests: &[Digest], sink: &mut Sink<N>)
    requires { length sink.old + 34 * length digests.now ≤ N }
    ensures written { sink.new ≡ sink.old ++ digests_text (digests_of digests.now) }
    ensures small { length sink.new ≤ length sink.old + 34 * length digests.now }
{
    for digest in digests {
        sink.append_sized(digest.as_slice());
    }
}

/// Owned copies of the borrowed digests.
fn copied(listed: &[ListedDigest]) -> ArrayVec<Digest, 8>
    requires { length listed.now ≤ 8 }
    ensures { digests_of result.items ≡ map (λ one. one.bytes.now) listed.now }
{
    let mut digests = ArrayVec::new();
    for one in listed {
        let mut digest = ArrayVec::new();
        append(&mut digest, one.bytes);
        digests.push(digest);
    }
    digests
}
