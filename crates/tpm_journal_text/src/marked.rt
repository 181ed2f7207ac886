//! A line that contains bytes and a checksum in hex.

ghost use Rattle.std.specs.Prelude.{◌≡◌, ◌+◌, ◌*◌, ◌≤◌, ◌++◌, ℕ, List, IfNone, IfSome, length, take};
ghost use Rattle.tpm_bytes.specs.Reading.{AreBytes};
ghost use Rattle.tpm_journal_text.specs.Marked.{marked_line, marked_size};
ghost use Rattle.tpm_journal_text.specs.Sum.{sum_from};

use crate::put::{put, put_hex};
use crate::sum::sum_from;
use tpm_hex::decode;

/// The largest size of a marked line that can be read.
const LINE_LIMIT: usize = 128;

/// The size of a marked line whose word and bytes have these sizes.
pub(crate) const fn marked_size(word: usize, count: usize) -> usize
    requires { word + 2 * count ≤ 65536 }
    ensures { result ≡ word + 2 * count + 18 }
{
    word + 2 * count + 18
}

/// Writes a line with these bytes and their checksum at an offset in a buffer; returns the end
/// offset.
#[tactic(auto, unfolding(crate::specs::Marked::marked_line))]
pub(crate) fn put_marked_line(
    room: &mut [u8],
    place: usize,
    word: &[u8],
    bytes: &[u8],
    sum: u64,
) -> usize
    requires { place + marked_size word.now (length bytes.now) ≤ length room.old }
    ensures place { result ≡ place + marked_size word.now (length bytes.now) }
    ensures written { take result room.new ≡ take place room.old
        ++ marked_line word.now bytes.now sum }
    ensures size { length room.new ≡ length room.old }
{
    let place = put(room, place, word);
    let place = put_hex(room, place, bytes);
    let place = put(room, place, b" ");
    let place = put_hex(room, place, &sum.to_be_bytes());
    put(room, place, b"\n")
}

/// Reads the bytes of the marked line at the beginning of the input. Returns the checksum extended
/// by these bytes, or None if there is no such line.
pub(crate) fn read_marked_line(text: &[u8], word: &[u8], sum: u64, bytes: &mut [u8]) -> Option<u64>
    requires small { marked_size word.now (length bytes.old) ≤ 128 }
    requires long { marked_size word.now (length bytes.old) ≤ length text.now }
    ensures found { IfSome result (λ after. (after ≡ sum_from sum bytes.new)
        × (take (marked_size word.now (length bytes.old)) text.now
        ≡ marked_line word.now bytes.new after)) }
    ensures none { IfNone result ((others : List ℕ) → length others ≡ length bytes.old
        → AreBytes others → take (marked_size word.now (length bytes.old)) text.now
        ≡ marked_line word.now others (sum_from sum others) → ⊥) }
    ensures size { length bytes.new ≡ length bytes.old }
    ensures bytes { AreBytes bytes.new }
{
    let (_, back) = text.split_at(word.len());
    let (digits, _) = back.split_at(2 * bytes.len());
    if decode(digits, bytes).is_err() {
        return None;
    }
    let after = sum_from(sum, bytes);
    let mut line = [0; LINE_LIMIT];
    let size = put_marked_line(&mut line, 0, word, bytes, after);
    let (written, _) = line.split_at(size);
    let (front, _) = text.split_at(size);
    if written == front { Some(after) } else { None }
}
