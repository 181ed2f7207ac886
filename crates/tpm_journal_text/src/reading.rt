//! Reads the entry at the beginning of the input.

ghost use Rattle.std.specs.Prelude.{◌≡◌, ◌+◌, ◌*◌, ◌≤◌, ◌<◌, ◌++◌, ℕ, List, true, IfNone, IfSome, IsSomeAnd, drop, length, max, take};
ghost use Rattle.hex.specs.Hex.{encode_lower};
ghost use Rattle.tpm_bytes.specs.Reading.{AreBytes};
ghost use Rattle.std.specs.Int.{w16, w32, w64, from_be_bytes};
ghost use Rattle.tpm_journal_text.specs.Entry.{IsEntry, PlainEntry, buffer_size, drawn_line_end, drawn_size, entry_room, entry_size, entry_text, lines_size, mark_of, plain_entry};
ghost use Rattle.tpm_journal_text.specs.Places.{Stands};
ghost use Rattle.tpm_journal_text.specs.Journal.{BeginsWithMark, Finds, HasFewer};

use crate::entry::{ENTRY_LIMIT, ENTRY_ROOM, ENTRY_WORD, Entry};
use crate::marked::read_marked_line;
use crate::torn::{has_fewer, lines_end};
use tpm_bytes::is_equal;
use tpm_hex::decode;

/// The sizes of an entry's mark and of the line that contains it, in bytes.
const MARK_SIZE: usize = 26;

const MARK_LINE_SIZE: usize = 72;

/// The size of a buffer for the random bytes and the command of an entry.
pub const BYTES_ROOM: usize = 256 + ENTRY_LIMIT;

/// The offset of the random bytes in an encoded entry.
const DRAWN_PLACE: usize = 102;

/// The beginning of the input: an entry, a part that is too short for an entry, or neither.
pub enum Next<'a> {
    /// An entry, its encoded size, and the checksum of all marks including its own.
    Whole {
        entry: Entry<'a>,
        size: usize,
        sum: u64,
    },
    /// A part that is too short for an entry. Its lines end where an entry's lines end, and only
    /// zeros may follow it.
    Torn,
    /// Neither an entry nor a part of an entry that a crash could leave.
    Damaged,
}

/// The two-byte number at an offset in a mark.
fn u16_at(mark: &[u8; MARK_SIZE], place: usize) -> usize
    requires { place + 2 ≤ 26 }
    ensures value { result ≡ from_be_bytes w16 (take 2 (drop place mark.now)) }
    ensures small { result < 65536 }
{
    usize::from(u16::from_be_bytes([mark[place], mark[place + 1]]))
}

/// Decodes the hex at an offset in the input, or returns None if it is not hex.
pub(crate) fn read_hex<'a>(text: &[u8], place: usize, room: &'a mut [u8]) -> Option<&'a [u8]>
    requires { place + 2 * length room.old ≤ length text.now }
    ensures size { IfSome result (λ read. length read.now ≡ length room.old) }
    ensures bytes { IfSome result (λ read. AreBytes read.now) }
    ensures again { (bytes : List ℕ) → length bytes ≡ length room.old → AreBytes bytes
        → take (2 * length room.old) (drop place text.now) ≡ encode_lower bytes
        → IsSomeAnd result (λ read. read.now ≡ bytes) }
{
    let (_, back) = text.split_at(place);
    let (digits, _) = back.split_at(2 * room.len());
    match decode(digits, room) {
        Ok(()) => Some(room),
        Err(_) => None,
    }
}

/// The elapsed milliseconds, in the first four bytes of a mark.
fn u32_at(mark: &[u8; MARK_SIZE]) -> u32
    ensures { result ≡ from_be_bytes w32 (take 4 mark.now) }
{
    u32::from_be_bytes([mark[0], mark[1], mark[2], mark[3]])
}

/// The response's checksum, in the last eight bytes of a mark.
fn u64_at(mark: &[u8; MARK_SIZE]) -> u64
    ensures { result ≡ from_be_bytes w64 (take 8 (drop 18 mark.now)) }
{
    u64::from_be_bytes([
        mark[18], mark[19], mark[20], mark[21], mark[22], mark[23], mark[24], mark[25],
    ])
}

/// The encoded size of the entry, according to the entry's mark.
fn size_told(mark: &[u8; MARK_SIZE]) -> usize
    ensures { result ≡ entry_size mark.now }
{
    MARK_LINE_SIZE + 36 + 2 * u16_at(mark, 6).max(1) + 2 * u16_at(mark, 8)
}

/// The offset where the line for the random bytes ends, counted from the end of the mark's line.
fn drawn_end(mark: &[u8; MARK_SIZE]) -> usize
    ensures { result ≡ drawn_line_end (drawn_size mark.now) }
{
    30 + 2 * u16_at(mark, 6).max(1)
}

/// The entry that follows its mark in the input, or None if no such entry follows.
fn entry_behind<'a>(
    mark: &[u8; MARK_SIZE],
    text: &[u8],
    bytes: &'a mut [u8; BYTES_ROOM],
) -> Option<Entry<'a>>
    requires { entry_size mark.now ≤ length text.now }
    ensures entry { IfSome result (λ read. IsEntry (plain_entry read)) }
    ensures again { (e : PlainEntry) → Stands e mark.now text.now
        → IsSomeAnd result (λ read. plain_entry read ≡ e) }
{
    let (drawn_size, buffer_size) = (u16_at(mark, 6), u16_at(mark, 8));
    if mark[4] > 4 || mark[5] > 1 || drawn_size > 256 || buffer_size > ENTRY_LIMIT {
        return None;
    }
    let (drawn, back) = bytes.split_at_mut(drawn_size);
    let (buffer, _) = back.split_at_mut(buffer_size);
    let drawn = read_hex(text, DRAWN_PLACE, drawn)?;
    let buffer = read_hex(text, DRAWN_PLACE + 2 * drawn_size.max(1) + 5, buffer)?;
    Some(Entry {
        elapsed_ms: u32_at(mark),
        locality: mark[4],
        completes: mark[5] == 1,
        drawn,
        buffer,
        answered: u64_at(mark),
    })
}

/// Whether `text` begins with `front`.
pub(crate) fn begins_with(text: &[u8], front: &[u8]) -> bool
    ensures yes { result ≡ true → (length front.now ≤ length text.now)
        × (take (length front.now) text.now ≡ front.now) }
    ensures no { (rest : List ℕ) → text.now ≡ front.now ++ rest → result ≡ true }
{
    if text.len() < front.len() {
        return false;
    }
    let (begin, _) = text.split_at(front.len());
    is_equal(begin, front)
}

/// Classifies input that begins with the line for a mark and is shorter than the mark's entry.
fn less_than_entry<'a>(text: &[u8], mark: &[u8; MARK_SIZE]) -> Next<'a>
    requires { 72 ≤ length text.now }
    ensures { (sum : ℕ) → BeginsWithMark sum mark.now text.now → (HasFewer 72 text.now → ⊥)
        → HasFewer (entry_size mark.now) text.now → Finds sum text.now result }
{
    let (_, lines) = text.split_at(MARK_LINE_SIZE);
    if lines_end(lines, drawn_end(mark)) {
        Next::Torn
    } else {
        Next::Damaged
    }
}

/// Reads the entry at the beginning of the input. `sum` is the checksum of all earlier marks.
/// Decodes the entry into `bytes`, and encodes it again in `room` to compare it with the input.
pub fn read_entry<'a>(
    sum: u64,
    text: &[u8],
    bytes: &'a mut [u8; BYTES_ROOM],
    room: &mut [u8; ENTRY_ROOM],
) -> Next<'a>
    ensures { Finds sum text.now result }
{
    if has_fewer(text, MARK_LINE_SIZE) {
        return Next::Torn;
    }
    let mut mark = [0; MARK_SIZE];
    let Some(_) = read_marked_line(text, ENTRY_WORD, sum, &mut mark) else {
        return Next::Damaged;
    };
    if has_fewer(text, size_told(&mark)) {
        return less_than_entry(text, &mark);
    }
    let Some(entry) = entry_behind(&mark, text, bytes) else {
        return Next::Damaged;
    };
    let mut after = sum;
    let size = entry.write(&mut after, room);
    let (written, _) = room.split_at(size);
    if !begins_with(text, written) {
        return Next::Damaged;
    }
    Next::Whole {
        entry,
        size,
        sum: after,
    }
}
