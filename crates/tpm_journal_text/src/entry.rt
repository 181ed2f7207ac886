//! The encoding of an answered command.

ghost use Rattle.std.specs.Prelude.{◌≡◌, ◌<◌, ◌≤◌, take, length};
ghost use Rattle.tpm_journal_text.specs.Entry.{digit_at, ten_digits};

use crate::marked::put_marked_line;
use crate::put::{put, put_hex};
use crate::sum::{sum_from, sum_of};
use tpm_bytes::Sink;

/// The largest size of a buffer in an entry. A longer buffer is refused like a buffer of 4,097
/// bytes.
pub const ENTRY_LIMIT: usize = 4_097;

/// The largest size of an encoded entry.
pub const ENTRY_ROOM: usize = 9_216;

/// The first word of an encoded entry.
pub(crate) const ENTRY_WORD: &[u8] = b"# ";

/// An answered command.
#[derive(Clone, Copy)]
pub struct Entry<'a> {
    /// The milliseconds since the previous command.
    pub elapsed_ms: u32,
    pub locality: u8,
    /// Whether the completing layer was on.
    pub completes: bool,
    /// The random bytes that the command drew.
    pub drawn: &'a [u8],
    pub buffer: &'a [u8],
    /// The checksum of the response to the command.
    pub answered: u64,
}

/// Returns the decimal digit of a number at a place (a power of ten).
fn digit(number: u32, place: u32) -> u8
    requires { 0 < place }
    ensures { result ≡ digit_at number place }
{
    b'0' + (number / place % 10) as u8
}

/// Encodes a number as ten decimal digits.
#[tactic(auto, unfolding(crate::specs::Entry::ten_digits))]
fn ten_digits(number: u32) -> [u8; 10]
    ensures { result ≡ ten_digits number }
{
    [
        digit(number, 1_000_000_000),
        digit(number, 100_000_000),
        digit(number, 10_000_000),
        digit(number, 1_000_000),
        digit(number, 100_000),
        digit(number, 10_000),
        digit(number, 1_000),
        digit(number, 100),
        digit(number, 10),
        digit(number, 1),
    ]
}

impl<'a> Entry<'a> {
    ghost use Rattle.std.specs.Prelude.{◌+◌, ◌*◌, ◌++◌, max};
    ghost use Rattle.tpm_journal_text.specs.Entry.{IsEntry, entry_room, entry_text, executing_lines, mark_of, plain_entry, setting_lines, shown, sum_after};

    /// Returns the mark of the entry.
    #[tactic(auto, using(crate::proofs::Sums::sum_behind), unfolding(crate::specs::Entry::mark_of))]
    fn mark(&self) -> Sink<26>
        requires { IsEntry (plain_entry self.now) }
        ensures { result ≡ mark_of (plain_entry self.now) }
    {
        let mut mark = Sink::new();
        mark.append_u32(self.elapsed_ms);
        mark.append_u8(self.locality);
        mark.append_u8(u8::from(self.completes));
        mark.append_u16(self.drawn.len() as u16);
        mark.append_u16(self.buffer.len() as u16);
        mark.append_u64(sum_from(sum_of(self.drawn), self.buffer));
        mark.append_u64(self.answered);
        mark
    }

    /// Writes, at an offset in a buffer, the lines that set the command's time and locality.
    /// Returns the end offset.
    #[tactic(auto, unfolding(crate::specs::Entry::setting_lines))]
    fn put_setting(&self, room: &mut [u8], place: usize) -> usize
        requires entry { IsEntry (plain_entry self.now) }
        requires room { place + 22 ≤ length room.old }
        ensures place { result ≡ place + 22 }
        ensures written { take result room.new ≡ take place room.old
            ++ setting_lines (plain_entry self.now) }
        ensures size { length room.new ≡ length room.old }
    {
        let place = put(room, place, b"wait ");
        let place = put(room, place, &ten_digits(self.elapsed_ms));
        let place = put(room, place, b"\nloc ");
        let place = put(room, place, &[b'0' + self.locality]);
        put(room, place, b"\n")
    }

    /// Returns the random bytes for the entry's script line, which must contain at least one byte:
    /// the bytes that the command drew, or a zero byte if it drew none.
    fn shown(&self) -> &[u8]
        ensures value { result.now ≡ shown self.now.drawn.now }
        ensures size { length result.now ≡ max 1 (length self.now.drawn.now) }
    {
        if self.drawn.is_empty() {
            b"\0"
        } else {
            self.drawn
        }
    }

    /// Writes, at an offset in a buffer, the lines that set the command's random bytes and execute
    /// it. Returns the end offset.
    #[tactic(auto, unfolding(crate::specs::Entry::executing_lines))]
    fn put_executing(&self, room: &mut [u8], place: usize) -> usize
        requires entry { IsEntry (plain_entry self.now) }
        requires room { place + 14 + 2 * max 1 (length self.now.drawn.now)
            + 2 * length self.now.buffer.now ≤ length room.old }
        ensures place { result ≡ place + 14 + 2 * max 1 (length self.now.drawn.now)
            + 2 * length self.now.buffer.now }
        ensures written { take result room.new ≡ take place room.old
            ++ executing_lines (plain_entry self.now) }
        ensures size { length room.new ≡ length room.old }
    {
        let place = put(room, place, b"entropy ");
        let place = put_hex(room, place, self.shown());
        let place = put(room, place, b"\ncmd ");
        let place = put_hex(room, place, self.buffer);
        put(room, place, b"\n")
    }

    /// Writes the entry to the beginning of a buffer, and returns its size. Adds the entry's mark
    /// to `sum`, the checksum of all earlier marks.
    #[tactic(auto, unfolding(crate::specs::Entry::entry_text))]
    pub fn write(&self, sum: &mut u64, room: &mut [u8]) -> usize
        requires entry { IsEntry (plain_entry self.now) }
        requires room { entry_room ≤ length room.old }
        ensures written { take result room.new ≡ entry_text sum.old (plain_entry self.now) }
        ensures fits { result ≤ entry_room }
        ensures sum { sum.new ≡ sum_after sum.old (plain_entry self.now) }
        ensures size { length room.new ≡ length room.old }
    {
        let mark = self.mark();
        *sum = sum_from(*sum, mark.as_slice());
        let place = put_marked_line(room, 0, ENTRY_WORD, mark.as_slice(), *sum);
        let place = self.put_setting(room, place);
        self.put_executing(room, place)
    }
}
