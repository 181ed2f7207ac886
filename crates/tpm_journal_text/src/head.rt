//! The head of a journal.

ghost use Rattle.std.specs.Prelude.{◌≡◌, ◌≤◌, ◌<◌, ◌+◌, ◌^◌, ◌++◌, ℕ, List, IfSome, IsSomeAnd, length, take};
ghost use Rattle.tpm_journal_text.specs.Head.{IsKind, content_limit, current_kind, head_mark, head_sum, head_text, head_word, version_number};
ghost use Rattle.tpm_journal_text.specs.Head.{head_size as text_size};

use crate::marked::put_marked_line;
use crate::put::{put, put_hex};
use crate::sum::{OFFSET_BASIS, sum_from, sum_of};
use tpm_bytes::Sink;
use tpm_hex::encode;

/// The kinds of content of a head.
#[derive(Clone, Copy, PartialEq, Eq)]
pub enum HeadKind {
    /// The image of the device when power came on.
    Image,
    /// The state text of the device: its whole state. A library that did not write its version in
    /// heads wrote this head.
    State,
    /// The state text of the device, and the version of the library that wrote the head.
    Versioned(u32),
}

/// The version of this library, with one byte each for major, minor and patch: 0.1.0.
const LIBRARY_VERSION: u32 = 0x0001_00;

/// The factor of the numbers that encode versions in heads.
pub(crate) const VERSION_FACTOR: u32 = 251;

/// The number that encodes a version in a head. All such numbers are multiples of a prime that is
/// greater than 15, so that no two of them differ in one hex digit only.
fn version_number(version: u32) -> u32
    requires { version_number version < 2 ^ 32 }
    ensures { result ≡ version_number version }
{
    VERSION_FACTOR * version
}

/// The beginning of the first word of a journal whose head contains a version.
pub(crate) const VERSION_WORD: &[u8] = b"# tpmsim v";

/// The size of the first word of a journal.
const WORD_SIZE: usize = 19;

/// The largest size of an image in a head.
const IMAGE_LIMIT: usize = 28_672;

const STATE_LIMIT: usize = 40_960;

/// The largest size of the content of any head.
pub const CONTENT_LIMIT: usize = STATE_LIMIT;

/// The sizes of a head's mark and of the line that contains it, in bytes.
pub(crate) const MARK_SIZE: usize = 20;

pub(crate) const MARK_LINE_SIZE: usize = 77;

/// A head that was decoded.
#[derive(Clone, Copy)]
pub struct Head<'a> {
    pub kind: HeadKind,
    /// The host's clock in milliseconds, at the time of the content.
    pub clock: u64,
    /// The image or the state text in the head.
    pub content: &'a [u8],
    /// The encoded size of the head.
    pub size: usize,
    /// The checksum of the head's mark.
    pub sum: u64,
}

impl HeadKind {
    /// The first word of a journal whose head is of this kind.
    #[tactic(auto, using(crate::proofs::HeadStanding::word_many))]
    pub(crate) fn word(self) -> Sink<WORD_SIZE>
        requires { IsKind self }
        ensures value { result ≡ head_word self }
        ensures many { length result ≡ WORD_SIZE }
    {
        let mut word = Sink::new();
        match self {
            HeadKind::Image => word.append(b"# tpmsim journal 1 "),
            HeadKind::State => word.append(b"# tpmsim journal 2 "),
            HeadKind::Versioned(version) => {
                let mut digits = [0; 8];
                encode(&version_number(version).to_be_bytes(), &mut digits);
                word.append(VERSION_WORD);
                word.append(&digits);
                word.append(b" ");
            }
        }
        word
    }

    /// The kind of the heads that this library writes for a kept device.
    pub fn current() -> HeadKind
        ensures kind { result ≡ current_kind }
        ensures named { IsKind result }
    {
        HeadKind::Versioned(LIBRARY_VERSION)
    }

    /// The maximum size of the content in a head of this kind.
    pub(crate) fn limit(self) -> usize
        ensures { result ≡ content_limit self }
    {
        match self {
            HeadKind::Image => IMAGE_LIMIT,
            HeadKind::State | HeadKind::Versioned(_) => STATE_LIMIT,
        }
    }
}

/// The size of a head with `count` bytes of content.
#[tactic(auto, using(crate::proofs::HeadStanding::head_text_many))]
pub fn head_size(count: usize) -> usize
    requires { count ≤ 40960 }
    ensures value { result ≡ text_size count }
    ensures text { (kind : HeadKind) (clock : ℕ) (content : List ℕ) → length content ≡ count
        → length (head_text kind clock content) ≡ result }
{
    MARK_LINE_SIZE + 3 + 2 * count
}

/// Returns the mark of a head whose content is passed in two parts.
#[tactic(auto, using(crate::proofs::Sums::sum_behind, crate::proofs::Sums::joined_many), unfolding(crate::specs::Head::head_mark))]
pub(crate) fn mark_of(clock: u64, front: &[u8], back: &[u8]) -> Sink<MARK_SIZE>
    requires { length front.now + length back.now ≤ 40960 }
    ensures value { result ≡ head_mark clock (front.now ++ back.now) }
    ensures many { length result ≡ 20 }
{
    let mut mark = Sink::new();
    mark.append_u64(clock);
    mark.append_u32((front.len() + back.len()) as u32);
    mark.append_u64(sum_from(sum_of(front), back));
    mark
}

/// Writes the head for this clock and this content to a buffer. The content is passed in two parts.
/// Returns the size, and sets `sum` to the checksum of the head's mark.
#[tactic(auto, using(crate::proofs::Pieces::hex_joined), unfolding(crate::specs::Head::head_text))]
fn put_head(
    kind: HeadKind,
    clock: u64,
    front: &[u8],
    back: &[u8],
    sum: &mut u64,
    buffer: &mut [u8],
) -> usize
    requires named { IsKind kind }
    requires small { length front.now + length back.now ≤ 40960 }
    requires buffer { text_size (length front.now + length back.now) ≤ length buffer.old }
    ensures size { result ≡ text_size (length front.now + length back.now) }
    ensures written { take result buffer.new ≡ head_text kind clock (front.now ++ back.now) }
    ensures sum { sum.new ≡ head_sum clock (front.now ++ back.now) }
    ensures buffer { length buffer.new ≡ length buffer.old }
{
    let mark = mark_of(clock, front, back);
    *sum = sum_from(OFFSET_BASIS, mark.as_slice());
    let word = kind.word();
    let place = put_marked_line(buffer, 0, word.as_slice(), mark.as_slice(), *sum);
    let place = put(buffer, place, b"# ");
    let place = put_hex(buffer, place, front);
    let place = put_hex(buffer, place, back);
    put(buffer, place, b"\n")
}

/// Writes the head for this clock and this content to a buffer of exactly its size, and returns the
/// checksum of the head's mark. The content is passed in two parts, so that the caller need not
/// join its header and its body.
#[tactic(auto, using(std::proofs::lemmas::List::take_all))]
pub fn write_head(kind: HeadKind, clock: u64, front: &[u8], back: &[u8], buffer: &mut [u8]) -> u64
    requires named { IsKind kind }
    requires small { length front.now + length back.now ≤ content_limit kind }
    requires buffer { length buffer.old ≡ text_size (length front.now + length back.now) }
    ensures written { buffer.new ≡ head_text kind clock (front.now ++ back.now) }
    ensures sum { result ≡ head_sum clock (front.now ++ back.now) }
{
    let mut sum = 0;
    put_head(kind, clock, front, back, &mut sum, buffer);
    sum
}
