//! Reads the head at the beginning of the input.

ghost use Rattle.std.specs.Prelude.{◌≡◌, ◌≤◌, ◌<◌, ◌^◌, ◌++◌, ◌∷◌, [], ℕ, List, IfNone, IfSome, IsSomeAnd, codes, drop, length, take};
ghost use Rattle.hex.specs.Hex.{encode_lower};
ghost use Rattle.std.specs.Int.{w32, w64, from_be_bytes};
ghost use Rattle.tpm_journal_text.specs.Head.{HasHead, IsHeadOf, IsKind, content_limit, head_line_size, head_text, head_word, version_number};
ghost use Rattle.tpm_journal_text.specs.declared.head.HeadKind.TheVariants.{Versioned};
ghost use Rattle.tpm_journal_text.specs.Marked.{marked_line};
ghost use Rattle.tpm_journal_text.specs.Sum.{offset_basis, sum_from};
ghost use Rattle.tpm_journal_text.specs.Places.{HeadStands};
ghost use Rattle.tpm_bytes.specs.Reading.{AreBytes};

use crate::head::{
    CONTENT_LIMIT, Head, HeadKind, MARK_LINE_SIZE, MARK_SIZE, VERSION_FACTOR, VERSION_WORD,
    head_size, mark_of,
};
use crate::marked::read_marked_line;
use crate::reading::{begins_with, read_hex};
use crate::strip::{strip, strip_hex};
use crate::sum::OFFSET_BASIS;
use tpm_bytes::is_equal;
use tpm_hex::decode;

/// The offset of the content in an encoded head.
const CONTENT_PLACE: usize = MARK_LINE_SIZE + 2;

/// The offset of the version in an encoded head.
const VERSION_PLACE: usize = 10;

/// The clock in the mark of a head.
fn clock_of(mark: &[u8; MARK_SIZE]) -> u64
    ensures { result ≡ from_be_bytes w64 (take 8 mark.now) }
{
    u64::from_be_bytes([
        mark[0], mark[1], mark[2], mark[3], mark[4], mark[5], mark[6], mark[7],
    ])
}

/// The size of the content, according to the head's mark.
fn count_of(mark: &[u8; MARK_SIZE]) -> usize
    ensures { result ≡ from_be_bytes w32 (take 4 (drop 8 mark.now)) }
{
    u32::from_be_bytes([mark[8], mark[9], mark[10], mark[11]]) as usize
}

/// The version in the first word of the input; unspecified if the first word contains no version.
fn version_of(text: &[u8]) -> u32
    ensures version { (version : ℕ) (rest : List ℕ) → version_number version < 2 ^ 32
        → text.now ≡ head_word (Versioned version) ++ rest → result ≡ version }
    ensures small { version_number result < 2 ^ 32 }
{
    if text.len() < VERSION_PLACE + 8 {
        return 0;
    }
    let mut version = [0; 4];
    let (_, back) = text.split_at(VERSION_PLACE);
    let (digits, _) = back.split_at(8);
    match decode(digits, &mut version) {
        Ok(()) => u32::from_be_bytes(version) / VERSION_FACTOR,
        Err(_) => 0,
    }
}

/// The kind of the head at the beginning of the input; unspecified if the input does not begin with
/// a head.
fn kind_of(text: &[u8]) -> HeadKind
    ensures kind { (kind : HeadKind) (clock : ℕ) (content rest : List ℕ) → IsKind kind
        → text.now ≡ head_text kind clock content ++ rest → result ≡ kind }
    ensures named { IsKind result }
{
    if begins_with(text, VERSION_WORD) {
        return HeadKind::Versioned(version_of(text));
    }
    if begins_with(text, HeadKind::State.word().as_slice()) {
        HeadKind::State
    } else {
        HeadKind::Image
    }
}

/// Reads the mark of a head of this kind at the beginning of the input. Returns the mark's
/// checksum, or None if there is no line with such a mark.
#[tactic(auto, using(crate::proofs::HeadStanding::word_many))]
fn read_mark(kind: HeadKind, text: &[u8], mark: &mut [u8; MARK_SIZE]) -> Option<u64>
    requires named { IsKind kind }
    requires long { head_line_size ≤ length text.now }
    ensures found { IfSome result (λ sum. (sum ≡ sum_from offset_basis mark.new)
        × (take head_line_size text.now ≡ marked_line (head_word kind) mark.new sum)) }
    ensures none { IfNone result ((other : List ℕ) → length other ≡ 20 → AreBytes other
        → take head_line_size text.now
        ≡ marked_line (head_word kind) other (sum_from offset_basis other) → ⊥) }
    ensures size { length mark.new ≡ 20 }
    ensures bytes { AreBytes mark.new }
{
    let word = kind.word();
    read_marked_line(text, word.as_slice(), OFFSET_BASIS, mark)
}

/// The content of a head whose mark was read, or None if the input does not contain the content.
fn content_behind<'a>(
    kind: HeadKind,
    mark: &[u8; MARK_SIZE],
    text: &[u8],
    content: &'a mut [u8; CONTENT_LIMIT],
) -> Option<&'a [u8]>
    ensures small { IfSome result (λ read. length read.now ≤ content_limit kind) }
    ensures bytes { IfSome result (λ read. AreBytes read.now) }
    ensures again { (clock : ℕ) (bytes : List ℕ) → HeadStands kind clock bytes mark.now text.now
        → IsSomeAnd result (λ read. read.now ≡ bytes) }
{
    let count = count_of(mark);
    if count > kind.limit() || text.len() < head_size(count) {
        return None;
    }
    let (content, _) = content.split_at_mut(count);
    read_hex(text, CONTENT_PLACE, content)
}

/// The input after a line with this content, or None if the input does not begin with that line.
fn behind_content<'a>(text: &'a [u8], content: &[u8]) -> Option<&'a [u8]>
    ensures some { IfSome result (λ rest. text.now
        ≡ codes "# " ++ (encode_lower content.now ++ (10 ∷ [] ++ rest.now))) }
    ensures none { IfNone result ((rest : List ℕ)
        → text.now ≡ codes "# " ++ (encode_lower content.now ++ (10 ∷ [] ++ rest)) → ⊥) }
{
    let digits = strip(text, b"# ")?;
    let end = strip_hex(digits, content)?;
    strip(end, b"\n")
}

/// Reads the head of this kind at the beginning of the input. Stores its content in `content`.
fn read_head_of<'a>(
    kind: HeadKind,
    text: &[u8],
    content: &'a mut [u8; CONTENT_LIMIT],
) -> Option<Head<'a>>
    requires { IsKind kind }
    ensures head { IfSome result (IsHeadOf text.now) }
    ensures kind { IfSome result (λ head. head.kind ≡ kind) }
    ensures only { (clock : ℕ) (bytes : List ℕ) (rest : List ℕ) → HasHead kind clock bytes
        → text.now ≡ head_text kind clock bytes ++ rest
        → IsSomeAnd result (λ head. (head.clock ≡ clock) × (head.content.now ≡ bytes)) }
{
    if text.len() < MARK_LINE_SIZE {
        return None;
    }
    let mut mark = [0; MARK_SIZE];
    let Some(sum) = read_mark(kind, text, &mut mark) else {
        return None;
    };
    let Some(content) = content_behind(kind, &mark, text, content) else {
        return None;
    };
    let clock = clock_of(&mark);
    if !is_equal(mark_of(clock, content, &[]).as_slice(), &mark) {
        return None;
    }
    let (_, back) = text.split_at(MARK_LINE_SIZE);
    let Some(_) = behind_content(back, content) else {
        return None;
    };
    Some(Head {
        kind,
        clock,
        content,
        size: head_size(content.len()),
        sum,
    })
}

/// Reads the head at the beginning of the input. Stores its content in `content`.
pub fn read_head<'a>(text: &[u8], content: &'a mut [u8; CONTENT_LIMIT]) -> Option<Head<'a>>
    ensures head { IfSome result (IsHeadOf text.now) }
    ensures only { (kind : HeadKind) (clock : ℕ) (bytes : List ℕ) (rest : List ℕ)
        → HasHead kind clock bytes → text.now ≡ head_text kind clock bytes ++ rest
        → IsSomeAnd result (λ head. (head.kind ≡ kind) × (head.clock ≡ clock)
        × (head.content.now ≡ bytes)) }
{
    read_head_of(kind_of(text), text, content)
}
