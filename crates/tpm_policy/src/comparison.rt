//! How TPM2_PolicyNV compares the bytes of an NV index with an operand: as unsigned numbers, as
//! signed numbers, or bit by bit.

ghost use Rattle.std.specs.Prelude.{◌≡◌, ◌+◌, ◌%◌, int_lt, length, nat_lt};
ghost use Rattle.tpm_policy.specs.Comparison.{compares, has_clear, has_set, signed_number, unsigned_number};

use tpm_bytes::is_equal;
use tpm_types_common::Operation;

/// Whether a number is less than another of the same size. The first byte in which they differ
/// decides.
fn is_less(bytes: &[u8], others: &[u8]) -> bool
    ensures { length bytes.now ≡ length others.now
        → result ≡ nat_lt (unsigned_number bytes.now) (unsigned_number others.now) }
{
    let [byte, bytes @ ..] = bytes else {
        return false;
    };
    let [other, others @ ..] = others else {
        return false;
    };
    byte < other || byte == other && is_less(bytes, others)
}

/// Adds 128, half of a byte's range, to the first byte of a signed number, modulo 256. The least
/// signed number then starts with a zero byte. Therefore, signed numbers can be compared like
/// unsigned numbers.
fn raised_byte(byte: u8) -> u8
    ensures { result ≡ (byte + 128) % 256 }
{
    if byte < 128 { byte + 128 } else { byte - 128 }
}

/// Whether a signed number is less than another of the same size.
fn is_signed_less(bytes: &[u8], others: &[u8]) -> bool
    ensures { length bytes.now ≡ length others.now
        → result ≡ int_lt (signed_number bytes.now) (signed_number others.now) }
{
    let [byte, bytes @ ..] = bytes else {
        return false;
    };
    let [other, others @ ..] = others else {
        return false;
    };
    let (byte, other) = (raised_byte(*byte), raised_byte(*other));
    byte < other || byte == other && is_less(bytes, others)
}

/// Whether every bit that is set in the operand is also set in the bytes.
fn has_set(bytes: &[u8], operand: &[u8]) -> bool
    ensures { result ≡ has_set bytes.now operand.now }
{
    let [byte, bytes @ ..] = bytes else {
        return operand.is_empty();
    };
    let [mask, operand @ ..] = operand else {
        return false;
    };
    byte & mask == *mask && has_set(bytes, operand)
}

/// Whether every bit that is set in the operand is clear in the bytes.
fn has_clear(bytes: &[u8], operand: &[u8]) -> bool
    ensures { result ≡ has_clear bytes.now operand.now }
{
    let [byte, bytes @ ..] = bytes else {
        return operand.is_empty();
    };
    let [mask, operand @ ..] = operand else {
        return false;
    };
    byte & mask == 0 && has_clear(bytes, operand)
}

/// Whether the bytes of an NV index and an operand satisfy this comparison.
#[tactic(auto, unfolding(crate::specs::Comparison::compares))]
pub(crate) fn compares(operation: Operation, bytes: &[u8], operand: &[u8]) -> bool
    ensures { result ≡ compares operation bytes.now operand.now }
{
    if bytes.len() != operand.len() {
        return false;
    }
    match operation {
        Operation::Equal => is_equal(bytes, operand),
        Operation::NotEqual => !is_equal(bytes, operand),
        Operation::SignedGreater => is_signed_less(operand, bytes),
        Operation::UnsignedGreater => is_less(operand, bytes),
        Operation::SignedLess => is_signed_less(bytes, operand),
        Operation::UnsignedLess => is_less(bytes, operand),
        Operation::SignedGreaterOrEqual => !is_signed_less(bytes, operand),
        Operation::UnsignedGreaterOrEqual => !is_less(bytes, operand),
        Operation::SignedLessOrEqual => !is_signed_less(operand, bytes),
        Operation::UnsignedLessOrEqual => !is_less(operand, bytes),
        Operation::BitSet => has_set(bytes, operand),
        Operation::BitClear => has_clear(bytes, operand),
    }
}
