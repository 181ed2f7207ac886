//! The comparisons of two operands that TPM2_PolicyNV can make (TPM_EO; TPM 2.0 Library, Part 2,
//! section 6.8).

ghost use Rattle.std.specs.Prelude.{◌≡◌};
ghost use Rattle.tpm_bytes.specs.Reading.{Reads};

use crate::rc::{Rc, ResponseCode};
use tpm_bytes::Cursor;

/// How two operands are compared: TPM_EO (Part 2, section 6.8).
#[derive(Clone, Copy, PartialEq, Eq)]
pub enum Operation {
    Equal,
    NotEqual,
    SignedGreater,
    UnsignedGreater,
    SignedLess,
    UnsignedLess,
    SignedGreaterOrEqual,
    UnsignedGreaterOrEqual,
    SignedLessOrEqual,
    UnsignedLessOrEqual,
    /// Each bit that is set in the second operand is also set in the first.
    BitSet,
    /// Each bit that is set in the second operand is clear in the first.
    BitClear,
}

impl Operation {
    ghost use Rattle.tpm_types_common.specs.Operation.{operation_at, operation_named, operation_number};

    /// The wire number of the operation.
    pub fn number(self) -> u16
        ensures { result ≡ operation_number self }
    {
        match self {
            Operation::Equal => 0x0,
            Operation::NotEqual => 0x1,
            Operation::SignedGreater => 0x2,
            Operation::UnsignedGreater => 0x3,
            Operation::SignedLess => 0x4,
            Operation::UnsignedLess => 0x5,
            Operation::SignedGreaterOrEqual => 0x6,
            Operation::UnsignedGreaterOrEqual => 0x7,
            Operation::SignedLessOrEqual => 0x8,
            Operation::UnsignedLessOrEqual => 0x9,
            Operation::BitSet => 0xa,
            Operation::BitClear => 0xb,
        }
    }

    /// The operation with this number, or None.
    pub fn named(number: u16) -> Option<Operation>
        ensures { result ≡ operation_named number }
    {
        Some(match number {
            0x0 => Operation::Equal,
            0x1 => Operation::NotEqual,
            0x2 => Operation::SignedGreater,
            0x3 => Operation::UnsignedGreater,
            0x4 => Operation::SignedLess,
            0x5 => Operation::UnsignedLess,
            0x6 => Operation::SignedGreaterOrEqual,
            0x7 => Operation::UnsignedGreaterOrEqual,
            0x8 => Operation::SignedLessOrEqual,
            0x9 => Operation::UnsignedLessOrEqual,
            0xa => Operation::BitSet,
            0xb => Operation::BitClear,
            _ => return None,
        })
    }

    /// Reads an operation. Fails with INSUFFICIENT if it is truncated, or with VALUE if no
    /// operation has this number.
    #[tactic(auto, unfolding(crate::specs::Operation::operation_at))]
    pub fn read(text: &mut Cursor) -> Result<Operation, Rc>
        ensures { Reads (λ operation. operation) (operation_at text.old) text.old
            result text.new }
    {
        let mut ahead = Cursor::new(text.rest());
        let Ok(number) = ahead.u16() else {
            return Err(ResponseCode::Insufficient.anywhere());
        };
        let Some(operation) = Operation::named(number) else {
            return Err(ResponseCode::Value.anywhere());
        };
        *text = ahead;
        Ok(operation)
    }
}
