//! The memory for decoding a line's hex, or for assembling the command that its words encode. It is
//! allocated once for all lines.

ghost use Rattle.std.specs.Prelude.{◌≡◌, ◌≤◌, length, vec_len};
ghost use Rattle.std.specs.Result.{result_ok};
ghost use Rattle.tpm_bytes.specs.Reading.{Gives};
ghost use Rattle.tpm_text.specs.Line.{assembled_for};
ghost use Rattle.tpmsim_script.specs.Line.{Tells, bytes_of};
ghost use Rattle.tpmsim_script.specs.declared.room.TheConstants.{DECODED_LIMIT};

use crate::line::{Unfit, decode};
use std::alloc::{AllocError, Global};
use tpm_commands::Profile;
use tpm_text::{AsmFault, Draft, assemble_in};

/// The maximum number of bytes that the hex of a line can encode.
const DECODED_LIMIT: usize = 32_768;

/// A buffer for the bytes that a line encodes in hex or in words.
#[derive(Drop)]
pub struct Room {
    decoded: Vec<u8>,
    draft: Draft,
    ghost capacity: { vec_len decoded ≡ DECODED_LIMIT },
}

impl Room {
    /// A buffer without any decoded bytes.
    pub fn new(alloc: Global) -> Result<Room, AllocError> {
        let decoded = vec![in alloc; 0u8; DECODED_LIMIT]?;
        Ok(Room {
            decoded,
            draft: Draft::new(),
        })
    }

    /// Decodes hex digits of either case. Fails if a character is not a hex digit, or the number
    /// of digits is odd.
    pub fn decode(&mut self, digits: &[u8]) -> Result<&[u8], Unfit>
        requires { length digits.now ≤ 65536 }
        ensures { Tells (λ bytes. bytes.now) result (bytes_of digits.now) }
    {
        decode(digits, &mut self.decoded)
    }

    /// Returns the command of a profile that the words encode, or their first fault from the left.
    pub fn assemble(&mut self, profile: Profile, words: &[u8]) -> Result<&[u8], AsmFault>
        ensures value { Gives (λ bytes. bytes.now) (assembled_for profile words.now) result }
        ensures told { Tells (λ bytes. bytes.now) result
            (result_ok (assembled_for profile words.now)) }
    {
        assemble_in(profile, words, &mut self.draft)
    }
}
