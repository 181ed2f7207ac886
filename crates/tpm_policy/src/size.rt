//! Bytes that are given another size.

ghost use Rattle.std.specs.Prelude.{◌≡◌, ◌≤◌, length};
ghost use Rattle.tpm_policy.specs.Size.{resized};

use arrayvec::ArrayVec;
use tpm_bytes::{append, copied};

/// These bytes with another size: the first of them, or all of them followed by zeros.
#[inline(always)]
#[tactic(auto, using(crate::proofs::Resizing::length_resized, crate::proofs::Resizing::same_size))]
pub fn resized(bytes: ArrayVec<u8, 32>, size: usize) -> ArrayVec<u8, 32>
    requires { size ≤ 32 }
    ensures value { result.items ≡ resized size bytes.items }
    ensures size { length result.items ≡ size }
    // Bytes of this size do not change.
    ensures same { length bytes.items ≡ size → result.items ≡ bytes.items }
{
    if bytes.len() == size {
        return bytes;
    }
    let mut all: ArrayVec<u8, 64> = copied(bytes.as_slice());
    append(&mut all, &[0; 32]);
    copied(&all.as_slice()[..size])
}
