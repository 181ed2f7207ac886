//! Copies bytes into a buffer of fixed capacity.

ghost use Rattle.std.specs.Prelude.{◌≡◌, ◌+◌, ◌≤◌, ◌++◌, length};

use arrayvec::ArrayVec;

/// Appends these bytes to a buffer, which must have room for them.
pub fn append<const N: usize>(buffer: &mut ArrayVec<u8, N>, bytes: &[u8])
    requires { length buffer.old.items + length bytes.now ≤ N }
    ensures { buffer.new.items ≡ buffer.old.items ++ bytes.now }
{
    let _ = buffer.try_extend_from_slice(bytes);
}

/// A buffer that contains a copy of these bytes.
pub fn copied<const N: usize>(bytes: &[u8]) -> ArrayVec<u8, N>
    requires { length bytes.now ≤ N }
    ensures value { result.items ≡ bytes.now }
    ensures size { length result.items ≡ length bytes.now }
{
    let mut copy = ArrayVec::new();
    append(&mut copy, bytes);
    copy
}
