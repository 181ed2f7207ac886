//! Writes pieces of bytes one after another into a buffer.

ghost use Rattle.std.specs.Prelude.{◌≡◌, ◌+◌, ◌*◌, ◌≤◌, ◌++◌, length, take};
ghost use Rattle.hex.specs.Hex.{encode_lower};

use tpm_hex::encode;

/// Writes a piece at an offset in a buffer; returns the end offset.
pub fn put(room: &mut [u8], place: usize, piece: &[u8]) -> usize
    requires { place + length piece.now ≤ length room.old }
    ensures place { result ≡ place + length piece.now }
    ensures written { take result room.new ≡ take place room.old ++ piece.now }
    ensures size { length room.new ≡ length room.old }
{
    let end = place + piece.len();
    let (_, back) = room.split_at_mut(place);
    let (front, _) = back.split_at_mut(piece.len());
    front.copy_from_slice(piece);
    end
}

/// Writes bytes in hex at an offset in a buffer; returns the end offset.
pub fn put_hex(room: &mut [u8], place: usize, bytes: &[u8]) -> usize
    requires { place + 2 * length bytes.now ≤ length room.old }
    ensures place { result ≡ place + 2 * length bytes.now }
    ensures written { take result room.new ≡ take place room.old ++ encode_lower bytes.now }
    ensures size { length room.new ≡ length room.old }
{
    let count = 2 * bytes.len();
    let (_, back) = room.split_at_mut(place);
    let (front, _) = back.split_at_mut(count);
    encode(bytes, front);
    place + count
}
