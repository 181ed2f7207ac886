//! Converts blocks to words and back, and XORs bytes.

ghost use Rattle.std.specs.Prelude.{◌≡◌, ◌<◌, ◌≤◌, length};
ghost use Rattle.std.specs.Int.{to_le_bytes, w32};
ghost use Rattle.tpm_aes.specs.Cipher.{word_of, xor_of};
ghost use Rattle.tpm_aes.specs.Words.{bytes_of};

/// Sixteen bytes, column by column: row r of column c is byte r + 4 c (FIPS 197, 3.4).
pub(crate) type Block = [u8; 16];

/// The four words of a block: the columns of a state, or the words of a round key. Byte r of a
/// word, counted from the least significant byte, is row r of its column.
pub(crate) type Words = [u32; 4];

/// The words of a block.
pub(crate) fn words_of(block: &Block) -> Words
    ensures { bytes_of result ≡ block.now }
{
    [
        word_at(block, 0),
        word_at(block, 1),
        word_at(block, 2),
        word_at(block, 3),
    ]
}

/// The word of a block at this index.
fn word_at(block: &Block, index: usize) -> u32
    requires { index < 4 }
    ensures { to_le_bytes w32 result ≡ word_of block.now index }
{
    let start = 4 * index;
    u32::from_le_bytes([
        block[start],
        block[1 + start],
        block[2 + start],
        block[3 + start],
    ])
}

/// The block that consists of these four words.
pub(crate) fn block_of(words: Words) -> Block
    ensures { result ≡ bytes_of words }
{
    let [first, second, third, fourth] = words;
    let [a0, a1, a2, a3] = first.to_le_bytes();
    let [b0, b1, b2, b3] = second.to_le_bytes();
    let [c0, c1, c2, c3] = third.to_le_bytes();
    let [d0, d1, d2, d3] = fourth.to_le_bytes();
    [
        a0, a1, a2, a3, b0, b1, b2, b3, c0, c1, c2, c3, d0, d1, d2, d3,
    ]
}

/// XORs the bytes with the first bytes of `other`.
pub fn xor_with(bytes: &mut [u8], other: &[u8])
    requires { length bytes.old ≤ length other.now }
    ensures { bytes.new ≡ xor_of bytes.old other.now }
{
    for index in 0..bytes.len() {
        bytes[index] ^= other[index];
    }
}
