//! The checksum of bytes: FNV-1a of 64 bits.

ghost use Rattle.std.specs.Prelude.{◌≡◌, [], codes};
ghost use Rattle.tpm_journal_text.specs.Sum.{sum_from, sum_of};

/// The checksum of the empty list.
pub const OFFSET_BASIS: u64 = 0xcbf2_9ce4_8422_2325;

const PRIME: u64 = 0x100_0000_01b3;

/// The checksum extended by these bytes.
pub fn sum_from(sum: u64, bytes: &[u8]) -> u64
    ensures { result ≡ sum_from sum bytes.now }
{
    let mut sum = sum;
    for byte in bytes {
        sum = (sum ^ u64::from(*byte)).wrapping_mul(PRIME);
    }
    sum
}

/// The checksum of these bytes.
pub fn sum_of(bytes: &[u8]) -> u64
    ensures { result ≡ sum_of bytes.now }
{
    sum_from(OFFSET_BASIS, bytes)
}

/// The definition yields the checksums that FNV's authors publish for the empty input, for `a` and
/// for `foobar`. The function does nothing at run time.
pub fn published_sums()
    ensures none { sum_of [] ≡ 0xcbf29ce484222325 }
    ensures a { sum_of (codes "a") ≡ 0xaf63dc4c8601ec8c }
    ensures foobar { sum_of (codes "foobar") ≡ 0x85944171f73967e8 }
{}
