//! One block of SHA-256 (FIPS 180-4, 6.2.2).

ghost use Rattle.std.specs.Prelude.{◌≡◌, ◌+◌, ◌<◌, ◌≤◌, take};
ghost use Rattle.sha2.specs.Sha256.{big_sigma0, big_sigma1, ch, compress, first_words, maj, next_word, round, rounds, schedule, small_sigma0, small_sigma1, word_at};

/// The eight words of a hash value, or the working variables of a round.
type Words = [u32; 8];

/// The constants of the rounds (FIPS 180-4, 4.2.2).
static ROUND_CONSTANTS: [u32; 64] = [
    0x428a_2f98,
    0x7137_4491,
    0xb5c0_fbcf,
    0xe9b5_dba5,
    0x3956_c25b,
    0x59f1_11f1,
    0x923f_82a4,
    0xab1c_5ed5,
    0xd807_aa98,
    0x1283_5b01,
    0x2431_85be,
    0x550c_7dc3,
    0x72be_5d74,
    0x80de_b1fe,
    0x9bdc_06a7,
    0xc19b_f174,
    0xe49b_69c1,
    0xefbe_4786,
    0x0fc1_9dc6,
    0x240c_a1cc,
    0x2de9_2c6f,
    0x4a74_84aa,
    0x5cb0_a9dc,
    0x76f9_88da,
    0x983e_5152,
    0xa831_c66d,
    0xb003_27c8,
    0xbf59_7fc7,
    0xc6e0_0bf3,
    0xd5a7_9147,
    0x06ca_6351,
    0x1429_2967,
    0x27b7_0a85,
    0x2e1b_2138,
    0x4d2c_6dfc,
    0x5338_0d13,
    0x650a_7354,
    0x766a_0abb,
    0x81c2_c92e,
    0x9272_2c85,
    0xa2bf_e8a1,
    0xa81a_664b,
    0xc24b_8b70,
    0xc76c_51a3,
    0xd192_e819,
    0xd699_0624,
    0xf40e_3585,
    0x106a_a070,
    0x19a4_c116,
    0x1e37_6c08,
    0x2748_774c,
    0x34b0_bcb5,
    0x391c_0cb3,
    0x4ed8_aa4a,
    0x5b9c_ca4f,
    0x682e_6ff3,
    0x748f_82ee,
    0x78a5_636f,
    0x84c8_7814,
    0x8cc7_0208,
    0x90be_fffa,
    0xa450_6ceb,
    0xbef9_a3f7,
    0xc671_78f2,
];

/// The hash value after one more block.
#[tactic(auto, unfolding(sha2::specs::Sha256::compress))]
pub(crate) fn compress(hash: Words, block: &[u8; 64]) -> Words
    ensures { result ≡ compress hash block.now }
{
    let mut schedule = [0; 64];
    fill_schedule(&mut schedule, block);
    let [a, b, c, d, e, f, g, h] = after_rounds(hash, &schedule);
    [
        hash[0].wrapping_add(a),
        hash[1].wrapping_add(b),
        hash[2].wrapping_add(c),
        hash[3].wrapping_add(d),
        hash[4].wrapping_add(e),
        hash[5].wrapping_add(f),
        hash[6].wrapping_add(g),
        hash[7].wrapping_add(h),
    ]
}

/// Fills the array with the 64 words of the message schedule.
fn fill_schedule(words: &mut [u32; 64], block: &[u8; 64])
    ensures { words.new ≡ schedule block.now 48 }
{
    load_block(words, block);
    for t in 16..64 {
        words[t] = next_word(words, t);
    }
}

/// Writes the 16 words of the block to the start of the message schedule.
fn load_block(words: &mut [u32; 64], block: &[u8; 64])
    ensures { take 16 words.new ≡ first_words block.now 16 }
{
    for t in 0..16 {
        words[t] = word_at(block, 4 * t);
    }
}

/// The word at this offset in the block.
fn word_at(block: &[u8; 64], at: usize) -> u32
    requires { at + 4 ≤ 64 }
    ensures { result ≡ word_at block.now at }
{
    u32::from_be_bytes([block[at], block[at + 1], block[at + 2], block[at + 3]])
}

/// Word `t` of the message schedule, computed from the words before it.
fn next_word(words: &[u32; 64], t: usize) -> u32
    requires first { 16 ≤ t }
    requires last { t < 64 }
    ensures { result ≡ next_word words.now t }
{
    small_sigma1(words[t - 2])
        .wrapping_add(words[t - 7])
        .wrapping_add(small_sigma0(words[t - 15]))
        .wrapping_add(words[t - 16])
}

/// The working variables after all 64 rounds.
fn after_rounds(hash: Words, schedule: &[u32; 64]) -> Words
    ensures { result ≡ rounds hash schedule.now 64 }
{
    let mut variables = hash;
    for t in 0..64 {
        let next = round(variables, ROUND_CONSTANTS[t], schedule[t]);
        variables = next;
    }
    variables
}

/// The working variables after a round with this constant and this word of the schedule.
fn round(variables: Words, constant: u32, word: u32) -> Words
    ensures { result ≡ round variables constant word }
{
    let [a, b, c, d, e, f, g, h] = variables;
    let first = h
        .wrapping_add(big_sigma1(e))
        .wrapping_add(choice(e, f, g))
        .wrapping_add(constant)
        .wrapping_add(word);
    let second = big_sigma0(a).wrapping_add(majority(a, b, c));
    [
        first.wrapping_add(second),
        a,
        b,
        c,
        d.wrapping_add(first),
        e,
        f,
        g,
    ]
}

/// The function Ch (FIPS 180-4, 4.1.2).
fn choice(x: u32, y: u32, z: u32) -> u32
    ensures { result ≡ ch x y z }
{
    (x & y) ^ (!x & z)
}

/// The function Maj (FIPS 180-4, 4.1.2).
fn majority(x: u32, y: u32, z: u32) -> u32
    ensures { result ≡ maj x y z }
{
    (x & y) ^ (x & z) ^ (y & z)
}

/// The function Σ0, upper case (FIPS 180-4, 4.1.2).
fn big_sigma0(x: u32) -> u32
    ensures { result ≡ big_sigma0 x }
{
    x.rotate_right(2) ^ x.rotate_right(13) ^ x.rotate_right(22)
}

/// The function Σ1, upper case (FIPS 180-4, 4.1.2).
fn big_sigma1(x: u32) -> u32
    ensures { result ≡ big_sigma1 x }
{
    x.rotate_right(6) ^ x.rotate_right(11) ^ x.rotate_right(25)
}

/// The function σ0, lower case (FIPS 180-4, 4.1.2).
fn small_sigma0(x: u32) -> u32
    ensures { result ≡ small_sigma0 x }
{
    x.rotate_right(7) ^ x.rotate_right(18) ^ (x >> 3)
}

/// The function σ1, lower case (FIPS 180-4, 4.1.2).
fn small_sigma1(x: u32) -> u32
    ensures { result ≡ small_sigma1 x }
{
    x.rotate_right(17) ^ x.rotate_right(19) ^ (x >> 10)
}
