//! One block of SHA-1 (FIPS 180-4, 6.1.2).

ghost use Rattle.std.specs.Prelude.{◌≡◌, ◌+◌, ◌<◌, ◌≤◌, slice_index, take};
ghost use Rattle.sha1.specs.Sha1.{compress, first_words, next_word, round, round_constant, round_fn, rounds, schedule, word_at};

/// The five words of a hash value, or the working variables of a round.
type Words = [u32; 5];

/// The hash value after one more block.
#[tactic(auto, unfolding(sha1::specs::Sha1::compress))]
pub(crate) fn compress(hash: Words, block: &[u8; 64]) -> Words
    ensures { result ≡ compress hash block.now }
{
    let mut schedule = [0; 80];
    fill_schedule(&mut schedule, block);
    let [a, b, c, d, e] = after_rounds(hash, &schedule);
    [
        hash[0].wrapping_add(a),
        hash[1].wrapping_add(b),
        hash[2].wrapping_add(c),
        hash[3].wrapping_add(d),
        hash[4].wrapping_add(e),
    ]
}

/// Fills the array with the 80 words of the message schedule.
fn fill_schedule(words: &mut [u32; 80], block: &[u8; 64])
    ensures { words.new ≡ schedule block.now 64 }
{
    load_block(words, block);
    for t in 16..80 {
        words[t] = next_word(words, t);
    }
}

/// Writes the 16 words of the block to the start of the message schedule.
fn load_block(words: &mut [u32; 80], block: &[u8; 64])
    ensures { take 16 words.new ≡ first_words block.now 16 }
{
    for t in 0..16 {
        words[t] = word_at(block, 4 * t);
    }
}

/// The word at this offset in the block.
fn word_at(block: &[u8; 64], at: usize) -> u32
    requires { at + 4 ≤ 64 }
    ensures { result ≡ word_at block.now at }
{
    u32::from_be_bytes([block[at], block[at + 1], block[at + 2], block[at + 3]])
}

/// Word `t` of the message schedule, computed from the words before it.
fn next_word(words: &[u32; 80], t: usize) -> u32
    requires first { 16 ≤ t }
    requires last { t < 80 }
    ensures { result ≡ next_word words.now t }
{
    (words[t - 3] ^ words[t - 8] ^ words[t - 14] ^ words[t - 16]).rotate_left(1)
}

/// The working variables after all 80 rounds.
fn after_rounds(hash: Words, schedule: &[u32; 80]) -> Words
    ensures { result ≡ rounds hash schedule.now 80 }
{
    let mut variables = hash;
    for t in 0..80 {
        let next = round(variables, t, schedule[t]);
        variables = next;
    }
    variables
}

/// The working variables after round `t`.
fn round(variables: Words, t: usize, word: u32) -> Words
    requires { t < 80 }
    ensures { result ≡ round variables (round_fn t (slice_index variables 1)
        (slice_index variables 2) (slice_index variables 3)) (round_constant t) word }
{
    let [a, b, c, d, e] = variables;
    let sum = a
        .rotate_left(5)
        .wrapping_add(round_function(t, b, c, d))
        .wrapping_add(e)
        .wrapping_add(round_constant(t))
        .wrapping_add(word);
    [sum, a, b.rotate_left(30), c, d]
}

/// The function of round `t` (FIPS 180-4, 4.1.1).
fn round_function(t: usize, x: u32, y: u32, z: u32) -> u32
    ensures { result ≡ round_fn t x y z }
{
    if t < 20 {
        (x & y) ^ (!x & z)
    } else if t < 40 {
        x ^ y ^ z
    } else if t < 60 {
        (x & y) ^ (x & z) ^ (y & z)
    } else {
        x ^ y ^ z
    }
}

/// The constant of round `t` (FIPS 180-4, 4.2.1).
fn round_constant(t: usize) -> u32
    ensures { result ≡ round_constant t }
{
    if t < 20 {
        0x5a82_7999
    } else if t < 40 {
        0x6ed9_eba1
    } else if t < 60 {
        0x8f1b_bcdc
    } else {
        0xca62_c1d6
    }
}
