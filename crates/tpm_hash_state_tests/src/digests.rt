//! Tests of digests and HMACs. Each message is absorbed in two parts.

use std::process::Abort;
use tpm_hash_state::{HashState, HmacState};
use tpm_mac::HashAlg;

const SHA1_ABC: &[u8] =
    b"\xa9\x99\x3e\x36\x47\x06\x81\x6a\xba\x3e\x25\x71\x78\x50\xc2\x6c\x9c\xd0\xd8\x9d";

const SHA256_ABC: &[u8] = b"\xba\x78\x16\xbf\x8f\x01\xcf\xea\x41\x41\x40\xde\x5d\xae\x22\x23\
    \xb0\x03\x61\xa3\x96\x17\x7a\x9c\xb4\x10\xff\x61\xf2\x00\x15\xad";

/// A message of 56 bytes, whose padding fills a second block.
const TWO_BLOCKS: &[u8] = b"abcdbcdecdefdefgefghfghighijhijkijkljklmklmnlmnomnopnopq";

const SHA1_TWO_BLOCKS: &[u8] =
    b"\x84\x98\x3e\x44\x1c\x3b\xd2\x6e\xba\xae\x4a\xa1\xf9\x51\x29\xe5\xe5\x46\x70\xf1";

const SHA256_TWO_BLOCKS: &[u8] = b"\x24\x8d\x6a\x61\xd2\x06\x38\xb8\xe5\xc0\x26\x93\x0c\x3e\x60\x39\
    \xa3\x3c\xe4\x59\x64\xff\x21\x67\xf6\xec\xed\xd4\x19\xdb\x06\xc1";

/// The digests of the 200-byte message.
const SHA1_LONG: &[u8] =
    b"\x54\xd1\x1e\x99\x12\x7d\x15\x97\x99\xdb\xce\x10\xf5\x1a\x75\xe6\x97\x78\x04\x78";

const SHA256_LONG: &[u8] = b"\x19\x01\xda\x1c\x9f\x69\x9b\x48\xf6\xb2\x63\x6e\x65\xcb\xf7\x3a\
    \xbf\x99\xd0\x44\x1e\xf6\x7f\x5c\x54\x0a\x42\xf7\x05\x1d\xec\x6f";

/// RFC 4231, test cases 2 and 6.
const HMAC_SHORT_KEY: &[u8] = b"\x5b\xdc\xc1\x46\xbf\x60\x75\x4e\x6a\x04\x24\x26\x08\x95\x75\xc7\
    \x5a\x00\x3f\x08\x9d\x27\x39\x83\x9d\xec\x58\xb9\x64\xec\x38\x43";

const HMAC_LONG_KEY: &[u8] = b"\x60\xe4\x31\x59\x1e\xe0\xb6\x7f\x0d\x8a\x26\xaa\xcb\xf5\xb7\x7f\
    \x8e\x0b\xc6\x21\x37\x28\xc5\x14\x05\x46\x04\x0f\x0e\xe3\x7f\x54";

/// Absorbs a message in two parts, split at index `cut`. Aborts the test if the digest is not the
/// expected one.
fn check_hash<R: Abort>(rt: &R, alg: HashAlg, message: &[u8], cut: usize, wanted: &[u8]) {
    let (first, second) = message.split_at(cut.min(message.len()));
    let mut state = HashState::new(alg);
    state.absorb(first);
    state.absorb(second);
    assert!(rt; state.alg() == alg);
    assert!(rt; state.digest().as_slice() == wanted);
}

/// Absorbs a text in two parts, split at index `cut`. Aborts the test if the HMAC with SHA-256 is
/// not the expected one.
fn check_hmac<R: Abort>(rt: &R, key: &[u8], text: &[u8], cut: usize, wanted: &[u8]) {
    let (first, second) = text.split_at(cut.min(text.len()));
    let mut state = HmacState::new(HashAlg::Sha256, key);
    state.absorb(first);
    state.absorb(second);
    assert!(rt; state.digest().as_slice() == wanted);
}

#[test]
fn digests_are_published_ones(rt: HostRuntime) {
    for cut in 0..4 {
        check_hash(&rt, HashAlg::Sha1, b"abc", cut, SHA1_ABC);
        check_hash(&rt, HashAlg::Sha256, b"abc", cut, SHA256_ABC);
    }
    for cut in [0, 1, 55, 56] {
        check_hash(&rt, HashAlg::Sha1, TWO_BLOCKS, cut, SHA1_TWO_BLOCKS);
        check_hash(&rt, HashAlg::Sha256, TWO_BLOCKS, cut, SHA256_TWO_BLOCKS);
    }
}

#[test]
fn long_message_is_cut_anywhere(rt: HostRuntime) {
    let mut message = [0; 200];
    for index in 0..200 {
        message[index] = index as u8;
    }
    for cut in [0, 1, 63, 64, 65, 127, 128, 199, 200] {
        check_hash(&rt, HashAlg::Sha1, &message, cut, SHA1_LONG);
        check_hash(&rt, HashAlg::Sha256, &message, cut, SHA256_LONG);
    }
}

#[test]
fn hmacs_are_published_ones(rt: HostRuntime) {
    let key = [0xaa; 131];
    let text = b"Test Using Larger Than Block-Size Key - Hash Key First";
    for cut in [0, 1, 28, 54] {
        let short = b"what do ya want for nothing?";
        check_hmac(&rt, b"Jefe", short, cut, HMAC_SHORT_KEY);
        check_hmac(&rt, &key, text, cut, HMAC_LONG_KEY);
    }
}
