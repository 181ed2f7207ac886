//! Checks digests against the examples of FIPS 180-4, HMACs against RFC 2202 and RFC 4231, and keys
//! derived with KDFa against keys that Python's `hmac` computed.

use super::comparison::check;
use tpm_bytes::copied;
use tpm_mac::{Digest, HashAlg, Hasher, KeyedMac, Mac, digest_parts, hmac_parts, kdfa};

const TWO_BLOCKS: &[u8] = b"abcdbcdecdefdefgefghfghighijhijkijkljklmklmnlmnomnopnopq";

struct DigestCase {
    alg: HashAlg,
    message: &'static [u8],
    digest: &'static [u8],
}

struct MacCase {
    alg: HashAlg,
    key: &'static [u8],
    text: &'static [u8],
    mac: &'static [u8],
}

const DIGESTS: [DigestCase; 6] = [
    DigestCase {
        alg: HashAlg::Sha1,
        message: b"",
        digest: b"\xda\x39\xa3\xee\x5e\x6b\x4b\x0d\x32\x55\xbf\xef\x95\x60\x18\x90\
                  \xaf\xd8\x07\x09",
    },
    DigestCase {
        alg: HashAlg::Sha1,
        message: b"abc",
        digest: b"\xa9\x99\x3e\x36\x47\x06\x81\x6a\xba\x3e\x25\x71\x78\x50\xc2\x6c\
                  \x9c\xd0\xd8\x9d",
    },
    DigestCase {
        alg: HashAlg::Sha1,
        message: TWO_BLOCKS,
        digest: b"\x84\x98\x3e\x44\x1c\x3b\xd2\x6e\xba\xae\x4a\xa1\xf9\x51\x29\xe5\
                  \xe5\x46\x70\xf1",
    },
    DigestCase {
        alg: HashAlg::Sha256,
        message: b"",
        digest: b"\xe3\xb0\xc4\x42\x98\xfc\x1c\x14\x9a\xfb\xf4\xc8\x99\x6f\xb9\x24\
                  \x27\xae\x41\xe4\x64\x9b\x93\x4c\xa4\x95\x99\x1b\x78\x52\xb8\x55",
    },
    DigestCase {
        alg: HashAlg::Sha256,
        message: b"abc",
        digest: b"\xba\x78\x16\xbf\x8f\x01\xcf\xea\x41\x41\x40\xde\x5d\xae\x22\x23\
                  \xb0\x03\x61\xa3\x96\x17\x7a\x9c\xb4\x10\xff\x61\xf2\x00\x15\xad",
    },
    DigestCase {
        alg: HashAlg::Sha256,
        message: TWO_BLOCKS,
        digest: b"\x24\x8d\x6a\x61\xd2\x06\x38\xb8\xe5\xc0\x26\x93\x0c\x3e\x60\x39\
                  \xa3\x3c\xe4\x59\x64\xff\x21\x67\xf6\xec\xed\xd4\x19\xdb\x06\xc1",
    },
];

// The examples of RFC 2202 and RFC 4231, cases 1 to 4, 6 and 7
const MACS: [MacCase; 12] = [
    MacCase {
        alg: HashAlg::Sha1,
        key: &[0x0b; 20],
        text: b"Hi There",
        mac: b"\xb6\x17\x31\x86\x55\x05\x72\x64\xe2\x8b\xc0\xb6\xfb\x37\x8c\x8e\
               \xf1\x46\xbe\x00",
    },
    MacCase {
        alg: HashAlg::Sha1,
        key: b"Jefe",
        text: b"what do ya want for nothing?",
        mac: b"\xef\xfc\xdf\x6a\xe5\xeb\x2f\xa2\xd2\x74\x16\xd5\xf1\x84\xdf\x9c\
               \x25\x9a\x7c\x79",
    },
    MacCase {
        alg: HashAlg::Sha1,
        key: &[0xaa; 20],
        text: &[0xdd; 50],
        mac: b"\x12\x5d\x73\x42\xb9\xac\x11\xcd\x91\xa3\x9a\xf4\x8a\xa1\x7b\x4f\
               \x63\xf1\x75\xd3",
    },
    MacCase {
        alg: HashAlg::Sha1,
        key: b"\x01\x02\x03\x04\x05\x06\x07\x08\x09\x0a\x0b\x0c\x0d\x0e\x0f\x10\
              \x11\x12\x13\x14\x15\x16\x17\x18\x19",
        text: &[0xcd; 50],
        mac: b"\x4c\x90\x07\xf4\x02\x62\x50\xc6\xbc\x84\x14\xf9\xbf\x50\xc8\x6c\
               \x2d\x72\x35\xda",
    },
    MacCase {
        alg: HashAlg::Sha1,
        key: &[0xaa; 80],
        text: b"Test Using Larger Than Block-Size Key - Hash Key First",
        mac: b"\xaa\x4a\xe5\xe1\x52\x72\xd0\x0e\x95\x70\x56\x37\xce\x8a\x3b\x55\
               \xed\x40\x21\x12",
    },
    MacCase {
        alg: HashAlg::Sha1,
        key: &[0xaa; 80],
        text: b"Test Using Larger Than Block-Size Key and Larger Than One Block-Size Data",
        mac: b"\xe8\xe9\x9d\x0f\x45\x23\x7d\x78\x6d\x6b\xba\xa7\x96\x5c\x78\x08\
               \xbb\xff\x1a\x91",
    },
    MacCase {
        alg: HashAlg::Sha256,
        key: &[0x0b; 20],
        text: b"Hi There",
        mac: b"\xb0\x34\x4c\x61\xd8\xdb\x38\x53\x5c\xa8\xaf\xce\xaf\x0b\xf1\x2b\
               \x88\x1d\xc2\x00\xc9\x83\x3d\xa7\x26\xe9\x37\x6c\x2e\x32\xcf\xf7",
    },
    MacCase {
        alg: HashAlg::Sha256,
        key: b"Jefe",
        text: b"what do ya want for nothing?",
        mac: b"\x5b\xdc\xc1\x46\xbf\x60\x75\x4e\x6a\x04\x24\x26\x08\x95\x75\xc7\
               \x5a\x00\x3f\x08\x9d\x27\x39\x83\x9d\xec\x58\xb9\x64\xec\x38\x43",
    },
    MacCase {
        alg: HashAlg::Sha256,
        key: &[0xaa; 20],
        text: &[0xdd; 50],
        mac: b"\x77\x3e\xa9\x1e\x36\x80\x0e\x46\x85\x4d\xb8\xeb\xd0\x91\x81\xa7\
               \x29\x59\x09\x8b\x3e\xf8\xc1\x22\xd9\x63\x55\x14\xce\xd5\x65\xfe",
    },
    MacCase {
        alg: HashAlg::Sha256,
        key: b"\x01\x02\x03\x04\x05\x06\x07\x08\x09\x0a\x0b\x0c\x0d\x0e\x0f\x10\
              \x11\x12\x13\x14\x15\x16\x17\x18\x19",
        text: &[0xcd; 50],
        mac: b"\x82\x55\x8a\x38\x9a\x44\x3c\x0e\xa4\xcc\x81\x98\x99\xf2\x08\x3a\
               \x85\xf0\xfa\xa3\xe5\x78\xf8\x07\x7a\x2e\x3f\xf4\x67\x29\x66\x5b",
    },
    MacCase {
        alg: HashAlg::Sha256,
        key: &[0xaa; 131],
        text: b"Test Using Larger Than Block-Size Key - Hash Key First",
        mac: b"\x60\xe4\x31\x59\x1e\xe0\xb6\x7f\x0d\x8a\x26\xaa\xcb\xf5\xb7\x7f\
               \x8e\x0b\xc6\x21\x37\x28\xc5\x14\x05\x46\x04\x0f\x0e\xe3\x7f\x54",
    },
    MacCase {
        alg: HashAlg::Sha256,
        key: &[0xaa; 131],
        text: b"This is a test using a larger than block-size key and a larger than block-size data. The key needs to be hashed before being used by the HMAC algorithm.",
        mac: b"\x9b\x09\xff\xa7\x1b\x94\x2f\xcb\x27\x63\x5f\xbc\xd5\xb0\xe9\x44\
               \xbf\xdc\x63\x64\x4f\x07\x13\x93\x8a\x7f\x51\x53\x5c\x3a\x35\xe2",
    },
];

#[test]
fn digests_of_published_messages_at_every_cut(rt: HostRuntime) {
    for case in &DIGESTS {
        for cut in 0..case.message.len() + 1 {
            let (front, back) = case.message.split_at(cut);
            let digest = digest_parts(case.alg, &[front, back]);
            check(&rt, digest.as_slice(), case.digest);
        }
    }
}

#[test]
fn digests_of_published_messages_piece_by_piece(rt: HostRuntime) {
    for case in &DIGESTS {
        let mut hasher = Hasher::new(case.alg);
        for piece in case.message.chunks(7) {
            hasher.update(piece);
        }
        check(&rt, hasher.finish().as_slice(), case.digest);
    }
}

#[test]
fn macs_of_published_texts_at_every_cut(rt: HostRuntime) {
    for case in &MACS {
        for cut in 0..case.text.len() + 1 {
            let (front, back) = case.text.split_at(cut);
            let mac = hmac_parts(case.alg, case.key, &[front, back]);
            check(&rt, mac.as_slice(), case.mac);
        }
    }
}

#[test]
fn macs_of_published_texts_piece_by_piece(rt: HostRuntime) {
    for case in &MACS {
        let mut mac = Mac::new(case.alg, case.key);
        for piece in case.text.chunks(7) {
            mac.update(piece);
        }
        check(&rt, mac.finish().as_slice(), case.mac);
    }
}

#[test]
fn macs_of_published_texts_by_a_kept_key(rt: HostRuntime) {
    let mut keyed = KeyedMac::new();
    for case in &MACS {
        if case.key.len() <= 64 {
            let first = keyed.hmac_parts(case.alg, copied(case.key), &[case.text]);
            check(&rt, first.as_slice(), case.mac);
            let again = keyed.hmac_parts(case.alg, copied(case.key), &[case.text]);
            check(&rt, again.as_slice(), case.mac);
        }
    }
}

const KEY: &[u8] = b"key of a session";

const LABEL: &[u8] = b"ATH";

const CONTEXT_U: &[u8] = b"newer nonce";

const CONTEXT_V: &[u8] = b"older nonce";

struct KeyCase {
    alg: HashAlg,
    derived: &'static [u8],
}

// Keys of 45 bytes, a size that is not a multiple of a digest's size
const KEYS: [KeyCase; 2] = [
    KeyCase {
        alg: HashAlg::Sha1,
        derived: b"\x00\xf2\x74\x13\x16\xa4\x06\x72\x9b\x2f\xcc\x80\x1e\x89\xd3\xd9\
                   \x29\x2c\x3e\xf8\x63\x48\x1b\x9b\x97\xc7\xbe\x9d\x90\x35\x16\xb6\
                   \xe9\x82\x61\xee\x8c\xf7\x57\x94\xc3\x1c\xb0\xc9\x05",
    },
    KeyCase {
        alg: HashAlg::Sha256,
        derived: b"\x9b\x51\x65\x29\xbf\xac\xc7\xb3\x1b\xd6\xf5\xd8\xa9\xd1\x22\xde\
                   \x7b\xf3\xb9\xbf\xd2\x8d\xd9\xab\xb8\x4f\x20\xee\x40\x15\xb9\xe6\
                   \x8c\x33\x91\x6b\x93\x9f\x0b\x75\xdc\x32\x6c\x4e\xa2",
    },
];

#[test]
fn keys_are_derived(rt: HostRuntime) {
    for case in &KEYS {
        let mut key = [0x55; 45];
        kdfa(case.alg, KEY, LABEL, CONTEXT_U, CONTEXT_V, &mut key);
        check(&rt, key.as_slice(), case.derived);
    }
}

/// The contents of the buffer before a key is derived into its first bytes.
const UNTOUCHED: [u8; 80] = [0x55; 80];

// The KDFa block with this counter, computed only with HMAC; `bits` is the total number of bits
// that KDFa derives.
fn block_by_hmac(alg: HashAlg, counter: u32, bits: u32) -> Digest {
    let counter: &[u8] = &counter.to_be_bytes();
    let bits: &[u8] = &bits.to_be_bytes();
    hmac_parts(
        alg,
        KEY,
        &[counter, LABEL, &[0], CONTEXT_U, CONTEXT_V, bits],
    )
}

#[test]
fn derived_keys_are_the_front_of_the_blocks(rt: HostRuntime) {
    for alg in [HashAlg::Sha1, HashAlg::Sha256] {
        for size in [0, 1, 20, 32, 33, 64u32] {
            let mut buffer = UNTOUCHED;
            let (out, behind) = buffer.split_at_mut(size as usize);
            kdfa(alg, KEY, LABEL, CONTEXT_U, CONTEXT_V, out);
            for (counter, written) in (1..5u32).zip(out.chunks(alg.size())) {
                let block = block_by_hmac(alg, counter, size * 8);
                check(&rt, block.as_slice().starts_with(written), true);
            }
            check(&rt, UNTOUCHED.starts_with(behind), true);
        }
    }
}
