//! Compares the digest of a selection of PCRs with digests computed by Python's `hashlib`, and
//! tests the PCR values that a shutdown saves.

use super::comparison::check;
use arrayvec::ArrayVec;
use tpm_mac::HashAlg;
use tpm_pcr::{Banks, SavedPcrs};
use tpm_types_common::{BankSelection, Locality, PcrIndex, PcrSelect, PcrSelection};

/// The digests of the PCR selection in the test below, on a new device.
const DIGESTS: [(HashAlg, &[u8]); 2] = [
    (
        HashAlg::Sha256,
        b"\x67\x70\x9a\xfe\xb0\x9b\x5b\xdf\x38\xfa\x63\x1e\x42\xdd\xa4\x67\
          \xc6\xd4\x7c\x34\x18\x58\x26\x3c\x8b\x82\xdb\xe2\x03\x5c\x3f\x77",
    ),
    (
        HashAlg::Sha1,
        b"\xe0\x7d\x6e\x6e\x0a\xd3\x6a\xe2\x26\xe2\x82\x2a\xab\x61\xe3\x2f\
          \x5b\x8d\xd9\xb8",
    ),
];

fn bank(hash: HashAlg, octets: [u8; 3]) -> BankSelection {
    let select = PcrSelect::from_octets(octets);
    BankSelection { hash, select }
}

// The selection consists of the SHA-256 PCRs 0 to 7 and 16 to 18, then the SHA-1 PCRs 5, 17, 22
// and 23.
#[test]
fn a_digest_is_over_all_selected_values(rt: HostRuntime) {
    let mut banks = ArrayVec::new();
    banks.push(bank(HashAlg::Sha256, [0xff, 0, 0x07]));
    banks.push(bank(HashAlg::Sha1, [0x20, 0, 0xc2]));
    let selection = PcrSelection { banks };
    for (hash, digest) in DIGESTS {
        let found = Banks::new().select_digest(hash, &selection);
        check(&rt, found.as_slice(), digest);
    }
}

#[test]
fn saved_values_are_restored_up_to_pcr_15(rt: HostRuntime) {
    let locality = Locality::new(0).unwrap();
    let (mut banks, mut saved) = (Banks::new(), SavedPcrs::new());
    banks.save(&mut saved);
    for number in [15, 16] {
        let _ = banks.event(PcrIndex::new(number).unwrap(), locality, b"start");
    }
    banks.restore(&saved);
    for (number, restored) in [(15, true), (16, false)] {
        let value = banks.value(HashAlg::Sha1, PcrIndex::new(number).unwrap());
        check(&rt, value.as_slice() == [0; 20].as_slice(), restored);
    }
}
