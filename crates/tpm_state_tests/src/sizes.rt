//! State texts with the right digest, in which a session has a size that its hash does not allow.

use super::snapshots::{Trial, check, device, run_over_both, text_of};
use std::alloc::Global;
use std::process::Abort;
use std::test::Fail;
use tpm_mac::{HashAlg, digest_parts};
use tpm_machine::Machine;
use tpm_record::Keep;
use tpm_state_text::{RestoreFault, StateFault, restored};

/// The offsets in the device's state text at which a sized field of the session starts and ends.
#[derive(Clone, Copy)]
struct Field {
    start: usize,
    end: usize,
}

const NONCE: Field = Field {
    start: 1_616,
    end: 1_634,
};

const KEY: Field = Field {
    start: 1_634,
    end: 1_636,
};

const POLICY_DIGEST: Field = Field {
    start: 1_637,
    end: 1_671,
};

/// Replaces this sized field of the state text by a field with `size` zero bytes, and corrects the
/// text's length and digest.
fn sized(alloc: Global, text: &[u8], field: Field, size: u8) -> Result<Vec<u8>, Fail> {
    if text.len() != 1_733 || field.start < 10 || field.end < field.start || field.end > 1_701 {
        return Err(Fail::new("no such field"));
    }
    let length = 1_733 - (field.end - field.start) + 2 + usize::from(size);
    let mut other = Vec::new(alloc);
    other.extend_from_slice(&text[..6])?;
    other.extend_from_slice(&(length as u32).to_be_bytes())?;
    other.extend_from_slice(&text[10..field.start])?;
    other.extend_from_slice(&u16::from(size).to_be_bytes())?;
    other.extend_from_slice(&[0; 255][..usize::from(size)])?;
    other.extend_from_slice(&text[field.end..1_701])?;
    let digest = digest_parts(HashAlg::Sha256, &[other.as_slice()]);
    other.extend_from_slice(digest.as_slice())?;
    Ok(other)
}

#[derive(Drop)]
struct OtherSizes;

impl Trial for OtherSizes {
    fn run<K: Keep, R: Abort>(rt: &R, alloc: Global) -> Result<(), Fail> {
        let machine: Machine<K> = device(alloc)?;
        let text = text_of(alloc, machine.keep())?;
        for (field, size, fits) in [
            (NONCE, 15, false),
            (NONCE, 16, true),
            (NONCE, 32, true),
            (KEY, 0, true),
            (KEY, 20, false),
            (KEY, 32, false),
            (POLICY_DIGEST, 20, false),
            (POLICY_DIGEST, 32, true),
        ] {
            let other = sized(alloc, text.as_slice(), field, size)?;
            let fault = restored::<K>(alloc, other.as_slice()).err();
            let wanted = if fits {
                None
            } else {
                Some(RestoreFault::Text(StateFault::Body))
            };
            check(rt, (field.start, size, fault), (field.start, size, wanted));
        }
        Ok(())
    }
}

#[test]
fn a_session_of_other_sizes_is_refused(rt: HostRuntime) -> Result<(), Fail> {
    run_over_both(OtherSizes, &rt, rt.alloc())
}
