//! State texts of other versions: version 1 is refused, and version 3 is that of a device of the
//! complete profile.

use super::snapshots::{Trial, check, device, run_over_both, text_of};
use std::alloc::Global;
use std::process::Abort;
use std::test::Fail;
use tpm_commands::Profile;
use tpm_mac::{HashAlg, digest_parts};
use tpm_machine::Machine;
use tpm_record::Keep;
use tpm_state_text::{RestoreFault, StateFault, restored};

/// This state text with this version number and the matching digest. Without a layer, all versions
/// have the same body.
fn with_version(alloc: Global, text: &[u8], number: u8) -> Result<Vec<u8>, Fail> {
    if text.len() != 1_733 {
        return Err(Fail::new("no such text"));
    }
    let mut other = Vec::new(alloc);
    other.extend_from_slice(&text[..4])?;
    other.extend_from_slice(&[0, number])?;
    other.extend_from_slice(&text[6..1_701])?;
    let digest = digest_parts(HashAlg::Sha256, &[other.as_slice()]);
    other.extend_from_slice(digest.as_slice())?;
    Ok(other)
}

#[derive(Drop)]
struct EarlierVersion;

impl Trial for EarlierVersion {
    fn run<K: Keep, R: Abort>(rt: &R, alloc: Global) -> Result<(), Fail> {
        let machine: Machine<K> = device(alloc)?;
        let text = text_of(alloc, machine.keep())?;
        let other = with_version(alloc, text.as_slice(), 1)?;
        let fault = restored::<K>(alloc, other.as_slice()).err();
        check(rt, fault, Some(RestoreFault::Text(StateFault::Earlier)));
        Ok(())
    }
}

#[test]
fn version_1_is_refused(rt: HostRuntime) -> Result<(), Fail> {
    run_over_both(EarlierVersion, &rt, rt.alloc())
}

#[derive(Drop)]
struct CompleteVersion;

impl Trial for CompleteVersion {
    fn run<K: Keep, R: Abort>(rt: &R, alloc: Global) -> Result<(), Fail> {
        let machine: Machine<K> = device(alloc)?;
        let text = text_of(alloc, machine.keep())?;
        let other = with_version(alloc, text.as_slice(), 3)?;
        let Ok((keep, _layer)) = restored::<K>(alloc, other.as_slice()) else {
            return Err(Fail::new("not restored"));
        };
        check(rt, keep.fixed().profile, Profile::Complete);
        check(rt, text_of(alloc, &keep)?.as_slice(), other.as_slice());
        Ok(())
    }
}

#[test]
fn version_3_is_that_of_the_complete_profile(rt: HostRuntime) -> Result<(), Fail> {
    run_over_both(CompleteVersion, &rt, rt.alloc())
}
