//! Compares policy digests with digests computed by Python's `hashlib`. Tests that the use of a
//! policy is refused if one of its conditions fails.

use super::comparison::check;
use std::process::Abort;
use tpm_bytes::Cursor;
use tpm_commands::Profile;
use tpm_mac::HashAlg;
use tpm_policy::{Demand, EntityPolicy, PcrAssertion, PolicyState, SecretAssertion, Use};
use tpm_types_common::{
    ActionCheck, ActionFault, DigestList, Handle, Locality, PcrSelection, Rc, ResponseCode, Role,
    SessionType,
};
use tpm_types_name::Name;

/// The policy digest of TPM2_PolicyAuthValue.
const AUTH_VALUE: &[u8] = b"\x8f\xcd\x21\x69\xab\x92\x69\x4e\x0c\x63\x3f\x1a\xb7\x72\x84\x2b\
    \x82\x41\xbb\xc2\x02\x88\x98\x1f\xc7\xac\x1e\xdd\xc1\xfd\xdb\x0e";

/// The policy digest of TPM2_PolicySecret for TPM_RH_ENDORSEMENT.
const SECRET: &[u8] = b"\x83\x71\x97\x67\x44\x84\xb3\xf8\x1a\x90\xcc\x8d\x46\xa5\xd7\x24\
    \xfd\x52\xd7\x6e\x06\x52\x0b\x64\xf2\xa1\xda\x1b\x33\x14\x69\xaa";

const PCR_RESET: u32 = 0x13d;

/// The policy digest of TPM2_PolicyCommandCode for TPM2_GetRandom.
const COMMAND_CODE: &[u8] = b"\x5b\xe1\x5b\x50\xc0\x23\x8a\x19\xfb\x28\x12\xee\x10\xf5\xed\xa0\
    \x6b\x24\xd8\x8f\xd4\xdf\x45\x14\xe4\xba\xdf\x55\x15\xa6\xdc\x11";

/// The policy digest of TPM2_PolicyLocality for locality 3.
const LOCALITY: &[u8] = b"\x77\x64\x49\x1d\x5a\xfe\x71\x90\x35\xc0\xc0\x9f\xaa\x90\xc3\x49\
    \x0a\x74\x75\xd6\xdf\x42\x2b\x80\x4e\x8f\x68\xaa\x65\xf8\x93\x4f";

/// The policy digest of TPM2_PolicyPCR for PCR 0 in the SHA-256 bank, if the PCR is all zeros.
const PCR: &[u8] = b"\x09\x3c\xeb\x41\x18\x1d\x47\x80\x88\x62\xd7\x94\x62\x68\xee\x6a\
    \x17\xa1\x0e\x3d\x1b\x79\xb3\x23\x51\xbc\x56\xe4\xbe\xac\xef\xf0";

/// The SHA-256 digest of 32 zero bytes.
const ZEROS_HASH: &[u8] = b"\x66\x68\x7a\xad\xf8\x62\xbd\x77\x6c\x8f\xc1\x8b\x8e\x9f\x8e\x20\
    \x08\x97\x14\x85\x6e\xe2\x33\xb3\x90\x2a\x59\x1d\x0d\x5f\x29\x25";

/// The list of digests for TPM2_PolicyOR: `COMMAND_CODE` and `LOCALITY`.
const BRANCHES: &[u8] = b"\x00\x00\x00\x02\
    \x00\x20\x5b\xe1\x5b\x50\xc0\x23\x8a\x19\xfb\x28\x12\xee\x10\xf5\xed\xa0\
    \x6b\x24\xd8\x8f\xd4\xdf\x45\x14\xe4\xba\xdf\x55\x15\xa6\xdc\x11\
    \x00\x20\x77\x64\x49\x1d\x5a\xfe\x71\x90\x35\xc0\xc0\x9f\xaa\x90\xc3\x49\
    \x0a\x74\x75\xd6\xdf\x42\x2b\x80\x4e\x8f\x68\xaa\x65\xf8\x93\x4f";

/// The policy digest of TPM2_PolicyOR over `BRANCHES`.
const OR: &[u8] = b"\x5c\xd8\x1d\x2a\xc9\x60\x77\x5e\x3d\x72\xf3\x00\x07\xe7\xb0\x40\
    \x46\x21\x3b\x08\x17\xc4\x88\x82\x09\x81\x75\xbd\xb3\x05\xb3\xb5";

/// The PCR selection that contains only PCR 0 in the SHA-256 bank.
const SELECTION: &[u8] = b"\x00\x00\x00\x01\x00\x0b\x03\x01\x00\x00";

const GET_RANDOM: u32 = 0x17b;

const CP_HASH: &[u8] = &[0xcc; 32];

/// The assertion that the selected PCR is all zeros. It was made when pcrUpdateCounter was 7.
fn pcr(selection: &PcrSelection) -> PcrAssertion<'_> {
    PcrAssertion {
        given: ZEROS_HASH,
        selection,
        digest: ZEROS_HASH,
        update_count: 7,
    }
}

fn secret<'a>(name: &'a Name, cp_hash: &'a [u8]) -> SecretAssertion<'a> {
    SecretAssertion {
        name,
        nonce: &[],
        nonce_tpm: &[0xbb; 16],
        cp_hash,
        reference: &[],
        expiration: 0,
    }
}

#[test]
fn digests_are_those_of_the_standard(rt: HostRuntime) {
    let mut state = PolicyState::new(HashAlg::Sha256);
    state.auth_value(HashAlg::Sha256);
    check(&rt, state.digest(), AUTH_VALUE);
    check(&rt, state.demand(), Demand::AuthValue);
    state.restart(HashAlg::Sha256);
    state.password(HashAlg::Sha256);
    check(&rt, state.copy().digest(), AUTH_VALUE);
    check(&rt, state.demand(), Demand::Password);
    state.restart(HashAlg::Sha256);
    let name = Name::of_handle(Handle::ENDORSEMENT);
    let done = state.secret(HashAlg::Sha256, false, &secret(&name, &[]));
    check(&rt, done, Ok(()));
    check(&rt, state.digest(), SECRET);
    state.restart(HashAlg::Sha256);
    let done = state.pcr(HashAlg::Sha256, false, &pcr(&pcr_0(&rt)));
    check(&rt, done, Ok(()));
    check(&rt, state.digest(), PCR);
}

#[test]
fn either_branch_leads_to_one_digest(rt: HostRuntime) {
    let list = DigestList::read(&mut Cursor::new(BRANCHES))
        .ok()
        .expect(&rt, "two digests");
    let mut state = PolicyState::new(HashAlg::Sha256);
    let refused = ActionFault::in_parameter(ActionCheck::First, 1, ResponseCode::Value);
    check(&rt, state.or(HashAlg::Sha256, false, &list), Err(refused));
    check(&rt, state.locality(HashAlg::Sha256, 0x08), Ok(()));
    check(&rt, state.digest(), LOCALITY);
    check(&rt, state.or(HashAlg::Sha256, false, &list), Ok(()));
    check(&rt, state.digest(), OR);
    state.restart(HashAlg::Sha256);
    let done = state.command_code(HashAlg::Sha256, Profile::Symmetric, GET_RANDOM);
    check(&rt, done, Ok(()));
    check(&rt, state.digest(), COMMAND_CODE);
    check(&rt, state.or(HashAlg::Sha256, false, &list), Ok(()));
    check(&rt, state.digest(), OR);
}

/// Makes assertions about PCR 0 (with pcrUpdateCounter 7), TPM2_GetRandom, the endorsement secret,
/// a cpHash, a written index, and locality 0.
fn assert_all(state: &mut PolicyState, selection: &PcrSelection) -> Result<(), ActionFault> {
    let name = Name::of_handle(Handle::ENDORSEMENT);
    state.pcr(HashAlg::Sha256, false, &pcr(selection))?;
    state.command_code(HashAlg::Sha256, Profile::Symmetric, GET_RANDOM)?;
    state.secret(HashAlg::Sha256, false, &secret(&name, CP_HASH))?;
    state.cp_hash(HashAlg::Sha256, CP_HASH)?;
    state.nv_written(HashAlg::Sha256, true)?;
    state.locality(HashAlg::Sha256, 0x01)
}

/// A use of the policy of `assert_all`, in which the condition with this number and all later
/// conditions fail.
fn spoiled_from(condition: u8, digest: &[u8], locality: Locality) -> Use<'_> {
    let entity = EntityPolicy {
        hash: HashAlg::Sha256,
        digest,
    };
    Use {
        entry: 1,
        kind: if condition <= 1 {
            SessionType::Trial
        } else {
            SessionType::Policy
        },
        hash: HashAlg::Sha256,
        available: condition > 2,
        update_count: if condition <= 3 { 8 } else { 7 },
        command: if condition <= 4 {
            PCR_RESET
        } else {
            GET_RANDOM
        },
        role: Role::Admin,
        cp_hash: if condition <= 5 { &[] } else { CP_HASH },
        written: if condition <= 6 {
            Some(false)
        } else {
            Some(true)
        },
        locality,
        entity: if condition <= 8 { None } else { Some(entity) },
    }
}

/// The number of each condition, and the refusal if this condition and all later conditions fail.
fn refusals() -> [(u8, Rc); 8] {
    let policy_fail = ResponseCode::PolicyFail.anywhere().at_session(1);
    [
        (1, ResponseCode::Attributes.anywhere().at_session(1)),
        (2, ResponseCode::AuthUnavailable.anywhere()),
        (3, ResponseCode::PcrChanged.anywhere()),
        (4, ResponseCode::PolicyCc.anywhere().at_session(1)),
        (5, policy_fail),
        (6, policy_fail),
        (7, ResponseCode::Locality.anywhere()),
        (8, policy_fail),
    ]
}

/// PCR 0 in the SHA-256 bank.
fn pcr_0<R: Abort>(rt: &R) -> PcrSelection {
    PcrSelection::read(&mut Cursor::new(SELECTION))
        .ok()
        .expect(rt, "PCR 0")
}

/// A policy with all assertions of `assert_all`.
fn asserted<R: Abort>(rt: &R) -> PolicyState {
    let mut state = PolicyState::new(HashAlg::Sha256);
    check(rt, assert_all(&mut state, &pcr_0(rt)), Ok(()));
    state
}

/// Locality 1 if the locality condition fails, otherwise locality 0.
fn locality_from<R: Abort>(rt: &R, condition: u8) -> Locality {
    let number = if condition <= 7 { 1 } else { 0 };
    Locality::new(number).expect(rt, "locality 0 or 1")
}

/// The result of a use in which the condition with this number and all later conditions fail.
fn answer_from<R: Abort>(rt: &R, state: &PolicyState, condition: u8) -> Result<Demand, Rc> {
    let locality = locality_from(rt, condition);
    state.check_use(&spoiled_from(condition, state.digest(), locality))
}

#[test]
fn the_first_condition_that_does_not_hold_refuses(rt: HostRuntime) {
    let state = asserted(&rt);
    for (condition, rc) in refusals() {
        let answer = answer_from(&rt, &state, condition);
        check(&rt, (condition, answer), (condition, Err(rc)));
    }
    check(&rt, answer_from(&rt, &state, 9), Ok(Demand::None));
}
