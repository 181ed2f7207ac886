//! The common part of the assertion commands. Each assertion is made on a copy of the session's
//! policy, and the copy replaces the policy only if the assertion is not refused.

ghost use Rattle.tpm_bytes.specs.Reading.{Gives};
ghost use Rattle.std.specs.Prelude.{◌≡◌, Err};
ghost use Rattle.tpm_policy.specs.Assertion.{Asserts, asserted_policy};
ghost use Rattle.tpm_types_common.specs.SessionType.{is_trial};
ghost use Rattle.tpm_actions_policy.specs.AssertionParameters.{assertion_of};
ghost use Rattle.tpm_actions_policy.specs.Assertions.{IsMade};
ghost use Rattle.tpm_actions_policy.specs.Assertions.{policy_session, with_assertion};

use crate::compared_index::ComparedIndex;
use crate::policy_pcr::ComparedPcrs;
use crate::policy_secret::ShownSecret;
use tpm_policy::PolicyState;
use tpm_record::Keep;
use tpm_record::rows::refusals::{fault_refusal, handle_refusal};
use tpm_session::Session;
use tpm_types_common::{ActionFault, DigestList, Handle, Refused};

/// The assertion that a command requests.
#[derive(Clone, Copy)]
pub enum AssertionParameters<'a> {
    Pcr(ComparedPcrs<'a>),
    Or(&'a DigestList),
    AuthValue,
    Password,
    CommandCode(u32),
    CpHash(&'a [u8]),
    NvWritten(bool),
    Locality(u8),
    Secret(ShownSecret<'a>),
    Nv(ComparedIndex<'a>),
}

impl AssertionParameters<'_> {
    /// Adds the requested assertion to a session's policy.
    fn assert_on<K: Keep>(
        &self,
        keep: &K,
        session: &Session,
        policy: &mut PolicyState,
    ) -> Result<(), ActionFault>
        ensures { Asserts
            (asserted_policy session.now.hash (is_trial session.now.kind)
            (assertion_of (K.record_of keep.now) self.now session.now) policy.old)
            policy.old result policy.new }
    {
        let hash = session.hash();
        match *self {
            AssertionParameters::Pcr(pcrs) => pcrs.assert_on(keep, session, policy),
            AssertionParameters::Or(digests) => policy.or(hash, session.kind().is_trial(), digests),
            AssertionParameters::AuthValue => {
                policy.auth_value(hash);
                Ok(())
            }
            AssertionParameters::Password => {
                policy.password(hash);
                Ok(())
            }
            AssertionParameters::CommandCode(number) => {
                policy.command_code(hash, keep.fixed().profile, number)
            }
            AssertionParameters::CpHash(cp_hash) => policy.cp_hash(hash, cp_hash),
            AssertionParameters::NvWritten(is_written) => policy.nv_written(hash, is_written),
            AssertionParameters::Locality(localities) => policy.locality(hash, localities),
            AssertionParameters::Secret(secret) => secret.assert_on(keep, session, policy),
            AssertionParameters::Nv(index) => index.assert_on(keep, session, policy),
        }
    }
}

/// The policy session or trial session with this handle.
pub fn policy_session<K: Keep>(keep: &K, handle: Handle) -> Result<&Session, Refused>
    ensures { Gives (λ session. session.now)
        (policy_session (K.record_of keep.now).sessions handle) result }
{
    match keep.sessions().get(handle) {
        Some(session) => Ok(session),
        None => Err(handle_refusal()),
    }
}

/// Makes the assertion on a copy of the policy of the session with this handle. The copy becomes
/// the session's policy unless the assertion is refused.
#[tactic(auto, using(tpm_policy::proofs::Sizes::made_sized))]
pub fn make_assertion<K: Keep>(
    keep: &mut K,
    handle: Handle,
    asked: &AssertionParameters,
) -> Result<(), Refused>
    ensures { IsMade
        (with_assertion (K.record_of keep.old).sessions handle
        (assertion_of (K.record_of keep.old) asked.now))
        (K.record_of keep.old) result (K.record_of keep.new) }
{
    let session = policy_session(keep, handle)?;
    let mut policy = session.policy().copy();
    let asserted = asked.assert_on(keep, session, &mut policy);
    asserted.map_err(fault_refusal)?;
    keep.sessions_mut().set_policy(handle, policy);
    Ok(())
}
