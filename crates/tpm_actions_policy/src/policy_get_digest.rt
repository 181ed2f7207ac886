//! TPM2_PolicyGetDigest: returns the policy digest of a session (specified in
//! `specs/PolicyGetDigest`).

ghost use Rattle.std.specs.Prelude.{◌≡◌};
ghost use Rattle.tpm_record.specs.rows.Request.{request_of};
ghost use Rattle.tpm_record.specs.rows.Rows.{Acts};
ghost use Rattle.tpm_actions_policy.specs.PolicyGetDigest.{policy_get_digest_row};

use crate::assertions::policy_session;
use tpm_bytes::Cursor;
use tpm_record::Keep;
use tpm_record::rows::answer::Answer;
use tpm_record::rows::call::Call;
use tpm_record::rows::reading::end;
use tpm_types_common::Refused;

/// TPM2_PolicyGetDigest: returns the policy digest of a session.
#[tactic(auto, unfolding(crate::specs::PolicyGetDigest::policy_get_digest_row))]
pub fn policy_get_digest<K: Keep>(
    keep: &mut K,
    call: &Call,
    answer: &mut Answer,
) -> Result<(), Refused>
    ensures { Acts (policy_get_digest_row (K.record_of keep.old) (request_of call.now))
        (K.record_of keep.old) result answer.new (K.record_of keep.new) }
{
    answer.clear();
    let handle = call.first_handle()?;
    end(&Cursor::new(call.parameters))?;
    let session = policy_session(keep, handle)?;
    answer.parameters.append_sized(session.policy().digest());
    Ok(())
}
