//! TPM2_PolicyRestart: resets the policy of a session to its initial state (specified in
//! `specs/PolicyRestart`).

ghost use Rattle.std.specs.Prelude.{◌≡◌};
ghost use Rattle.tpm_record.specs.rows.Request.{request_of};
ghost use Rattle.tpm_record.specs.rows.Rows.{Acts};
ghost use Rattle.tpm_actions_policy.specs.PolicyRestart.{policy_restart_row};

use crate::assertions::policy_session;
use tpm_bytes::Cursor;
use tpm_policy::PolicyState;
use tpm_record::Keep;
use tpm_record::rows::answer::Answer;
use tpm_record::rows::call::Call;
use tpm_record::rows::reading::end;
use tpm_types_common::Refused;

/// TPM2_PolicyRestart: resets the policy of a session to its initial state.
#[tactic(auto, unfolding(crate::specs::PolicyRestart::policy_restart_row), using(tpm_policy::proofs::Sizes::starting_sized))]
pub fn policy_restart<K: Keep>(
    keep: &mut K,
    call: &Call,
    answer: &mut Answer,
) -> Result<(), Refused>
    ensures { Acts (policy_restart_row (K.record_of keep.old) (request_of call.now))
        (K.record_of keep.old) result answer.new (K.record_of keep.new) }
{
    answer.clear();
    let handle = call.first_handle()?;
    end(&Cursor::new(call.parameters))?;
    let policy = PolicyState::new(policy_session(keep, handle)?.hash());
    keep.sessions_mut().set_policy(handle, policy);
    Ok(())
}
