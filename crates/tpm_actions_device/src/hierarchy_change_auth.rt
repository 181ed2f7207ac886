//! TPM2_HierarchyChangeAuth: sets the authorization value of a hierarchy, or lockoutAuth (specified
//! in `specs/HierarchyChangeAuth`).

ghost use Rattle.std.specs.Prelude.{◌≡◌};
ghost use Rattle.tpm_actions_device.specs.HierarchyChangeAuth.{hierarchy_change_auth_row};
ghost use Rattle.tpm_record.specs.rows.Request.{request_of};
ghost use Rattle.tpm_record.specs.rows.Rows.{Acts};

use tpm_bytes::Cursor;
use tpm_record::Keep;
use tpm_record::rows::answer::Answer;
use tpm_record::rows::call::Call;
use tpm_record::rows::reading::{end, parameter};
use tpm_types_common::{AuthValue, Refused};

/// TPM2_HierarchyChangeAuth: sets the authorization value of a hierarchy, or lockoutAuth.
#[tactic(auto, unfolding(crate::specs::HierarchyChangeAuth::hierarchy_change_auth_row))]
pub fn hierarchy_change_auth<K: Keep>(
    keep: &mut K,
    call: &Call,
    answer: &mut Answer,
) -> Result<(), Refused>
    ensures { Acts (hierarchy_change_auth_row (K.record_of keep.old) (request_of call.now))
        (K.record_of keep.old) result answer.new (K.record_of keep.new) }
{
    answer.clear();
    let handle = call.first_handle()?;
    let mut parameters = Cursor::new(call.parameters);
    let value = parameter(1, AuthValue::read(&mut parameters))?;
    end(&parameters)?;
    if let Some(auth) = handle.hierarchy_auth() {
        keep.fixed_mut().hierarchies.set_auth_value(auth, value);
    }
    Ok(())
}
