//! TPM2_NV_ChangeAuth: sets the authorization value of an index (specified in
//! `specs/NvChangeAuth`).

ghost use Rattle.std.specs.Prelude.{◌≡◌};
ghost use Rattle.tpm_record.specs.rows.Request.{request_of};
ghost use Rattle.tpm_record.specs.rows.Rows.{Acts};
ghost use Rattle.tpm_nvactions.specs.NvChangeAuth.{nv_change_auth_row};

use tpm_bytes::Cursor;
use tpm_nv::Indices;
use tpm_record::Keep;
use tpm_record::rows::answer::Answer;
use tpm_record::rows::call::Call;
use tpm_record::rows::reading::{end, parameter};
use tpm_record::rows::refusals::{handle_refusal, parameter_refusal};
use tpm_types_common::{ActionCheck, AuthValue, Refused, ResponseCode};

/// TPM2_NV_ChangeAuth: sets the authorization value of an index.
#[tactic(auto, unfolding(crate::specs::NvChangeAuth::nv_change_auth_row))]
pub fn nv_change_auth<K: Keep>(
    keep: &mut K,
    call: &Call,
    answer: &mut Answer,
) -> Result<(), Refused>
    ensures { Acts (nv_change_auth_row (K.record_of keep.old) (request_of call.now))
        (K.record_of keep.old) result answer.new (K.record_of keep.new) }
{
    answer.clear();
    let handle = call.first_handle()?;
    let Some(head) = keep.nv().get(handle) else {
        return Err(handle_refusal());
    };
    let most = head.public.name_alg.size();
    let mut parameters = Cursor::new(call.parameters);
    let value = parameter(1, AuthValue::read(&mut parameters))?;
    end(&parameters)?;
    if most < value.as_slice().len() {
        return Err(parameter_refusal(ActionCheck::First, 1, ResponseCode::Size));
    }
    keep.nv_mut()
        .change_auth(handle, value)
        .map_err(|_| handle_refusal())
}
