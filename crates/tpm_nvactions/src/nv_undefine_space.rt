//! TPM2_NV_UndefineSpace: removes an index (specified in `specs/NvUndefineSpace`).

ghost use Rattle.std.specs.Prelude.{◌≡◌};
ghost use Rattle.tpm_record.specs.rows.Request.{request_of};
ghost use Rattle.tpm_record.specs.rows.Rows.{Acts};
ghost use Rattle.tpm_nvactions.specs.NvUndefineSpace.{is_kept_from, nv_undefine_space_row};

use tpm_bytes::Cursor;
use tpm_nv::Indices;
use tpm_record::Keep;
use tpm_record::rows::answer::Answer;
use tpm_record::rows::call::Call;
use tpm_record::rows::reading::end;
use tpm_record::rows::refusals::action_refusal;
use tpm_record::rows::target::{Target, target_of};
use tpm_types_common::{ActionCheck, Handle, Refused, ResponseCode};
use tpm_types_nv::NvAttribute;

fn is_kept_from(target: &Target) -> bool
    ensures { result ≡ is_kept_from target.now }
{
    target.auth_handle == Handle::OWNER && target.attributes.has(NvAttribute::PlatformCreate)
}

/// TPM2_NV_UndefineSpace: removes an index.
#[tactic(auto, unfolding(crate::specs::NvUndefineSpace::nv_undefine_space_row))]
pub fn nv_undefine_space<K: Keep>(
    keep: &mut K,
    call: &Call,
    answer: &mut Answer,
) -> Result<(), Refused>
    ensures { Acts (nv_undefine_space_row (K.record_of keep.old) (request_of call.now))
        (K.record_of keep.old) result answer.new (K.record_of keep.new) }
{
    answer.clear();
    let target = target_of(keep, call)?;
    end(&Cursor::new(call.parameters))?;
    if is_kept_from(&target) {
        return Err(action_refusal(ActionCheck::First, ResponseCode::NvAuthorization.anywhere()));
    }
    keep.nv_mut().undefine(target.handle);
    Ok(())
}
