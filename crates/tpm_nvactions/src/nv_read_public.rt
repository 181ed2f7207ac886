//! TPM2_NV_ReadPublic: returns the public area of an index and its Name (specified in
//! `specs/NvReadPublic`).

ghost use Rattle.std.specs.Prelude.{◌≡◌};
ghost use Rattle.tpm_record.specs.rows.Request.{request_of};
ghost use Rattle.tpm_record.specs.rows.Rows.{Acts};
ghost use Rattle.tpm_nvactions.specs.NvReadPublic.{nv_read_public_row};

use tpm_bytes::Cursor;
use tpm_nv::Indices;
use tpm_record::Keep;
use tpm_record::rows::answer::Answer;
use tpm_record::rows::call::Call;
use tpm_record::rows::reading::end;
use tpm_record::rows::refusals::handle_refusal;
use tpm_types_common::Refused;

/// TPM2_NV_ReadPublic: returns the public area of an index, and its Name.
#[tactic(auto, unfolding(crate::specs::NvReadPublic::nv_read_public_row))]
pub fn nv_read_public<K: Keep>(
    keep: &mut K,
    call: &Call,
    answer: &mut Answer,
) -> Result<(), Refused>
    ensures { Acts (nv_read_public_row (K.record_of keep.old) (request_of call.now))
        (K.record_of keep.old) result answer.new (K.record_of keep.new) }
{
    answer.clear();
    let handle = call.first_handle()?;
    let Some(head) = keep.nv().get(handle) else {
        return Err(handle_refusal());
    };
    end(&Cursor::new(call.parameters))?;
    answer
        .parameters
        .append_sized(head.public.text().as_slice());
    answer
        .parameters
        .append_sized(tpm_name::of_nv(&head.public).as_slice());
    Ok(())
}
