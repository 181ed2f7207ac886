//! TPM2_ReadPublic: returns the public area of an object and its two Names (specified in
//! `specs/ReadPublic`).

ghost use Rattle.std.specs.Prelude.{◌≡◌};
ghost use Rattle.tpm_record.specs.rows.Request.{request_of};
ghost use Rattle.tpm_record.specs.rows.Rows.{Acts};
ghost use Rattle.tpm_actions_object.specs.ReadPublic.{read_public_row};

use crate::loaded::loaded;
use tpm_bytes::Cursor;
use tpm_record::Keep;
use tpm_record::rows::answer::Answer;
use tpm_record::rows::call::Call;
use tpm_record::rows::reading::end;
use tpm_types_common::Refused;

/// TPM2_ReadPublic: returns the public area of an object, its Name and its qualified Name.
#[tactic(auto, unfolding(crate::specs::ReadPublic::read_public_row))]
pub fn read_public<K: Keep>(keep: &mut K, call: &Call, answer: &mut Answer) -> Result<(), Refused>
    ensures { Acts (read_public_row (K.record_of keep.old) (request_of call.now))
        (K.record_of keep.old) result answer.new (K.record_of keep.new) }
{
    answer.clear();
    let object = loaded(keep, call.first_handle()?)?;
    end(&Cursor::new(call.parameters))?;
    answer
        .parameters
        .append_sized(object.public.text().as_slice());
    answer.parameters.append_sized(object.name().as_slice());
    answer
        .parameters
        .append_sized(object.qualified_name.as_slice());
    Ok(())
}
