//! TPM2_Unseal: returns the data that an object seals (specified in `specs/Unseal`).

ghost use Rattle.std.specs.Prelude.{◌≡◌};
ghost use Rattle.tpm_record.specs.rows.Request.{request_of};
ghost use Rattle.tpm_record.specs.rows.Rows.{Acts};
ghost use Rattle.tpm_actions_object.specs.Unseal.{unseal_row};

use crate::loaded::loaded;
use tpm_bytes::Cursor;
use tpm_object::is_keyed_hash;
use tpm_record::Keep;
use tpm_record::rows::answer::Answer;
use tpm_record::rows::call::Call;
use tpm_record::rows::reading::end;
use tpm_record::rows::refusals::action_refusal;
use tpm_types_common::{ActionCheck, Refused, ResponseCode};
use tpm_types_object::ObjectAttribute;

/// TPM2_Unseal: returns the data that an object seals.
#[tactic(auto, unfolding(crate::specs::Unseal::unseal_row))]
pub fn unseal<K: Keep>(keep: &mut K, call: &Call, answer: &mut Answer) -> Result<(), Refused>
    ensures { Acts (unseal_row (K.record_of keep.old) (request_of call.now))
        (K.record_of keep.old) result answer.new (K.record_of keep.new) }
{
    answer.clear();
    let object = loaded(keep, call.first_handle()?)?;
    end(&Cursor::new(call.parameters))?;
    if !is_keyed_hash(&object.public) {
        return Err(action_refusal(
            ActionCheck::First,
            ResponseCode::Type.anywhere().at_handle(1),
        ));
    }
    if object.public.attributes.has(ObjectAttribute::Sign) {
        return Err(action_refusal(
            ActionCheck::Second,
            ResponseCode::Attributes.anywhere().at_handle(1),
        ));
    }
    answer.parameters.append_sized(object.sensitive.as_slice());
    Ok(())
}
