//! TPM2_Load: unwraps the private area of an object under its parent and loads the object
//! (specified in `specs/Load`).

ghost use Rattle.std.specs.Prelude.{◌≡◌};
ghost use Rattle.tpm_record.specs.rows.Request.{request_of};
ghost use Rattle.tpm_record.specs.rows.Rows.{ActsIfRoom};
ghost use Rattle.tpm_name.specs.ObjectName.{object_name};
ghost use Rattle.tpm_actions_object.specs.Load.{load_row, sensitive_of};

use crate::checks::public_passes;
use crate::loaded::{check_parent, is_fixed, load_object, loaded};
use tpm_bytes::Cursor;
use tpm_name::Name;
use tpm_object::{Object, unwrap_named};
use tpm_record::Keep;
use tpm_record::rows::answer::Answer;
use tpm_record::rows::call::Call;
use tpm_record::rows::reading::{end, parameter};
use tpm_record::rows::refusals::parameter_refusal;
use tpm_types_common::{ActionCheck, Refused, ResponseCode, read_buffer, read_filled};
use tpm_types_object::{Public, Sensitive};

/// The maximum size of inPrivate, in bytes.
const PRIVATE_LIMIT: usize = 256;

/// The sensitive area in a private area, unwrapped for the object with this Name.
fn sensitive_of(
    parent: &Object,
    public: &Public,
    name: &Name,
    private: &[u8],
) -> Result<Sensitive, Refused>
    requires { name.now ≡ object_name public.now }
    ensures { result ≡ sensitive_of parent.now public.now private.now }
{
    match unwrap_named(parent, public, name, private) {
        Ok(sensitive) => Ok(sensitive),
        Err(_) => Err(parameter_refusal(ActionCheck::Fifth, 1, ResponseCode::Integrity)),
    }
}

/// TPM2_Load: unwraps the private area of an object under its parent, and loads the object.
#[tactic(auto, unfolding(crate::specs::Load::load_row, crate::specs::Load::parameters_in))]
pub fn load<K: Keep>(keep: &mut K, call: &Call, answer: &mut Answer) -> Result<(), Refused>
    ensures { ActsIfRoom K.can_refuse (load_row (K.record_of keep.old) (request_of call.now))
        (K.record_of keep.old) result answer.new (K.record_of keep.new) }
{
    answer.clear();
    let parent = loaded(keep, call.first_handle()?)?;
    let mut text = Cursor::new(call.parameters);
    let private = parameter(1, read_buffer(&mut text, PRIVATE_LIMIT))?;
    let public: Public = parameter(2, read_filled(&mut text))?;
    end(&text)?;
    check_parent(parent)?;
    public_passes(1, &public, is_fixed(parent))?;
    let name = tpm_name::of_object(&public);
    let sensitive = sensitive_of(parent, &public, &name, private)?;
    let above = parent.qualified_name.as_slice();
    let object = Object::loaded_named(parent.hierarchy, public, &name, &sensitive, above);
    answer.parameters.append_sized(name.as_slice());
    answer.handle = Some(load_object(keep, object, ActionCheck::Sixth)?);
    Ok(())
}
