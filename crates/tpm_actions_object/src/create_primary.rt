//! TPM2_CreatePrimary: derives an object from the seed of a hierarchy and loads it (specified in
//! `specs/CreatePrimary`).

ghost use Rattle.std.specs.Prelude.{◌≡◌, ◌++◌, []};
ghost use Rattle.tpm_bytes.specs.Writing.{sized_text};
ghost use Rattle.tpm_name.specs.ObjectName.{object_name};
ghost use Rattle.tpm_types_common.specs.Locality.{locality_number};
ghost use Rattle.tpm_types_object.specs.Public.{public_text};
ghost use Rattle.tpm_record.specs.rows.Request.{request_of};
ghost use Rattle.tpm_record.specs.rows.Rows.{ActsIfRoom};
ghost use Rattle.tpm_actions_object.specs.CreatePrimary.{create_primary_row, named_hierarchy};
ghost use Rattle.tpm_actions_object.specs.Creation.{creation_rest, hierarchy_parent, parameters_of};

use crate::checks::{given_passes, public_passes};
use crate::creation::{CreationParameters, Parent, put_creation, read_parameters};
use crate::loaded::load_object;
use tpm_object::{Object, derive_primary};
use tpm_record::Keep;
use tpm_record::rows::answer::{Answer, Parameters};
use tpm_record::rows::call::Call;
use tpm_record::rows::refusals::handle_refusal;
use tpm_types_common::{ActionCheck, Handle, HierarchyHandle, Locality, Refused};

fn named_hierarchy(handle: Handle) -> Result<HierarchyHandle, Refused>
    ensures { result ≡ named_hierarchy handle }
{
    match handle.hierarchy() {
        Some(hierarchy) => Ok(hierarchy),
        None => Err(handle_refusal()),
    }
}

/// Writes the answer: the data about the creation of an object under a hierarchy, and the
/// object's Name.
fn put_primary<K: Keep>(
    keep: &K,
    locality: Locality,
    hierarchy: HierarchyHandle,
    asked: CreationParameters,
    object: &Object,
    text: &mut Parameters,
)
    requires { text.old ≡ [] }
    ensures { text.new ≡ sized_text (public_text object.now.public)
        ++ (creation_rest (K.record_of keep.now) (locality_number locality)
        (hierarchy_parent hierarchy) (parameters_of asked.entry) object.now.public
        ++ sized_text (object_name object.now.public)) }
{
    let name = object.name();
    let parent = Parent::of_hierarchy(hierarchy);
    put_creation(keep, locality, &parent, asked, &object.public, &name, text);
    text.append_sized(name.as_slice());
}

/// TPM2_CreatePrimary: derives an object from the seed of a hierarchy, and loads it.
#[tactic(auto, unfolding(crate::specs::CreatePrimary::create_primary_row))]
pub fn create_primary<K: Keep>(
    keep: &mut K,
    call: &Call,
    answer: &mut Answer,
) -> Result<(), Refused>
    ensures { ActsIfRoom K.can_refuse
        (create_primary_row (K.record_of keep.old) (request_of call.now))
        (K.record_of keep.old) result answer.new (K.record_of keep.new) }
{
    answer.clear();
    let hierarchy = named_hierarchy(call.first_handle()?)?;
    let asked = read_parameters(call.parameters)?;
    public_passes(0, &asked.template, true)?;
    given_passes(3, &asked.given, &asked.template)?;
    let seed = keep.fixed().hierarchies.secrets(hierarchy).seed;
    let object = derive_primary(hierarchy, &seed, &asked.template, &asked.given);
    let text = &mut answer.parameters;
    put_primary(keep, call.locality, hierarchy, asked, &object, text);
    answer.handle = Some(load_object(keep, object, ActionCheck::Seventh)?);
    Ok(())
}
