//! TPM2_NV_DefineSpace: defines an index, which contains no data yet (specified in
//! `specs/NvDefineSpace`).

ghost use Rattle.tpm_bytes.specs.Reading.{Gives};
ghost use Rattle.std.specs.Prelude.{◌≡◌, ◌==◌, IfOk, length};
ghost use Rattle.tpm_types_common.specs.Handle.{platform_handle};
ghost use Rattle.tpm_types_nv.specs.NvPublic.{IsNvPublic};
ghost use Rattle.tpm_record.specs.rows.Request.{request_of};
ghost use Rattle.tpm_record.specs.rows.Rows.{ActsIfRoom};
ghost use Rattle.tpm_nvactions.specs.NvDefineSpace.{definition_refusal, nv_define_space_row, parameters_in, parameters_of};

use tpm_bytes::Cursor;
use tpm_nv::{DefineFault, DefinitionFault, Indices, check_definition};
use tpm_record::Keep;
use tpm_record::rows::answer::Answer;
use tpm_record::rows::call::Call;
use tpm_record::rows::reading::{end, parameter};
use tpm_record::rows::refusals::{action_refusal, memory_refusal, parameter_refusal};
use tpm_types_common::{ActionCheck, AuthValue, Handle, Refused, ResponseCode};
use tpm_types_nv::NvPublic;

/// The parameters of TPM2_NV_DefineSpace.
#[derive(Drop)]
pub struct DefinitionParameters {
    auth_value: AuthValue,
    public: NvPublic,
}

#[tactic(auto, unfolding(crate::specs::NvDefineSpace::parameters_in))]
fn read_parameters(parameters: &[u8]) -> Result<DefinitionParameters, Refused>
    ensures read { Gives parameters_of (parameters_in parameters.now) result }
    ensures named { IfOk result (λ asked. IsNvPublic asked.public) }
{
    let mut text = Cursor::new(parameters);
    let auth_value = parameter(1, AuthValue::read(&mut text))?;
    let public = parameter(2, NvPublic::read_sized(&mut text))?;
    end(&text)?;
    Ok(DefinitionParameters { auth_value, public })
}

fn definition_refusal(fault: DefinitionFault) -> Refused
    ensures { result ≡ definition_refusal fault }
{
    match fault {
        DefinitionFault::AuthValueSize => parameter_refusal(
            ActionCheck::First,
            1,
            ResponseCode::Size,
        ),
        DefinitionFault::AuthPolicySize => parameter_refusal(
            ActionCheck::Second,
            2,
            ResponseCode::Size,
        ),
        DefinitionFault::Attributes => parameter_refusal(
            ActionCheck::Third,
            2,
            ResponseCode::Attributes,
        ),
        DefinitionFault::DataSize => parameter_refusal(ActionCheck::Fourth, 2, ResponseCode::Size),
    }
}

/// TPM2_NV_DefineSpace: defines an index, which contains no data yet.
#[tactic(auto, unfolding(crate::specs::NvDefineSpace::nv_define_space_row), using(tpm_types_nv::proofs::NvPublicLaws::public_valid))]
pub fn nv_define_space<K: Keep>(
    keep: &mut K,
    call: &Call,
    answer: &mut Answer,
) -> Result<(), Refused>
    ensures { ActsIfRoom K.can_refuse
        (nv_define_space_row (K.record_of keep.old) (request_of call.now))
        (K.record_of keep.old) result answer.new (K.record_of keep.new) }
{
    answer.clear();
    let by_platform = call.first_handle()? == Handle::PLATFORM;
    let asked = read_parameters(call.parameters)?;
    let size = asked.auth_value.as_slice().len();
    if let Err(fault) = check_definition(&asked.public, size, by_platform) {
        return Err(definition_refusal(fault));
    }
    match keep.nv_mut().define(asked.public, asked.auth_value) {
        Ok(()) => Ok(()),
        Err(DefineFault::Public | DefineFault::Written) => {
            Err(definition_refusal(DefinitionFault::Attributes))
        }
        Err(DefineFault::DataSize) => Err(definition_refusal(DefinitionFault::DataSize)),
        Err(DefineFault::Defined) => Err(action_refusal(
            ActionCheck::Fifth,
            ResponseCode::NvDefined.anywhere(),
        )),
        Err(DefineFault::Space) => Err(action_refusal(
            ActionCheck::Sixth,
            ResponseCode::NvSpace.anywhere(),
        )),
        Err(DefineFault::NoMemory) => Err(memory_refusal()),
    }
}
