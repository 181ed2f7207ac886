//! TPM2_StartAuthSession: starts a session, bound to an entity or unbound (specified in
//! `specs/StartAuthSession`).

ghost use Rattle.tpm_bytes.specs.Reading.{Gives};
ghost use Rattle.std.specs.Prelude.{◌≡◌, ◌≤◌, true, length, IfOk, OnOk};
ghost use Rattle.tpm_session.specs.Key.{is_nonce_size};
ghost use Rattle.tpm_record.specs.rows.Request.{request_of};
ghost use Rattle.tpm_record.specs.rows.Rows.{ActsIfRoom};
ghost use Rattle.tpm_actions_device.specs.StartAuthSession.{binding_of, has_other_mask, parameters_in, parameters_of, parameters_pass, start_auth_session_row};

use tpm_bytes::Cursor;
use tpm_mac::HashAlg;
use tpm_record::rows::answer::Answer;
use tpm_record::rows::call::Call;
use tpm_record::rows::reading::{end, parameter};
use tpm_record::rows::refusals::{action_refusal, memory_refusal, parameter_refusal};
use tpm_record::{Keep, resolve};
use tpm_session::{Binding, Nonce, Start, StartFault, is_nonce_size};
use tpm_types_common::{
    ActionCheck, AuthValue, DIGEST_LIMIT, Handle, Rc, Refused, ResponseCode, SessionType,
    SymmetricDefinition, hash_number, read_buffer, read_hash,
};

/// The parameters of TPM2_StartAuthSession.
#[derive(Clone, Copy)]
pub struct SessionParameters<'a> {
    nonce_caller: &'a [u8],
    salt: &'a [u8],
    kind: SessionType,
    symmetric: SymmetricDefinition,
    hash: HashAlg,
}

#[tactic(auto, unfolding(crate::specs::StartAuthSession::parameters_in))]
fn read_parameters(parameters: &[u8]) -> Result<SessionParameters, Refused>
    ensures read { Gives parameters_of (parameters_in parameters.now) result }
    ensures few { IfOk result (λ asked. length asked.nonce_caller.now ≤ 32) }
{
    let mut text = Cursor::new(parameters);
    let nonce_caller = parameter(1, read_buffer(&mut text, DIGEST_LIMIT))?;
    let salt = parameter(2, read_buffer(&mut text, DIGEST_LIMIT))?;
    let kind = parameter(3, SessionType::read(&mut text))?;
    let symmetric = parameter(4, SymmetricDefinition::read(&mut text))?;
    let hash = parameter(5, read_hash(&mut text))?;
    end(&text)?;
    Ok(SessionParameters {
        nonce_caller,
        salt,
        kind,
        symmetric,
        hash,
    })
}

/// Whether the session encrypts by XOR, with masks whose hash algorithm is not the session's.
fn has_other_mask(symmetric: SymmetricDefinition, hash: HashAlg) -> bool
    ensures { result ≡ has_other_mask symmetric hash }
{
    match symmetric {
        SymmetricDefinition::Xor(mask) => hash_number(mask) != hash_number(hash),
        SymmetricDefinition::Null | SymmetricDefinition::Aes128Cfb => false,
    }
}

#[tactic(auto, unfolding(crate::specs::StartAuthSession::parameters_pass))]
fn check_parameters(asked: &SessionParameters) -> Result<(), Refused>
    ensures passed { result ≡ parameters_pass (parameters_of asked.now) }
    ensures sized { OnOk result
        (is_nonce_size asked.now.hash (length asked.now.nonce_caller.now) ≡ true) }
{
    if !is_nonce_size(asked.hash, asked.nonce_caller.len()) {
        return Err(parameter_refusal(ActionCheck::First, 1, ResponseCode::Size));
    }
    if !asked.salt.is_empty() {
        return Err(parameter_refusal(ActionCheck::Second, 2, ResponseCode::Value));
    }
    if has_other_mask(asked.symmetric, asked.hash) {
        return Err(parameter_refusal(ActionCheck::Third, 4, ResponseCode::Hash));
    }
    Ok(())
}

/// The binding of a session to the entity that this handle names; None for TPM_RH_NULL.
#[tactic(auto, unfolding(crate::specs::StartAuthSession::binding_of, tpm_record::specs::Entity::name_of, tpm_record::specs::Entity::auth_value_of, tpm_record::specs::Entity::protection_of))]
fn binding_of<K: Keep>(keep: &K, bind: Handle) -> Option<Binding>
    ensures { result ≡ binding_of (K.record_of keep.now) bind }
{
    if bind == Handle::NULL {
        return None;
    }
    let entity = resolve(keep, bind);
    Some(Binding {
        name: entity.name(),
        auth_value: AuthValue::of(entity.auth_value(keep)),
        protection: entity.protection(),
    })
}

/// TPM2_StartAuthSession: starts a session, bound to an entity or unbound.
#[tactic(auto, unfolding(crate::specs::StartAuthSession::start_auth_session_row))]
pub fn start_auth_session<K: Keep>(
    keep: &mut K,
    call: &Call,
    answer: &mut Answer,
) -> Result<(), Refused>
    ensures { ActsIfRoom K.can_refuse
        (start_auth_session_row (K.record_of keep.old) (request_of call.now))
        (K.record_of keep.old) result answer.new (K.record_of keep.new) }
{
    answer.clear();
    let bind = call.second_handle()?;
    let asked = read_parameters(call.parameters)?;
    check_parameters(&asked)?;
    let random = call.random;
    let drawn = asked.nonce_caller.len();
    answer.parameters.append_sized(&random[..drawn]);
    answer.drawn = drawn;
    let start = Start {
        kind: asked.kind,
        hash: asked.hash,
        symmetric: asked.symmetric,
        nonce_caller: asked.nonce_caller,
        nonce_tpm: Nonce::of(&random[..drawn]),
        binding: binding_of(keep, bind),
    };
    match keep.sessions_mut().start(start) {
        Ok(handle) => {
            answer.handle = Some(handle);
            Ok(())
        }
        Err(StartFault::SessionMemory) => {
            let rc = ResponseCode::SessionMemory.anywhere();
            Err(action_refusal(ActionCheck::Fourth, rc))
        }
        Err(StartFault::Memory) => Err(memory_refusal()),
        // The size of the caller's nonce was checked above.
        Err(StartFault::Size) => unreachable!(),
    }
}
