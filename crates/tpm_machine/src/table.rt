//! Maps each command code to the function that implements the command's row. The function runs
//! after the parameters are decrypted. A refusal leaves the record unchanged.

ghost use Rattle.tpm_types_common.specs.Limits.{buffer_limit};
ghost use Rattle.std.specs.Prelude.{◌≡◌, ◌≤◌, ◌&&◌, Ok, length, map};
ghost use Rattle.std.specs.List.{zip};
ghost use Rattle.tpm_types_command.specs.AuthEntry.{entry_of};
ghost use Rattle.tpm_machine.specs.Authorization.{command_in, grants_in};
ghost use Rattle.tpm_commands.specs.CommandCode.{shape_of};
ghost use Rattle.tpm_types_common.specs.Locality.{locality_number};
ghost use Rattle.tpm_auth.specs.Grant.{authorize};
ghost use Rattle.tpm_record.specs.rows.Request.{request_of};
ghost use Rattle.tpm_record.specs.rows.Rows.{ActsIfRoom};
ghost use Rattle.tpm_step.specs.step.Step.{Accepts, acceptance};
ghost use Rattle.tpm_step.specs.step.Table.{row_of};
ghost use Rattle.tpm_step.specs.step.Parameters.{plain_parameters};

use crate::authorization::Authorization;
use crate::parameters::pass_parameters;
use arrayvec::ArrayVec;
use tpm_actions_capability::get_capability::get_capability;
use tpm_actions_device::clear::clear;
use tpm_actions_device::clear_control::clear_control;
use tpm_actions_device::clock_rate_adjust::clock_rate_adjust;
use tpm_actions_device::clock_set::clock_set;
use tpm_actions_device::dictionary_attack_lock_reset::dictionary_attack_lock_reset;
use tpm_actions_device::dictionary_attack_parameters::dictionary_attack_parameters;
use tpm_actions_device::flush_context::flush_context;
use tpm_actions_device::get_random::get_random;
use tpm_actions_device::get_test_result::get_test_result;
use tpm_actions_device::hash::hash;
use tpm_actions_device::hierarchy_change_auth::hierarchy_change_auth;
use tpm_actions_device::incremental_self_test::incremental_self_test;
use tpm_actions_device::pcr_event::pcr_event;
use tpm_actions_device::pcr_extend::pcr_extend;
use tpm_actions_device::pcr_read::pcr_read;
use tpm_actions_device::pcr_reset::pcr_reset;
use tpm_actions_device::read_clock::read_clock;
use tpm_actions_device::self_test::self_test;
use tpm_actions_device::shutdown::shutdown;
use tpm_actions_device::start_auth_session::start_auth_session;
use tpm_actions_device::startup::startup;
use tpm_actions_device::stir_random::stir_random;
use tpm_actions_device::test_parms::test_parms;
use tpm_actions_object::create::create;
use tpm_actions_object::create_primary::create_primary;
use tpm_actions_object::evict_control::evict_control;
use tpm_actions_object::hmac::hmac;
use tpm_actions_object::load::load;
use tpm_actions_object::read_public::read_public;
use tpm_actions_object::unseal::unseal;
use tpm_actions_policy::policy_auth_value::policy_auth_value;
use tpm_actions_policy::policy_command_code::policy_command_code;
use tpm_actions_policy::policy_cp_hash::policy_cp_hash;
use tpm_actions_policy::policy_get_digest::policy_get_digest;
use tpm_actions_policy::policy_locality::policy_locality;
use tpm_actions_policy::policy_nv::policy_nv;
use tpm_actions_policy::policy_nv_written::policy_nv_written;
use tpm_actions_policy::policy_or::policy_or;
use tpm_actions_policy::policy_password::policy_password;
use tpm_actions_policy::policy_pcr::policy_pcr;
use tpm_actions_policy::policy_restart::policy_restart;
use tpm_actions_policy::policy_secret::policy_secret;
use tpm_auth::{Grant, any_decrypts};
use tpm_bytes::copied;
use tpm_commands::CommandCode;
use tpm_nvactions::nv_change_auth::nv_change_auth;
use tpm_nvactions::nv_define_space::nv_define_space;
use tpm_nvactions::nv_extend::nv_extend;
use tpm_nvactions::nv_increment::nv_increment;
use tpm_nvactions::nv_read::nv_read;
use tpm_nvactions::nv_read_lock::nv_read_lock;
use tpm_nvactions::nv_read_public::nv_read_public;
use tpm_nvactions::nv_set_bits::nv_set_bits;
use tpm_nvactions::nv_undefine_space::nv_undefine_space;
use tpm_nvactions::nv_write::nv_write;
use tpm_nvactions::nv_write_lock::nv_write_lock;
use tpm_record::Keep;
use tpm_record::rows::answer::Answer;
use tpm_record::rows::call::Call;
use tpm_step::Direction;
use tpm_types_command::AuthEntry;
use tpm_types_common::{BUFFER_LIMIT, Locality, Refused};

/// Executes the row of a command. Only a command that may allocate can return MEMORY.
#[inline(always)]
#[tactic(auto, unfolding(tpm_step::specs::step::Table::row_of, tpm_commands::specs::CommandCode::shape_of))]
fn act<K: Keep>(
    keep: &mut K,
    code: CommandCode,
    call: &Call,
    answer: &mut Answer,
) -> Result<(), Refused>
    ensures { ActsIfRoom ((shape_of code).grows && K.can_refuse)
        (row_of (K.record_of keep.old) code (request_of call.now))
        (K.record_of keep.old) result answer.new (K.record_of keep.new) }
{
    match code {
        CommandCode::EvictControl => evict_control(keep, call, answer),
        CommandCode::NvUndefineSpace => nv_undefine_space(keep, call, answer),
        CommandCode::Clear => clear(keep, call, answer),
        CommandCode::ClearControl => clear_control(keep, call, answer),
        CommandCode::ClockSet => clock_set(keep, call, answer),
        CommandCode::ClockRateAdjust => clock_rate_adjust(keep, call, answer),
        CommandCode::HierarchyChangeAuth => hierarchy_change_auth(keep, call, answer),
        CommandCode::NvDefineSpace => nv_define_space(keep, call, answer),
        CommandCode::CreatePrimary => create_primary(keep, call, answer),
        CommandCode::NvIncrement => nv_increment(keep, call, answer),
        CommandCode::NvSetBits => nv_set_bits(keep, call, answer),
        CommandCode::NvExtend => nv_extend(keep, call, answer),
        CommandCode::NvWrite => nv_write(keep, call, answer),
        CommandCode::NvWriteLock => nv_write_lock(keep, call, answer),
        CommandCode::DictionaryAttackLockReset => dictionary_attack_lock_reset(keep, call, answer),
        CommandCode::DictionaryAttackParameters => dictionary_attack_parameters(keep, call, answer),
        CommandCode::NvChangeAuth => nv_change_auth(keep, call, answer),
        CommandCode::PcrEvent => pcr_event(keep, call, answer),
        CommandCode::PcrReset => pcr_reset(keep, call, answer),
        CommandCode::IncrementalSelfTest => incremental_self_test(keep, call, answer),
        CommandCode::SelfTest => self_test(keep, call, answer),
        CommandCode::Startup => startup(keep, call, answer),
        CommandCode::Shutdown => shutdown(keep, call, answer),
        CommandCode::StirRandom => stir_random(keep, call, answer),
        CommandCode::PolicyNv => policy_nv(keep, call, answer),
        CommandCode::NvRead => nv_read(keep, call, answer),
        CommandCode::NvReadLock => nv_read_lock(keep, call, answer),
        CommandCode::PolicySecret => policy_secret(keep, call, answer),
        CommandCode::Create => create(keep, call, answer),
        CommandCode::Hmac => hmac(keep, call, answer),
        CommandCode::Load => load(keep, call, answer),
        CommandCode::Unseal => unseal(keep, call, answer),
        CommandCode::FlushContext => flush_context(keep, call, answer),
        CommandCode::NvReadPublic => nv_read_public(keep, call, answer),
        CommandCode::PolicyAuthValue => policy_auth_value(keep, call, answer),
        CommandCode::PolicyCommandCode => policy_command_code(keep, call, answer),
        CommandCode::PolicyCpHash => policy_cp_hash(keep, call, answer),
        CommandCode::PolicyNvWritten => policy_nv_written(keep, call, answer),
        CommandCode::PolicyLocality => policy_locality(keep, call, answer),
        CommandCode::PolicyOr => policy_or(keep, call, answer),
        CommandCode::ReadPublic => read_public(keep, call, answer),
        CommandCode::StartAuthSession => start_auth_session(keep, call, answer),
        CommandCode::GetCapability => get_capability(keep, call, answer),
        CommandCode::GetRandom => get_random(keep, call, answer),
        CommandCode::GetTestResult => get_test_result(keep, call, answer),
        CommandCode::Hash => hash(keep, call, answer),
        CommandCode::PcrRead => pcr_read(keep, call, answer),
        CommandCode::PolicyPcr => policy_pcr(keep, call, answer),
        CommandCode::PolicyRestart => policy_restart(keep, call, answer),
        CommandCode::ReadClock => read_clock(keep, call, answer),
        CommandCode::PcrExtend => pcr_extend(keep, call, answer),
        CommandCode::PolicyGetDigest => policy_get_digest(keep, call, answer),
        CommandCode::TestParms => test_parms(keep, call, answer),
        CommandCode::PolicyPassword => policy_password(keep, call, answer),
    }
}

/// Returns the parameters of a command, and decrypts the first parameter if a session asks for
/// decryption.
fn plain_parameters<K: Keep>(
    keep: &K,
    entries: &[AuthEntry],
    grants: &[Option<Grant>],
    parameters: &[u8],
) -> ArrayVec<u8, BUFFER_LIMIT>
    requires { length parameters.now ≤ buffer_limit }
    ensures { result.items ≡ plain_parameters (K.record_of keep.now)
        (zip (map entry_of entries.now) grants.now) parameters.now }
{
    let mut text = copied(parameters);
    pass_parameters(
        Direction::Decrypt,
        keep,
        entries,
        grants,
        text.as_mut_slice(),
    );
    text
}

/// Executes the row of a command whose first parameter is encrypted.
#[inline(never)]
fn act_decrypted<K: Keep>(
    keep: &mut K,
    code: CommandCode,
    call: &Call,
    entries: &[AuthEntry],
    grants: &[Option<Grant>],
    answer: &mut Answer,
) -> Result<(), Refused>
    requires size { length call.now.parameters.now ≤ buffer_limit }
    ensures { ActsIfRoom ((shape_of code).grows && K.can_refuse)
        (row_of (K.record_of keep.old) code (record (request_of call.now) {
          parameters = plain_parameters (K.record_of keep.old)
              (zip (map entry_of entries.now) grants.now) call.now.parameters.now;
        }))
        (K.record_of keep.old) result answer.new (K.record_of keep.new) }
{
    let plain = plain_parameters(keep, entries, grants, call.parameters);
    let call = Call {
        handles: call.handles,
        locality: call.locality,
        parameters: plain.as_slice(),
        random: call.random,
    };
    act(keep, code, &call, answer)
}

/// Executes the row of an authorized command. A refusal leaves the record unchanged.
#[tactic(auto, using(crate::proofs::DecodingLaws::plain_as_sent), unfolding(tpm_step::specs::step::Step::acceptance))]
pub fn accept<K: Keep>(
    keep: &mut K,
    authorization: &Authorization,
    locality: Locality,
    random: &[u8; 256],
    answer: &mut Answer,
) -> Result<(), Refused>
    requires size { length authorization.now.command.parameters.now ≤ buffer_limit }
    requires granted { authorize (K.record_of keep.old) (command_in authorization.now)
        (locality_number locality) ≡ Ok (grants_in authorization.now) }
    ensures { Accepts K.can_refuse (acceptance (K.record_of keep.old) (command_in authorization.now)
        (locality_number locality) random.now) (command_in authorization.now)
        (grants_in authorization.now)
        (K.record_of keep.old) result answer.new (K.record_of keep.new) }
{
    let command = &authorization.command;
    let entries = command.entries;
    let call = Call {
        handles: command.handles.as_slice(),
        locality,
        parameters: command.parameters,
        random,
    };
    if any_decrypts(entries) {
        act_decrypted(
            keep,
            command.code,
            &call,
            entries,
            authorization.grants.grants.as_slice(),
            answer,
        )
    } else {
        act(keep, command.code, &call, answer)
    }
}
