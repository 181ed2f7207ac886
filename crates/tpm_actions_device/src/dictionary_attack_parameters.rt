//! TPM2_DictionaryAttackParameters: sets the number of failed tries before lockout, and the two
//! recovery times (specified in `specs/DictionaryAttackParameters`).

ghost use Rattle.std.specs.Prelude.{◌≡◌};
ghost use Rattle.tpm_actions_device.specs.DictionaryAttackParameters.{dictionary_attack_parameters_row, lockout_parameters};
ghost use Rattle.tpm_record.specs.rows.Request.{request_of};
ghost use Rattle.tpm_record.specs.rows.Rows.{Acts};

use tpm_bytes::Cursor;
use tpm_record::Keep;
use tpm_record::rows::answer::Answer;
use tpm_record::rows::call::Call;
use tpm_record::rows::reading::{end, number};
use tpm_types_common::Refused;

/// The parameters of TPM2_DictionaryAttackParameters; the times are in seconds.
#[derive(Clone, Copy)]
pub struct AttackParameters {
    max_tries: u32,
    recovery_time: u32,
    lockout_recovery: u32,
}

#[tactic(auto, unfolding(crate::specs::DictionaryAttackParameters::lockout_parameters))]
fn read_parameters(parameters: &[u8]) -> Result<AttackParameters, Refused>
    ensures { result ≡ lockout_parameters parameters.now }
{
    let mut text = Cursor::new(parameters);
    let max_tries = number(1, text.u32())?;
    let recovery_time = number(2, text.u32())?;
    let lockout_recovery = number(3, text.u32())?;
    end(&text)?;
    Ok(AttackParameters {
        max_tries,
        recovery_time,
        lockout_recovery,
    })
}

/// TPM2_DictionaryAttackParameters: sets how many failed tries cause lockout, how long it takes
/// until a failed try is forgiven, and for how long a failed attempt disables lockoutAuth.
#[tactic(auto, unfolding(crate::specs::DictionaryAttackParameters::dictionary_attack_parameters_row))]
pub fn dictionary_attack_parameters<K: Keep>(
    keep: &mut K,
    call: &Call,
    answer: &mut Answer,
) -> Result<(), Refused>
    ensures { Acts (dictionary_attack_parameters_row (K.record_of keep.old) (request_of call.now))
        (K.record_of keep.old) result answer.new (K.record_of keep.new) }
{
    answer.clear();
    let asked = read_parameters(call.parameters)?;
    let lockout = &mut keep.fixed_mut().lockout;
    lockout.set_parameters(asked.max_tries, asked.recovery_time, asked.lockout_recovery);
    Ok(())
}
