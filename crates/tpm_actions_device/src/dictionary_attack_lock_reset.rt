//! TPM2_DictionaryAttackLockReset: resets the number of failed tries (specified in
//! `specs/DictionaryAttackLockReset`).

ghost use Rattle.tpm_actions_device.specs.DictionaryAttackLockReset.{dictionary_attack_lock_reset_row};
ghost use Rattle.tpm_record.specs.rows.Request.{request_of};
ghost use Rattle.tpm_record.specs.rows.Rows.{Acts};

use tpm_bytes::Cursor;
use tpm_record::Keep;
use tpm_record::rows::answer::Answer;
use tpm_record::rows::call::Call;
use tpm_record::rows::reading::end;
use tpm_types_common::Refused;

/// TPM2_DictionaryAttackLockReset: resets the number of failed tries.
#[tactic(auto, unfolding(crate::specs::DictionaryAttackLockReset::dictionary_attack_lock_reset_row))]
pub fn dictionary_attack_lock_reset<K: Keep>(
    keep: &mut K,
    call: &Call,
    answer: &mut Answer,
) -> Result<(), Refused>
    ensures { Acts (dictionary_attack_lock_reset_row (K.record_of keep.old) (request_of call.now))
        (K.record_of keep.old) result answer.new (K.record_of keep.new) }
{
    answer.clear();
    end(&Cursor::new(call.parameters))?;
    keep.fixed_mut().lockout.reset();
    Ok(())
}
