//! TPM2_Clear: removes the objects of the owner and the endorsement hierarchy, and the owner's NV
//! indices (specified in `specs/Clear`).

ghost use Rattle.std.specs.Prelude.{◌≡◌};
ghost use Rattle.tpm_record.specs.rows.Request.{request_of};
ghost use Rattle.tpm_record.specs.rows.Rows.{Acts};
ghost use Rattle.tpm_actions_device.specs.Clear.{clear_row, cleared_fixed};

use tpm_bytes::Cursor;
use tpm_nv::Indices;
use tpm_record::rows::answer::Answer;
use tpm_record::rows::call::Call;
use tpm_record::rows::reading::end;
use tpm_record::rows::refusals::action_refusal;
use tpm_record::{Fixed, Keep, PersistentObjects};
use tpm_types_common::{ActionCheck, Refused, ResponseCode};

/// The number of random bytes that TPM2_Clear draws: for the owner's seed and proof, and for the
/// endorsement hierarchy's proof.
const CLEAR_DRAWS: usize = 3 * 32;

/// Clears the fixed part of the state, except for the PCRs: the caller has already incremented the
/// PCR update counter.
fn clear_fixed(fixed: &mut Fixed, random: &[u8; 256])
    ensures { fixed.new ≡ cleared_fixed fixed.old.banks random.now fixed.old }
{
    fixed.hierarchies.clear(random);
    fixed.lockout.reset();
    fixed.lockout.lockout_open();
    fixed.clock = 0;
    fixed.reset_count = 0;
    fixed.restart_count = 0;
}

/// TPM2_Clear: removes the objects of the owner and the endorsement hierarchy, and the owner's NV
/// indices. Returns DISABLED if TPM2_ClearControl disabled it, and FAILURE if the PCR update
/// counter is at its maximum.
#[tactic(auto, unfolding(crate::specs::Clear::clear_row))]
pub fn clear<K: Keep>(keep: &mut K, call: &Call, answer: &mut Answer) -> Result<(), Refused>
    ensures { Acts (clear_row (K.record_of keep.old) (request_of call.now))
        (K.record_of keep.old) result answer.new (K.record_of keep.new) }
{
    answer.clear();
    end(&Cursor::new(call.parameters))?;
    if keep.fixed().disable_clear {
        return Err(action_refusal(ActionCheck::First, ResponseCode::Disabled.anywhere()));
    }
    let Ok(()) = keep.fixed_mut().banks.count_clear() else {
        return Err(action_refusal(ActionCheck::Second, ResponseCode::Failure.anywhere()));
    };
    clear_fixed(keep.fixed_mut(), call.random);
    keep.objects_mut().clear_hierarchies();
    keep.persistent_mut().clear_hierarchies();
    keep.nv_mut().clear();
    answer.drawn = CLEAR_DRAWS;
    Ok(())
}
