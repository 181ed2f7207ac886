//! TPM2_FlushContext: ends a session or removes a transient object (specified in
//! `specs/FlushContext`).

ghost use Rattle.std.specs.Prelude.{◌≡◌};
ghost use Rattle.tpm_actions_device.specs.FlushContext.{can_be_flushed, flush_context_row, flushed_from, is_loaded};
ghost use Rattle.tpm_types_common.specs.Handle.{is_session};
ghost use Rattle.tpm_record.specs.rows.Request.{request_of};
ghost use Rattle.tpm_record.specs.rows.Rows.{Acts};

use tpm_bytes::Cursor;
use tpm_record::Keep;
use tpm_record::rows::answer::Answer;
use tpm_record::rows::call::Call;
use tpm_record::rows::reading::{end, number};
use tpm_record::rows::refusals::parameter_refusal;
use tpm_types_common::{ActionCheck, Handle, Refused, ResponseCode};

fn can_be_flushed(handle: Handle) -> bool
    ensures { result ≡ can_be_flushed handle }
{
    handle.is_session() || handle.is_transient()
}

/// Ends the session, or removes the transient object, with this handle.
fn flush<K: Keep>(keep: &mut K, handle: Handle)
    ensures { K.record_of keep.new
        ≡ flushed_from (K.record_of keep.old) handle (is_session handle) }
{
    if handle.is_session() {
        keep.sessions_mut().flush(handle);
    } else {
        keep.objects_mut().remove(handle);
    }
}

fn is_loaded<K: Keep>(keep: &K, handle: Handle) -> bool
    ensures { result ≡ is_loaded (K.record_of keep.now) handle }
{
    keep.sessions().get(handle).is_some() || keep.objects().get(handle).is_some()
}

/// TPM2_FlushContext: ends a session, or removes a transient object.
#[tactic(auto, unfolding(crate::specs::FlushContext::flush_context_row))]
pub fn flush_context<K: Keep>(keep: &mut K, call: &Call, answer: &mut Answer) -> Result<(), Refused>
    ensures { Acts (flush_context_row (K.record_of keep.old) (request_of call.now))
        (K.record_of keep.old) result answer.new (K.record_of keep.new) }
{
    answer.clear();
    let mut parameters = Cursor::new(call.parameters);
    let number = number(1, parameters.u32())?;
    end(&parameters)?;
    let handle = Handle { number };
    if !can_be_flushed(handle) {
        return Err(parameter_refusal(ActionCheck::First, 1, ResponseCode::Value));
    }
    if !is_loaded(keep, handle) {
        return Err(parameter_refusal(ActionCheck::Second, 1, ResponseCode::Handle));
    }
    flush(keep, handle);
    Ok(())
}
