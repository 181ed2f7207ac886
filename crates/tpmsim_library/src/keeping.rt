//! The exports for the keeper of a device.

ghost use Rattle.std.specs.Prelude.{◌≡◌, ◌≢◌, ◌==◌, not};
ghost use Rattle.std.specs.Option.{MatchOption};
ghost use Rattle.std.specs.declared.option.Option.TheVariants.{None, Some};
ghost use Rattle.tpm_image_text.specs.Saving.{PutsFront};
ghost use Rattle.tpm_keeping.specs.Cutting.{idle};
ghost use Rattle.tpm_keeping.specs.Holder.{newborn};
ghost use Rattle.tpm_keeping.specs.View.{ask_of};
ghost use Rattle.tpm_keeping.specs.declared.holder.Force.{Force};
ghost use Rattle.tpm_keeping.specs.declared.holder.Job.{Job};
ghost use Rattle.tpmsim_library.specs.Keeping.{Begins, GoesOn, call_of, force_of, job_of};
ghost use Rattle.tpmsim_library.specs.Keeping.{fault_text, no_request, request_of, response_of};
ghost use Rattle.tpmsim_library.specs.Keeping.{text_of};
ghost use Rattle.tpmsim_library.specs.Keeping.{told_by, view_of};
ghost use Rattle.tpmsim_library.specs.Told.{done_code, no_device, no_memory, no_word};
ghost use Rattle.tpmsim_library.specs.declared.keeper.DeviceKeeper.{DeviceKeeper};

use crate::keeper::DeviceKeeper;
use crate::keeper_holder::KeeperHolder;
use crate::request::{Request, fault_of, force_of, job_of};
use crate::shown::put_whole;
use crate::told::{DONE, NO_DEVICE, NO_MEMORY, NO_WORD};
use std::alloc::Global;

/// Creates a keeper, which replaces any keeper that the holder had.
#[unsafe(no_mangle)]
pub extern "C" fn tpmsim_keeper_new(
    alloc: Global,
    holder: &mut KeeperHolder,
    force: u8,
    limit: u64,
) -> u8
    ensures made { result ≡ done_code → (word : Force) × (new : DeviceKeeper)
        × (force_of force ≡ Some word) × (holder.new.keeper ≡ Some new)
        × (call_of new ≡ idle (newborn word limit)) }
    ensures refused { result ≢ done_code → holder.new.keeper ≡ holder.old.keeper }
    ensures word { result ≡ no_word → force_of force ≡ None }
    ensures told { result ≢ done_code → result ≢ no_word → result ≡ no_memory }
    ensures memory { result ≡ no_memory → (word : Force) × (force_of force ≡ Some word) }
{
    let Some(force) = force_of(force) else {
        return NO_WORD;
    };
    match Box::new(alloc, DeviceKeeper::new(alloc, force, limit)) {
        Ok(new) => {
            holder.put(new);
            DONE
        }
        Err(_) => NO_MEMORY,
    }
}

/// Begins a call. On failure, nothing changes.
#[unsafe(no_mangle)]
pub extern "C" fn tpmsim_keeper_begin(
    alloc: Global,
    holder: &mut KeeperHolder,
    job: u8,
    text: &[u8],
) -> u8
    ensures begins { result ≡ done_code → (word : Job) × (before : DeviceKeeper)
        × (after : DeviceKeeper)
        × (job_of job ≡ Some word) × (holder.old.keeper ≡ Some before)
        × (holder.new.keeper ≡ Some after) × Begins before.cuts word text.now before after }
    ensures refused { result ≢ done_code → holder.new.keeper ≡ holder.old.keeper }
    ensures word { result ≡ no_word → job_of job ≡ None }
    ensures told { result ≢ done_code → result ≢ no_memory → result ≢ no_word
        → (result ≡ no_device) × (holder.old.keeper ≡ None) }
    ensures memory { result ≡ no_memory → (word : Job) × (before : DeviceKeeper)
        × (job_of job ≡ Some word) × (holder.old.keeper ≡ Some before) }
{
    let Some(job) = job_of(job) else {
        return NO_WORD;
    };
    let Some(mut kept) = holder.take(alloc) else {
        return NO_DEVICE;
    };
    let begun = kept.begin(alloc, job, text);
    holder.put(kept);
    match begun {
        Ok(()) => DONE,
        Err(_) => NO_MEMORY,
    }
}

/// Sets whether later calls cut off damage in the journal (`cuts` is not 0), or refuse a damaged
/// journal (`cuts` is 0).
#[unsafe(no_mangle)]
pub extern "C" fn tpmsim_keeper_cuts(alloc: Global, holder: &mut KeeperHolder, cuts: u8) -> u8
    ensures set { MatchOption holder.old.keeper (holder.new.keeper ≡ None) (λ before.
        holder.new.keeper ≡ Some (record before { cuts = not (cuts == 0) })) }
    ensures told { MatchOption holder.old.keeper (result ≡ no_device)
        (λ before. result ≡ done_code) }
{
    let Some(mut kept) = holder.take(alloc) else {
        return NO_DEVICE;
    };
    kept.set_cuts(cuts != 0);
    holder.put(kept);
    DONE
}

/// Reports what the host must do next.
#[unsafe(no_mangle)]
pub extern "C" fn tpmsim_keeper_ask(alloc: Global, holder: &mut KeeperHolder, request: &mut Request)
    ensures asks { MatchOption holder.old.keeper (request.new ≡ no_request)
        (λ kept. request.new ≡ request_of (view_of kept)) }
    ensures kept { holder.new.keeper ≡ holder.old.keeper }
{
    let Some(kept) = holder.take(alloc) else {
        *request = Request::none();
        return;
    };
    *request = kept.request();
    holder.put(kept);
}

/// Copies the bytes that the host must write, if they fit, to the start of a buffer. Returns the
/// number of these bytes, or 0 if there is no keeper.
#[unsafe(no_mangle)]
pub extern "C" fn tpmsim_keeper_text(
    alloc: Global,
    holder: &mut KeeperHolder,
    buffer: &mut [u8],
) -> usize
    ensures written { MatchOption holder.old.keeper ((result ≡ 0) × (buffer.new ≡ buffer.old))
        (λ kept. PutsFront (text_of (view_of kept)) buffer.old result buffer.new) }
    ensures kept { holder.new.keeper ≡ holder.old.keeper }
{
    let Some(kept) = holder.take(alloc) else {
        return 0;
    };
    let size = kept.text_into(buffer);
    holder.put(kept);
    size
}

/// Writes the response of a finished call to the start of a buffer, if it fits. Returns the size of
/// the response.
#[unsafe(no_mangle)]
pub extern "C" fn tpmsim_keeper_response(
    alloc: Global,
    holder: &mut KeeperHolder,
    buffer: &mut [u8],
) -> usize
    ensures written { MatchOption holder.old.keeper ((result ≡ 0) × (buffer.new ≡ buffer.old))
        (λ kept. PutsFront (response_of (view_of kept)) buffer.old result buffer.new) }
    ensures kept { holder.new.keeper ≡ holder.old.keeper }
{
    let Some(kept) = holder.take(alloc) else {
        return 0;
    };
    let size = kept.response_into(buffer);
    holder.put(kept);
    size
}

/// Continues the call with the host's report.
#[unsafe(no_mangle)]
pub extern "C" fn tpmsim_keeper_next(
    alloc: Global,
    holder: &mut KeeperHolder,
    got: u8,
    file: u64,
    file_size: u64,
    bytes: &[u8],
)
    ensures { MatchOption holder.old.keeper (holder.new.keeper ≡ None) (λ before.
        (after : DeviceKeeper) × (holder.new.keeper ≡ Some after)
        × GoesOn (call_of before)
        (told_by got (ask_of (view_of before)) file file_size bytes.now) (call_of after)
        × (after.cuts ≡ before.cuts)) }
{
    let Some(mut kept) = holder.take(alloc) else {
        return;
    };
    kept.next(got, file, file_size, bytes);
    holder.put(kept);
}

/// Writes the message for a fault to the start of a buffer, if it fits. Returns its size, or 0 if
/// no fault has this number.
#[unsafe(no_mangle)]
pub extern "C" fn tpmsim_fault_text(fault: u8, buffer: &mut [u8]) -> usize
    ensures { PutsFront (fault_text fault) buffer.old result buffer.new }
{
    let Some(fault) = fault_of(fault) else {
        return put_whole(&[], buffer);
    };
    put_whole(fault.sentence().as_bytes(), buffer)
}

/// Frees the holder's keeper, if any, with its device, and leaves the holder empty.
#[unsafe(no_mangle)]
pub extern "C" fn tpmsim_keeper_free(alloc: Global, holder: &mut KeeperHolder)
    ensures { holder.new.keeper ≡ None }
{
    let _before = holder.take(alloc);
}
