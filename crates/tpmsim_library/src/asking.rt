//! The exports with which C begins a keeper's calls and reads its answers. A host encodes nothing
//! itself: `tpm_kept_device::writing` encodes commands and seeds.

ghost use Rattle.std.specs.Prelude.{◌≡◌, ◌≢◌, ◌<◌, ◌==◌, ◌∷◌, Ok, Err, drop, not, true};
ghost use Rattle.std.specs.Option.{MatchOption};
ghost use Rattle.std.specs.declared.option.Option.TheVariants.{None, Some};
ghost use Rattle.tpm_image_text.specs.Saving.{PutsFront};
ghost use Rattle.tpm_image_text.specs.declared.fault.Malformed.{Malformed};
ghost use Rattle.tpm_keeping.specs.declared.holder.Job.TheVariants.{Begin, Execute};
ghost use Rattle.tpm_kept_device.specs.Answer.{PlainAnswer, answer_of};
ghost use Rattle.tpm_kept_device.specs.Texts.{cycle_text, seed_text, text_at};
ghost use Rattle.tpmsim_library.specs.Keeping.{Begins, IsAnswer, content_at, executed_by, shown_by};
ghost use Rattle.tpmsim_library.specs.Told.{done_code, no_answer, no_device, no_locality, no_memory};
ghost use Rattle.tpmsim_library.specs.declared.keeper.DeviceKeeper.{DeviceKeeper};

use crate::device::Answered;
use crate::keeper_holder::KeeperHolder;
use crate::shown::put_answer;
use crate::told::{DONE, NO_ANSWER, NO_DEVICE, NO_LOCALITY, NO_MEMORY};
use std::alloc::Global;
use tpm_kept_device::answer::read_answer;
use tpm_types_common::Locality;

/// Begins the execution of a TPM command. `now_ms` is the time of the host's clock. If `completes`
/// is not 0, the completing layer is used. On failure, nothing changes.
#[unsafe(no_mangle)]
pub extern "C" fn tpmsim_keeper_execute(
    alloc: Global,
    holder: &mut KeeperHolder,
    buffer: &[u8],
    locality: u8,
    now_ms: u64,
    completes: u8,
    random: &[u8; 256],
) -> u8
    ensures begins { result ≡ done_code → (before : DeviceKeeper) × (after : DeviceKeeper)
        × (holder.old.keeper ≡ Some before) × (holder.new.keeper ≡ Some after)
        × Begins before.cuts Execute
        (text_at now_ms locality (not (completes == 0)) random.now buffer.now) before after }
    ensures refused { result ≢ done_code → holder.new.keeper ≡ holder.old.keeper }
    ensures locality { result ≡ no_locality → 4 < locality }
    ensures memory { result ≡ no_memory → (before : DeviceKeeper)
        × (holder.old.keeper ≡ Some before) }
    ensures told { result ≢ done_code → result ≢ no_locality → result ≢ no_memory
        → (result ≡ no_device) × (holder.old.keeper ≡ None) }
{
    let Some(locality) = Locality::new(locality) else {
        return NO_LOCALITY;
    };
    let Some(mut kept) = holder.take(alloc) else {
        return NO_DEVICE;
    };
    let begun = kept.execute(alloc, now_ms, locality, completes != 0, random, buffer);
    holder.put(kept);
    match begun {
        Ok(()) => DONE,
        Err(_) => NO_MEMORY,
    }
}

/// Begins a power cycle. `now_ms` is the time of the host's clock, and `start` has no effect. On
/// failure nothing changes.
#[unsafe(no_mangle)]
pub extern "C" fn tpmsim_keeper_power(
    alloc: Global,
    holder: &mut KeeperHolder,
    now_ms: u64,
    start: u64,
) -> u8
    ensures begins { result ≡ done_code → (before : DeviceKeeper) × (after : DeviceKeeper)
        × (holder.old.keeper ≡ Some before) × (holder.new.keeper ≡ Some after)
        × Begins before.cuts Execute (cycle_text now_ms start) before after }
    ensures refused { result ≢ done_code → holder.new.keeper ≡ holder.old.keeper }
    ensures memory { result ≡ no_memory → (before : DeviceKeeper)
        × (holder.old.keeper ≡ Some before) }
    ensures told { result ≢ done_code → result ≢ no_memory
        → (result ≡ no_device) × (holder.old.keeper ≡ None) }
{
    let Some(mut kept) = holder.take(alloc) else {
        return NO_DEVICE;
    };
    let begun = kept.cycle_power(alloc, now_ms, start);
    holder.put(kept);
    match begun {
        Ok(()) => DONE,
        Err(_) => NO_MEMORY,
    }
}

/// Begins a call that opens the device. If there is no device, the call creates one from the seed.
/// On failure, nothing changes.
#[unsafe(no_mangle)]
pub extern "C" fn tpmsim_keeper_seed(
    alloc: Global,
    holder: &mut KeeperHolder,
    kind: u8,
    now_ms: u64,
    start: u64,
    content: &[u8],
) -> u8
    ensures begins { result ≡ done_code → (before : DeviceKeeper) × (after : DeviceKeeper)
        × (holder.old.keeper ≡ Some before) × (holder.new.keeper ≡ Some after)
        × Begins before.cuts Begin (seed_text kind now_ms start content.now) before after }
    ensures refused { result ≢ done_code → holder.new.keeper ≡ holder.old.keeper }
    ensures memory { result ≡ no_memory → (before : DeviceKeeper)
        × (holder.old.keeper ≡ Some before) }
    ensures told { result ≢ done_code → result ≢ no_memory
        → (result ≡ no_device) × (holder.old.keeper ≡ None) }
{
    let Some(mut kept) = holder.take(alloc) else {
        return NO_DEVICE;
    };
    let begun = kept.begin_device(alloc, kind, now_ms, start, content);
    holder.put(kept);
    match begun {
        Ok(()) => DONE,
        Err(_) => NO_MEMORY,
    }
}

/// Begins to restore a state text. Because the state replaces the device, damage in the old journal
/// is cut off. On failure, nothing changes.
#[unsafe(no_mangle)]
pub extern "C" fn tpmsim_keeper_restore(
    alloc: Global,
    holder: &mut KeeperHolder,
    now_ms: u64,
    start: u64,
    state: &[u8],
) -> u8
    ensures begins { result ≡ done_code → (before : DeviceKeeper) × (after : DeviceKeeper)
        × (holder.old.keeper ≡ Some before) × (holder.new.keeper ≡ Some after)
        × Begins true Execute (2 ∷ seed_text 2 now_ms start state.now) before after }
    ensures refused { result ≢ done_code → holder.new.keeper ≡ holder.old.keeper }
    ensures memory { result ≡ no_memory → (before : DeviceKeeper)
        × (holder.old.keeper ≡ Some before) }
    ensures told { result ≢ done_code → result ≢ no_memory
        → (result ≡ no_device) × (holder.old.keeper ≡ None) }
{
    let Some(mut kept) = holder.take(alloc) else {
        return NO_DEVICE;
    };
    let begun = kept.restore(alloc, now_ms, start, state);
    holder.put(kept);
    match begun {
        Ok(()) => DONE,
        Err(_) => NO_MEMORY,
    }
}

/// Writes the response to a TPM command to the start of a buffer. Returns NO_ANSWER, and writes
/// nothing, if the latest call executed no command or is not done.
#[unsafe(no_mangle)]
pub extern "C" fn tpmsim_keeper_answer(
    alloc: Global,
    holder: &mut KeeperHolder,
    response: &mut [u8; 4096],
    answered: &mut Answered,
) -> u8
    ensures answers { result ≡ done_code → (kept : DeviceKeeper) × (a : PlainAnswer)
        × (holder.old.keeper ≡ Some kept) × (answer_of (executed_by kept) ≡ Ok a)
        × IsAnswer a response.new answered.new }
    ensures rest { result ≡ done_code
        → drop answered.new.size response.new ≡ drop answered.new.size response.old }
    ensures refused { result ≢ done_code
        → (response.new ≡ response.old) × (answered.new ≡ answered.old) }
    ensures none { result ≡ no_answer → (kept : DeviceKeeper) × (why : Malformed)
        × (holder.old.keeper ≡ Some kept) × (answer_of (executed_by kept) ≡ Err why) }
    ensures told { result ≢ done_code → result ≢ no_answer
        → (result ≡ no_device) × (holder.old.keeper ≡ None) }
    ensures kept { holder.new.keeper ≡ holder.old.keeper }
{
    let Some(kept) = holder.take(alloc) else {
        return NO_DEVICE;
    };
    match read_answer(kept.executed()) {
        Ok(answer) => {
            *answered = put_answer(answer, response);
            holder.put(kept);
            DONE
        }
        Err(_) => {
            holder.put(kept);
            NO_ANSWER
        }
    }
}

/// Writes the state text from the latest call to the start of a buffer, if it fits. Returns its
/// size. Returns 0 if there is no keeper, or if that call is not done or returned no state text.
#[unsafe(no_mangle)]
pub extern "C" fn tpmsim_keeper_state(
    alloc: Global,
    holder: &mut KeeperHolder,
    buffer: &mut [u8],
) -> usize
    ensures written { MatchOption holder.old.keeper ((result ≡ 0) × (buffer.new ≡ buffer.old))
        (λ kept. PutsFront (content_at (shown_by kept)) buffer.old result
        buffer.new) }
    ensures kept { holder.new.keeper ≡ holder.old.keeper }
{
    let Some(kept) = holder.take(alloc) else {
        return 0;
    };
    let size = kept.state_into(buffer);
    holder.put(kept);
    size
}
