//! The exports for a device's journal.

ghost use Rattle.std.specs.Prelude.{◌≡◌, ◌≢◌, ◌<◌, ◌==◌, drop, false, length, not};
ghost use Rattle.std.specs.Option.{MatchOption};
ghost use Rattle.std.specs.declared.option.Option.{Option};
ghost use Rattle.std.specs.declared.option.Option.TheVariants.{None, Some};
ghost use Rattle.tpm_image_text.specs.Saving.{PutsFront};
ghost use Rattle.tpm_journal.specs.Replay.{Replays};
ghost use Rattle.tpm_journal.specs.declared.following.FollowFault.{FollowFault};
ghost use Rattle.tpm_journal.specs.declared.opening.OpenFault.{OpenFault as Fault};
ghost use Rattle.tpm_journal_text.specs.Head.{head_text};
ghost use Rattle.tpm_journal_text.specs.declared.head.HeadKind.TheVariants.{Image};
ghost use Rattle.tpmsim_library.specs.Journal.{BeginsIfRoom, HasFault, IsOfJournal, Records};
ghost use Rattle.tpmsim_library.specs.Journal.{CheckpointsIfFits, checkpoint_head, command_by, image_at_power};
ghost use Rattle.tpmsim_library.specs.State.{record_of};
ghost use Rattle.tpmsim_library.specs.Told.{done_code, follow_number, no_device, no_locality};
ghost use Rattle.tpmsim_library.specs.Told.{no_memory, open_number};
ghost use Rattle.tpmsim_library.specs.declared.device.Device.{Device};

use crate::device::{Answered, Device};
use crate::holder::Holder;
use crate::told::{DONE, NO_DEVICE, NO_LOCALITY, NO_MEMORY, follow_number, open_number};
use std::alloc::Global;
use tpm_types_common::Locality;

/// Power-cycles the device, and writes the head of its new journal to the start of a buffer.
/// Returns the size of the head, or 0 if the holder is empty. If the buffer is too small, the call
/// has no effect.
#[unsafe(no_mangle)]
pub extern "C" fn tpmsim_journal_begin(
    alloc: Global,
    holder: &mut Holder,
    now_ms: u64,
    room: &mut [u8],
) -> usize
    ensures head { MatchOption holder.old.device ((result ≡ 0) × (room.new ≡ room.old))
        (λ before. PutsFront (head_text Image now_ms (image_at_power before)) room.old result room.new) }
    ensures begins { MatchOption holder.old.device (holder.new.device ≡ None) (λ before.
        (after : Device) × (holder.new.device ≡ Some after)
        × BeginsIfRoom before now_ms (length room.old) result after) }
{
    let Some(mut device) = holder.take(alloc) else {
        return 0;
    };
    let size = device.begin_journal(now_ms, room);
    holder.put(device);
    size
}

/// Restarts the device's journal with a checkpoint, and writes its head to the start of a buffer.
/// Returns the size of the head, or 0 if the holder is empty. If the buffer is too small, the call
/// has no effect. The clock in the head is the journal's time, or `now_ms` if no journal has been
/// started yet.
#[unsafe(no_mangle)]
pub extern "C" fn tpmsim_journal_checkpoint(
    alloc: Global,
    holder: &mut Holder,
    now_ms: u64,
    buffer: &mut [u8],
) -> usize
    ensures head { MatchOption holder.old.device ((result ≡ 0) × (buffer.new ≡ buffer.old))
        (λ before. PutsFront (checkpoint_head before now_ms) buffer.old result buffer.new) }
    ensures checkpoints { MatchOption holder.old.device (holder.new.device ≡ None) (λ before.
        (after : Device) × (holder.new.device ≡ Some after)
        × CheckpointsIfFits before now_ms (length buffer.old) result after) }
{
    let Some(mut device) = holder.take(alloc) else {
        return 0;
    };
    let size = device.checkpoint(now_ms, buffer);
    holder.put(device);
    size
}

/// Opens a journal: replaces the holder's device with the journal's device, and reports the size of
/// the journal's head and entries. On failure, returns the number of the first error, or NO_MEMORY,
/// and leaves the holder unchanged.
#[unsafe(no_mangle)]
pub extern "C" fn tpmsim_journal_open(
    alloc: Global,
    holder: &mut Holder,
    text: &[u8],
    taken: &mut usize,
) -> u8
    ensures opens { result ≡ done_code → (device : Device) × (holder.new.device ≡ Some device)
        × IsOfJournal text.now taken.new device }
    ensures refused { result ≢ done_code
        → (holder.new.device ≡ holder.old.device) × (taken.new ≡ taken.old) }
    ensures told { result ≢ done_code → result ≢ no_memory
        → (fault : Fault) × (result ≡ open_number fault) × HasFault text.now fault }
{
    match Device::open_journal(alloc, text, taken) {
        Some(Ok(device)) => {
            holder.put(device);
            DONE
        }
        Some(Err(fault)) => open_number(fault),
        None => NO_MEMORY,
    }
}

/// Executes further entries of the device's journal, and reports the number of bytes executed.
/// Returns NO_DEVICE, without any effect, if the holder is empty.
#[unsafe(no_mangle)]
pub extern "C" fn tpmsim_journal_follow(
    alloc: Global,
    holder: &mut Holder,
    text: &[u8],
    taken: &mut usize,
) -> u8
    ensures follows { MatchOption holder.old.device
        ((result ≡ no_device) × (holder.new.device ≡ None) × (taken.new ≡ taken.old))
        (λ before. (after : Device) × (fault : Option FollowFault)
        × (holder.new.device ≡ Some after) × (result ≡ follow_number fault)
        × Replays false before.journal (record_of before) text.now
        (record { taken = taken.new; fault = fault }) after.journal (record_of after)) }
{
    let Some(mut device) = holder.take(alloc) else {
        return NO_DEVICE;
    };
    let followed = device.follow(text);
    holder.put(device);
    *taken = followed.taken;
    follow_number(followed.fault)
}

/// Executes a command at the time `now_ms` of the host's clock. Writes its response to the start of
/// one buffer, and its entry to the start of another. If `completes` is not 0, the completing layer
/// is used. Returns NO_LOCALITY if the locality is above 4, and NO_DEVICE if the holder is empty.
/// In both cases, nothing is written.
#[unsafe(no_mangle)]
pub extern "C" fn tpmsim_journal_execute(
    alloc: Global,
    holder: &mut Holder,
    buffer: &[u8],
    locality: u8,
    now_ms: u64,
    completes: u8,
    random: &[u8; 256],
    response: &mut [u8; 4096],
    answered: &mut Answered,
    entry: &mut [u8; 9216],
    size: &mut usize,
) -> u8
    ensures records { result ≡ done_code → (before : Device) × (after : Device)
        × (holder.old.device ≡ Some before) × (holder.new.device ≡ Some after)
        × Records before
        (command_by before buffer.now locality now_ms (not (completes == 0)) random.now)
        response.new answered.new size.new entry.new after }
    ensures rest { result ≡ done_code
        → drop answered.new.size response.new ≡ drop answered.new.size response.old }
    ensures refused { result ≢ done_code → (holder.new.device ≡ holder.old.device)
        × (response.new ≡ response.old) × (answered.new ≡ answered.old)
        × (entry.new ≡ entry.old) × (size.new ≡ size.old) }
    ensures locality { result ≡ no_locality → 4 < locality }
    ensures told { result ≢ done_code → result ≢ no_locality
        → (result ≡ no_device) × (holder.old.device ≡ None) }
{
    let Some(locality) = Locality::new(locality) else {
        return NO_LOCALITY;
    };
    let Some(mut device) = holder.take(alloc) else {
        return NO_DEVICE;
    };
    let completes = completes != 0;
    *size = device.execute_recorded(
        buffer, locality, now_ms, completes, random, response, answered, entry,
    );
    holder.put(device);
    DONE
}
