//! The state that a power cycle clears, in a state text.

ghost use Rattle.std.specs.Prelude.{◌≡◌, ◌<◌, ◌≤◌, ◌+◌, ◌^◌, ◌++◌, IfOk, length};
ghost use Rattle.tpm_bytes.specs.Reading.{Reads};
ghost use Rattle.tpm_image_text.specs.Filling.{Fills};
ghost use Rattle.tpm_image_text.specs.NonVolatile.{kept_of};
ghost use Rattle.tpm_image_text.specs.Sizes.{text_size};
ghost use Rattle.tpm_lockout.specs.Lockout.{milliseconds};
ghost use Rattle.tpm_record.specs.Record.{no_objects, no_sessions};
ghost use Rattle.tpm_state_text.specs.Body.{lockout_time_in, resumed_in, volatile_text};
ghost use Rattle.tpm_state_text.specs.Sizes.{volatile_size};

use crate::banks::{read_banks, write_banks};
use crate::objects::{read_transients, write_transients};
use crate::sessions::{read_sessions, write_sessions};
use tpm_bytes::Cursor;
use tpm_image_text::{FillFault, Malformed, Text, read_bool, read_u64, write_bool, write_u64};
use tpm_lockout::Lockout;
use tpm_record::Keep;

/// The exclusive upper bound of the lockout timers: 2^32 seconds, in milliseconds.
const LOCKOUT_TIME_END: u64 = 4_294_967_296_000;

#[tactic(auto, unfolding(crate::specs::Body::lockout_time_in))]
fn read_lockout_time(text: &mut Cursor) -> Result<u64, Malformed>
    ensures exact { Reads (λ time. time) (lockout_time_in text.old) text.old result text.new }
    ensures short { IfOk result (λ time. time < milliseconds (2 ^ 32)) }
{
    let mut ahead = Cursor::new(text.rest());
    let time = read_u64(&mut ahead)?;
    if time >= LOCKOUT_TIME_END {
        return Err(Malformed);
    }
    *text = ahead;
    Ok(time)
}

/// Reads the state that a power cycle clears, into a device that has no session and no transient
/// object.
#[tactic(auto, unfolding(crate::specs::Body::resumed_in))]
pub fn read_volatile<K: Keep>(keep: &mut K, text: &mut Cursor) -> Result<(), FillFault>
    requires sessions { (K.record_of keep.old).sessions ≡ no_sessions }
    requires objects { (K.record_of keep.old).objects ≡ no_objects }
    ensures { Fills K.can_refuse (resumed_in (kept_of (K.record_of keep.old)) text.old)
        (K.record_of keep.new) result text.new }
{
    let Ok(started) = read_bool(text) else {
        return Err(FillFault::Malformed);
    };
    let Ok(banks) = read_banks(text) else {
        return Err(FillFault::Malformed);
    };
    let Ok(time) = read_u64(text) else {
        return Err(FillFault::Malformed);
    };
    let Ok(forgiving_time) = read_lockout_time(text) else {
        return Err(FillFault::Malformed);
    };
    let Ok(closed_time) = read_lockout_time(text) else {
        return Err(FillFault::Malformed);
    };
    let fixed = keep.fixed_mut();
    fixed.started = started;
    fixed.banks = banks;
    fixed.time = time;
    fixed.lockout = Lockout::resume(fixed.lockout.fields(), forgiving_time, closed_time);
    read_sessions(keep.sessions_mut(), text)?;
    read_transients(keep.objects_mut(), text)?;
    Ok(())
}

/// Writes the state that a power cycle clears.
#[tactic(auto, unfolding(crate::specs::Body::volatile_text))]
pub fn write_volatile<K: Keep>(keep: &K, text: &mut Text)
    requires { length text.old + volatile_size ≤ text_size }
    ensures written { text.new ≡ text.old ++ volatile_text (K.record_of keep.now) }
    ensures small { length text.new ≤ length text.old + volatile_size }
{
    let fixed = keep.fixed();
    write_bool(fixed.started, text);
    write_banks(&fixed.banks, text);
    write_u64(fixed.time, text);
    write_u64(fixed.lockout.forgiving_time(), text);
    write_u64(fixed.lockout.closed_time(), text);
    write_sessions(keep.sessions(), text);
    write_transients(keep.objects(), text);
}
