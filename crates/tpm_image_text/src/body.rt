//! The body of an image: the state that a device keeps without power.

ghost use Rattle.tpm_image_text.specs.Sizes.{body_size, state_size, text_size};
ghost use Rattle.std.specs.Prelude.{◌≡◌, ◌≤◌, ◌+◌, ◌++◌, [], length, replicate};
ghost use Rattle.tpm_image_text.specs.Body.{body_of, image_body_text, kept_in, state_in, state_text};
ghost use Rattle.tpm_image_text.specs.Filling.{PowersOn, PowersOnFrom, Restores};
ghost use Rattle.tpm_image_text.specs.KeptText.{with_clock};
ghost use Rattle.tpm_image_text.specs.NonVolatile.{kept_of};
ghost use Rattle.tpm_image_text.specs.Version.{version_of};
ghost use Rattle.tpm_record.specs.Record.{manufactured};

use crate::fault::{FillFault, Malformed};
use crate::fields::{Text, read_bool, read_u32, read_u64, write_bool, write_u32, write_u64};
use crate::hierarchies::{read_hierarchies, write_hierarchies};
use crate::indices::{read_indices, write_indices};
use crate::lockout::{read_lockout, write_lockout};
use crate::objects::{read_objects, write_objects};
use crate::saved::{read_saved, write_saved};
use crate::version::{Version, read_limits, write_limits};
use tpm_bytes::Cursor;
use tpm_commands::Profile;
use tpm_lockout::Lockout;
use tpm_nv::Indices;
use tpm_record::{Fixed, Keep};

/// Reads the fixed part of a body of a device of this profile, and returns the largest value that an
/// NV counter ever had.
#[tactic(auto, unfolding(crate::specs::Body::state_in))]
fn read_state(profile: Profile, fixed: &mut Fixed, text: &mut Cursor) -> Result<u64, Malformed>
    ensures { Restores (state_in text.old) (record fixed.old { profile = profile }) result fixed.new
        text.new }
{
    fixed.profile = profile;
    fixed.hierarchies = read_hierarchies(text)?;
    fixed.disable_clear = read_bool(text)?;
    fixed.lockout = Lockout::restore(read_lockout(text)?);
    fixed.clock = read_u64(text)?;
    fixed.reset_count = read_u32(text)?;
    fixed.restart_count = read_u32(text)?;
    let max_count = read_u64(text)?;
    fixed.saved = read_saved(text)?;
    Ok(max_count)
}

/// Decodes the state that a device keeps without power, in the given version, from the beginning of
/// the input into a new `Keep`.
#[tactic(auto, unfolding(crate::specs::Body::kept_in))]
pub fn read_kept<K: Keep>(
    version: Version,
    keep: &mut K,
    text: &mut Cursor,
) -> Result<(), FillFault>
    requires { K.record_of keep.old ≡ manufactured (replicate 256 0) }
    ensures { PowersOnFrom K.can_refuse (kept_in version text.old) result (K.record_of keep.new)
        text.new }
{
    let Ok(profile) = read_limits(version, text) else {
        return Err(FillFault::Malformed);
    };
    let Ok(max_count) = read_state(profile, keep.fixed_mut(), text) else {
        return Err(FillFault::Malformed);
    };
    keep.nv_mut().set_max_count(max_count);
    read_objects(keep.persistent_mut(), text)?;
    read_indices(version, keep.nv_mut(), text)?;
    Ok(())
}

/// Reads a whole body of the given version into a new `Keep`.
#[tactic(auto, unfolding(crate::specs::Body::body_of))]
pub fn read_body<K: Keep>(version: Version, keep: &mut K, body: &[u8]) -> Result<(), FillFault>
    requires { K.record_of keep.old ≡ manufactured (replicate 256 0) }
    ensures { PowersOn K.can_refuse (body_of version body.now) result (K.record_of keep.new) }
{
    let mut text = Cursor::new(body);
    read_kept(version, keep, &mut text)?;
    if !text.is_empty() {
        return Err(FillFault::Malformed);
    }
    Ok(())
}

/// Writes the fixed part of a body, with the given value of Clock.
#[tactic(auto, unfolding(crate::specs::Body::state_text))]
fn write_state<K: Keep>(keep: &K, clock: u64, text: &mut Text)
    requires { length text.old + state_size ≤ text_size }
    ensures written { text.new ≡ text.old
        ++ state_text (with_clock clock (kept_of (K.record_of keep.now))).state }
    ensures small { length text.new ≤ length text.old + state_size }
{
    let fixed = keep.fixed();
    write_hierarchies(&fixed.hierarchies, text);
    write_bool(fixed.disable_clear, text);
    write_lockout(fixed.lockout.fields(), text);
    write_u64(clock, text);
    write_u32(fixed.reset_count, text);
    write_u32(fixed.restart_count, text);
    write_u64(keep.nv().max_count(), text);
    write_saved(&fixed.saved, text);
}

/// Writes a whole body in the version that this device writes.
pub fn write_body<K: Keep>(keep: &K, text: &mut Text)
    requires { text.old ≡ [] }
    ensures written { text.new ≡ image_body_text
        (version_of (K.record_of keep.now).fixed.profile) (kept_of (K.record_of keep.now)) }
    ensures small { length text.new ≤ body_size }
{
    write_body_at(keep, keep.fixed().clock, text);
}

/// Writes a whole body with the given value of Clock.
#[tactic(auto, unfolding(crate::specs::Body::image_body_text))]
pub fn write_body_at<K: Keep>(keep: &K, clock: u64, text: &mut Text)
    requires { text.old ≡ [] }
    ensures written { text.new ≡ image_body_text
        (version_of (K.record_of keep.now).fixed.profile)
        (with_clock clock (kept_of (K.record_of keep.now))) }
    ensures small { length text.new ≤ body_size }
{
    write_limits(keep.fixed().profile, text);
    write_state(keep, clock, text);
    write_objects(keep.persistent(), text);
    write_indices(keep.nv(), text);
}
