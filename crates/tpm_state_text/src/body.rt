//! The body of a state text: the device, followed by the completing layer, if the device has this
//! layer.

ghost use Rattle.std.specs.Prelude.{◌≡◌, ◌≤◌, ◌+◌, ◌++◌, [], length, option_copied, replicate};
ghost use Rattle.tpm_image_text.specs.Filling.{Fills};
ghost use Rattle.tpm_image_text.specs.Sizes.{body_size};
ghost use Rattle.tpm_record.specs.Record.{manufactured};
ghost use Rattle.tpm_state_text.specs.Body.{body_text, device_in, device_text, state_of_body};
ghost use Rattle.tpm_state_text.specs.Filling.{FillsState, state_of};
ghost use Rattle.tpm_state_text.specs.Sizes.{layer_size, volatile_size};

use crate::layer::{Layer, read_layer_part, write_layer_part};
use crate::volatile::{read_volatile, write_volatile};
use tpm_bytes::Cursor;
use tpm_commands::Profile;
use tpm_image_text::{FillFault, Text, Version, read_kept, write_body_at};
use tpm_record::Keep;

/// Reads a device of this profile into a new `Keep`.
#[tactic(auto, unfolding(crate::specs::Body::device_in))]
fn read_device<K: Keep>(profile: Profile, keep: &mut K, text: &mut Cursor) -> Result<(), FillFault>
    requires { K.record_of keep.old ≡ manufactured (replicate 256 0) }
    ensures { Fills K.can_refuse (device_in profile text.old) (K.record_of keep.new) result
        text.new }
{
    read_kept(Version::of(profile), keep, text)?;
    read_volatile(keep, text)
}

/// Reads a whole body of a device of this profile into a new `Keep`, and returns its layer.
#[tactic(auto, unfolding(crate::specs::Body::state_of_body, crate::specs::Body::body_in))]
pub fn read_body<K: Keep>(
    profile: Profile,
    keep: &mut K,
    body: &[u8],
) -> Result<Option<Layer>, FillFault>
    requires { K.record_of keep.old ≡ manufactured (replicate 256 0) }
    ensures { FillsState K.can_refuse (state_of_body profile body.now) (K.record_of keep.new)
        result }
{
    let mut text = Cursor::new(body);
    read_device(profile, keep, &mut text)?;
    let Ok(layer) = read_layer_part(&mut text) else {
        return Err(FillFault::Malformed);
    };
    if !text.is_empty() {
        return Err(FillFault::Malformed);
    }
    Ok(layer)
}

#[tactic(auto, unfolding(crate::specs::Body::device_text))]
fn write_device<K: Keep>(keep: &K, text: &mut Text)
    requires { text.old ≡ [] }
    ensures written { text.new ≡ device_text (K.record_of keep.now).fixed.profile
        (K.record_of keep.now) }
    ensures small { length text.new ≤ body_size + volatile_size }
{
    write_body_at(keep, keep.fixed().clock, text);
    write_volatile(keep, text);
}

/// Writes a whole body to an empty buffer.
#[tactic(auto, unfolding(crate::specs::Body::body_text))]
pub fn write_body<K: Keep>(keep: &K, layer: Option<&Layer>, text: &mut Text)
    requires { text.old ≡ [] }
    ensures written { text.new ≡ body_text (K.record_of keep.now).fixed.profile
        (state_of (K.record_of keep.now) (option_copied layer.entry)) }
    ensures small { length text.new ≤ body_size + (volatile_size + 1 + layer_size) }
{
    write_device(keep, text);
    write_layer_part(layer, text);
}
