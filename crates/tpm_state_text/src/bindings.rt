//! The binding of a session in a state text.

ghost use Rattle.std.specs.Prelude.{◌≡◌, ◌≤◌, ◌+◌, ◌++◌, length};
ghost use Rattle.tpm_bytes.specs.Reading.{Reads};
ghost use Rattle.tpm_image_text.specs.Sizes.{text_size};
ghost use Rattle.tpm_state_text.specs.Places.{optional_in, optional_text};
ghost use Rattle.tpm_state_text.specs.Sessions.{binding_in, binding_text, protection_in, protection_named, protection_number};

use tpm_bytes::Cursor;
use tpm_image_text::{
    Malformed, Text, read_auth_value, read_bool, read_sized, read_u8, write_bool, write_sized,
};
use tpm_session::{Binding, Protection};
use tpm_types_name::Name;

fn protection_number(protection: Protection) -> u8
    ensures { result ≡ protection_number protection }
{
    match protection {
        Protection::None => 0,
        Protection::Tries => 1,
        Protection::Lockout => 2,
    }
}

fn protection_named(number: u8) -> Option<Protection>
    ensures { result ≡ protection_named number }
{
    match number {
        0 => Some(Protection::None),
        1 => Some(Protection::Tries),
        2 => Some(Protection::Lockout),
        _ => None,
    }
}

#[tactic(auto, unfolding(crate::specs::Sessions::protection_in))]
fn read_protection(text: &mut Cursor) -> Result<Protection, Malformed>
    ensures { Reads (λ protection. protection) (protection_in text.old) text.old result text.new }
{
    let mut ahead = Cursor::new(text.rest());
    let Some(protection) = protection_named(read_u8(&mut ahead)?) else {
        return Err(Malformed);
    };
    *text = ahead;
    Ok(protection)
}

#[tactic(auto, unfolding(crate::specs::Sessions::binding_in))]
fn read_binding(text: &mut Cursor) -> Result<Binding, Malformed>
    ensures { Reads (λ binding. binding) (binding_in text.old) text.old result text.new }
{
    let mut ahead = Cursor::new(text.rest());
    let name = Name::of(read_sized(&mut ahead, 34)?);
    let auth_value = read_auth_value(&mut ahead)?;
    let protection = read_protection(&mut ahead)?;
    *text = ahead;
    Ok(Binding {
        name,
        auth_value,
        protection,
    })
}

/// Reads the binding of a session, or None if the session is not bound.
pub fn read_optional_binding(text: &mut Cursor) -> Result<Option<Binding>, Malformed>
    ensures { Reads (λ binding. binding) (optional_in binding_in text.old) text.old
        result text.new }
{
    let mut ahead = Cursor::new(text.rest());
    let binding = if read_bool(&mut ahead)? {
        Some(read_binding(&mut ahead)?)
    } else {
        None
    };
    *text = ahead;
    Ok(binding)
}

#[tactic(auto, unfolding(crate::specs::Sessions::binding_text))]
fn write_binding(binding: &Binding, text: &mut Text)
    requires { length text.old + 71 ≤ text_size }
    ensures written { text.new ≡ text.old ++ binding_text binding.now }
    ensures small { length text.new ≤ length text.old + 71 }
{
    write_sized(binding.name.as_slice(), 34, text);
    write_sized(binding.auth_value.as_slice(), 32, text);
    text.append_u8(protection_number(binding.protection));
}

/// Writes the binding of a session, or the byte for an unbound session.
pub fn write_optional_binding(binding: &Option<Binding>, text: &mut Text)
    requires { length text.old + 72 ≤ text_size }
    ensures written { text.new ≡ text.old ++ optional_text binding_text binding.now }
    ensures small { length text.new ≤ length text.old + 72 }
{
    match binding {
        Some(binding) => {
            write_bool(true, text);
            write_binding(binding, text);
        }
        None => write_bool(false, text),
    }
}
