//! The names of response codes (TPM_RC; TPM 2.0 Library, Part 2, section 6.6), and the handle,
//! parameter or session that a code identifies.

ghost use Rattle.std.specs.Prelude.{◌≡◌, ◌<◌, option_map};
ghost use Rattle.tpm_help.specs.ResponseCode.{errors, format_one_names, hex_number};
ghost use Rattle.tpm_help.specs.ResponseCode.{name_in, place_in, told_of, warnings};

use std::fmt;
use tpm_types_common::rc::Place;

/// The meaning of a response code: its name without TPM_RC_, and the handle, parameter or session
/// that it identifies.
#[derive(Clone, Copy)]
pub struct CodeMeaning {
    pub name: &'static str,
    pub place: Place,
}

impl fmt::Display for CodeMeaning {
    ghost use Rattle.std.specs.Prelude.{Some};
    ghost use Rattle.tpm_help.specs.ResponseCode.{code_text};

    ghost output = { λ meaning. Some (code_text meaning.name.now meaning.place) };

    fn fmt<W: fmt::Write>(&self, f: &mut fmt::Formatter<W>) -> fmt::Result {
        let name = self.name;
        match self.place {
            Place::Nowhere => write!(f, "{name}"),
            Place::Handle(number) => write!(f, "{name}, handle {number}"),
            Place::Parameter(number) => write!(f, "{name}, parameter {number}"),
            Place::Session(number) => write!(f, "{name}, session {number}"),
        }
    }
}

/// The name of an error code that identifies no handle, parameter or session.
#[tactic(auto, unfolding(crate::specs::ResponseCode::errors))]
fn error_name(number: u32) -> Option<&'static str>
    ensures { option_map (λ name. name.now) result ≡ name_in errors number }
{
    match number {
        0x000 => Some("SUCCESS"),
        0x01e => Some("BAD_TAG"),
        0x100 => Some("INITIALIZE"),
        0x101 => Some("FAILURE"),
        0x103 => Some("SEQUENCE"),
        0x10b => Some("PRIVATE"),
        0x119 => Some("HMAC"),
        0x120 => Some("DISABLED"),
        0x121 => Some("EXCLUSIVE"),
        0x124 => Some("AUTH_TYPE"),
        0x125 => Some("AUTH_MISSING"),
        0x126 => Some("POLICY"),
        0x127 => Some("PCR"),
        0x128 => Some("PCR_CHANGED"),
        0x12d => Some("UPGRADE"),
        0x12e => Some("TOO_MANY_CONTEXTS"),
        0x12f => Some("AUTH_UNAVAILABLE"),
        0x130 => Some("REBOOT"),
        0x131 => Some("UNBALANCED"),
        0x142 => Some("COMMAND_SIZE"),
        0x143 => Some("COMMAND_CODE"),
        0x144 => Some("AUTHSIZE"),
        0x145 => Some("AUTH_CONTEXT"),
        0x146 => Some("NV_RANGE"),
        0x147 => Some("NV_SIZE"),
        0x148 => Some("NV_LOCKED"),
        0x149 => Some("NV_AUTHORIZATION"),
        0x14a => Some("NV_UNINITIALIZED"),
        0x14b => Some("NV_SPACE"),
        0x14c => Some("NV_DEFINED"),
        0x150 => Some("BAD_CONTEXT"),
        0x151 => Some("CPHASH"),
        0x152 => Some("PARENT"),
        0x153 => Some("NEEDS_TEST"),
        0x154 => Some("NO_RESULT"),
        0x155 => Some("SENSITIVE"),
        _ => None,
    }
}

/// The name of a warning.
#[tactic(auto, unfolding(crate::specs::ResponseCode::warnings))]
fn warning_name(number: u32) -> Option<&'static str>
    ensures { option_map (λ name. name.now) result ≡ name_in warnings number }
{
    match number {
        0x901 => Some("CONTEXT_GAP"),
        0x902 => Some("OBJECT_MEMORY"),
        0x903 => Some("SESSION_MEMORY"),
        0x904 => Some("MEMORY"),
        0x905 => Some("SESSION_HANDLES"),
        0x906 => Some("OBJECT_HANDLES"),
        0x907 => Some("LOCALITY"),
        0x908 => Some("YIELDED"),
        0x909 => Some("CANCELED"),
        0x90a => Some("TESTING"),
        0x910 => Some("REFERENCE_H0"),
        0x911 => Some("REFERENCE_H1"),
        0x912 => Some("REFERENCE_H2"),
        0x913 => Some("REFERENCE_H3"),
        0x914 => Some("REFERENCE_H4"),
        0x915 => Some("REFERENCE_H5"),
        0x916 => Some("REFERENCE_H6"),
        0x918 => Some("REFERENCE_S0"),
        0x919 => Some("REFERENCE_S1"),
        0x91a => Some("REFERENCE_S2"),
        0x91b => Some("REFERENCE_S3"),
        0x91c => Some("REFERENCE_S4"),
        0x91d => Some("REFERENCE_S5"),
        0x91e => Some("REFERENCE_S6"),
        0x920 => Some("NV_RATE"),
        0x921 => Some("LOCKOUT"),
        0x922 => Some("RETRY"),
        0x923 => Some("NV_UNAVAILABLE"),
        _ => None,
    }
}

/// The name of a code that can identify a handle, a parameter or a session. The number is the code
/// with bits 6 and 8 to 11 clear.
#[tactic(auto, unfolding(crate::specs::ResponseCode::format_one_names))]
fn located_name(number: u32) -> Option<&'static str>
    ensures { option_map (λ name. name.now) result ≡ name_in format_one_names number }
{
    match number {
        0x081 => Some("ASYMMETRIC"),
        0x082 => Some("ATTRIBUTES"),
        0x083 => Some("HASH"),
        0x084 => Some("VALUE"),
        0x085 => Some("HIERARCHY"),
        0x087 => Some("KEY_SIZE"),
        0x088 => Some("MGF"),
        0x089 => Some("MODE"),
        0x08a => Some("TYPE"),
        0x08b => Some("HANDLE"),
        0x08c => Some("KDF"),
        0x08d => Some("RANGE"),
        0x08e => Some("AUTH_FAIL"),
        0x08f => Some("NONCE"),
        0x090 => Some("PP"),
        0x092 => Some("SCHEME"),
        0x095 => Some("SIZE"),
        0x096 => Some("SYMMETRIC"),
        0x097 => Some("TAG"),
        0x098 => Some("SELECTOR"),
        0x09a => Some("INSUFFICIENT"),
        0x09b => Some("SIGNATURE"),
        0x09c => Some("KEY"),
        0x09d => Some("POLICY_FAIL"),
        0x09f => Some("INTEGRITY"),
        0x0a0 => Some("TICKET"),
        0x0a1 => Some("RESERVED_BITS"),
        0x0a2 => Some("BAD_AUTH"),
        0x0a3 => Some("EXPIRED"),
        0x0a4 => Some("POLICY_CC"),
        0x0a5 => Some("BINDING"),
        0x0a6 => Some("CURVE"),
        0x0a7 => Some("ECC_POINT"),
        _ => None,
    }
}

/// The handle, parameter or session that a code identifies by its bits 6 and 8 to 11.
#[tactic(auto, unfolding(crate::specs::ResponseCode::place_in))]
fn place_in(code: u32) -> Place
    requires { code < 0x1000 }
    ensures { result ≡ place_in code }
{
    let number = (code / 0x100) as u8;
    if code / 0x40 % 2 == 1 {
        return if number == 0 {
            Place::Nowhere
        } else {
            Place::Parameter(number)
        };
    }
    if number % 8 == 0 {
        Place::Nowhere
    } else if number / 8 == 1 {
        Place::Session(number % 8)
    } else {
        Place::Handle(number % 8)
    }
}

/// Decodes a number of one to eight hex digits of either case.
#[tactic(auto, unfolding(crate::specs::ResponseCode::hex_number))]
pub fn hex_number(digits: &[u8]) -> Option<u32>
    ensures { result ≡ hex_number digits.now }
{
    if digits.is_empty() || digits.len() > 8 {
        return None;
    }
    let mut padded = [b'0'; 8];
    padded[8 - digits.len()..].copy_from_slice(digits);
    let mut bytes = [0; 4];
    tpm_hex::decode(&padded, &mut bytes).ok()?;
    Some(u32::from_be_bytes(bytes))
}

/// Returns the meaning of a response code, or None if the standard does not define it.
#[tactic(auto, unfolding(crate::specs::ResponseCode::told_by))]
pub fn meaning_of(code: u32) -> Option<CodeMeaning>
    ensures { option_map (λ told. (told.name.now, told.place)) result ≡ told_of code }
{
    if code >= 0x1000 {
        return None;
    }
    if code / 0x80 % 2 == 1 {
        let name = located_name(0x80 + code % 0x40)?;
        let place = place_in(code);
        return Some(CodeMeaning { name, place });
    }
    let name = error_name(code).or(warning_name(code))?;
    Some(CodeMeaning {
        name,
        place: Place::Nowhere,
    })
}
