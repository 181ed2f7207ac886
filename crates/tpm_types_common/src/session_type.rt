//! The types of sessions: HMAC, policy and trial (TPM_SE; TPM 2.0 Library, Part 2, section 6.11).

ghost use Rattle.std.specs.Prelude.{◌≡◌};
ghost use Rattle.tpm_bytes.specs.Reading.{Reads};

use crate::rc::{Rc, ResponseCode};
use tpm_bytes::Cursor;

/// The type of a session: TPM_SE (Part 2, section 6.11).
#[derive(Clone, Copy, PartialEq, Eq)]
pub enum SessionType {
    /// The session authorizes with an HMAC, whose key contains the entity's authorization value.
    Hmac,
    /// The session authorizes with a policy.
    Policy,
    /// The session computes a policy digest and authorizes nothing.
    Trial,
}

impl SessionType {
    ghost use Rattle.tpm_types_common.specs.SessionType.{is_trial, session_type_at, type_byte, type_named, type_number};

    /// The wire number of the type.
    pub fn number(self) -> u8
        ensures { result ≡ type_number self }
    {
        match self {
            SessionType::Hmac => 0x00,
            SessionType::Policy => 0x01,
            SessionType::Trial => 0x03,
        }
    }

    /// The type with this number, or None.
    pub fn named(number: u8) -> Option<SessionType>
        ensures { result ≡ type_named number }
    {
        match number {
            0x00 => Some(SessionType::Hmac),
            0x01 => Some(SessionType::Policy),
            0x03 => Some(SessionType::Trial),
            _ => None,
        }
    }

    /// The most significant byte of the handle of a session of this type (TPM_HT, Part 2, section
    /// 7.2).
    pub fn handle_byte(self) -> u32
        ensures { result ≡ type_byte self }
    {
        match self {
            SessionType::Hmac => 0x02,
            SessionType::Policy | SessionType::Trial => 0x03,
        }
    }

    /// Whether this is the type of a trial session, which computes a policy digest and authorizes
    /// nothing.
    pub fn is_trial(self) -> bool
        ensures { result ≡ is_trial self }
    {
        match self {
            SessionType::Hmac | SessionType::Policy => false,
            SessionType::Trial => true,
        }
    }

    /// Reads a session type. Fails with INSUFFICIENT if it is truncated, or with VALUE if no type
    /// has this number.
    #[tactic(auto, unfolding(crate::specs::SessionType::session_type_at))]
    pub fn read(text: &mut Cursor) -> Result<SessionType, Rc>
        ensures { Reads (λ kind. kind) (session_type_at text.old) text.old result text.new }
    {
        let mut ahead = Cursor::new(text.rest());
        let Ok(number) = ahead.u8() else {
            return Err(ResponseCode::Insufficient.anywhere());
        };
        let Some(kind) = SessionType::named(number) else {
            return Err(ResponseCode::Value.anywhere());
        };
        *text = ahead;
        Ok(kind)
    }
}
