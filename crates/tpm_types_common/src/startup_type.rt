//! Whether the device starts fresh or from the saved state (TPM_SU; TPM 2.0 Library, Part 2,
//! section 6.10).

ghost use Rattle.tpm_bytes.specs.Reading.{Reads};

use crate::rc::{Rc, ResponseCode};
use tpm_bytes::Cursor;

/// Whether the device starts from the saved state: TPM_SU (Part 2, section 6.10).
#[derive(Clone, Copy, PartialEq, Eq)]
pub enum StartupType {
    Clear,
    State,
}

impl StartupType {
    ghost use Rattle.tpm_types_common.specs.StartupType.{startup_type_at};

    /// Reads a startup type. Fails with INSUFFICIENT if it is truncated, or with VALUE if it is
    /// neither CLEAR nor STATE.
    #[tactic(auto, unfolding(crate::specs::StartupType::startup_type_at))]
    pub fn read(text: &mut Cursor) -> Result<StartupType, Rc>
        ensures { Reads (λ kind. kind) (startup_type_at text.old) text.old result text.new }
    {
        let mut ahead = Cursor::new(text.rest());
        let Ok(number) = ahead.u16() else {
            return Err(ResponseCode::Insufficient.anywhere());
        };
        let kind = match number {
            0 => StartupType::Clear,
            1 => StartupType::State,
            _ => return Err(ResponseCode::Value.anywhere()),
        };
        *text = ahead;
        Ok(kind)
    }
}
