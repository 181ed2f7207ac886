//! Refusals by any part of the device, and how they affect the protection against dictionary
//! attacks.

ghost use Rattle.std.specs.Prelude.{◌≡◌};

use crate::check::Check;
use crate::rc::Rc;

/// How a refusal affects the protection against dictionary attacks (TPM 2.0 Library, Part 1,
/// section 19.8).
#[derive(Clone, Copy, PartialEq, Eq)]
pub enum Counted {
    None,
    /// The refusal is a failed authorization of a protected entity, and counts as a failed try.
    Try,
    /// The refusal is a failed authorization with lockoutAuth, which becomes disabled.
    Lockout,
}

/// A refusal: the response code, the check that failed, and how the refusal affects the protection
/// against dictionary attacks.
#[derive(Clone, Copy, PartialEq, Eq)]
pub struct Refused {
    pub rc: Rc,
    pub check: Check,
    pub counted: Counted,
}

impl Refused {
    ghost use Rattle.tpm_types_common.specs.Refused.{refusal};

    /// A refusal that neither counts as a failed try nor disables lockoutAuth.
    pub fn by(check: Check, rc: Rc) -> Refused
        ensures { result ≡ refusal check rc }
    {
        Refused {
            rc,
            check,
            counted: Counted::None,
        }
    }
}
