//! Compares passwords, and refuses entries whose password or HMAC is wrong or whose entity is
//! locked out (TPM 2.0 Library, Part 1, section 19.4).

ghost use Rattle.std.specs.Prelude.{◌≡◌};
ghost use Rattle.tpm_types_common.specs.Rc.{plain};
ghost use Rattle.tpm_types_common.specs.Refused.{refusal};
ghost use Rattle.tpm_types_common.specs.declared.rc.ResponseCode.TheVariants as code;
ghost use Rattle.tpm_auth.specs.Comparison.{check_of, failure, is_locked_out, is_password_of};

use crate::session_grant::Grant;
use tpm_lockout::Lockout;
use tpm_session::Protection;
use tpm_types_common::{Check, Counted, Refused, ResponseCode, trimmed};

/// Whether a password equals this authorization value, apart from trailing zeros.
pub fn is_password_of(value: &[u8], password: &[u8]) -> bool
    ensures { result ≡ is_password_of value.now password.now }
{
    trimmed(password) == trimmed(value)
}

/// The refusal if the password or HMAC of the entry with this number is wrong.
pub fn failure(check: Check, number: u8, protection: Protection) -> Refused
    ensures { result ≡ failure check number protection }
{
    let (code, counted) = match protection {
        Protection::None => (ResponseCode::BadAuth, Counted::None),
        Protection::Tries => (ResponseCode::AuthFail, Counted::Try),
        Protection::Lockout => (ResponseCode::AuthFail, Counted::Lockout),
    };
    Refused {
        rc: code.anywhere().at_session(number),
        check,
        counted,
    }
}

/// Whether an entity with this protection is locked out.
pub fn is_locked_out(lockout: &Lockout, protection: Protection) -> bool
    ensures { result ≡ is_locked_out lockout.now protection }
{
    match protection {
        Protection::None => false,
        Protection::Tries => lockout.is_locked(),
        Protection::Lockout => lockout.lockout_closed(),
    }
}

/// The refusal of an entry whose entity is locked out. The failed check depends on whether the
/// entry has a handle to authorize.
pub fn lockout_refusal(grant: Option<Grant>) -> Refused
    ensures { result ≡ refusal (check_of grant) (plain code.Lockout) }
{
    Refused::by(check_of(grant), ResponseCode::Lockout.anywhere())
}

/// The check that is reported if an entry's password or HMAC is wrong: G9 if the entry has a handle
/// to authorize, otherwise G10.
pub fn check_of(grant: Option<Grant>) -> Check
    ensures { result ≡ check_of grant }
{
    match grant {
        Some(_) => Check::Authorization,
        None => Check::Others,
    }
}
