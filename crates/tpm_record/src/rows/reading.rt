//! Reads a command's parameters. Each refusal contains the number of the parameter at fault.

ghost use Rattle.std.specs.Prelude.{◌≡◌};
ghost use Rattle.tpm_bytes.specs.Reading.{or_fault};
ghost use Rattle.tpm_types_common.specs.Rc.{plain};
ghost use Rattle.tpm_types_common.specs.declared.rc.ResponseCode.TheVariants as code;
ghost use Rattle.tpm_record.specs.rows.Rows.{all_read, parameter, parameter_refusal};

use tpm_bytes::{Cursor, Short};
use tpm_types_common::{Check, Rc, Refused, ResponseCode};

/// The refusal of the parameter with this number.
fn at_parameter(number: u8, rc: Rc) -> Refused
    ensures { result ≡ parameter_refusal number rc }
{
    Refused::by(Check::Parameters, rc.at_parameter(number))
}

/// The value of the parameter with this number, or its refusal if reading it failed.
pub fn parameter<T>(place: u8, read: Result<T, Rc>) -> Result<T, Refused>
    ensures { result ≡ parameter place read }
{
    match read {
        Ok(value) => Ok(value),
        Err(rc) => Err(at_parameter(place, rc)),
    }
}

/// The integer parameter with this number, or its refusal if reading it failed. Reading an integer
/// fails only if its bytes are truncated.
pub fn number<T>(place: u8, read: Result<T, Short>) -> Result<T, Refused>
    ensures { result ≡ parameter place (or_fault read (plain code.Insufficient)) }
{
    match read {
        Ok(value) => Ok(value),
        Err(_) => Err(at_parameter(place, ResponseCode::Insufficient.anywhere())),
    }
}

/// Refuses a command that has bytes after its last parameter.
pub fn end(parameters: &Cursor) -> Result<(), Refused>
    ensures { result ≡ all_read parameters.now }
{
    if parameters.is_empty() {
        Ok(())
    } else {
        Err(Refused::by(Check::Parameters, ResponseCode::Size.anywhere()))
    }
}
