//! The input that a command's row gets once the general checks and the authorization have passed:
//! handles, locality, parameters and random bytes.

ghost use Rattle.std.specs.Prelude.{◌≡◌};

use crate::rows::refusals::handle_refusal;
use tpm_types_common::{Handle, Locality, Refused};

/// The input that a command's row gets once the general checks and the authorization have passed.
#[derive(Clone, Copy)]
pub struct Call<'a> {
    /// The command's handles, as many as its shape requires.
    pub handles: &'a [Handle],
    pub locality: Locality,
    /// The command's parameters, after decryption.
    pub parameters: &'a [u8],
    /// The event's random bytes.
    pub random: &'a [u8; 256],
}

impl Call<'_> {
    ghost use Rattle.tpm_record.specs.rows.Request.{first_handle, second_handle, third_handle};

    /// The first handle of a command that has at least one handle.
    pub fn first_handle(&self) -> Result<Handle, Refused>
        ensures { result ≡ first_handle self.now.handles.now }
    {
        match self.handles {
            [] => Err(handle_refusal()),
            [first, ..] => Ok(*first),
        }
    }

    /// The second handle of a command that has at least two handles.
    pub fn second_handle(&self) -> Result<Handle, Refused>
        ensures { result ≡ second_handle self.now.handles.now }
    {
        match self.handles {
            [_, second, ..] => Ok(*second),
            _ => Err(handle_refusal()),
        }
    }
    /// The third handle of a command that has three handles.
    pub fn third_handle(&self) -> Result<Handle, Refused>
        ensures { result ≡ third_handle self.now.handles.now }
    {
        match self.handles {
            [_, _, third, ..] => Ok(*third),
            _ => Err(handle_refusal()),
        }
    }
}
