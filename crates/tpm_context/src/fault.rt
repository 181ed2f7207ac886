//! Why a context is not loaded.

ghost use Rattle.std.specs.Prelude.{◌≡◌};
ghost use Rattle.tpm_context.specs.Head.{fault_code, fault_rc};

use tpm_types_common::{Rc, ResponseCode};

/// Why the context of an object is not loaded. `object_in_context` defines in which order the
/// faults are checked.
#[derive(Clone, Copy, PartialEq, Eq)]
pub enum ContextFault {
    /// The context is truncated: TPM_RC_INSUFFICIENT.
    Truncated,
    /// The savedHandle is not one that objects use: TPM_RC_HANDLE.
    SavedHandle,
    /// The hierarchy field does not contain the handle of a hierarchy: TPM_RC_VALUE.
    Hierarchy,
    /// The contextBlob or its integrity value has the wrong size, or more bytes follow the
    /// contextBlob: TPM_RC_SIZE.
    Size,
    /// The integrity value is wrong, or the object does not match the context: TPM_RC_INTEGRITY.
    Integrity,
}

impl ContextFault {
    fn code(self) -> ResponseCode
        ensures { result ≡ fault_code self }
    {
        match self {
            ContextFault::Truncated => ResponseCode::Insufficient,
            ContextFault::SavedHandle => ResponseCode::Handle,
            ContextFault::Hierarchy => ResponseCode::Value,
            ContextFault::Size => ResponseCode::Size,
            ContextFault::Integrity => ResponseCode::Integrity,
        }
    }

    /// The response code of this fault, for parameter 1 of TPM2_ContextLoad.
    pub fn rc(self) -> Rc
        ensures { result ≡ fault_rc self }
    {
        self.code().anywhere().at_parameter(1)
    }
}
