//! Response codes, and the handle, parameter or session at fault (TPM_RC; TPM 2.0 Library, Part 2,
//! section 6.6).

ghost use Rattle.std.specs.Prelude.{◌≡◌, ◌<◌};

/// A response code without the number of a handle, parameter or session: TPM_RC (Part 2, section
/// 6.6.3). The names are the standard's, without `TPM_RC_`.
#[derive(Clone, Copy, PartialEq, Eq)]
pub enum ResponseCode {
    BadTag = 0x01e,
    Initialize = 0x100,
    Failure = 0x101,
    Disabled = 0x120,
    AuthMissing = 0x125,
    Policy = 0x126,
    PcrChanged = 0x128,
    AuthUnavailable = 0x12f,
    CommandSize = 0x142,
    CommandCode = 0x143,
    Authsize = 0x144,
    AuthContext = 0x145,
    NvRange = 0x146,
    NvLocked = 0x148,
    NvAuthorization = 0x149,
    NvUninitialized = 0x14a,
    NvSpace = 0x14b,
    NvDefined = 0x14c,
    Cphash = 0x151,
    ObjectMemory = 0x902,
    SessionMemory = 0x903,
    Memory = 0x904,
    Locality = 0x907,
    ReferenceH0 = 0x910,
    ReferenceH1 = 0x911,
    ReferenceH2 = 0x912,
    ReferenceS0 = 0x918,
    ReferenceS1 = 0x919,
    ReferenceS2 = 0x91a,
    Lockout = 0x921,
    Attributes = 0x082,
    Hash = 0x083,
    Value = 0x084,
    Hierarchy = 0x085,
    Mode = 0x089,
    Type = 0x08a,
    Handle = 0x08b,
    Range = 0x08d,
    AuthFail = 0x08e,
    Nonce = 0x08f,
    Scheme = 0x092,
    Size = 0x095,
    Symmetric = 0x096,
    Insufficient = 0x09a,
    Key = 0x09c,
    PolicyFail = 0x09d,
    Integrity = 0x09f,
    ReservedBits = 0x0a1,
    BadAuth = 0x0a2,
    PolicyCc = 0x0a4,
}

/// The handle, parameter or session at fault, each numbered from 1 (Part 2, section 6.6.2).
#[derive(Clone, Copy, PartialEq, Eq)]
pub enum Place {
    Nowhere,
    Handle(u8),
    Parameter(u8),
    Session(u8),
}

/// A response code, and the handle, parameter or session at fault.
#[derive(Clone, Copy, PartialEq, Eq)]
pub struct Rc {
    pub code: ResponseCode,
    pub place: Place,
}

impl ResponseCode {
    ghost use Rattle.tpm_types_common.specs.Rc.{code_number, plain};

    /// The wire number of the code, without the bits for a handle, parameter or session.
    #[tactic(auto, unfolding(crate::specs::Rc::code_number))]
    pub fn number(self) -> u32
        ensures value { result ≡ code_number self }
        ensures small { result < 0x1000 }
    {
        self as u32
    }

    /// The response code, without the number of a handle, parameter or session.
    pub fn anywhere(self) -> Rc
        ensures { result ≡ plain self }
    {
        Rc {
            code: self,
            place: Place::Nowhere,
        }
    }
}

impl Rc {
    ghost use Rattle.tpm_types_common.specs.Rc.{rc_number, at};
    ghost use Rattle.tpm_types_common.specs.declared.rc.Place.TheVariants as place;

    /// The wire number of the code, including the bits for its handle, parameter or session.
    pub fn number(self) -> u32
        ensures { result ≡ rc_number self }
    {
        let place = match self.place {
            Place::Nowhere => 0,
            Place::Handle(n) => 0x100 * u32::from(n),
            Place::Parameter(n) => 0x040 + 0x100 * u32::from(n),
            Place::Session(n) => 0x800 + 0x100 * u32::from(n),
        };
        self.code.number() + place
    }

    /// The same response code, but the fault is in the handle with this number.
    pub fn at_handle(self, number: u8) -> Rc
        ensures { result ≡ at (place.Handle number) self }
    {
        Rc {
            code: self.code,
            place: Place::Handle(number),
        }
    }

    /// The same response code, but the fault is in the parameter with this number.
    pub fn at_parameter(self, number: u8) -> Rc
        ensures { result ≡ at (place.Parameter number) self }
    {
        Rc {
            code: self.code,
            place: Place::Parameter(number),
        }
    }

    /// The same response code, but the fault is in the session with this number.
    pub fn at_session(self, number: u8) -> Rc
        ensures { result ≡ at (place.Session number) self }
    {
        Rc {
            code: self.code,
            place: Place::Session(number),
        }
    }
}
