//! Handles and the entities that they name: PCRs, hierarchies, sessions, NV indices and objects
//! (TPM_HANDLE; TPM 2.0 Library, Part 2, section 7).

ghost use Rattle.std.specs.Prelude.{◌≡◌};

use crate::pcr::{PCR_COUNT, PcrIndex};

/// The handle of an entity: TPM_HANDLE (Part 2, section 7.1). Its most significant byte is the type
/// of the entity (TPM_HT, section 7.2).
#[derive(Clone, Copy, PartialEq, Eq, Default)]
pub struct Handle {
    pub number: u32,
}

/// The meaning of a handle in an authorization entry.
#[derive(Clone, Copy, PartialEq, Eq)]
pub enum SessionKind {
    /// TPM_RS_PW: a password instead of a session.
    Password,
    /// An HMAC session or a policy session.
    Session,
    /// The handle names neither a password nor a session.
    Other,
}

/// A hierarchy or lockout, each of which has an authorization value: TPMI_RH_HIERARCHY_AUTH of Part
/// 2.
#[derive(Clone, Copy, PartialEq, Eq)]
pub enum HierarchyAuth {
    /// TPM_RH_OWNER: ownerAuth.
    Owner,
    /// TPM_RH_LOCKOUT: lockoutAuth.
    Lockout,
    /// TPM_RH_ENDORSEMENT: endorsementAuth.
    Endorsement,
    /// TPM_RH_PLATFORM: platformAuth.
    Platform,
}

/// A hierarchy to which objects belong: TPMI_RH_HIERARCHY+ of Part 2, section 9.13.
#[derive(Clone, Copy, PartialEq, Eq)]
pub enum HierarchyHandle {
    /// TPM_RH_OWNER: the owner hierarchy, which the standard calls the storage hierarchy.
    Owner,
    /// TPM_RH_ENDORSEMENT: the endorsement hierarchy.
    Endorsement,
    /// TPM_RH_PLATFORM: the platform hierarchy.
    Platform,
    /// TPM_RH_NULL: the null hierarchy.
    Null,
}

impl HierarchyHandle {
    ghost use Rattle.tpm_types_common.specs.Handle.{hierarchy_handle};

    /// The handle of the hierarchy.
    pub fn handle(self) -> Handle
        ensures { result ≡ hierarchy_handle self }
    {
        match self {
            HierarchyHandle::Owner => Handle::OWNER,
            HierarchyHandle::Endorsement => Handle::ENDORSEMENT,
            HierarchyHandle::Platform => Handle::PLATFORM,
            HierarchyHandle::Null => Handle::NULL,
        }
    }
}

impl Handle {
    ghost use Rattle.tpm_types_common.specs.Handle.{SomePcrOf, handle_type, hierarchy_auth_of, hierarchy_of, is_nv_index, is_persistent, is_policy_session, is_session, is_transient, pcr_of, session_kind};

    /// The handle of a password entry: TPM_RS_PW, section 7.4.
    pub const PASSWORD: Handle = Handle {
        number: 0x4000_0009,
    };

    /// The handle of the null hierarchy: TPM_RH_NULL, section 7.4.
    pub const NULL: Handle = Handle {
        number: 0x4000_0007,
    };

    /// The handle of the owner hierarchy: TPM_RH_OWNER, section 7.4.
    pub const OWNER: Handle = Handle {
        number: 0x4000_0001,
    };

    /// The handle of lockout: TPM_RH_LOCKOUT, section 7.4.
    pub const LOCKOUT: Handle = Handle {
        number: 0x4000_000a,
    };

    /// The handle of the endorsement hierarchy: TPM_RH_ENDORSEMENT, section 7.4.
    pub const ENDORSEMENT: Handle = Handle {
        number: 0x4000_000b,
    };

    /// The handle of the platform hierarchy: TPM_RH_PLATFORM, section 7.4.
    pub const PLATFORM: Handle = Handle {
        number: 0x4000_000c,
    };

    /// The PCR that the handle names, or None.
    pub fn pcr(self) -> Option<PcrIndex>
        ensures { SomePcrOf (pcr_of self) result }
    {
        if self.number < u32::from(PCR_COUNT) {
            PcrIndex::new(self.number as u8)
        } else {
            None
        }
    }

    /// The meaning of the handle in an authorization entry.
    pub fn session_kind(self) -> SessionKind
        ensures { result ≡ session_kind self }
    {
        match (self, self.type_byte()) {
            (Handle::PASSWORD, _) => SessionKind::Password,
            (_, 0x02 | 0x03) => SessionKind::Session,
            _ => SessionKind::Other,
        }
    }

    /// The hierarchy or lockout that the handle names, or None.
    pub fn hierarchy_auth(self) -> Option<HierarchyAuth>
        ensures { result ≡ hierarchy_auth_of self }
    {
        match self {
            Handle::OWNER => Some(HierarchyAuth::Owner),
            Handle::LOCKOUT => Some(HierarchyAuth::Lockout),
            Handle::ENDORSEMENT => Some(HierarchyAuth::Endorsement),
            Handle::PLATFORM => Some(HierarchyAuth::Platform),
            _ => None,
        }
    }

    /// The hierarchy that the handle names, or None.
    pub fn hierarchy(self) -> Option<HierarchyHandle>
        ensures { result ≡ hierarchy_of self }
    {
        match self {
            Handle::OWNER => Some(HierarchyHandle::Owner),
            Handle::ENDORSEMENT => Some(HierarchyHandle::Endorsement),
            Handle::PLATFORM => Some(HierarchyHandle::Platform),
            Handle::NULL => Some(HierarchyHandle::Null),
            _ => None,
        }
    }

    /// The most significant byte of the handle, which is the type of the entity (TPM_HT).
    fn type_byte(self) -> u32
        ensures { result ≡ handle_type self }
    {
        self.number >> 24
    }

    /// Whether the handle has the type of an NV index. The index need not exist.
    pub fn is_nv_index(self) -> bool
        ensures { result ≡ is_nv_index self }
    {
        self.type_byte() == 0x01
    }

    /// Whether the handle has the type of a session. The session need not exist.
    pub fn is_session(self) -> bool
        ensures { result ≡ is_session self }
    {
        matches!(self.type_byte(), 0x02 | 0x03)
    }

    /// Whether the handle has the type of a policy or trial session. The session need not exist.
    pub fn is_policy_session(self) -> bool
        ensures { result ≡ is_policy_session self }
    {
        self.type_byte() == 0x03
    }

    /// Whether the handle has the type of a transient object. The object need not exist.
    pub fn is_transient(self) -> bool
        ensures { result ≡ is_transient self }
    {
        self.type_byte() == 0x80
    }

    /// Whether the handle has the type of a persistent object. The object need not exist.
    pub fn is_persistent(self) -> bool
        ensures { result ≡ is_persistent self }
    {
        self.type_byte() == 0x81
    }
}
