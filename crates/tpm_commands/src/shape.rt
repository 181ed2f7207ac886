//! The shape of a command: its handles and their roles, its parameters, and its response. A
//! [`Shape`] contains every fact about a command except its number, its name and its effect.

ghost use Rattle.std.specs.Prelude.{◌≡◌};
ghost use Rattle.tpm_commands.specs.Shape.{is_entity, is_provision};

use tpm_types_common::{Handle, Role};

/// The kind of a handle. The kinds follow the types of TPM 2.0 Library, Part 2, section 9.
#[derive(Clone, Copy, PartialEq, Eq)]
pub enum HandleKind {
    /// TPMI_DH_PCR: a PCR.
    Pcr,
    /// TPMI_DH_PCR+: a PCR, or TPM_RH_NULL.
    PcrOrNull,
    /// Only TPM_RH_NULL.
    Null,
    /// TPMI_RH_HIERARCHY_AUTH: a hierarchy, or TPM_RH_LOCKOUT.
    HierarchyAuth,
    /// TPMI_RH_HIERARCHY+: a hierarchy, or TPM_RH_NULL.
    Hierarchy,
    /// TPMI_DH_ENTITY+: any entity that has an authorization value, or TPM_RH_NULL.
    Entity,
    /// TPMI_DH_ENTITY: any entity that has an authorization value.
    EntityNotNull,
    /// TPMI_DH_OBJECT: a transient or a persistent object.
    Object,
    /// TPMI_SH_POLICY: a policy session, or a trial session.
    PolicySession,
    /// TPMI_RH_PROVISION: the owner or the platform.
    Provision,
    /// TPMI_RH_LOCKOUT: only TPM_RH_LOCKOUT.
    Lockout,
    /// TPMI_RH_CLEAR: TPM_RH_LOCKOUT, or the platform.
    Clear,
    /// TPMI_RH_NV_AUTH: the owner, the platform, or an NV index.
    NvAuth,
    /// TPMI_RH_NV_INDEX: an NV index.
    NvIndex,
}

/// Whether the handle is TPM_RH_NULL or has the type of an entity with an authorization value.
fn is_entity(handle: Handle) -> bool
    ensures { result ≡ is_entity handle }
{
    let is_permanent = handle == Handle::NULL || handle.hierarchy_auth().is_some();
    let is_kept = handle.is_nv_index() || handle.is_transient() || handle.is_persistent();
    is_permanent || handle.pcr().is_some() || is_kept
}

/// Whether the handle names the owner or the platform.
fn is_provision(handle: Handle) -> bool
    ensures { result ≡ is_provision handle }
{
    handle == Handle::OWNER || handle == Handle::PLATFORM
}

impl HandleKind {
    ghost use Rattle.tpm_commands.specs.Shape.{is_of_kind};

    /// Whether the handle is of this kind.
    pub fn allows(self, handle: Handle) -> bool
        ensures { result ≡ is_of_kind self handle }
    {
        match self {
            HandleKind::Pcr => handle.pcr().is_some(),
            HandleKind::PcrOrNull => handle.pcr().is_some() || handle == Handle::NULL,
            HandleKind::Null => handle == Handle::NULL,
            HandleKind::HierarchyAuth => handle.hierarchy_auth().is_some(),
            HandleKind::Hierarchy => handle.hierarchy().is_some(),
            HandleKind::Entity => is_entity(handle),
            HandleKind::EntityNotNull => is_entity(handle) && handle != Handle::NULL,
            HandleKind::Object => handle.is_transient() || handle.is_persistent(),
            HandleKind::PolicySession => handle.is_policy_session(),
            HandleKind::Provision => is_provision(handle),
            HandleKind::Lockout => handle == Handle::LOCKOUT,
            HandleKind::Clear => handle == Handle::LOCKOUT || handle == Handle::PLATFORM,
            HandleKind::NvAuth => is_provision(handle) || handle.is_nv_index(),
            HandleKind::NvIndex => handle.is_nv_index(),
        }
    }
}

/// The kind of a command's handle, and its role: the role in which the handle is authorized, or
/// None if it needs no authorization.
#[derive(Clone, Copy, PartialEq, Eq)]
pub struct HandleRule {
    pub kind: HandleKind,
    pub role: Option<Role>,
}

/// The kind of a parameter of a command.
#[derive(Clone, Copy, PartialEq, Eq)]
pub enum ParameterKind {
    /// A startup type: TPM_SU.
    StartupType,
    /// A session type: TPM_SE.
    SessionType,
    /// A one-byte number: UINT8.
    U8,
    /// A two-byte number: UINT16.
    U16,
    /// A four-byte number: UINT32.
    U32,
    /// An eight-byte number: UINT64.
    U64,
    /// A hash algorithm: TPMI_ALG_HASH.
    Hash,
    /// A hash algorithm or NULL: TPMI_ALG_HASH+.
    HashOrNull,
    /// A symmetric definition: TPMT_SYM_DEF.
    Symmetric,
    /// A PCR selection: TPML_PCR_SELECTION.
    Selection,
    /// A list of digests with their algorithms: TPML_DIGEST_VALUES.
    Digests,
    /// A list of digests: TPML_DIGEST.
    DigestList,
    /// A sized buffer of at most this many bytes: a TPM2B.
    Buffer(u16),
    /// The values that a caller provides for a new object: TPM2B_SENSITIVE_CREATE.
    SensitiveCreate,
    /// The public area of an object: TPM2B_PUBLIC.
    Public,
    /// The public area of an NV index: TPM2B_NV_PUBLIC.
    NvPublic,
    /// A comparison operation: TPM_EO.
    Operation,
    /// The handle of a persistent object: TPMI_DH_PERSISTENT.
    PersistentHandle,
    /// The handle of a hierarchy or TPM_RH_NULL: TPMI_RH_HIERARCHY+.
    Hierarchy,
    /// A list of algorithms: TPML_ALG.
    AlgorithmList,
    /// The type of an object and the parameters of its public area: TPMT_PUBLIC_PARMS.
    PublicParameters,
    /// A yes-or-no value: TPMI_YES_NO.
    YesNo,
}

impl ParameterKind {
    ghost use Rattle.tpm_commands.specs.Shape.{is_sized};

    /// Whether a parameter of this kind is a sized buffer, a TPM2B.
    pub fn is_sized(self) -> bool
        ensures { result ≡ is_sized self }
    {
        match self {
            ParameterKind::Buffer(_)
            | ParameterKind::SensitiveCreate
            | ParameterKind::Public
            | ParameterKind::NvPublic => true,
            ParameterKind::StartupType
            | ParameterKind::SessionType
            | ParameterKind::U8
            | ParameterKind::U16
            | ParameterKind::U32
            | ParameterKind::U64
            | ParameterKind::Hash
            | ParameterKind::HashOrNull
            | ParameterKind::Symmetric
            | ParameterKind::Selection
            | ParameterKind::Digests
            | ParameterKind::DigestList
            | ParameterKind::Operation
            | ParameterKind::PersistentHandle
            | ParameterKind::Hierarchy
            | ParameterKind::AlgorithmList
            | ParameterKind::PublicParameters
            | ParameterKind::YesNo => false,
        }
    }
}

/// Every fact about a command except its number, its name and its effect.
#[derive(Clone, Copy)]
pub struct Shape {
    pub handles: &'static [HandleRule],
    pub parameters: &'static [ParameterKind],
    /// Whether the first parameter of the response is a sized buffer.
    pub sized_answer: bool,
    /// Whether a handle precedes the response's parameters.
    pub answers_handle: bool,
    /// Whether the command forbids an authorization area.
    pub forbids_sessions: bool,
    /// Whether the command may allocate memory, and therefore can run out of memory.
    pub grows: bool,
    /// Whether the command, if an NV index authorizes it, reads that index. If false, the command
    /// writes the index, or administers it in the role ADMIN.
    pub reads_nv: bool,
    /// Whether the command, if it succeeds, preserves the state that TPM2_Shutdown saved. If false,
    /// the command's success discards that state.
    pub keeps_shutdown: bool,
    /// Whether only a device of the complete profile serves the command.
    pub complete_only: bool,
}
