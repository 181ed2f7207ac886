//! The supported commands and the facts about each: its number (TPM_CC; TPM 2.0 Library, Part 2,
//! section 6.5.2), its name, and its [`Shape`], which contains all other facts.

ghost use Rattle.std.specs.Prelude.{◌≡◌, ◌≤◌, ◌==◌, IfSome, Some, length, true};

use crate::shape::ParameterKind::{
    AlgorithmList, Buffer, DigestList, Digests, Hash, HashOrNull, Hierarchy, NvPublic, Operation,
    PersistentHandle, Public, PublicParameters, Selection, SensitiveCreate, SessionType,
    StartupType, Symmetric, U8, U16, U32, U64, YesNo,
};
use crate::shape::{HandleKind, HandleRule, ParameterKind, Shape};
use tpm_types_common::{DATA_LIMIT, NvUse, Role};

/// The commands of both profiles, in ascending order of number. Each line of `facts!` contains all
/// facts about one command.
#[derive(Clone, Copy, PartialEq, Eq)]
pub enum CommandCode {
    EvictControl,
    NvUndefineSpace,
    Clear,
    ClearControl,
    ClockSet,
    HierarchyChangeAuth,
    NvDefineSpace,
    ClockRateAdjust,
    CreatePrimary,
    NvIncrement,
    NvSetBits,
    NvExtend,
    NvWrite,
    NvWriteLock,
    DictionaryAttackLockReset,
    DictionaryAttackParameters,
    NvChangeAuth,
    PcrEvent,
    PcrReset,
    IncrementalSelfTest,
    SelfTest,
    Startup,
    Shutdown,
    StirRandom,
    PolicyNv,
    NvRead,
    NvReadLock,
    PolicySecret,
    Create,
    Hmac,
    Load,
    Unseal,
    FlushContext,
    NvReadPublic,
    PolicyAuthValue,
    PolicyCommandCode,
    PolicyCpHash,
    PolicyLocality,
    PolicyOr,
    ReadPublic,
    StartAuthSession,
    GetCapability,
    GetRandom,
    GetTestResult,
    Hash,
    PcrRead,
    PolicyPcr,
    PolicyRestart,
    ReadClock,
    PcrExtend,
    PolicyGetDigest,
    TestParms,
    PolicyPassword,
    PolicyNvWritten,
}

const USER_PCR: HandleRule = HandleRule {
    kind: HandleKind::Pcr,
    role: Some(Role::User),
};

const USER_PCR_OR_NULL: HandleRule = HandleRule {
    kind: HandleKind::PcrOrNull,
    role: Some(Role::User),
};

const USER_HIERARCHY_AUTH: HandleRule = HandleRule {
    kind: HandleKind::HierarchyAuth,
    role: Some(Role::User),
};

const USER_LOCKOUT: HandleRule = HandleRule {
    kind: HandleKind::Lockout,
    role: Some(Role::User),
};

const USER_CLEAR: HandleRule = HandleRule {
    kind: HandleKind::Clear,
    role: Some(Role::User),
};

const NULL: HandleRule = HandleRule {
    kind: HandleKind::Null,
    role: None,
};

const ENTITY: HandleRule = HandleRule {
    kind: HandleKind::Entity,
    role: None,
};

const USER_ENTITY: HandleRule = HandleRule {
    kind: HandleKind::EntityNotNull,
    role: Some(Role::User),
};

const USER_HIERARCHY: HandleRule = HandleRule {
    kind: HandleKind::Hierarchy,
    role: Some(Role::User),
};

const USER_OBJECT: HandleRule = HandleRule {
    kind: HandleKind::Object,
    role: Some(Role::User),
};

const OBJECT: HandleRule = HandleRule {
    kind: HandleKind::Object,
    role: None,
};

const USER_PROVISION: HandleRule = HandleRule {
    kind: HandleKind::Provision,
    role: Some(Role::User),
};

const USER_NV_AUTH: HandleRule = HandleRule {
    kind: HandleKind::NvAuth,
    role: Some(Role::User),
};

const ADMIN_NV_INDEX: HandleRule = HandleRule {
    kind: HandleKind::NvIndex,
    role: Some(Role::Admin),
};

const NV_INDEX: HandleRule = HandleRule {
    kind: HandleKind::NvIndex,
    role: None,
};

const POLICY_SESSION: HandleRule = HandleRule {
    kind: HandleKind::PolicySession,
    role: None,
};

/// The maximum size, in bytes, of the data that a command accepts.
const DATA_SIZE: u16 = DATA_LIMIT as u16;

/// The parameters of TPM2_CreatePrimary and TPM2_Create: inSensitive, inPublic, outsideInfo,
/// creationPCR.
const CREATE: &[ParameterKind] = &[SensitiveCreate, Public, Buffer(34), Selection];

/// The parameters of TPM2_Load: inPrivate, inPublic.
const LOAD: &[ParameterKind] = &[Buffer(256), Public];

/// The parameters of TPM2_PolicySecret: nonceTPM, cpHashA, policyRef, expiration.
const SECRET: &[ParameterKind] = &[Buffer(32), Buffer(32), Buffer(32), U32];

/// The parameters of TPM2_PolicyNV: operandB, offset, operation.
const COMPARED: &[ParameterKind] = &[Buffer(32), U16, Operation];

/// The parameters of TPM2_Hash: data, hashAlg, hierarchy.
const HASHED: &[ParameterKind] = &[Buffer(DATA_SIZE), Hash, Hierarchy];

/// The parameters of TPM2_StartAuthSession: nonceCaller, encryptedSalt, sessionType, symmetric,
/// authHash.
const START: &[ParameterKind] = &[Buffer(32), Buffer(32), SessionType, Symmetric, Hash];

/// Expands to `true` if the list contains the named fact, and to `false` otherwise.
macro_rules! holds {
    (sized_answer: sized_answer $($rest:ident)*) => { true };
    (answers_handle: answers_handle $($rest:ident)*) => { true };
    (forbids_sessions: forbids_sessions $($rest:ident)*) => { true };
    (grows: grows $($rest:ident)*) => { true };
    (reads_nv: reads_nv $($rest:ident)*) => { true };
    (keeps_shutdown: keeps_shutdown $($rest:ident)*) => { true };
    (complete_only: complete_only $($rest:ident)*) => { true };
    ($fact:ident: $other:ident $($rest:ident)*) => { holds!($fact: $($rest)*) };
    ($fact:ident:) => { false };
}

/// A shape with these handles and parameters. Of the other facts, only the listed facts are true.
macro_rules! shape {
    ([$($handle:expr),*], $parameters:expr $(, $fact:ident)*) => {
        Shape {
            handles: &[$($handle),*],
            parameters: $parameters,
            sized_answer: holds!(sized_answer: $($fact)*),
            answers_handle: holds!(answers_handle: $($fact)*),
            forbids_sessions: holds!(forbids_sessions: $($fact)*),
            grows: holds!(grows: $($fact)*),
            reads_nv: holds!(reads_nv: $($fact)*),
            keeps_shutdown: holds!(keeps_shutdown: $($fact)*),
            complete_only: holds!(complete_only: $($fact)*),
        }
    };
}

/// Whether only a device of the complete profile serves a command with these facts.
macro_rules! complete_only {
    ([$($handle:expr),*], $parameters:expr $(, $fact:ident)*) => { holds!(complete_only: $($fact)*) };
}

/// Expands to one column of the table `facts!`: all commands; the number, name or shape of a
/// command; or the command with a given number.
macro_rules! column {
    (all; $($number:literal $variant:ident $name:literal $shape:tt)*) => {
        [$(CommandCode::$variant),*]
    };
    (number of $code:expr; $($number:literal $variant:ident $name:literal $shape:tt)*) => {
        match $code { $(CommandCode::$variant => $number,)* }
    };
    (code of $code:expr; $($number:literal $variant:ident $name:literal $shape:tt)*) => {
        match $code { $($number => Some(CommandCode::$variant),)* _ => None }
    };
    (name of $code:expr; $($number:literal $variant:ident $name:literal $shape:tt)*) => {
        match $code { $(CommandCode::$variant => $name,)* }
    };
    (complete_only of $code:expr; $($number:literal $variant:ident $name:literal $shape:tt)*) => {
        match $code { $(CommandCode::$variant => complete_only! $shape,)* }
    };
    (shape of $code:expr; $($number:literal $variant:ident $name:literal $shape:tt)*) => {
        match $code { $(CommandCode::$variant => shape! $shape,)* }
    };
}

/// The table of commands, in ascending order of number. Each line contains a command's number, its
/// variant, its name and its shape. The name is the title of the command's section of TPM 2.0
/// Library, Part 3, without "TPM2_".
macro_rules! facts {
    ($($asked:tt)*) => {
        column! {
            $($asked)*;
            0x120 EvictControl "EvictControl" ([USER_PROVISION, OBJECT], &[PersistentHandle], grows)
            0x122 NvUndefineSpace "NV_UndefineSpace" ([USER_PROVISION, NV_INDEX], &[])
            0x126 Clear "Clear" ([USER_CLEAR], &[])
            0x127 ClearControl "ClearControl" ([USER_CLEAR], &[YesNo])
            0x128 ClockSet "ClockSet" ([USER_PROVISION], &[U64], complete_only)
            0x129 HierarchyChangeAuth "HierarchyChangeAuth" ([USER_HIERARCHY_AUTH], &[Buffer(32)])
            0x12a NvDefineSpace "NV_DefineSpace" ([USER_PROVISION], &[Buffer(32), NvPublic], grows)
            0x130 ClockRateAdjust "ClockRateAdjust"
                ([USER_PROVISION], &[U8], keeps_shutdown, complete_only)
            0x131 CreatePrimary "CreatePrimary"
                ([USER_HIERARCHY], CREATE, sized_answer, answers_handle, grows)
            0x134 NvIncrement "NV_Increment" ([USER_NV_AUTH, NV_INDEX], &[])
            0x135 NvSetBits "NV_SetBits" ([USER_NV_AUTH, NV_INDEX], &[U64])
            0x136 NvExtend "NV_Extend" ([USER_NV_AUTH, NV_INDEX], &[Buffer(DATA_SIZE)])
            0x137 NvWrite "NV_Write" ([USER_NV_AUTH, NV_INDEX], &[Buffer(DATA_SIZE), U16])
            0x138 NvWriteLock "NV_WriteLock" ([USER_NV_AUTH, NV_INDEX], &[])
            0x139 DictionaryAttackLockReset "DictionaryAttackLockReset" ([USER_LOCKOUT], &[])
            0x13a DictionaryAttackParameters "DictionaryAttackParameters"
                ([USER_LOCKOUT], &[U32, U32, U32])
            0x13b NvChangeAuth "NV_ChangeAuth" ([ADMIN_NV_INDEX], &[Buffer(32)])
            0x13c PcrEvent "PCR_Event" ([USER_PCR_OR_NULL], &[Buffer(DATA_SIZE)])
            0x13d PcrReset "PCR_Reset" ([USER_PCR], &[])
            0x142 IncrementalSelfTest "IncrementalSelfTest"
                ([], &[AlgorithmList], keeps_shutdown, complete_only)
            0x143 SelfTest "SelfTest" ([], &[YesNo], keeps_shutdown)
            0x144 Startup "Startup" ([], &[StartupType], forbids_sessions)
            0x145 Shutdown "Shutdown" ([], &[StartupType], keeps_shutdown)
            0x146 StirRandom "StirRandom" ([], &[Buffer(128)], keeps_shutdown, complete_only)
            0x149 PolicyNv "PolicyNV" ([USER_NV_AUTH, NV_INDEX, POLICY_SESSION], COMPARED, reads_nv)
            0x14e NvRead "NV_Read"
                ([USER_NV_AUTH, NV_INDEX], &[U16, U16], sized_answer, reads_nv, keeps_shutdown)
            0x14f NvReadLock "NV_ReadLock" ([USER_NV_AUTH, NV_INDEX], &[], reads_nv)
            0x151 PolicySecret "PolicySecret"
                ([USER_ENTITY, POLICY_SESSION], SECRET, sized_answer, reads_nv)
            0x153 Create "Create" ([USER_OBJECT], CREATE, sized_answer, keeps_shutdown)
            0x155 Hmac "HMAC"
                ([USER_OBJECT], &[Buffer(DATA_SIZE), HashOrNull], sized_answer, keeps_shutdown)
            0x157 Load "Load" ([USER_OBJECT], LOAD, sized_answer, answers_handle, grows)
            0x15e Unseal "Unseal" ([USER_OBJECT], &[], sized_answer, keeps_shutdown)
            0x165 FlushContext "FlushContext" ([], &[U32], forbids_sessions)
            0x169 NvReadPublic "NV_ReadPublic" ([NV_INDEX], &[], sized_answer, keeps_shutdown)
            0x16b PolicyAuthValue "PolicyAuthValue" ([POLICY_SESSION], &[])
            0x16c PolicyCommandCode "PolicyCommandCode" ([POLICY_SESSION], &[U32])
            0x16e PolicyCpHash "PolicyCpHash" ([POLICY_SESSION], &[Buffer(32)])
            0x16f PolicyLocality "PolicyLocality" ([POLICY_SESSION], &[U8])
            0x171 PolicyOr "PolicyOR" ([POLICY_SESSION], &[DigestList])
            0x173 ReadPublic "ReadPublic" ([OBJECT], &[], sized_answer, keeps_shutdown)
            0x176 StartAuthSession "StartAuthSession"
                ([NULL, ENTITY], START, sized_answer, answers_handle, grows)
            0x17a GetCapability "GetCapability" ([], &[U32, U32, U32], keeps_shutdown)
            0x17b GetRandom "GetRandom" ([], &[U16], sized_answer, keeps_shutdown)
            0x17c GetTestResult "GetTestResult"
                ([], &[], sized_answer, keeps_shutdown, complete_only)
            0x17d Hash "Hash" ([], HASHED, sized_answer, keeps_shutdown, complete_only)
            0x17e PcrRead "PCR_Read" ([], &[Selection], keeps_shutdown)
            0x17f PolicyPcr "PolicyPCR" ([POLICY_SESSION], &[Buffer(32), Selection])
            0x180 PolicyRestart "PolicyRestart" ([POLICY_SESSION], &[])
            0x181 ReadClock "ReadClock" ([], &[], forbids_sessions, keeps_shutdown)
            0x182 PcrExtend "PCR_Extend" ([USER_PCR_OR_NULL], &[Digests])
            0x189 PolicyGetDigest "PolicyGetDigest"
                ([POLICY_SESSION], &[], sized_answer, keeps_shutdown)
            0x18a TestParms "TestParms" ([], &[PublicParameters], keeps_shutdown, complete_only)
            0x18c PolicyPassword "PolicyPassword" ([POLICY_SESSION], &[])
            0x18f PolicyNvWritten "PolicyNvWritten" ([POLICY_SESSION], &[YesNo])
        }
    };
}

impl CommandCode {
    ghost use Rattle.tpm_commands.specs.CommandCode.{authorized_handles, code_called, code_name, code_named, code_number, handle_count, has_sized_parameter, nv_use_at, role_at, shape_of};
    ghost use Rattle.tpm_commands.specs.Shape.{facts_of};

    /// All supported commands, in ascending order of number.
    pub const ALL: &'static [CommandCode] = &facts!(all);

    /// The wire number of the command.
    #[tactic(auto, unfolding(crate::specs::CommandCode::code_named))]
    pub fn number(self) -> u32
        ensures value { result ≡ code_number self }
        // Looking up the number finds this command.
        ensures again { code_named result ≡ Some self }
    {
        facts!(number of self)
    }

    /// The command with this number, or None if it is not supported.
    #[tactic(auto, using(crate::proofs::Codes::codes), unfolding(crate::specs::CommandCode::code_named))]
    pub fn named(number: u32) -> Option<CommandCode>
        ensures value { result ≡ code_named number }
        // The returned command has this number.
        ensures found { IfSome result (λ code. code_number code ≡ number) }
    {
        facts!(code of number)
    }

    /// The name of the command, which is unique.
    #[tactic(auto, unfolding(crate::specs::CommandCode::code_called))]
    pub fn name(self) -> &'static str
        ensures value { result.now ≡ code_name self }
        // Looking up the name finds this command.
        ensures again { code_called (code_name self) ≡ Some self }
        ensures short { length result.now ≤ 26 }
    {
        facts!(name of self)
    }

    /// The command with this name, or None if it is not supported.
    #[tactic(auto, unfolding(crate::specs::CommandCode::code_called))]
    pub fn called(name: &[u8]) -> Option<CommandCode>
        ensures { result ≡ code_called name.now }
    {
        CommandCode::ALL
            .iter()
            .copied()
            .find(|code| name == code.name().as_bytes())
    }

    /// The shape of the command: every fact except its number, its name and its effect.
    #[tactic(auto, unfolding(crate::specs::CommandCode::shape_of))]
    pub fn shape(self) -> Shape
        ensures value { facts_of result ≡ shape_of self }
        ensures few { length result.handles.now ≤ 3 }
    {
        facts!(shape of self)
    }

    /// Whether only a device of the complete profile serves the command.
    #[tactic(auto, unfolding(crate::specs::CommandCode::shape_of))]
    pub fn is_complete_only(self) -> bool
        ensures { result ≡ (shape_of self).complete_only }
    {
        facts!(complete_only of self)
    }

    /// The number of handles after the command's header.
    pub fn handle_count(self) -> usize
        ensures value { result ≡ handle_count self }
        ensures few { result ≤ 3 }
    {
        self.shape().handles.len()
    }

    /// The number of the command's handles that need authorization.
    pub fn authorized_handles(self) -> usize
        ensures value { result ≡ authorized_handles self }
        ensures within { result ≤ handle_count self }
    {
        self.shape()
            .handles
            .iter()
            .filter(|rule| rule.role.is_some())
            .count()
    }

    /// The role in which the handle at this position (counted from 0) is authorized, or USER if it
    /// needs no authorization.
    pub fn role_at(self, place: usize) -> Role
        ensures { result ≡ role_at self place }
    {
        match self.shape().handles.get(place) {
            Some(rule) => rule.role.unwrap_or(Role::User),
            None => Role::User,
        }
    }

    /// How the command uses the NV index that the handle at this position (counted from 0) names,
    /// if that index authorizes the command.
    pub fn nv_use_at(self, place: usize) -> NvUse
        ensures { result ≡ nv_use_at self place }
    {
        match self.role_at(place) {
            Role::Admin => NvUse::Administer,
            Role::User if self.shape().reads_nv => NvUse::Read,
            Role::User => NvUse::Write,
        }
    }

    /// Whether the command's first parameter is a sized buffer, which a session can encrypt.
    pub fn has_sized_parameter(self) -> bool
        ensures { result ≡ has_sized_parameter self }
    {
        match self.shape().parameters {
            [first, ..] => first.is_sized(),
            [] => false,
        }
    }
}
