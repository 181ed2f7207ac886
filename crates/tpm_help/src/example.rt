//! An example of each command in words.

use tpm_commands::CommandCode;

/// An example of a command in words, without the command's name and the space after it. It assumes
/// that the object 80000000, the session 03000000 and the NV index 01000000 exist.
pub fn example_of(code: CommandCode) -> &'static str {
    match code {
        CommandCode::EvictControl => "OWNER 80000000 pw:- 0x81000001",
        CommandCode::NvUndefineSpace => "OWNER 01000000 pw:-",
        CommandCode::Clear => "LOCKOUT pw:-",
        CommandCode::ClearControl => "LOCKOUT pw:- 1",
        CommandCode::ClockSet => "OWNER pw:- 1000",
        CommandCode::ClockRateAdjust => "OWNER pw:- 1",
        CommandCode::HierarchyChangeAuth => "OWNER pw:- 616263",
        CommandCode::NvDefineSpace => "OWNER pw:- - 01000000000b0004000400000008",
        CommandCode::CreatePrimary => {
            "OWNER pw:- 00000000 0025000b0003007200000006008000430000 - -"
        }
        CommandCode::NvIncrement => "OWNER 01000000 pw:-",
        CommandCode::NvSetBits => "OWNER 01000000 pw:- 0x5",
        CommandCode::NvExtend => "OWNER 01000000 pw:- 616263",
        CommandCode::NvWrite => "OWNER 01000000 pw:- 0011223344556677 0",
        CommandCode::NvWriteLock => "OWNER 01000000 pw:-",
        CommandCode::DictionaryAttackLockReset => "LOCKOUT pw:-",
        CommandCode::DictionaryAttackParameters => "LOCKOUT pw:- 3 1000 1000",
        CommandCode::NvChangeAuth => "01000000 s:03000000:-:01:- 616263",
        CommandCode::PcrEvent => "00000010 pw:- 616263",
        CommandCode::PcrReset => "00000010 pw:-",
        CommandCode::IncrementalSelfTest => "0x4+0xb",
        CommandCode::SelfTest => "1",
        CommandCode::Startup => "0",
        CommandCode::Shutdown => "0",
        CommandCode::StirRandom => "616263",
        CommandCode::PolicyNv => "OWNER 01000000 03000000 pw:- 00 0 0",
        CommandCode::NvRead => "OWNER 01000000 pw:- 8 0",
        CommandCode::NvReadLock => "OWNER 01000000 pw:-",
        CommandCode::PolicySecret => "OWNER 03000000 pw:- - - - 0",
        CommandCode::Create => "80000000 pw:- 00000003616263 0008000b00000052000000100000 - -",
        CommandCode::Hmac => "80000000 pw:- 616263 sha256",
        CommandCode::Load => "80000000 pw:- - 0008000b00000052000000100000",
        CommandCode::Unseal => "80000000 pw:-",
        CommandCode::FlushContext => "0x80000000",
        CommandCode::NvReadPublic => "01000000",
        CommandCode::PolicyAuthValue => "03000000",
        CommandCode::PolicyCommandCode => "03000000 0x15e",
        CommandCode::PolicyCpHash => {
            "03000000 e3b0c44298fc1c149afbf4c8996fb92427ae41e4649b934ca495991b7852b855"
        }
        CommandCode::PolicyLocality => "03000000 1",
        CommandCode::PolicyOr => {
            "03000000 0000000000000000000000000000000000000000000000000000000000000000\
             +e3b0c44298fc1c149afbf4c8996fb92427ae41e4649b934ca495991b7852b855"
        }
        CommandCode::ReadPublic => "80000000",
        CommandCode::StartAuthSession => {
            "NULL NULL 000102030405060708090a0b0c0d0e0f - 0 null sha256"
        }
        CommandCode::GetCapability => "6 0x100 1",
        CommandCode::GetRandom => "16",
        CommandCode::GetTestResult => "",
        CommandCode::Hash => "616263 sha256 NULL",
        CommandCode::PcrRead => "sha256:0,7",
        CommandCode::PolicyPcr => "03000000 - sha256:7",
        CommandCode::PolicyRestart => "03000000",
        CommandCode::ReadClock => "",
        CommandCode::PcrExtend => {
            "0000000a pw:- sha256:e3b0c44298fc1c149afbf4c8996fb92427ae41e4649b934ca495991b7852b855"
        }
        CommandCode::PolicyGetDigest => "03000000",
        CommandCode::TestParms => "00080005000b",
        CommandCode::PolicyPassword => "03000000",
        CommandCode::PolicyNvWritten => "03000000 1",
    }
}
