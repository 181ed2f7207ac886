//! The numbers of the commands and response codes that the layer uses. TPM 2.0 Library, Part 2,
//! sections 6.5 (TPM_CC) and 6.6 (TPM_RC).

pub const SEQUENCE_COMPLETE: u32 = 0x13e;

pub const INCREMENTAL_SELF_TEST: u32 = 0x142;

pub const STIR_RANDOM: u32 = 0x146;

pub const HMAC: u32 = 0x155;

pub const HMAC_START: u32 = 0x15b;

pub const SEQUENCE_UPDATE: u32 = 0x15c;

pub const CONTEXT_LOAD: u32 = 0x161;

pub const CONTEXT_SAVE: u32 = 0x162;

pub const FLUSH_CONTEXT: u32 = 0x165;

pub const GET_CAPABILITY: u32 = 0x17a;

pub const GET_RANDOM: u32 = 0x17b;

pub const GET_TEST_RESULT: u32 = 0x17c;

pub const HASH: u32 = 0x17d;

pub const PCR_EXTEND: u32 = 0x182;

pub const EVENT_SEQUENCE_COMPLETE: u32 = 0x185;

pub const HASH_SEQUENCE_START: u32 = 0x186;

pub const TEST_PARMS: u32 = 0x18a;

pub const SUCCESS: u32 = 0;

pub const VALUE: u32 = 0x084;

pub const AUTH_MISSING: u32 = 0x125;

pub const TOO_MANY_CONTEXTS: u32 = 0x12e;

pub const COMMAND_CODE: u32 = 0x143;

pub const VALUE_OF_HANDLE_1: u32 = 0x184;

pub const VALUE_OF_PARAMETER_1: u32 = 0x1c4;

pub const HANDLE_OF_PARAMETER_1: u32 = 0x1cb;

pub const INTEGRITY_OF_PARAMETER_1: u32 = 0x1df;

pub const OBJECT_MEMORY: u32 = 0x902;

pub const MEMORY: u32 = 0x904;

pub const REFERENCE_H0: u32 = 0x910;
