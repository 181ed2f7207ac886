//! The commands by which three clients change PCR 16.

use super::commands::{Command, Field, Step};
use super::rows::{EMPTY_PASSWORD, SUCCESS};

const PCR_16: &[Field] = &[Field::Hex("00000010")];

/// The count of one digest, and TPM_ALG_SHA256.
const ONE_SHA256: Field = Field::Hex("00000001000b");

const EXTEND_BY_1: Command = Command {
    code: 0x182,
    handles: PCR_16,
    authorization: EMPTY_PASSWORD,
    parameters: &[ONE_SHA256, Field::Repeated(1, 32)],
};

/// TPM2_PCR_Extend of both banks.
const EXTEND_BY_4: Command = Command {
    code: 0x182,
    handles: PCR_16,
    authorization: EMPTY_PASSWORD,
    parameters: &[
        // digests: count, TPM_ALG_SHA1, digest
        Field::Hex("00000002"),
        Field::Hex("0004"),
        Field::Repeated(4, 20),
        // TPM_ALG_SHA256, digest
        Field::Hex("000b"),
        Field::Repeated(4, 32),
    ],
};

const EXTEND_BY_5: Command = Command {
    code: 0x182,
    handles: PCR_16,
    authorization: EMPTY_PASSWORD,
    parameters: &[ONE_SHA256, Field::Repeated(5, 32)],
};

const EVENT_2: Command = Command {
    code: 0x13c,
    handles: PCR_16,
    authorization: EMPTY_PASSWORD,
    parameters: &[Field::Hex("000102")],
};

const EVENT_3: Command = Command {
    code: 0x13c,
    handles: PCR_16,
    authorization: EMPTY_PASSWORD,
    parameters: &[Field::Hex("000103")],
};

const RESET: Command = Command {
    code: 0x13d,
    handles: PCR_16,
    authorization: EMPTY_PASSWORD,
    parameters: &[],
};

/// The measurements of the first client, the second and the third.
pub const FIRST: &[Step] = &[(EXTEND_BY_1, 0x11, SUCCESS), (EVENT_2, 0x12, SUCCESS)];

pub const SECOND: &[Step] = &[(EVENT_3, 0x21, SUCCESS), (RESET, 0x22, SUCCESS)];

pub const THIRD: &[Step] = &[(EXTEND_BY_4, 0x31, SUCCESS), (EXTEND_BY_5, 0x32, SUCCESS)];
