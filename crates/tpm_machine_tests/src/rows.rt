//! The commands that three clients of one device send, with the expected responses. The first
//! client extends PCR 10. The second client unseals data with a policy on PCR 10. The third client
//! writes an NV index in an HMAC session, and sends one buffer again. Python's `hmac` and `hashlib`
//! computed the HMAC.

use super::commands::{
    Answer, Authorization, Command, Field, POLICY_GET_DIGEST, START_AUTH_SESSION, Step,
};

const PCR_EXTEND: u32 = 0x182;

const NV_WRITE: u32 = 0x137;

pub const EMPTY_PASSWORD: Authorization = Authorization::Password("");

/// The responseCode TPM_RC_SUCCESS.
pub const SUCCESS: Answer = Answer::Begins("00000000");

// ---- the first client

/// One SHA-256 digest, of zeros.
const ONE_DIGEST: &[Field] = &[
    // digests: count, TPM_ALG_SHA256, digest
    Field::Hex("00000001"),
    Field::Hex("000b"),
    Field::Repeated(0, 32),
];

const EXTEND_PCR_10: Command = Command {
    code: PCR_EXTEND,
    handles: &[Field::Hex("0000000a")],
    authorization: EMPTY_PASSWORD,
    parameters: ONE_DIGEST,
};

/// TPM2_PCR_Extend of TPM_RH_NULL, which changes nothing.
const EXTEND_NULL: Command = Command {
    code: PCR_EXTEND,
    handles: &[Field::Hex("40000007")],
    authorization: EMPTY_PASSWORD,
    parameters: ONE_DIGEST,
};

const EXTEND_PCR_17: Command = Command {
    code: PCR_EXTEND,
    handles: &[Field::Hex("00000011")],
    authorization: EMPTY_PASSWORD,
    parameters: ONE_DIGEST,
};

const READ_PCR_10: Command = Command {
    code: 0x17e,
    handles: &[],
    authorization: Authorization::None,
    parameters: &[
        // pcrSelectionIn: count, TPM_ALG_SHA256, sizeofSelect, pcrSelect
        Field::Hex("00000001"),
        Field::Hex("000b"),
        Field::Hex("03"),
        Field::Hex("000400"),
    ],
};

/// The response to TPM2_PCR_Read after PCR 10 has been extended once: responseCode,
/// pcrUpdateCounter 1, pcrSelectionOut, and the SHA-256 digest of 64 zeros.
const EXTENDED_ONCE: Answer = Answer::Begins(
    "000000000000000100000001000b03000400000000010020f5a5fd42d16a20302798ef6ed309979b43003d2320d9f0e8ea9831a92759fb4b",
);

/// TPM_RC_LOCALITY, since a command from locality 0 may not extend PCR 17.
const WRONG_LOCALITY: Answer = Answer::Begins("00000907");

/// The first client extends PCR 10 and reads it. Then it sends commands that change no PCR, and
/// extends PCR 10 again.
pub const EXTENDING: &[Step] = &[
    (EXTEND_PCR_10, 0x11, SUCCESS),
    (READ_PCR_10, 0x12, EXTENDED_ONCE),
    (EXTEND_NULL, 0x13, SUCCESS),
    (EXTEND_PCR_17, 0x14, WRONG_LOCALITY),
    (READ_PCR_10, 0x15, EXTENDED_ONCE),
    (EXTEND_PCR_17, 0x16, WRONG_LOCALITY),
    (EXTEND_NULL, 0x17, SUCCESS),
    (EXTEND_PCR_10, 0x18, SUCCESS),
];

// ---- the second client

/// tpmKey and bind: TPM_RH_NULL.
const NO_KEY: &[Field] = &[Field::Hex("40000007"), Field::Hex("40000007")];

/// The size of nonceCaller in TPM2_StartAuthSession.
const NONCE_SIZE: Field = Field::Hex("0010");

/// TPM2_StartAuthSession for a trial session that is neither salted nor bound.
const START_TRIAL: Command = Command {
    code: START_AUTH_SESSION,
    handles: NO_KEY,
    authorization: Authorization::None,
    parameters: &[
        // nonceCaller, encryptedSalt, TPM_SE_TRIAL, TPM_ALG_NULL, TPM_ALG_SHA256
        NONCE_SIZE,
        Field::Repeated(0, 16),
        Field::Hex("0000"),
        Field::Hex("03"),
        Field::Hex("0010"),
        Field::Hex("000b"),
    ],
};

/// TPM2_StartAuthSession for a policy session that is neither salted nor bound.
const START_POLICY: Command = Command {
    code: START_AUTH_SESSION,
    handles: NO_KEY,
    authorization: Authorization::None,
    parameters: &[
        // nonceCaller, encryptedSalt, TPM_SE_POLICY, TPM_ALG_NULL, TPM_ALG_SHA256
        NONCE_SIZE,
        Field::Repeated(0, 16),
        Field::Hex("0000"),
        Field::Hex("01"),
        Field::Hex("0010"),
        Field::Hex("000b"),
    ],
};

/// TPM2_PolicyPCR with the present value of PCR 10.
const POLICY_PCR: Command = Command {
    code: 0x17f,
    handles: &[Field::Session],
    authorization: Authorization::None,
    parameters: &[
        // pcrDigest: empty
        Field::Hex("0000"),
        // pcrs: count, TPM_ALG_SHA256, sizeofSelect, pcrSelect
        Field::Hex("00000001"),
        Field::Hex("000b"),
        Field::Hex("03"),
        Field::Hex("000400"),
    ],
};

const GET_DIGEST: Command = Command {
    code: POLICY_GET_DIGEST,
    handles: &[Field::Session],
    authorization: Authorization::None,
    parameters: &[],
};

/// TPM2_CreatePrimary of an object with sealed data, whose policy is the client's policy digest.
const SEAL: Command = Command {
    code: 0x131,
    // TPM_RH_OWNER
    handles: &[Field::Hex("40000001")],
    authorization: EMPTY_PASSWORD,
    parameters: &[
        // inSensitive: size, userAuth, and the data "the secret"
        Field::Hex("000e"),
        Field::Hex("0000"),
        Field::Hex("000a74686520736563726574"),
        // inPublic: size, TPM_ALG_KEYEDHASH, TPM_ALG_SHA256
        Field::Hex("002e"),
        Field::Hex("0008"),
        Field::Hex("000b"),
        // objectAttributes: fixedTPM, fixedParent, noDA
        Field::Hex("00000412"),
        // authPolicy
        Field::Hex("0020"),
        Field::PolicyDigest,
        // scheme TPM_ALG_NULL, unique
        Field::Hex("0010"),
        Field::Hex("0000"),
        // outsideInfo, creationPCR
        Field::Hex("0000"),
        Field::Hex("00000000"),
    ],
};

/// TPM2_FlushContext of the client's session.
const FLUSH: Command = Command {
    code: 0x165,
    handles: &[Field::Session],
    authorization: Authorization::None,
    parameters: &[],
};

/// TPM2_Unseal in the policy session.
const UNSEAL: Command = Command {
    code: 0x15e,
    handles: &[Field::Hex("80000000")],
    authorization: Authorization::Session {
        nonce_caller: 0xbb,
        hmac: "",
    },
    parameters: &[],
};

/// The response to TPM2_Unseal if no PCR has changed since TPM2_PolicyPCR: responseCode,
/// parameterSize, and the data.
pub const THE_SECRET: &str = "000000000000000c000a74686520736563726574";

/// TPM_RC_PCR_CHANGED, which is the response to TPM2_Unseal if a PCR has changed.
pub const PCR_CHANGED: &str = "00000128";

/// The second client seals data to the value of PCR 10, and unseals them.
pub const UNSEALING: &[Step] = &[
    (START_TRIAL, 0x21, SUCCESS),
    (POLICY_PCR, 0x22, SUCCESS),
    (GET_DIGEST, 0x23, SUCCESS),
    (SEAL, 0x24, SUCCESS),
    (FLUSH, 0x25, SUCCESS),
    (START_POLICY, 0x26, SUCCESS),
    (POLICY_PCR, 0x27, SUCCESS),
    (UNSEAL, 0x28, Answer::OfOrder),
];

// ---- the third client

/// TPM2_NV_DefineSpace of an index of eight bytes.
const DEFINE: Command = Command {
    code: 0x12a,
    // TPM_RH_OWNER
    handles: &[Field::Hex("40000001")],
    authorization: EMPTY_PASSWORD,
    parameters: &[
        // auth: "a"
        Field::Hex("000161"),
        // publicInfo: size, nvIndex, TPM_ALG_SHA256
        Field::Hex("000e"),
        Field::Hex("01000001"),
        Field::Hex("000b"),
        // attributes: AUTHWRITE, AUTHREAD
        Field::Hex("00040004"),
        // authPolicy, dataSize
        Field::Hex("0000"),
        Field::Hex("0008"),
    ],
};

/// authHandle and nvIndex.
const INDEX: &[Field] = &[Field::Hex("01000001"), Field::Hex("01000001")];

/// TPM2_NV_Write with the index's password.
const WRITE_BY_PASSWORD: Command = Command {
    code: NV_WRITE,
    handles: INDEX,
    authorization: Authorization::Password("61"),
    parameters: &[
        // data, offset
        Field::Hex("0008"),
        Field::Repeated(0, 8),
        Field::Hex("0000"),
    ],
};

/// TPM2_StartAuthSession for an HMAC session that is neither salted nor bound.
const START_HMAC: Command = Command {
    code: START_AUTH_SESSION,
    handles: NO_KEY,
    authorization: Authorization::None,
    parameters: &[
        // nonceCaller, encryptedSalt, TPM_SE_HMAC, TPM_ALG_NULL, TPM_ALG_SHA256
        NONCE_SIZE,
        Field::Repeated(0, 16),
        Field::Hex("0000"),
        Field::Hex("00"),
        Field::Hex("0010"),
        Field::Hex("000b"),
    ],
};

/// TPM2_NV_Write in the HMAC session. The HMAC's key is "a". It covers the Name of the written index
/// and nonceTPM, which is 0x33 repeated 16 times, but not the session's handle.
const WRITE_IN_SESSION: Command = Command {
    code: NV_WRITE,
    handles: INDEX,
    authorization: Authorization::Session {
        nonce_caller: 0xcc,
        hmac: "59fb28fde71f987c8f8b81162b8031bbab5dfdc09a2ed8139efc3d8c9d95a72c",
    },
    parameters: &[
        // data: "8 bytes."
        Field::Hex("0008382062797465732e"),
        // offset
        Field::Hex("0000"),
    ],
};

/// TPM_RC_AUTH_FAIL for the first entry of the authorization area.
const AUTH_FAIL: Answer = Answer::Begins("0000098e");

/// TPM2_GetCapability of TPM_PT_LOCKOUT_COUNTER.
const READ_FAILED_TRIES: Command = Command {
    code: 0x17a,
    handles: &[],
    authorization: Authorization::None,
    parameters: &[
        // TPM_CAP_TPM_PROPERTIES, property, propertyCount
        Field::Hex("00000006"),
        Field::Hex("0000020e"),
        Field::Hex("00000001"),
    ],
};

/// The response if failedTries is 1: responseCode, moreData, and the property.
const ONE_FAILED_TRY: Answer = Answer::Begins("000000000100000006000000010000020e00000001");

/// The third client writes an index in a session, and sends the same buffer again. It is refused,
/// since nonceTPM has changed. In a new session that starts with the same nonces, the buffer is
/// accepted again.
pub const REPLAYING: &[Step] = &[
    (DEFINE, 0x31, SUCCESS),
    (WRITE_BY_PASSWORD, 0x32, SUCCESS),
    (START_HMAC, 0x33, SUCCESS),
    (WRITE_IN_SESSION, 0x34, SUCCESS),
    (WRITE_IN_SESSION, 0x35, AUTH_FAIL),
    (READ_FAILED_TRIES, 0x36, ONE_FAILED_TRY),
    (FLUSH, 0x37, SUCCESS),
    (START_HMAC, 0x33, SUCCESS),
    (WRITE_IN_SESSION, 0x38, SUCCESS),
];
