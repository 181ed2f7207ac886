//! This device's limits on memory and data, which the standard leaves to the implementer. Other
//! sizes, such as the size of the longest image, are computed from these constants. The bounds of a
//! single structure are defined with that structure. `specs/Limits.antt` defines the same numbers
//! for the specification.

ghost use Rattle.std.specs.Prelude.{◌≡◌};
ghost use Rattle.tpm_types_common.specs.Limits.{answer_limit, buffer_limit, data_limit, nv_data_limit, nv_index_limit, nv_space_limit, object_limit, persistent_limit, sensitive_limit, session_limit};

/// The maximum size in bytes of a command buffer and of a response.
pub const BUFFER_LIMIT: usize = 4_096;

/// The maximum size in bytes of the data that one command accepts or returns: MAX_NV_BUFFER_SIZE
/// and MAX_DIGEST_BUFFER.
pub const DATA_LIMIT: usize = 1_024;

/// The maximum size in bytes of a response's parameters. TPM2_NV_Read returns the longest
/// parameters: a sized buffer of `DATA_LIMIT` bytes.
pub const ANSWER_LIMIT: usize = DATA_LIMIT + 2;

/// The maximum size in bytes of an object's secret: a key, or sealed data (MAX_SYM_DATA).
pub const SENSITIVE_LIMIT: usize = 128;

/// The maximum number of sessions, of all types together.
pub const SESSION_LIMIT: usize = 16;

/// The maximum number of transient objects.
pub const OBJECT_LIMIT: usize = 8;

/// The maximum number of persistent objects.
pub const PERSISTENT_LIMIT: usize = 16;

/// The maximum number of NV indices.
pub const NV_INDEX_LIMIT: usize = 64;

/// The maximum total size in bytes of the data of all NV indices.
pub const NV_SPACE_LIMIT: usize = 16_384;

/// The maximum size in bytes of the data of one ordinary NV index.
pub const NV_DATA_LIMIT: usize = 2_048;

/// Each constant equals the number in `specs/Limits.antt`. This function is only a proof: it has no
/// effect at run time.
#[inline(always)]
pub fn limit_laws()
    ensures buffer { BUFFER_LIMIT ≡ buffer_limit }
    ensures data { DATA_LIMIT ≡ data_limit }
    ensures answer { ANSWER_LIMIT ≡ answer_limit }
    ensures sensitive { SENSITIVE_LIMIT ≡ sensitive_limit }
    ensures sessions { SESSION_LIMIT ≡ session_limit }
    ensures objects { OBJECT_LIMIT ≡ object_limit }
    ensures persistent { PERSISTENT_LIMIT ≡ persistent_limit }
    ensures indices { NV_INDEX_LIMIT ≡ nv_index_limit }
    ensures space { NV_SPACE_LIMIT ≡ nv_space_limit }
    ensures index { NV_DATA_LIMIT ≡ nv_data_limit }
{}
