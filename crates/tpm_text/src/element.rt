//! The elements of lists in words: selected PCRs, digests with their hash algorithm, digests without
//! an algorithm, or algorithms.

/// The kinds of elements in a list.
#[derive(Clone, Copy, PartialEq, Eq)]
pub enum Element {
    /// The PCR selection for one bank: TPMS_PCR_SELECTION.
    Bank,
    /// A digest with its hash algorithm: TPMT_HA.
    Digest,
    /// A digest as a sized buffer: TPM2B_DIGEST.
    Buffer,
    /// The number of an algorithm: TPM_ALG_ID.
    Algorithm,
}
