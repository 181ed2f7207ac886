//! The ways in which a command can use the NV index that authorizes it: reading, writing or
//! administering the index.

/// How a command uses the NV index that authorizes it. This use determines which attributes of the
/// index must allow the command (TPM 2.0 Library, Part 2, section 13.4, TPMA_NV).
#[derive(Clone, Copy, PartialEq, Eq)]
pub enum NvUse {
    /// The command reads the index, like TPM2_NV_Read.
    Read,
    /// The command writes the index, like TPM2_NV_Write.
    Write,
    /// The index authorizes the command in the role ADMIN.
    Administer,
}
