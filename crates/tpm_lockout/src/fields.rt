//! The counts and parameters of dictionary attack protection that survive a power cycle and are
//! therefore saved in an image.

/// The state of dictionary attack protection that survives a power cycle.
#[derive(Clone, Copy, PartialEq, Eq)]
pub struct LockoutFields {
    /// The number of failed tries that have not been forgiven yet (TPM_PT_LOCKOUT_COUNTER).
    pub failed_tries: u32,
    /// The number of failed tries at which the protected entities are locked out
    /// (TPM_PT_MAX_AUTH_FAIL).
    pub max_tries: u32,
    /// The number of seconds after which one failed try is forgiven (TPM_PT_LOCKOUT_INTERVAL). If
    /// this is 0, failed tries are not counted, and do not lock out anything.
    pub recovery_time: u32,
    /// The number of seconds for which a failed attempt to authorize with lockoutAuth disables it
    /// (TPM_PT_LOCKOUT_RECOVERY). If this is 0, lockoutAuth stays disabled until a TPM Reset.
    pub lockout_recovery: u32,
    /// Whether lockoutAuth is disabled.
    pub closed: bool,
}
