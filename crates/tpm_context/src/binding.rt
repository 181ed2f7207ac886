//! The numbers to which a context is bound.

/// The numbers to which a context is bound, in addition to the proof of its hierarchy. A context
/// can be loaded only while these numbers are the same as when it was saved.
#[derive(Clone, Copy, PartialEq, Eq)]
pub struct Binding {
    /// A number that the caller chose for this start of the completing layer.
    pub start: u64,
    /// The device's count of TPM Resets. The context does not outlive a TPM Reset.
    pub reset_count: u32,
    /// The device's count of TPM Restarts. Only contexts of objects with stClear are bound to it;
    /// they do not outlive a TPM Restart.
    pub restart_count: u32,
}
