//! The values that the host supplies for a command: its locality, the elapsed time, and random
//! bytes.

use tpm_types_common::Locality;

/// The values that the host supplies for a command: its locality, the milliseconds since the
/// command before it, and the random bytes that it may draw.
#[derive(Clone, Copy)]
pub struct Host {
    pub locality: Locality,
    pub elapsed_ms: u32,
    pub random: [u8; 256],
}
