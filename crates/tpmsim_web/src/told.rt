//! The numbers that calls return, the same as in the C library.

ghost use Rattle.std.specs.Prelude.{◌≡◌};
ghost use Rattle.tpmsim_web.specs.Told.{fault_number, follow_number, open_number};
ghost use Rattle.tpmsim_web.specs.Told.{restore_number, state_number};

use tpm_image::ImageFault;
use tpm_journal::{FollowFault, OpenFault};
use tpm_snapshot::{RestoreFault, StateFault};

/// The call succeeded.
pub const DONE: u8 = 0;

/// The holder is empty.
pub const NO_DEVICE: u8 = 1;

/// The locality is above 4.
pub const NO_LOCALITY: u8 = 2;

/// An allocation failed. This never happens.
const NO_MEMORY: u8 = 3;

/// Returns the error number for an image that cannot be opened.
pub fn fault_number(fault: ImageFault) -> u8
    ensures { result ≡ fault_number fault }
{
    match fault {
        ImageFault::Short => 4,
        ImageFault::Magic => 5,
        ImageFault::Version => 6,
        ImageFault::Length => 7,
        ImageFault::Digest => 8,
        ImageFault::Body => 9,
        ImageFault::NoMemory => NO_MEMORY,
    }
}

/// Returns the error number for bytes that are not a state text.
pub fn state_number(fault: StateFault) -> u8
    ensures { result ≡ state_number fault }
{
    match fault {
        StateFault::Short => 13,
        StateFault::Magic => 14,
        StateFault::Version => 15,
        StateFault::Length => 16,
        StateFault::Digest => 17,
        StateFault::Body => 18,
        StateFault::Earlier => 21,
    }
}

/// Returns the error number for a device that cannot be restored.
pub fn restore_number(fault: RestoreFault) -> u8
    ensures { result ≡ restore_number fault }
{
    match fault {
        RestoreFault::Text(fault) => state_number(fault),
        RestoreFault::NoMemory => NO_MEMORY,
    }
}

/// Returns DONE if all entries were executed, and otherwise the number of the error.
pub fn follow_number(fault: Option<FollowFault>) -> u8
    ensures { result ≡ follow_number fault }
{
    match fault {
        None => DONE,
        Some(FollowFault::Damaged) => 11,
        Some(FollowFault::Otherwise) => 12,
    }
}

/// Returns the error number for bytes that cannot be opened as a journal.
pub fn open_number(fault: OpenFault) -> u8
    ensures { result ≡ open_number fault }
{
    match fault {
        OpenFault::NoJournal => 10,
        OpenFault::Image(fault) => fault_number(fault),
        OpenFault::State(fault) => restore_number(fault),
        OpenFault::Follow(fault) => follow_number(Some(fault)),
    }
}
