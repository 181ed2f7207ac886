//! The time at which a command arrives, and a random number for each start of a completing layer.

use crate::fault::{KeptFault, Place, Said};
use std::random::RandomSource;
use std::time::{Clock, SystemTime};

/// Returns the time of the host's clock, in milliseconds.
pub fn clock_of(clock: &impl Clock) -> Result<u64, KeptFault> {
    let Ok(now) = SystemTime::now(clock) else {
        return Err(Place::Journal.that(Said::WantsClock));
    };
    let Ok(since) = now.duration_since(SystemTime::UNIX_EPOCH) else {
        return Err(Place::Journal.that(Said::WantsClock));
    };
    match u64::try_from(since.as_millis()) {
        Ok(now_ms) => Ok(now_ms),
        Err(_) => Err(Place::Journal.that(Said::WantsClock)),
    }
}

/// Returns a start number for a completing layer. The number consists of random bytes from the
/// system, so an earlier layer is unlikely to have had the same number.
pub fn start_of(random: &impl RandomSource) -> Result<u64, KeptFault> {
    let mut bytes = [0; 8];
    match random.fill_bytes(&mut bytes) {
        Ok(()) => Ok(u64::from_be_bytes(bytes)),
        Err(_) => Err(Place::Journal.that(Said::WantsRandom)),
    }
}
