//! The log file of a served device: a new file that only its owner can use.

use crate::fault::{DeviceFault, Subject};
use crate::log::Log;
use crate::owner_file::create_for_owner;
use std::fs::File;
use std::io;
use std::time::{SystemTime, UNIX_EPOCH};
use tpm_machine::Machine;
use tpm_record::Keep;

/// Creates a file at this path, and begins in it the log of a device whose power has just come on.
/// The call fails if anything is already at the path, even a link.
pub fn begin_log<K: Keep>(
    rt: &HostRuntime,
    path: &str,
    machine: &Machine<K>,
) -> Result<Log<File>, DeviceFault> {
    let fault = DeviceFault::File(Subject::Log.alone());
    let now_ms = fault.unless(clock_ms(rt))?;
    let file = fault.unless(create_for_owner(rt, path))?;
    Log::begin(file, machine, now_ms).map_err(|_| fault)
}

/// The host's clock in milliseconds since 1970, or 0 if it is set to an earlier time.
fn clock_ms(rt: &HostRuntime) -> io::Result<u64> {
    match SystemTime::now(rt)?.duration_since(UNIX_EPOCH) {
        Ok(since) => Ok(u64::try_from(since.as_millis()).unwrap_or(u64::MAX)),
        Err(_) => Ok(0),
    }
}
