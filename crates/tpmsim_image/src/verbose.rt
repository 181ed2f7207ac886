//! Whether the environment requests explanations, which the program prints on standard error.

use std::env;

/// The environment variable that requests explanations, if its value is 1.
const VARIABLE: &str = "TPMSIM_VERBOSE";

/// Whether the environment requests explanations. Without them, a run that fails prints exactly one
/// line on standard error: the line of its fault.
pub fn is_verbose(rt: &HostRuntime) -> bool {
    match env::var(rt, VARIABLE) {
        Ok(value) => value.as_str() == "1",
        Err(_) => false,
    }
}
