#![tactic(auto)]

//! Tests of state texts, for behaviour that no contract covers. If there is enough memory, a device
//! can be written and read again. Its state text equals the one that the Python device writes. A
//! state text is refused if it is truncated, or contains a session with sizes that its hash does
//! not allow.
//!
//! The crate tests `tpm_state_text` with the state in fixed slots and in lists. No other crate uses
//! it.

#[cfg(test)]
mod sizes;
#[cfg(test)]
mod snapshots;
#[cfg(test)]
mod versions;
