#![tactic(auto)]

//! Tests of the device, its sessions and NV indices, its images, and its connections, for behaviour
//! that neither a contract nor a script under `tests/` covers. The subjects are: what `run`
//! reports; counters near their maximum values; one call of each public function on sessions and
//! indices, with values computed by other programs; connections that take turns; readers, writers
//! and hosts that fail at each call in turn; a client at the other end of a socket; and two images
//! of version 1.
//!
//! The crate depends on `tpm_wire`, `tpm_image` and `tpm_slots`, and no crate depends on it. Its
//! proof has to wait for them, so it is proved at the same time as the program.

#[cfg(test)]
mod commands;
#[cfg(test)]
mod comparison;
#[cfg(test)]
mod connections;
#[cfg(test)]
mod counters;
#[cfg(test)]
mod device;
#[cfg(test)]
mod digests;
#[cfg(test)]
mod failing;
#[cfg(test)]
mod histories;
#[cfg(test)]
mod images;
#[cfg(test)]
mod keeps;
#[cfg(test)]
mod kept_objects;
#[cfg(test)]
mod measurements;
#[cfg(test)]
mod nv_indices;
#[cfg(test)]
mod pcr_values;
#[cfg(test)]
mod rows;
#[cfg(test)]
mod runs;
#[cfg(test)]
mod saving;
#[cfg(test)]
mod serving;
#[cfg(test)]
mod session_parts;
#[cfg(test)]
mod socket;
