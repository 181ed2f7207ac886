#![tactic(auto)]

//! Tests of the crates for bytes, digests, ciphers, containers, lockout, the standard's structures,
//! objects, policies and PCRs. They test behaviour that neither a contract nor a script under
//! `tests/` covers. The tests compare results with published vectors and with values computed by
//! other programs. They call each public function once, and check what a tap reports about its
//! device.
//!
//! The crate depends on the crates that it tests, and no crate depends on it. The tests are in a
//! separate crate because a crate with tests is proved twice.

#[cfg(test)]
mod ascending;
#[cfg(test)]
mod banks;
#[cfg(test)]
mod bytes;
#[cfg(test)]
mod ciphers;
#[cfg(test)]
mod comparison;
#[cfg(test)]
mod digests;
#[cfg(test)]
mod lockout;
#[cfg(test)]
mod nv_public;
#[cfg(test)]
mod objects;
#[cfg(test)]
mod policies;
#[cfg(test)]
mod types;
