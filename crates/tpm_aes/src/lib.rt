//! AES-128 block encryption (FIPS 197), and the cipher feedback mode with segments of 128 bits (SP
//! 800-38A, 6.3).
//!
//! The crate has no dependencies. The result of each function equals its definition in `specs/` for
//! data of any length. Encryption and decryption undo each other. No function allocates memory or
//! fails. The rounds use lookup tables, and every table entry is proved correct (`table_laws`).
//! Which entries are read depends on the key and the data, and the time that a call takes is
//! unspecified.

#![tactic(auto)]

mod bytes;
mod cipher;
mod feedback;
mod key_schedule;
mod rounds;
mod tables;

pub use bytes::xor_with;
pub use cipher::Aes128;
pub use tables::table_laws;
