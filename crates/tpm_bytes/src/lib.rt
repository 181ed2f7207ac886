#![tactic(auto)]

//! Reads and writes the bytes of a text. A [`cursor::Cursor`] reads them, and the functions in
//! [`many`] read several items in sequence. Bytes are written to a [`sink::Sink`] of fixed
//! capacity. A [`tap::Tap`] wraps a reader or a writer and records what it did.
//!
//! The crate uses `arrayvec` for buffers of fixed capacity, and nothing in it is specific to TPMs.
//! Numbers are big-endian, as everywhere in a TPM's buffers (TPM 2.0 Library, Part 2, section 3.2).
//! The result of each function equals its definition in `specs/`. A read or write that fails leaves
//! the cursor or sink unchanged. No function of this crate allocates memory.

pub mod copy;
pub mod cursor;
pub mod equality;
pub mod many;
pub mod memory;
pub mod sink;
pub mod tap;

pub use copy::{append, copied};
pub use cursor::{Cursor, Short, SizedFault};
pub use equality::is_equal;
pub use many::{Readable, ReadableBy, read_each, read_many};
pub use memory::NoMemory;
pub use sink::{Full, Sink};
pub use tap::{Failed, Tap};
