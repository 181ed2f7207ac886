#![tactic(auto)]

//! The text of a journal: its head, and an entry for each answered command.
//!
//! Each line of a journal is also a line of a script. The specs define this format; [`entry`] and
//! [`head`] write it and read it. A reader encodes what it decoded and compares the result with the
//! input, so reading succeeds only on the exact encoding of an entry.

pub mod entry;
pub mod head;
pub mod head_reading;
mod marked;
mod put;
pub mod reading;
mod strip;
pub mod sum;
pub mod torn;

pub use entry::{ENTRY_LIMIT, ENTRY_ROOM, Entry};
pub use head::{CONTENT_LIMIT, Head, HeadKind, head_size, write_head};
pub use head_reading::read_head;
pub use reading::{BYTES_ROOM, Next, read_entry};
pub use sum::{sum_from, sum_of};
pub use torn::torn_laws;
