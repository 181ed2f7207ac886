#![tactic(auto)]

//! The text of an image: encodes the state that a device keeps without power, and decodes it again.
//!
//! There are two [versions](Version) of the image: the device writes the second ([`saving`]) and
//! reads both ([`opening`]). For each part of the non-volatile state, one file reads and writes its
//! encoding; `specs/Body` and `specs/Image` define the encodings. The crate uses the types that
//! make up a device's state; tpm_image uses this crate to save and open a device.
//!
//! Opening an image results in the saved state after a power cycle. All bytes that can be opened
//! are the image of a device, and every such image opens. No proper prefix of an image is an image
//! ([`laws`]).

mod body;
pub mod fault;
mod fields;
mod frame;
mod hierarchies;
mod indices;
pub mod laws;
mod lockout;
mod objects;
pub mod opening;
mod saved;
pub mod saving;
pub mod version;

pub use body::{read_body, read_kept, write_body_at};
pub use fault::{FillFault, ImageFault, Malformed, SaveFault};
pub use fields::{
    Text, read_array, read_auth_value, read_bool, read_sized, read_u8, read_u32, read_u64,
    write_array, write_bool, write_sized, write_u16, write_u32, write_u64,
};
pub use frame::{FRAME_BYTES, framed_body};
pub use objects::{read_object_fields, write_object_fields};
pub use opening::{fault_of, fill, is_body};
pub use saving::{put_front, send, write_image};
pub use version::{SYMMETRIC_WORD, Version};
