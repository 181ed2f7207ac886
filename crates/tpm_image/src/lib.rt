#![tactic(auto)]

//! The image of a device: the state that it keeps without power, as bytes from which another device
//! can be opened.
//!
//! [`image::save`] writes the image, and [`image::open`] reads it; [`image::save_into`] and
//! [`image::open_into`] do the same in the caller's memory. [`kept_text`] reports whether
//! anything in an image changed except for the clock. The crate uses the machine, and
//! tpm_image_text for the bytes.
//!
//! A device that is opened from an image is the saved device after a power cycle. If the writer
//! fails, it has received a prefix of the image and nothing else.

pub mod image;
pub mod kept_text;

pub use image::{open, open_into, save, save_into};
pub use kept_text::{KeptText, kept_into};
pub use tpm_image_text::{ImageFault, SaveFault, Version, fault_of};
