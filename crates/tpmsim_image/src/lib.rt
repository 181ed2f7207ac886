#![tactic(auto)]

//! A device that is kept in an image: the image file and its lock ([`image_file`],
//! [`image_lock`]), its savers ([`image_saver`], [`command_saver`]), and the serving of the device
//! on a socket ([`serving`]). An optional log ([`log`]) is in its own file ([`log_file`]). Only the
//! owner of these files can use them ([`owner_file`]).
//!
//! The device's inputs come from the host: random bytes from a file ([`entropy`]), the time that
//! has passed ([`stopwatch`]), and both together for each command ([`source`]). The socket
//! ([`socket`]) serves any device. If the environment requests explanations ([`verbose`]), the
//! socket's reader ([`attended`]) reports a client that waits.
//! Contracts define what a saver remembers, what is written to a log, and the elapsed time of each
//! command. No contract can define the contents of a file.
//!
//! The crate uses tpm_image for images, tpm_journal_text for the text of a log, tpm_wire for
//! connections, and the settings of tpmsim_arguments.

mod attended;
pub mod command_saver;
pub mod entropy;
pub mod fault;
mod folder;
pub mod image_file;
mod image_lock;
pub mod image_saver;
pub mod log;
mod log_file;
mod owner_file;
pub mod serving;
pub mod socket;
pub mod source;
pub mod stopwatch;
mod verbose;

pub use attended::Attended;
pub use entropy::Entropy;
pub use fault::{Cause, DeviceFault, Subject};
pub use image_file::ImageFile;
pub use image_saver::ImageSaver;
pub use serving::serve_device;
pub use socket::{Socket, bind};
pub use verbose::is_verbose;
