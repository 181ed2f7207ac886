#![tactic(auto)]

//! Help for the author of a script: the form of a command in words ([`form`]), an example of each
//! command ([`example`]), what is expected at the fault of a line ([`wanted`]), and the meaning of
//! a response code ([`response_code`]).
//!
//! The crate uses `tpm_commands` for the shapes of commands, and `tpm_text` for faults. Each call
//! returns what `specs/` defines. No definition covers the examples; a test assembles each of them.

pub mod example;
pub mod form;
pub mod response_code;
pub mod wanted;

pub use example::example_of;
pub use form::{Form, form_of, form_text};
pub use response_code::{CodeMeaning, hex_number, meaning_of};
pub use wanted::word_at;
