#![tactic(auto)]

//! Authorization: whether a command's entries authorize its handles (TPM 2.0 Library, Part 1,
//! section 19, and Part 3, sections 5.5 and 5.6).
//!
//! [`authorize`] first checks each entry on its own. Then it checks each handle that needs
//! authorization against the entry at the same position, and returns in [`Grants`] what each entry
//! authorizes. [`authorize_sent`] does the same for a command whose entities have been looked up. A
//! [`Cache`] stores the latest HMAC key and Name, so that neither is computed again.
//! The code uses tpm_record, and is proved to match the definitions in `specs/` for every
//! implementation of the record.

mod cache;
mod comparison;
mod entries;
mod entry_key;
mod grant;
pub mod laws;
mod session_grant;
mod used;

pub use cache::{Cache, LatestName};
pub use entries::{any_decrypts, decrypts, encrypts};
pub use entry_key::used_auth_value;
pub use grant::{Grants, authorize, authorize_sent};
pub use session_grant::{Grant, empty_hmac_laws, granted_value};
pub use tpm_types_common::Refused;
pub use used::Sent;
