//! The roles in which a handle is authorized, USER and ADMIN (TPM 2.0 Library, Part 1, section
//! 19.2).

/// The role in which a handle is authorized (Part 1, section 19.2).
#[derive(Clone, Copy, PartialEq, Eq)]
pub enum Role {
    User,
    Admin,
}
