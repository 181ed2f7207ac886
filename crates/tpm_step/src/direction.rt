//! The two directions of parameter encryption: a session decrypts the first parameter of a command,
//! or encrypts the first parameter of an answer (TPM 2.0 Library, Part 1, section 21).

/// Whether a session decrypts or encrypts the first parameter.
#[derive(Clone, Copy, PartialEq, Eq)]
pub enum Direction {
    /// The session decrypts the first parameter of a command.
    Decrypt,
    /// The session encrypts the first parameter of an answer.
    Encrypt,
}
