//! The reasons why a token is refused.

/// The reason why a token is refused.
#[derive(Clone, Copy, PartialEq, Eq)]
pub enum TokenFault {
    /// The token is not of the right form.
    Bad,
    /// A number is too large.
    Range,
}
