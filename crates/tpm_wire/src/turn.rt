//! The result of a connection's turn: no outcome yet, an outcome, or the end.

use tpm_step::Outcome;

/// The result of a connection's turn.
#[derive(Drop)]
pub enum Turn {
    /// The connection's next buffer is not complete yet.
    Wants,
    /// The connection's next buffer was executed, with this outcome.
    Answer(Outcome),
    /// No more buffers follow: the last buffer had a commandSize that no buffer can have.
    Ended,
}
