//! The answer of a successful command: a handle, parameters, and the number of random bytes that
//! the command drew. All commands write to the same answer.

ghost use Rattle.std.specs.Prelude.{◌≤◌};
ghost use Rattle.tpm_record.specs.rows.Draws.{draw_limit};

use tpm_bytes::Sink;
use tpm_types_common::{ANSWER_LIMIT, Handle};

/// The buffer for a response's parameters. One answer is created and passed to every command, so
/// that no command has to initialize a new buffer.
pub type Parameters = Sink<ANSWER_LIMIT>;

/// The answer of a successful command.
#[derive(Drop)]
pub struct Answer {
    /// The handle of the session or object that the command created, if it returns one.
    pub handle: Option<Handle>,
    pub parameters: Parameters,
    /// The number of random bytes that the command drew, from the start of the event's random
    /// bytes.
    pub drawn: usize,
    ghost few: { drawn ≤ draw_limit },
}

impl Answer {
    ghost use Rattle.tpm_record.specs.rows.Answer.{IsEmpty};

    /// An empty answer: no handle, no parameters, and no random bytes drawn.
    pub fn empty() -> Answer
        ensures { IsEmpty result }
    {
        Answer {
            handle: None,
            parameters: Sink::new(),
            drawn: 0,
        }
    }

    /// Empties the answer, which may still contain the answer of an earlier command.
    pub fn clear(&mut self)
        ensures { IsEmpty self.new }
    {
        self.handle = None;
        self.parameters.clear();
        self.drawn = 0;
    }
}
