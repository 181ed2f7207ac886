//! An event, which is a command or a power cycle, and its outcome: the response and the reported
//! row.

ghost use Rattle.std.specs.Prelude.{◌≡◌};

use arrayvec::ArrayVec;
use tpm_types_common::{BUFFER_LIMIT, Locality};

/// All bytes of a response.
pub type Response = ArrayVec<u8, BUFFER_LIMIT>;

/// An event. The device's state changes only through whole events.
#[derive(Drop)]
pub enum Event<'a> {
    /// A command: its buffer, which may contain any bytes; its locality; the milliseconds since the
    /// command before it (its elapsed time); and the random bytes that it may draw.
    Command {
        buffer: &'a [u8],
        locality: Locality,
        elapsed_ms: u32,
        random: [u8; 256],
    },
    /// A power cycle.
    PowerCycle,
}

impl<'a> Event<'a> {
    ghost use Rattle.tpm_step.specs.step.Events.{IsEvent, plain_event};
    ghost use Rattle.tpm_step.specs.declared.event.Event.TheVariants.{Command};

    /// Makes the event of a command.
    pub fn of_command(
        buffer: &'a [u8],
        locality: Locality,
        elapsed_ms: u32,
        random: [u8; 256],
    ) -> Event<'a>
        ensures value { result ≡ Command buffer.entry locality elapsed_ms random }

        // The returned event can occur: its locality is 0 to 4, its elapsed time has 32 bits, and
        // it has 256 random bytes.
        ensures event { IsEvent (plain_event result) }
    {
        Event::Command {
            buffer,
            locality,
            elapsed_ms,
            random,
        }
    }
}

/// The row of an event: the command's code, and the number of the check that refused it. The code
/// is 0 for a power cycle, and for a command whose code was not found. The check is 0 if no check
/// refused the event.
#[derive(Clone, Copy, PartialEq, Eq)]
pub struct Row {
    pub code: u32,
    pub check: u8,
}

/// The outcome of an event: the response, which is empty for a power cycle, and the row.
#[derive(Drop)]
pub struct Outcome {
    pub response: Response,
    pub row: Row,
}

impl Outcome {
    ghost use Rattle.std.specs.Prelude.{[]};

    /// An outcome with an empty response, which the caller overwrites.
    pub fn empty() -> Outcome
        ensures response { result.response.items ≡ [] }
        ensures row { result.row ≡ record { code = 0; check = 0 } }
    {
        Outcome {
            response: ArrayVec::new(),
            row: Row { code: 0, check: 0 },
        }
    }
}
