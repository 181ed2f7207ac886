//! A command to a kept device, and its decoding.

ghost use Rattle.std.specs.Prelude.{◌≡◌, IfOk};
ghost use Rattle.std.specs.Int.{w8};
ghost use Rattle.tpm_bytes.specs.Reading.{AreBytes, Gives, Reads};
ghost use Rattle.tpm_image_text.specs.Fields.{bytes_in, number_in, passing};
ghost use Rattle.tpm_kept_journal.specs.Command.{IsGiven, command_in, command_of, cycled_in, is_locality};
ghost use Rattle.tpm_kept_journal.specs.Command.{executed_after_in, executed_at_in, executed_in};
ghost use Rattle.tpm_kept_journal.specs.Effect.{clock_at};
ghost use Rattle.tpm_kept_device.specs.View.{plain_command, plain_moment};
ghost use Rattle.tpm_types_common.specs.Locality.{locality_number};

use tpm_bytes::Cursor;
use tpm_image_text::{Malformed, read_bool, read_u8, read_u32, read_u64};
use tpm_types_common::Locality;

/// When a TPM command arrives.
#[derive(Clone, Copy)]
pub(crate) enum Moment {
    /// At this time of the host's clock, in milliseconds.
    At(u64),
    /// This many milliseconds after the previous command.
    After(u32),
}

impl Moment {
    /// Returns the time on the host's clock when the command arrives, if the previous command
    /// arrived at `time`.
    pub(crate) fn clock(self, time: u64) -> u64
        ensures { result ≡ clock_at (plain_moment self) time }
    {
        match self {
            Moment::At(now_ms) => now_ms,
            Moment::After(elapsed_ms) => time.saturating_add(u64::from(elapsed_ms)),
        }
    }
}

/// A command to a kept device.
#[derive(Clone, Copy)]
pub(crate) enum Command<'a> {
    /// A TPM command.
    Execute {
        moment: Moment,
        locality: Locality,
        /// Whether the completing layer is used.
        completes: bool,
        /// 256 random bytes.
        random: &'a [u8],
        buffer: &'a [u8],
    },
    /// A power cycle at this time of the host's clock. The number `start` has no effect, because
    /// the completing layer keeps its start number.
    Cycle {
        now_ms: u64,
        start: u64,
    },
    /// Replaces the device with one that is created from a seed, for example to restore a snapshot.
    Begin {
        seed: &'a [u8],
    },
}

/// Decodes a command.
pub(crate) fn read_command<'a>(text: &'a [u8]) -> Result<Command<'a>, Malformed>
    ensures value { Gives plain_command (command_of text.now) result }
    ensures given { IfOk result (λ command. IsGiven (plain_command command)) }
{
    read_any(text)
}

/// Decodes a command. The contract adds that the elements of `text` are bytes.
#[tactic(auto, unfolding(tpm_kept_journal::specs::Command::command_in))]
fn read_any<'a>(text: &'a [u8]) -> Result<Command<'a>, Malformed>
    ensures value { Gives plain_command (command_in text.now) result }
    ensures bytes { AreBytes text.now }
{
    let mut left = Cursor::new(text);
    match read_u8(&mut left)? {
        0 => read_executed_at(&mut left),
        1 => read_cycled(&mut left),
        2 => Ok(Command::Begin { seed: left.rest() }),
        3 => read_executed_after(&mut left),
        _ => Err(Malformed),
    }
}

/// Decodes a TPM command that arrives at a time of the host's clock. The byte for the command's
/// kind is already consumed.
#[tactic(auto, unfolding(tpm_kept_journal::specs::Command::executed_at_in))]
fn read_executed_at<'a>(text: &mut Cursor<'a>) -> Result<Command<'a>, Malformed>
    ensures { Gives plain_command (executed_at_in text.old) result }
{
    let now_ms = read_u64(text)?;
    read_executed(Moment::At(now_ms), text)
}

/// Decodes a TPM command that arrives some milliseconds after the previous command. The byte for
/// the command's kind is already consumed.
#[tactic(auto, unfolding(tpm_kept_journal::specs::Command::executed_after_in))]
fn read_executed_after<'a>(text: &mut Cursor<'a>) -> Result<Command<'a>, Malformed>
    ensures { Gives plain_command (executed_after_in text.old) result }
{
    let elapsed_ms = read_u32(text)?;
    read_executed(Moment::After(elapsed_ms), text)
}

/// Decodes the fields of a TPM command that follow its arrival time.
#[tactic(auto, unfolding(tpm_kept_journal::specs::Command::executed_in))]
fn read_executed<'a>(moment: Moment, text: &mut Cursor<'a>) -> Result<Command<'a>, Malformed>
    ensures { Gives plain_command (executed_in (plain_moment moment) text.old) result }
{
    let locality = read_locality(text)?;
    let completes = read_bool(text)?;
    let random = read_random(text)?;
    Ok(Command::Execute {
        moment,
        locality,
        completes,
        random,
        buffer: text.rest(),
    })
}

/// Decodes a locality, which must be 0 to 4.
fn read_locality(text: &mut Cursor) -> Result<Locality, Malformed>
    ensures { Reads locality_number (passing is_locality (number_in w8) text.old) text.old result
        text.new }
{
    let mut ahead = Cursor::new(text.rest());
    let number = read_u8(&mut ahead)?;
    let Some(locality) = Locality::new(number) else {
        return Err(Malformed);
    };
    *text = ahead;
    Ok(locality)
}

/// Reads 256 random bytes.
fn read_random<'a>(text: &mut Cursor<'a>) -> Result<&'a [u8], Malformed>
    ensures { Reads (λ bytes. bytes.now) (bytes_in 256 text.old) text.old result text.new }
{
    match text.take(256) {
        Ok(random) => Ok(random),
        Err(_) => Err(Malformed),
    }
}

/// Decodes a power cycle. The byte for the command's kind is already consumed.
#[tactic(auto, unfolding(tpm_kept_journal::specs::Command::cycled_in))]
fn read_cycled<'a>(text: &mut Cursor<'a>) -> Result<Command<'a>, Malformed>
    ensures { Gives plain_command (cycled_in text.old) result }
{
    let now_ms = read_u64(text)?;
    let start = read_u64(text)?;
    if text.is_empty() {
        Ok(Command::Cycle { now_ms, start })
    } else {
        Err(Malformed)
    }
}
