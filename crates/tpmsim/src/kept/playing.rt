//! Plays a script on a kept device. Lines of the script set the locality, the time and the random
//! bytes of its commands. Commands in words are those of the symmetric profile. Other processes may
//! execute commands on the device between two commands of the script.

ghost use Rattle.std.specs.Prelude.{◌≡◌, ◌≤◌, [], length};
ghost use Rattle.tpmsim_script.specs.Answers.{backlog};

use crate::kept::Kept;
use crate::kept::stop::{PlayFault, Stop};
use crate::kept::tracing::traced_row;
use std::alloc::Global;
use std::io::{Read, Write};
use tpm_bytes::Tap;
use tpm_commands::Profile;
use tpm_keeping::holder::Fault;
use tpm_kept_device::answer::Answer;
use tpm_step::Event;
use tpm_text::trace_text;
use tpmsim_folder::{Place, Said};
use tpmsim_script::RunFault;
use tpmsim_script::answers::Answers;
use tpmsim_script::line::Line;
use tpmsim_script::lines::{Lines, Next};
use tpmsim_script::room::Room;
use tpmsim_script::run::SCRIPT_LINES;
use tpmsim_script::script::Script;

/// The player of a script, with the output that is not yet written.
#[derive(Drop)]
struct Player {
    traced: bool,
    script: Script,
    answers: Answers,
}

/// Plays a script on a kept device, and writes its responses, each after its trace if traces are
/// requested. If a fault occurs, the lines before it were played.
pub fn play<R: Read, W: Write>(
    alloc: Global,
    kept: &mut Kept<'_>,
    reader: &mut Tap<R>,
    writer: &mut Tap<W>,
    traced: bool,
) -> Result<(), PlayFault> {
    let mut lines = Lines::new(alloc)?;
    let mut room = Room::new(alloc)?;
    let mut player = Player {
        traced,
        script: Script::new(),
        answers: Answers::new(alloc)?,
    };
    let played = player.lines(kept, &mut lines, &mut room, reader, writer);
    let flushed = player.flush(writer);
    played?;
    flushed
}

impl Player {
    fn lines<R: Read, W: Write>(
        &mut self,
        kept: &mut Kept<'_>,
        lines: &mut Lines,
        room: &mut Room,
        reader: &mut Tap<R>,
        writer: &mut Tap<W>,
    ) -> Result<(), PlayFault> {
        for number in 1..SCRIPT_LINES + 1 {
            if !self.next_line(lines, reader, writer, number)? {
                return Ok(());
            }
            if let Err(stop) = self.line(kept, lines.line(), room, writer) {
                return Err(stop.at(number));
            }
        }
        if self.next_line(lines, reader, writer, SCRIPT_LINES)? {
            return Err(PlayFault::Script(RunFault::TooManyLines));
        }
        Ok(())
    }

    /// Advances to the next line, which has this number. Returns whether there is such a line.
    /// Writes the output before reading more of the script.
    fn next_line<R: Read, W: Write>(
        &mut self,
        lines: &mut Lines,
        reader: &mut Tap<R>,
        writer: &mut Tap<W>,
        number: u32,
    ) -> Result<bool, PlayFault> {
        lines.next();
        for _ in 0..u64::MAX {
            match lines.find() {
                Next::Line => return Ok(true),
                Next::End => return Ok(false),
                Next::TooLong => return Err(PlayFault::Script(RunFault::Line(number))),
                Next::Incomplete => self.flush(writer)?,
            }
            let Ok(()) = lines.fill(reader, &self.answers) else {
                return Err(PlayFault::Script(RunFault::Read));
            };
        }
        Err(PlayFault::Script(RunFault::Read))
    }

    /// Performs a line.
    fn line<W: Write>(
        &mut self,
        kept: &mut Kept<'_>,
        line: &[u8],
        room: &mut Room,
        writer: &mut Tap<W>,
    ) -> Result<(), Stop>
        requires { length line.now ≤ 65536 }
    {
        match Line::parse(line)? {
            Line::Command(digits) => return self.execute(kept, room.decode(digits)?, writer),
            Line::Words(words) => {
                let buffer = room.assemble(Profile::Symmetric, words)?;
                return self.execute(kept, buffer, writer);
            }
            Line::PowerCycle => return self.cycle_power(kept, writer),
            Line::Locality(locality) => self.script.set_locality(locality),
            Line::Wait(milliseconds) => self.script.wait(milliseconds)?,
            Line::Entropy(digits) => self.script.set_entropy(room.decode(digits)?)?,
            Line::Nothing => {}
        }
        Ok(())
    }

    /// Executes a command, and prints its response.
    fn execute<W: Write>(
        &mut self,
        kept: &mut Kept<'_>,
        buffer: &[u8],
        writer: &mut Tap<W>,
    ) -> Result<(), Stop> {
        let event = self.script.command(buffer);
        let Event::Command {
            locality,
            elapsed_ms,
            random,
            ..
        } = &event
        else {
            return Ok(());
        };
        let answer = kept.execute_after(*elapsed_ms, *locality, random, buffer)?;
        self.trace(&event, answer, writer)?;
        self.answers
            .put(writer, answer.response)
            .map_err(|_| Stop::Write)
    }

    /// Prints the trace of a command with its answer, if traces are requested.
    fn trace<W: Write>(
        &mut self,
        event: &Event,
        answer: Answer<'_>,
        writer: &mut Tap<W>,
    ) -> Result<(), Stop> {
        if !self.traced {
            return Ok(());
        }
        let Some(row) = traced_row(answer) else {
            let said = Said::Keeper(Fault::NoCommand);
            return Err(Stop::Kept(Place::Journal.that(said)));
        };
        let text = trace_text(event, row, answer.response);
        self.put_text(writer, text.as_str().as_bytes())
    }

    /// Power-cycles the device, and prints the trace of the cycle if traces are requested.
    fn cycle_power<W: Write>(
        &mut self,
        kept: &mut Kept<'_>,
        writer: &mut Tap<W>,
    ) -> Result<(), Stop> {
        kept.cycle_power()?;
        if self.traced {
            self.put_text(writer, b"power")?;
        }
        Ok(())
    }

    fn put_text<W: Write>(&mut self, writer: &mut Tap<W>, text: &[u8]) -> Result<(), Stop>
        requires { length text.now ≤ 64 }
    {
        self.answers.put_text(writer, text).map_err(|_| Stop::Write)
    }

    /// Writes all buffered output.
    fn flush<W: Write>(&mut self, writer: &mut Tap<W>) -> Result<(), PlayFault>
        ensures { backlog self.new.answers ≡ [] }
    {
        self.answers
            .flush(writer)
            .map_err(|_| PlayFault::Script(RunFault::Write))
    }
}
