//! Plays the lines of a script on a device. After each command, the player saves the device if it
//! changed, and only then prints the trace (if requested) and the response.

ghost use Rattle.std.specs.Prelude.{◌≡◌, ◌≤◌, [], false, true, length, IfOk, OnOk, OnErr};
ghost use Rattle.std.specs.Io.KnownBytes.{Appends, Keeps};
ghost use Rattle.tpm_bytes.specs.Tap.{device_of, marks_of};
ghost use Rattle.tpm_machine.specs.State.{state_of};
ghost use Rattle.tpm_step.specs.step.Events.{plain_event};
ghost use Rattle.tpm_step.specs.step.Step.{outcome_step};
ghost use Rattle.tpm_text.specs.Trace.{IsTraceable};
ghost use Rattle.tpmsim_script.specs.Answers.{CutOff, backlog, printout};
ghost use Rattle.tpmsim_script.specs.Keeping.{Tells};
ghost use Rattle.tpmsim_script.specs.Line.{hex_of, line_meaning, meaning_of};
ghost use Rattle.tpmsim_script.specs.Player.{Did, IsTheirs, Told, playing_of};
ghost use Rattle.tpmsim_script.specs.Script.{at_first, cycle, execute, perform, perform_line};
ghost use Rattle.tpmsim_script.specs.Script.{printed_trace, set_entropy};

use crate::answers::Answers;
use crate::fault::RunFault;
use crate::line::Line;
use crate::line_fault::LineFault;
use crate::room::Room;
use crate::script::Script;
use std::alloc::{AllocError, Global};
use std::io::Write;
use tpm_bytes::Tap;
use tpm_machine::Machine;
use tpm_machine_saver::Saver;
use tpm_record::Keep;
use tpm_step::{Event, Outcome};
use tpm_text::{trace_text, traceable_laws};

/// A device whose state is a `K`, and the values that the script's lines have set for its next
/// command.
#[derive(Drop)]
pub struct Player<K: Keep> {
    /// Whether the trace of each event is printed.
    traced: bool,
    script: Script,
    machine: Machine<K>,
    /// The outcome of the last event, which the next outcome overwrites.
    outcome: Outcome,
    pub answers: Answers,
}

impl<K: Keep> Player<K> {
    /// Creates a player of this device, at the start of a script.
    pub fn new(alloc: Global, machine: Machine<K>, traced: bool) -> Result<Player<K>, AllocError>
        ensures playing { IfOk result (λ player. playing_of K.record_of player
            ≡ at_first traced (state_of K.record_of machine)) }
        ensures answers { IfOk result (λ player. backlog player.answers ≡ []) }
    {
        let answers = Answers::new(alloc)?;
        Ok(Player {
            traced,
            script: Script::new(),
            machine,
            outcome: Outcome::empty(),
            answers,
        })
    }

    /// The device that plays the script.
    pub fn machine(&self) -> &Machine<K>
        ensures { result.now ≡ self.now.machine }
    {
        &self.machine
    }

    /// Performs a line. If the line is a command, prints the response. If a trace is requested,
    /// prints the trace. Decodes the line's hex or words into `room`. If an allocation can fail,
    /// the line's effect is unspecified.
    #[tactic(auto, using(crate::proofs::Doing::unsaid_done))]
    pub fn line<W: Write, S: Saver>(
        &mut self,
        line: &[u8],
        room: &mut Room,
        writer: &mut Tap<W>,
        saver: &mut S,
    ) -> Result<(), LineFault>
        requires { length line.now ≤ 65536 }
        ensures failed { IsTheirs result (marks_of writer.new) (S.has_failed saver.new) }
        ensures told { Told (Tells S.saves S.saves_change (line_meaning line.now)
            (state_of K.record_of self.new.machine) saver.old) saver.old result saver.new }
        ensures did { K.can_refuse ≡ false → Did
            (perform_line (playing_of K.record_of self.old) line.now)
            (printout (W.contents (device_of writer.old)) self.old.answers)
            (playing_of K.record_of self.old) result
            (printout (W.contents (device_of writer.new)) self.new.answers)
            (playing_of K.record_of self.new) }
    {
        let said = Line::parse(line)?;
        self.perform(said, room, writer, saver)
    }

    /// Writes all buffered lines.
    pub fn flush<W: Write>(&mut self, writer: &mut Tap<W>) -> Result<(), RunFault>
        ensures fault { OnErr result (result ≡ Err RunFault.Write) }
        ensures unmarked { OnOk result (marks_of writer.new ≡ marks_of writer.old) }
        ensures failed { OnErr result ((marks_of writer.new).failed ≡ true) }
        ensures playing { playing_of K.record_of self.new ≡ playing_of K.record_of self.old }
        ensures empty { backlog self.new.answers ≡ [] }
        ensures cut_off { OnErr result (CutOff
            (printout (W.contents (device_of writer.old)) self.old.answers)
            (printout (W.contents (device_of writer.new)) self.new.answers)) }
        ensures printed { OnOk result (Keeps
            (printout (W.contents (device_of writer.old)) self.old.answers)
            (printout (W.contents (device_of writer.new)) self.new.answers)) }
    {
        self.answers.flush(writer).map_err(|_| RunFault::Write)
    }

    /// Performs a parsed line.
    #[tactic(auto, using(crate::proofs::Doing::nothing_printed))]
    fn perform<W: Write, S: Saver>(
        &mut self,
        line: Line,
        room: &mut Room,
        writer: &mut Tap<W>,
        saver: &mut S,
    ) -> Result<(), LineFault>
        requires { length (hex_of (meaning_of line)) ≤ 65536 }
        ensures failed { IsTheirs result (marks_of writer.new) (S.has_failed saver.new) }
        ensures told { Told (Tells S.saves S.saves_change (Some (meaning_of line.entry))
            (state_of K.record_of self.new.machine) saver.old) saver.old result saver.new }
        ensures did { K.can_refuse ≡ false → Did
            (perform (playing_of K.record_of self.old) (meaning_of line.entry))
            (printout (W.contents (device_of writer.old)) self.old.answers)
            (playing_of K.record_of self.old) result
            (printout (W.contents (device_of writer.new)) self.new.answers)
            (playing_of K.record_of self.new) }
    {
        match line {
            Line::Command(digits) => self.execute(room.decode(digits)?, writer, saver)?,
            Line::Words(words) => {
                let profile = self.machine.keep().fixed().profile;
                self.execute(room.assemble(profile, words)?, writer, saver)?;
            }
            Line::Locality(locality) => self.script.set_locality(locality),
            Line::Wait(milliseconds) => self.script.wait(milliseconds)?,
            Line::Entropy(digits) => self.script.set_entropy(room.decode(digits)?)?,
            Line::PowerCycle => self.cycle_power(writer, saver)?,
            Line::Nothing => {}
        }
        Ok(())
    }

    /// Executes a command, saves the device if it changed, and then prints the response, after
    /// its trace if requested.
    fn execute<W: Write, S: Saver>(
        &mut self,
        buffer: &[u8],
        writer: &mut Tap<W>,
        saver: &mut S,
    ) -> Result<(), LineFault>
        ensures failed { IsTheirs result (marks_of writer.new) (S.has_failed saver.new) }
        ensures told { Told
            (S.saves_change saver.old (state_of K.record_of self.new.machine))
            saver.old result saver.new }
        ensures did { K.can_refuse ≡ false → Did
            (Some (execute (playing_of K.record_of self.old) buffer.now))
            (printout (W.contents (device_of writer.old)) self.old.answers)
            (playing_of K.record_of self.old) result
            (printout (W.contents (device_of writer.new)) self.new.answers)
            (playing_of K.record_of self.new) }
    {
        let event = self.script.command(buffer);
        self.machine.execute_into(&event, &mut self.outcome);
        let Ok(()) = saver.save_change(&self.machine) else {
            return Err(LineFault::Save);
        };
        traceable_laws();
        self.trace(&event, writer)?;
        let response = self.outcome.response.as_slice();
        self.answers
            .put(writer, response)
            .map_err(|_| LineFault::Write)
    }

    /// Power-cycles the device, saves it, and prints the trace of the cycle if requested.
    fn cycle_power<W: Write, S: Saver>(
        &mut self,
        writer: &mut Tap<W>,
        saver: &mut S,
    ) -> Result<(), LineFault>
        ensures failed { IsTheirs result (marks_of writer.new) (S.has_failed saver.new) }
        ensures told { Told
            (S.saves saver.old (state_of K.record_of self.new.machine)) saver.old result saver.new }
        ensures did { K.can_refuse ≡ false → Did
            (Some (cycle (playing_of K.record_of self.old)))
            (printout (W.contents (device_of writer.old)) self.old.answers)
            (playing_of K.record_of self.old) result
            (printout (W.contents (device_of writer.new)) self.new.answers)
            (playing_of K.record_of self.new) }
    {
        let event = Event::PowerCycle;
        self.machine.execute_into(&event, &mut self.outcome);
        let Ok(()) = saver.save(&self.machine) else {
            return Err(LineFault::Save);
        };
        traceable_laws();
        self.trace(&event, writer)
    }

    /// Prints the trace of this event, whose outcome is in `outcome`, if traces are requested.
    #[tactic(auto, unfolding(crate::specs::Script::printed_trace), using(crate::proofs::Doing::nothing_printed))]
    fn trace<W: Write>(&mut self, event: &Event, writer: &mut Tap<W>) -> Result<(), LineFault>
        requires { IsTraceable (plain_event event.now)
            (outcome_step (state_of K.record_of self.old.machine) self.old.outcome) }
        ensures fault { OnErr result (result ≡ Err LineFault.Write) }
        ensures failed { OnErr result ((marks_of writer.new).failed ≡ true) }
        ensures kept { self.new ≡ record self.old { answers = self.new.answers } }
        ensures cut_off { OnErr result (CutOff
            (printout (W.contents (device_of writer.old)) self.old.answers)
            (printout (W.contents (device_of writer.new)) self.new.answers)) }
        ensures printed { OnOk result (Appends
            (printout (W.contents (device_of writer.old)) self.old.answers)
            (printout (W.contents (device_of writer.new)) self.new.answers)
            (printed_trace self.old.traced (plain_event event.now)
            (outcome_step (state_of K.record_of self.old.machine) self.old.outcome))) }
    {
        if !self.traced {
            return Ok(());
        }
        let text = trace_text(event, self.outcome.row, self.outcome.response.as_slice());
        self.answers
            .put_text(writer, text.as_str().as_bytes())
            .map_err(|_| LineFault::Write)
    }
}
