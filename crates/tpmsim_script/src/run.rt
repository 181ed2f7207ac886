//! Runs a whole script on a device, from a reader to a writer, and saves the device as the script
//! runs. Whatever the fault, the lines before it are played and their responses written.

ghost use Rattle.std.specs.Prelude.{◌≡◌, [], false, IfOk, OnErr, OnOk, true};
ghost use Rattle.std.specs.Io.KnownBytes.{Keeps};
ghost use Rattle.tpm_bytes.specs.Tap.{device_of, marks_of};
ghost use Rattle.tpm_machine.specs.State.{state_of};
ghost use Rattle.tpmsim_script.specs.Answers.{CutOff, backlog, printout};
ghost use Rattle.tpmsim_script.specs.Keeping.{KeepsDevice, kept_playing};
ghost use Rattle.tpmsim_script.specs.Lines.{Agrees, LosesStart, line_of, rest_of, text_left};
ghost use Rattle.tpmsim_script.specs.Player.{playing_of};
ghost use Rattle.tpmsim_script.specs.Run.{AreTheirs, NextFound, OnNoMemory, OnTooMany, OnUnread};
ghost use Rattle.tpmsim_script.specs.Run.{OnUnwritten, PlaysAllAllowed, PlaysToFailure, Ran};
ghost use Rattle.tpmsim_script.specs.Run.{UnlessFailed, end_at_limit, is_unsaved};
ghost use Rattle.tpmsim_script.specs.ScriptFault.{AreScriptFaults, OnScriptNoMemory, RanScript, script_result};
ghost use Rattle.tpmsim_script.specs.Script.{Plays, at_first, new_device, new_device_as, script_bytes};

use crate::fault::RunFault;
use crate::lines::{Lines, Next};
use crate::player::Player;
use crate::room::Room;
use crate::script_fault::ScriptFault;
use std::alloc::{AllocError, Global};
use std::array;
use std::io::{Read, Write};
use tpm_bytes::{NoMemory, Tap};
use tpm_commands::Profile;
use tpm_machine::Machine;
use tpm_machine_saver::{Saver, SavesNothing};
use tpm_record::Keep;

/// The maximum number of lines that a script may have.
pub const SCRIPT_LINES: u32 = 1_048_576;

/// Like [`run_script_for`], on a device of the symmetric profile.
pub fn run_script<K: Keep, R: Read, W: Write>(
    alloc: Global,
    reader: &mut Tap<R>,
    writer: &mut Tap<W>,
    trace: bool,
) -> Result<(), ScriptFault>
    ensures played { K.can_refuse ≡ false → RanScript (Plays (R.remaining (device_of reader.old))
        (W.contents (device_of writer.old)) (W.contents (device_of writer.new))
        (at_first trace new_device) 1) result }
    // If allocations never fail, the lines that the reader returned before it failed were played,
    // or as many lines as a script may have.
    ensures failed { AreScriptFaults result (marks_of reader.new) (marks_of writer.new)
        (K.can_refuse ≡ false → PlaysToFailure
        (R.remaining (device_of reader.old)) (R.remaining (device_of reader.new))
        (W.contents (device_of writer.old)) (W.contents (device_of writer.new))
        (at_first trace new_device))
        (K.can_refuse ≡ false → PlaysAllAllowed (R.remaining (device_of reader.old))
        (W.contents (device_of writer.old)) (W.contents (device_of writer.new))
        (at_first trace new_device)) }
    ensures no_memory { OnScriptNoMemory result
        ((reader.new ≡ reader.old) × (writer.new ≡ writer.old)) }
{
    run_script_for::<K, R, W>(alloc, Profile::Symmetric, reader, writer, trace)
}

/// Like [`run_device`], but runs the script from `reader` on a new device of this profile, which is
/// manufactured with the bytes 00 to ff and is not saved. A script with too many lines ends like one
/// whose reader failed.
pub fn run_script_for<K: Keep, R: Read, W: Write>(
    alloc: Global,
    profile: Profile,
    reader: &mut Tap<R>,
    writer: &mut Tap<W>,
    trace: bool,
) -> Result<(), ScriptFault>
    ensures played { K.can_refuse ≡ false → RanScript (Plays (R.remaining (device_of reader.old))
        (W.contents (device_of writer.old)) (W.contents (device_of writer.new))
        (at_first trace (new_device_as profile)) 1) result }
    // If allocations never fail, the lines that the reader returned before it failed were played,
    // or as many lines as a script may have.
    ensures failed { AreScriptFaults result (marks_of reader.new) (marks_of writer.new)
        (K.can_refuse ≡ false → PlaysToFailure
        (R.remaining (device_of reader.old)) (R.remaining (device_of reader.new))
        (W.contents (device_of writer.old)) (W.contents (device_of writer.new))
        (at_first trace (new_device_as profile)))
        (K.can_refuse ≡ false → PlaysAllAllowed (R.remaining (device_of reader.old))
        (W.contents (device_of writer.old)) (W.contents (device_of writer.new))
        (at_first trace (new_device_as profile))) }
    ensures no_memory { OnScriptNoMemory result
        ((reader.new ≡ reader.old) × (writer.new ≡ writer.old)) }
{
    let machine: Machine<K> = new_machine(alloc, profile)?;
    script_result(run_device(alloc, machine, &mut SavesNothing, reader, writer, trace))
}

/// The result of a run on a new device, which is not saved.
fn script_result(ended: Result<(), RunFault>) -> Result<(), ScriptFault>
    ensures { result ≡ script_result ended }
{
    match ended {
        Ok(()) => Ok(()),
        Err(RunFault::Line(number)) => Err(ScriptFault::Line(number)),
        Err(RunFault::Read | RunFault::TooManyLines) => Err(ScriptFault::Read),
        Err(RunFault::Write | RunFault::Save) => Err(ScriptFault::Write),
        Err(RunFault::NoMemory) => Err(ScriptFault::NoMemory),
    }
}

/// A new device of this profile for scripts, manufactured with the bytes 00 to ff.
pub fn new_machine<K: Keep>(alloc: Global, profile: Profile) -> Result<Machine<K>, NoMemory>
    ensures refused { OnErr result (K.empty_can_refuse ≡ true) }
    ensures state { IfOk result (λ machine. state_of K.record_of machine ≡ new_device_as profile) }
{
    Machine::manufacture_as(alloc, profile, &first_bytes())
}

/// The bytes 00 to ff, with which a new device for scripts is manufactured.
pub fn first_bytes() -> [u8; 256]
    ensures { result ≡ script_bytes }
{
    array::from_fn(|place| place as u8)
}

/// Runs the script from `reader` on a device whose state is a `K`, and writes the response to each
/// command to `writer`. With `trace` it also writes the trace of each command before its response,
/// and the trace of each power cycle. If a command made a change that has to be saved, the device
/// is saved before the response is written. The device is also saved at each power cycle, and at
/// the end, however the run ends. Memory is allocated only at the start, except for the device's
/// state. Whatever the fault, the lines before it were run, and their responses written. Only a
/// `Write` or a `Save` fault can truncate the responses. If both occur, the fault is `Save`. If a
/// script contains more than [`SCRIPT_LINES`] lines, the first [`SCRIPT_LINES`] are run.
pub fn run_device<K: Keep, S: Saver, R: Read, W: Write>(
    alloc: Global,
    machine: Machine<K>,
    saver: &mut S,
    reader: &mut Tap<R>,
    writer: &mut Tap<W>,
    trace: bool,
) -> Result<(), RunFault>
    // If allocations never fail, the output is as defined for the script, to its end or to its
    // first bad line.
    ensures played { K.can_refuse ≡ false → Ran (Plays (R.remaining (device_of reader.old))
        (W.contents (device_of writer.old)) (W.contents (device_of writer.new))
        (at_first trace (state_of K.record_of machine)) 1) result }

    // If the reader failed, the complete lines that it had returned were played and their output
    // was written; only the start of the next line was not played.
    ensures read { K.can_refuse ≡ false → OnUnread result (PlaysToFailure
        (R.remaining (device_of reader.old)) (R.remaining (device_of reader.new))
        (W.contents (device_of writer.old)) (W.contents (device_of writer.new))
        (at_first trace (state_of K.record_of machine))) }

    // The fault TooManyLines means that the maximum number of lines was played, that their
    // output was written, and that there is another line.
    ensures too_many { K.can_refuse ≡ false → OnTooMany result (PlaysAllAllowed
        (R.remaining (device_of reader.old))
        (W.contents (device_of writer.old)) (W.contents (device_of writer.new))
        (at_first trace (state_of K.record_of machine))) }

    // The saver was notified of the device after each command and power cycle that was played, and
    // once more after the last line. The output is what these lines print, up to the first line at
    // which a save failed.
    ensures kept { K.can_refuse ≡ false → KeepsDevice S.saves S.saves_change
        (R.remaining (device_of reader.old)) (R.remaining (device_of reader.new))
        (W.contents (device_of writer.old)) (W.contents (device_of writer.new))
        (marks_of writer.new)
        (kept_playing (at_first trace (state_of K.record_of machine)) saver.old) result
        (λ end. S.saves end.saver end.playing.device saver.new) }

    // The fault Read means that the reader failed, Write that the writer failed, and Save that the
    // saver failed.
    ensures failed { AreTheirs result (marks_of reader.new) (marks_of writer.new)
        (S.has_failed saver.new) }

    // If there was not enough memory, nothing was read, written or saved.
    ensures no_memory { OnNoMemory result
        ((reader.new ≡ reader.old) × (writer.new ≡ writer.old) × (saver.new ≡ saver.old)) }
{
    let mut run = Run::new(alloc, machine, trace)?;
    let mut room = Room::new(alloc)?;
    let outcome = run.lines(reader, writer, saver, &mut room);
    let flushed = run.player.flush(writer);
    let Ok(()) = saver.save(run.player.machine()) else {
        return Err(RunFault::Save);
    };
    if is_unsaved(outcome) {
        return Err(RunFault::Save);
    }
    flushed?;
    outcome
}

/// Whether a run ended because a save failed.
fn is_unsaved(outcome: Result<(), RunFault>) -> bool
    ensures { result ≡ is_unsaved outcome }
{
    matches!(outcome, Err(RunFault::Save))
}

/// A script and its player.
#[derive(Drop)]
struct Run<K: Keep> {
    lines: Lines,
    player: Player<K>,
}

impl<K: Keep> Run<K> {
    fn new(alloc: Global, machine: Machine<K>, traced: bool) -> Result<Run<K>, AllocError>
        ensures playing { IfOk result (λ run. playing_of K.record_of run.player
            ≡ at_first traced (state_of K.record_of machine)) }
        ensures lines { IfOk result (λ run. rest_of run.lines ≡ []) }
        ensures ended { IfOk result (λ run. run.lines.ended ≡ false) }
        ensures answers { IfOk result (λ run. backlog run.player.answers ≡ []) }
    {
        Ok(Run {
            lines: Lines::new(alloc)?,
            player: Player::new(alloc, machine, traced)?,
        })
    }

    /// Runs the lines, to the end of the script or to a fault. The hex or the words of a line are
    /// decoded into `room`.
    fn lines<R: Read, W: Write, S: Saver>(
        &mut self,
        reader: &mut Tap<R>,
        writer: &mut Tap<W>,
        saver: &mut S,
        room: &mut Room,
    ) -> Result<(), RunFault>
        requires { Agrees (R.remaining (device_of reader.old)) self.old.lines }
        ensures played { K.can_refuse ≡ false → Ran (Plays
            (text_left (R.remaining (device_of reader.old)) self.old.lines)
            (printout (W.contents (device_of writer.old)) self.old.player.answers)
            (printout (W.contents (device_of writer.new)) self.new.player.answers)
            (playing_of K.record_of self.old.player) 1) result }
        ensures read { K.can_refuse ≡ false → OnUnread result (PlaysToFailure
            (text_left (R.remaining (device_of reader.old)) self.old.lines)
            (R.remaining (device_of reader.new))
            (printout (W.contents (device_of writer.old)) self.old.player.answers)
            (printout (W.contents (device_of writer.new)) self.new.player.answers)
            (playing_of K.record_of self.old.player)) }
        ensures too_many { K.can_refuse ≡ false → OnTooMany result (PlaysAllAllowed
            (text_left (R.remaining (device_of reader.old)) self.old.lines)
            (printout (W.contents (device_of writer.old)) self.old.player.answers)
            (printout (W.contents (device_of writer.new)) self.new.player.answers)
            (playing_of K.record_of self.old.player)) }
        ensures kept { K.can_refuse ≡ false → KeepsDevice S.saves S.saves_change
            (text_left (R.remaining (device_of reader.old)) self.old.lines)
            (R.remaining (device_of reader.new))
            (printout (W.contents (device_of writer.old)) self.old.player.answers)
            (printout (W.contents (device_of writer.new)) self.new.player.answers)
            (marks_of writer.new)
            (kept_playing (playing_of K.record_of self.old.player) saver.old) result
            (λ end. end ≡ kept_playing (playing_of K.record_of self.new.player) saver.new) }
        ensures failed { AreTheirs result (marks_of reader.new) (marks_of writer.new)
            (S.has_failed saver.new) }
        ensures memory { OnNoMemory result ⊥ }
    {
        for number in 1..SCRIPT_LINES + 1 {
            match self.next_line(reader, writer, number) {
                Ok(true) => {}
                Ok(false) => return Ok(()),
                Err(fault) => return Err(fault),
            }
            if let Err(fault) = self.player.line(self.lines.line(), room, writer, saver) {
                return Err(fault.at(number));
            }
        }
        let next = self.next_line(reader, writer, SCRIPT_LINES);
        end_at_limit(next)
    }

    /// Advances to the next line, which has this number. Returns whether there is such a line.
    /// Writes the responses before reading more of the script.
    fn next_line<R: Read, W: Write>(
        &mut self,
        reader: &mut Tap<R>,
        writer: &mut Tap<W>,
        number: u32,
    ) -> Result<bool, RunFault>
        requires { Agrees (R.remaining (device_of reader.old)) self.old.lines }
        ensures failed { AreTheirs result (marks_of reader.new) (marks_of writer.new) false }
        ensures played { playing_of K.record_of self.new.player
            ≡ playing_of K.record_of self.old.player }
        ensures found { NextFound number
            (text_left (R.remaining (device_of reader.old)) self.old.lines) result
            (line_of self.new.lines)
            (text_left (R.remaining (device_of reader.new)) self.new.lines) }
        ensures agrees { OnOk result (Agrees (R.remaining (device_of reader.new)) self.new.lines) }
        ensures printed { UnlessFailed result (Keeps
            (printout (W.contents (device_of writer.old)) self.old.player.answers)
            (printout (W.contents (device_of writer.new)) self.new.player.answers)) }
        ensures cut_off { OnUnwritten result (CutOff
            (printout (W.contents (device_of writer.old)) self.old.player.answers)
            (printout (W.contents (device_of writer.new)) self.new.player.answers)) }
        ensures read { OnUnread result (LosesStart
            (text_left (R.remaining (device_of reader.old)) self.old.lines)
            (R.remaining (device_of reader.new))) }
    {
        self.lines.next();
        loop {
            match self.lines.find() {
                Next::Line => return Ok(true),
                Next::End => return Ok(false),
                Next::TooLong => return Err(RunFault::Line(number)),
                Next::Incomplete => {
                    self.player.flush(writer)?;
                    if let Err(_error) = self.lines.fill(reader, &self.player.answers) {
                        return Err(RunFault::Read);
                    }
                }
            }
        }
    }
}

/// Returns the result of a run after the maximum number of lines: TooManyLines if there is
/// another line.
fn end_at_limit(next: Result<bool, RunFault>) -> Result<(), RunFault>
    ensures { result ≡ end_at_limit next }
{
    match next {
        Ok(false) => Ok(()),
        Ok(true) | Err(RunFault::Line(_)) => Err(RunFault::TooManyLines),
        Err(fault) => Err(fault),
    }
}
