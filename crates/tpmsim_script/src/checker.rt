//! Checks the lines of a script without running them.

ghost use Rattle.std.specs.Prelude.{◌≡◌, ◌≤◌, IfOk, length};
ghost use Rattle.tpmsim_script.specs.Checking.{Checks, check, line_check};
ghost use Rattle.tpmsim_script.specs.Line.{Executes, ExecutesWords, SetsEntropy, hex_of, meaning_of};

use crate::bad_line::{BadLine, Wanted};
use crate::line::{Line, misplaced, too_large};
use crate::lines::LINE_LIMIT;
use crate::room::Room;
use crate::script::Script;
use std::alloc::{AllocError, Global};
use tpm_commands::Profile;
use tpm_text::AsmFault;

/// Checks the lines of a script for a device of the symmetric profile, one after another. It remembers
/// the values that the earlier lines set for the next command.
#[derive(Drop)]
pub struct Checker {
    script: Script,
    room: Room,
}

impl Checker {
    ghost use Rattle.tpmsim_script.specs.Checker.{waited_of};

    /// A checker before the first line of a script.
    pub fn new(alloc: Global) -> Result<Checker, AllocError>
        ensures { IfOk result (λ checker. waited_of checker ≡ 0) }
    {
        Ok(Checker {
            script: Script::new(),
            room: Room::new(alloc)?,
        })
    }

    /// Checks the next line, passed without its 0a. A bad line does not change the values for the
    /// next command.
    #[tactic(auto, unfolding(crate::specs::Checking::line_check))]
    pub fn check(&mut self, line: &[u8]) -> Result<(), BadLine>
        ensures { Checks (line_check (waited_of self.old) line.now) (waited_of self.old) result
            (waited_of self.new) }
    {
        if line.len() > LINE_LIMIT {
            return Err(LONG_LINE);
        }
        let said = Line::parse(line)?;
        self.check_said(said)
    }

    /// Checks a parsed line.
    fn check_said(&mut self, said: Line) -> Result<(), BadLine>
        requires { length (hex_of (meaning_of said)) ≤ 65536 }
        ensures { Checks (check (waited_of self.old) (meaning_of said.entry)) (waited_of self.old)
            result (waited_of self.new) }
    {
        match said {
            Line::Command(digits) => self.check_hex(digits),
            Line::Words(words) => self.check_words(words),
            Line::Wait(milliseconds) => self
                .script
                .wait(milliseconds)
                .map_err(|_| too_large(Wanted::Milliseconds)),
            Line::Entropy(digits) => self.check_entropy(digits),
            Line::Locality(_) | Line::PowerCycle | Line::Nothing => Ok(()),
        }
    }

    /// Checks a command in hex.
    fn check_hex(&mut self, digits: &[u8]) -> Result<(), BadLine>
        requires { length digits.now ≤ 65536 }
        ensures { Checks (check (waited_of self.old) (Executes digits.now)) (waited_of self.old)
            result (waited_of self.new) }
    {
        match self.room.decode(digits) {
            Ok(buffer) => {
                let _command = self.script.command(buffer);
                Ok(())
            }
            Err(_) => Err(misplaced(Wanted::Hex)),
        }
    }

    /// Checks a command in words.
    fn check_words(&mut self, words: &[u8]) -> Result<(), BadLine>
        ensures { Checks (check (waited_of self.old) (ExecutesWords words.now)) (waited_of self.old)
            result (waited_of self.new) }
    {
        match self.room.assemble(Profile::Symmetric, words) {
            Ok(buffer) => {
                let _command = self.script.command(buffer);
                Ok(())
            }
            Err(fault) => Err(BadLine {
                fault,
                wanted: Wanted::Command,
            }),
        }
    }

    /// Checks random bytes in hex.
    fn check_entropy(&mut self, digits: &[u8]) -> Result<(), BadLine>
        requires { length digits.now ≤ 65536 }
        ensures { Checks (check (waited_of self.old) (SetsEntropy digits.now)) (waited_of self.old)
            result (waited_of self.new) }
    {
        let Ok(entropy) = self.room.decode(digits) else {
            return Err(misplaced(Wanted::Entropy));
        };
        self.script
            .set_entropy(entropy)
            .map_err(|_| misplaced(Wanted::Entropy))
    }
}

/// The fault of a line of more than [`LINE_LIMIT`] bytes.
const LONG_LINE: BadLine = BadLine {
    fault: AsmFault::TooLong,
    wanted: Wanted::ShortLine,
};
