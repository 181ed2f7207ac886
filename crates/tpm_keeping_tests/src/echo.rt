//! A device without a state, whose response to each command is the command itself.

ghost use Rattle.std.specs.Prelude.{◌≡◌};
ghost use Rattle.tpm_keeping_tests.specs.Echo.{echo, nothing};
ghost use Rattle.tpm_keeping_tests.specs.EchoLaws.{echo_is_a_journal};

use std::alloc::Global;
use tpm_keeping::device::{Device, Exhausted};

/// The byte that an entry in the journal consists of.
const ENTRY: u8 = 101;

/// Responds to each command with the command itself. A command that begins with a zero has no
/// entry, and an empty list of bytes is not a command. A journal is damaged if its first entry is
/// not `ENTRY`.
#[derive(Drop)]
pub struct Echo;

impl Device for Echo {
    ghost journal = { echo };

    ghost spot = { λ device. nothing };

    ghost keeps = { echo_is_a_journal };

    fn begin(_alloc: Global, _seed: &[u8]) -> Result<Option<Echo>, Exhausted> {
        Ok(Some(Echo))
    }

    fn open(_alloc: Global, text: &[u8]) -> Result<Option<(Echo, usize)>, Exhausted> {
        if text.is_empty() {
            return Ok(None);
        }
        match text.get(1) {
            Some(entry) if *entry != ENTRY => Ok(None),
            _ => Ok(Some((Echo, text.len()))),
        }
    }

    fn follow(&mut self, text: &[u8]) -> Result<Option<usize>, Exhausted> {
        match text.first() {
            Some(entry) if *entry != ENTRY => Ok(None),
            _ => Ok(Some(text.len())),
        }
    }

    fn salvage(_alloc: Global, text: &[u8]) -> Result<Option<(Echo, usize)>, Exhausted> {
        if text.is_empty() {
            return Ok(None);
        }
        Ok(Some((Echo, 1)))
    }

    fn is_command(command: &[u8]) -> bool {
        !command.is_empty()
    }

    fn is_entered(command: &[u8]) -> bool {
        match command.first() {
            Some(first) => *first != 0,
            None => false,
        }
    }

    fn execute(
        &mut self,
        command: &[u8],
        out: &mut Vec<u8>,
        response: &mut Vec<u8>,
    ) -> Result<(), Exhausted> {
        let (Ok(()), Ok(())) = (out.push(ENTRY), response.extend_from_slice(command)) else {
            return Err(Exhausted);
        };
        Ok(())
    }

    fn leap(&mut self, command: &[u8], response: &mut Vec<u8>) -> Result<(), Exhausted> {
        let Ok(()) = response.extend_from_slice(command) else {
            return Err(Exhausted);
        };
        Ok(())
    }

    fn show(&self, out: &mut Vec<u8>) -> Result<(), Exhausted> {
        let Ok(()) = out.push(104) else {
            return Err(Exhausted);
        };
        Ok(())
    }

    fn renew(&mut self, out: &mut Vec<u8>) -> Result<(), Exhausted> {
        self.show(out)
    }
}
