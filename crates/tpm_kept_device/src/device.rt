//! A device with the interface that tpm_keeping requires.

ghost use Rattle.std.specs.Prelude.{◌≡◌, ◌++◌, OnOk, is_some};

use crate::command::{Command, read_command};
use crate::parts::Parts;
use std::alloc::Global;
use tpm_keeping::device::{Device, Exhausted};

/// A device that a keeper stores in a journal.
#[derive(Drop)]
pub struct KeptDevice {
    alloc: Global,
    parts: Box<Parts>,
}

impl Device for KeptDevice {
    ghost use Rattle.tpm_kept_journal.specs.DeviceJournal.{device_journal};
    ghost use Rattle.tpm_kept_device.specs.View.{spot_in};
    ghost use Rattle.tpm_kept_journal.proofs.JournalLaws.{device_is_a_journal};

    ghost journal = { device_journal };

    ghost spot = { λ device. spot_in device.parts.value };

    ghost keeps = { device_is_a_journal };

    fn begin(alloc: Global, seed: &[u8]) -> Result<Option<KeptDevice>, Exhausted> {
        match Parts::begin(alloc, seed)? {
            Some(parts) => Ok(Some(KeptDevice { alloc, parts })),
            None => Ok(None),
        }
    }

    fn open(alloc: Global, text: &[u8]) -> Result<Option<(KeptDevice, usize)>, Exhausted> {
        match Parts::open(alloc, text)? {
            Some((parts, taken)) => Ok(Some((KeptDevice { alloc, parts }, taken))),
            None => Ok(None),
        }
    }

    fn salvage(alloc: Global, text: &[u8]) -> Result<Option<(KeptDevice, usize)>, Exhausted> {
        match Parts::salvage(alloc, text)? {
            Some((parts, taken)) => Ok(Some((KeptDevice { alloc, parts }, taken))),
            None => Ok(None),
        }
    }

    fn follow(&mut self, text: &[u8]) -> Result<Option<usize>, Exhausted> {
        Ok(self.parts.follow(text))
    }

    fn is_command(command: &[u8]) -> bool {
        read_command(command).is_ok()
    }

    fn is_entered(command: &[u8]) -> bool {
        matches!(read_command(command), Ok(Command::Execute { .. }))
    }

    fn execute(
        &mut self,
        command: &[u8],
        out: &mut Vec<u8>,
        response: &mut Vec<u8>,
    ) -> Result<(), Exhausted> {
        self.parts.execute(command, out, response)
    }

    fn leap(&mut self, command: &[u8], response: &mut Vec<u8>) -> Result<(), Exhausted> {
        self.parts.read_widths();
        match read_command(command) {
            Ok(Command::Cycle { now_ms, .. }) => {
                self.parts.cycle_power(now_ms);
                Ok(())
            }
            Ok(Command::Begin { seed }) => self.begin_anew(seed, response),
            _ => Err(Exhausted),
        }
    }

    fn show(&self, out: &mut Vec<u8>) -> Result<(), Exhausted> {
        let _sum = self.parts.put_head(self.alloc, out)?;
        Ok(())
    }

    fn renew(&mut self, out: &mut Vec<u8>) -> Result<(), Exhausted> {
        let sum = self.parts.put_head(self.alloc, out)?;
        self.parts.chain_to(sum);
        Ok(())
    }
}

impl KeptDevice {
    ghost use Rattle.tpm_image_text.specs.Fields.{yes_no_text};
    ghost use Rattle.tpm_kept_journal.specs.Effect.{begun_or};
    ghost use Rattle.tpm_kept_journal.specs.Seed.{begun_in};
    ghost use Rattle.tpm_kept_device.specs.View.{state_of};

    /// If the bytes encode a valid seed, replaces the device with one that is created from this
    /// seed. Appends a byte that says whether the device was replaced.
    fn begin_anew(&mut self, seed: &[u8], response: &mut Vec<u8>) -> Result<(), Exhausted>
        ensures state { OnOk result (state_of self.new.parts.value
            ≡ begun_or (begun_in seed.now) (state_of self.old.parts.value)) }
        ensures response { OnOk result (response.new.items
            ≡ response.old.items ++ yes_no_text (is_some (begun_in seed.now))) }
    {
        let begun = Parts::begin(self.alloc, seed)?;
        let told = response.push(u8::from(begun.is_some()));
        if let Some(parts) = begun {
            self.parts = parts;
        }
        told.map_err(|_| Exhausted)
    }
}
