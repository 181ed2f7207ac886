//! The values of PCRs, computed from a history alone: from the commands that a device accepted, and
//! from its power cycles (TPM 2.0 Library, Part 1, section 17, and Part 3, section 22).

use super::digests::digest_of;
use std::test::Fail;
use tpm_bytes::{Cursor, Short};
use tpm_mac::{Digest, HashAlg, digest_parts};

/// The codes of the commands that change the value of a PCR or save it.
const EVENT: u32 = 0x13c;

const RESET: u32 = 0x13d;

const STARTUP: u32 = 0x144;

const SHUTDOWN: u32 = 0x145;

const EXTEND: u32 = 0x182;

/// The startupType TPM_SU_STATE.
const STATE: u16 = 1;

/// What happened to a device.
#[derive(Drop)]
pub enum Happening {
    /// The device accepted the command in this buffer.
    Accepted(Vec<u8>),
    /// The device was power-cycled.
    PowerCycle,
}

/// A PCR in a bank: its value now, and the value that the last TPM2_Shutdown saved.
#[derive(Drop)]
struct Pcr {
    bank: HashAlg,
    number: u32,
    value: Digest,
    saved: Digest,
}

/// The value of a PCR after a power cycle: ones for PCRs 17 to 22, and zeros for the others.
fn starting_value(bank: HashAlg, number: u32) -> Digest {
    if number < 17 || 22 < number {
        return digest_of(bank.zeros());
    }
    match bank {
        HashAlg::Sha1 => digest_of(&[0xff; 20]),
        HashAlg::Sha256 => digest_of(&[0xff; 32]),
    }
}

/// The bank that an algorithm identifier names.
fn bank_of(identifier: u16) -> Result<HashAlg, Short> {
    match identifier {
        4 => Ok(HashAlg::Sha1),
        0x0b => Ok(HashAlg::Sha256),
        _ => Err(Short),
    }
}

impl Pcr {
    fn extend(&mut self, digest: &[u8]) {
        self.value = digest_parts(self.bank, &[self.value.as_slice(), digest]);
    }

    /// Extends the PCR by each digest of its bank in the parameters of TPM2_PCR_Extend.
    fn extend_by_all(&mut self, text: &mut Cursor) -> Result<(), Short> {
        let count = text.u32()?;
        for _ in 0..count {
            let bank = bank_of(text.u16()?)?;
            let digest = text.take(bank.size())?;
            if bank == self.bank {
                self.extend(digest);
            }
        }
        Ok(())
    }

    /// Extends the PCR by the digest of the data in the parameters of TPM2_PCR_Event.
    fn extend_by_event(&mut self, text: &mut Cursor) -> Result<(), Short> {
        let size = text.u16()?;
        let data = text.take(usize::from(size))?;
        let digest = digest_parts(self.bank, &[data]);
        self.extend(digest.as_slice());
        Ok(())
    }

    /// The effect of a command with a PCR's handle and an authorization area.
    fn measure(&mut self, code: u32, text: &mut Cursor) -> Result<(), Short> {
        let handle = text.u32()?;
        let size = text.u32()?;
        text.take(size as usize)?;
        if handle != self.number {
            return Ok(());
        }
        match code {
            RESET => self.value = digest_of(self.bank.zeros()),
            EVENT => self.extend_by_event(text)?,
            _ => self.extend_by_all(text)?,
        }
        Ok(())
    }

    /// The effect of TPM2_Startup: after TPM_SU_STATE, PCRs 0 to 15 have their saved values.
    fn start(&mut self, text: &mut Cursor) -> Result<(), Short> {
        if text.u16()? == STATE && self.number < 16 {
            self.value = digest_of(self.saved.as_slice());
        }
        Ok(())
    }

    /// The effect of an accepted command.
    fn follow(&mut self, buffer: &[u8]) -> Result<(), Short> {
        let mut text = Cursor::new(buffer);
        // tag and commandSize
        text.take(6)?;
        match text.u32()? {
            STARTUP => self.start(&mut text)?,
            SHUTDOWN => self.saved = digest_of(self.value.as_slice()),
            code @ (EXTEND | EVENT | RESET) => self.measure(code, &mut text)?,
            _ => (),
        }
        Ok(())
    }
}

/// The value of a PCR in a bank after a history.
fn value_after(history: &[Happening], bank: HashAlg, number: u32) -> Result<Digest, Short> {
    let mut pcr = Pcr {
        bank,
        number,
        value: starting_value(bank, number),
        saved: starting_value(bank, number),
    };
    for happening in history {
        match happening {
            Happening::Accepted(buffer) => pcr.follow(buffer.as_slice())?,
            Happening::PowerCycle => pcr.value = starting_value(bank, number),
        }
    }
    Ok(pcr.value)
}

/// Appends the values of PCRs in a bank after a history, each as a sized buffer.
pub fn append_values(
    history: &[Happening],
    bank: HashAlg,
    numbers: &[u32],
    bytes: &mut Vec<u8>,
) -> Result<(), Fail> {
    for number in numbers {
        let Ok(value) = value_after(history, bank, *number) else {
            return Err(Fail::new("an accepted command is too short"));
        };
        bytes.extend_from_slice(&[0, bank.size() as u8])?;
        bytes.extend_from_slice(value.as_slice())?;
    }
    Ok(())
}
