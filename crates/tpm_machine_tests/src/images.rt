//! Two images of version 1, stored as bytes, and the devices that are opened from them.

use super::comparison::check;
use super::keeps::{Trial, run_over_both};
use std::alloc::Global;
use std::process::Abort;
use std::test::Fail;
use tpm_bytes::Tap;
use tpm_image::{ImageFault, open, save};
use tpm_machine::Machine;
use tpm_record::Keep;
use tpm_step::Event;
use tpm_types_common::Locality;

/// Bytes, written as a list of pieces. Each piece is a string of hex digits, with the number of
/// zero bytes after it.
type Pieces = &'static [(&'static str, usize)];

/// The image of a new device that was manufactured with the random bytes 00 to ff: the bytes in
/// tests/images/version_1/new.hex.
const NEW: Pieces = &[
    (
        "54504d490001000001630000000102030405060708090a0b0c0d0e0f10111213",
        0,
    ),
    (
        "1415161718191a1b1c1d1e1f808182838485868788898a8b8c8d8e8f90919293",
        0,
    ),
    (
        "9495969798999a9b9c9d9e9f0000202122232425262728292a2b2c2d2e2f3031",
        0,
    ),
    (
        "32333435363738393a3b3c3d3e3fa0a1a2a3a4a5a6a7a8a9aaabacadaeafb0b1",
        0,
    ),
    (
        "b2b3b4b5b6b7b8b9babbbcbdbebf0000404142434445464748494a4b4c4d4e4f",
        0,
    ),
    (
        "505152535455565758595a5b5c5d5e5fc0c1c2c3c4c5c6c7c8c9cacbcccdcecf",
        0,
    ),
    (
        "d0d1d2d3d4d5d6d7d8d9dadbdcdddedf0000606162636465666768696a6b6c6d",
        0,
    ),
    (
        "6e6f707172737475767778797a7b7c7d7e7fe0e1e2e3e4e5e6e7e8e9eaebeced",
        0,
    ),
    (
        "eeeff0f1f2f3f4f5f6f7f8f9fafbfcfdfeff0000000000000000000003000003",
        0,
    ),
    ("e8000003e8", 30),
    (
        "4a0246ad2011434eff90cea5641a19f663c75b68598f7c22aa8c67a4814d7a31",
        0,
    ),
];

/// The image of a device whose TPM2_Shutdown(STATE) saved PCRs 0 to 15, as in
/// tests/images/version_1/saved.hex. Before the shutdown, PCRs 3 and 16 had values, and a session
/// existed.
const SAVED: Pieces = &[
    (
        "54504d490001000004a30000000102030405060708090a0b0c0d0e0f10111213",
        0,
    ),
    (
        "1415161718191a1b1c1d1e1f808182838485868788898a8b8c8d8e8f90919293",
        0,
    ),
    (
        "9495969798999a9b9c9d9e9f0000202122232425262728292a2b2c2d2e2f3031",
        0,
    ),
    (
        "32333435363738393a3b3c3d3e3fa0a1a2a3a4a5a6a7a8a9aaabacadaeafb0b1",
        0,
    ),
    (
        "b2b3b4b5b6b7b8b9babbbcbdbebf0000404142434445464748494a4b4c4d4e4f",
        0,
    ),
    (
        "505152535455565758595a5b5c5d5e5fc0c1c2c3c4c5c6c7c8c9cacbcccdcecf",
        0,
    ),
    (
        "d0d1d2d3d4d5d6d7d8d9dadbdcdddedf0000ccff64c384bf22ccff64c384bf22",
        0,
    ),
    (
        "ccff64c384bf22ccff64c384bf22ccff64c384bf22ccff64c384bf22ccff64c3",
        0,
    ),
    (
        "84bf22ccff64c384bf22ccff64c384bf22cc0000000000000000000003000003",
        0,
    ),
    (
        "e8000003e80000000000000181cd0000000100000000000000000000000002",
        60,
    ),
    ("a1549ecb71cb4ca75e87e4cb0ba12f3b36c6568a", 336),
    (
        "a374910806592750e535db78366147f88e164a9102a9b30cafa8eeaf7380cfb4",
        388,
    ),
    (
        "57b0331182a182cb3eea93a9847bcd8f8dd8da70a0912690ad20ba06430a4f4e",
        0,
    ),
];

/// Decodes the pieces to bytes.
fn bytes_of(alloc: Global, pieces: Pieces) -> Result<Vec<u8>, Fail> {
    let mut text = Vec::new(alloc);
    for (digits, zeros) in pieces {
        let piece = hex::decode(alloc, *digits)?;
        text.extend_from_slice(piece.as_slice())?;
        let length = text.len().saturating_add(*zeros);
        text.resize(length, 0)?;
    }
    Ok(text)
}

/// The device that is opened from an image.
fn opened<K: Keep>(alloc: Global, image: Pieces) -> Result<Machine<K>, Fail> {
    let image = bytes_of(alloc, image)?;
    let Ok(machine) = open(alloc, image.as_slice()) else {
        return Err(Fail::new("it is not opened"));
    };
    Ok(machine)
}

/// The image of a device.
fn image_of<K: Keep>(alloc: Global, machine: &Machine<K>) -> Result<Vec<u8>, Fail> {
    let mut tap = Tap::new(Vec::new(alloc));
    let Ok(()) = save(machine, &mut tap) else {
        return Err(Fail::new("it is not saved"));
    };
    Ok(tap.into_inner())
}

/// The random bytes 00 to ff.
fn random() -> [u8; 256] {
    let mut random = [0; 256];
    for byte in 0..255 {
        random[usize::from(byte)] = byte;
    }
    random[255] = 255;
    random
}

/// The image that is saved by a device that was opened from an image.
fn saved_again<K: Keep>(alloc: Global, image: Pieces) -> Result<Vec<u8>, Fail> {
    let machine: Machine<K> = opened(alloc, image)?;
    image_of(alloc, &machine)
}

#[derive(Drop)]
struct NewDevice;

impl Trial for NewDevice {
    fn run<K: Keep, R: Abort>(rt: &R, alloc: Global) -> Result<(), Fail> {
        let made: Machine<K> = Machine::manufacture(alloc, &random())?;
        let wanted = image_of(alloc, &made)?;
        check(rt, saved_again::<K>(alloc, NEW)?, wanted);
        Ok(())
    }
}

#[test]
fn the_image_of_a_new_device(rt: HostRuntime) -> Result<(), Fail> {
    run_over_both(NewDevice, &rt, rt.alloc())
}

/// Truncates the image of the new device to `length` bytes, changes the byte at `place`, and
/// returns the error of opening it.
fn fault_of<K: Keep>(
    alloc: Global,
    length: usize,
    place: usize,
) -> Result<Option<ImageFault>, Fail> {
    let mut text = bytes_of(alloc, NEW)?;
    text.truncate(length);
    if let Some(byte) = text.get_mut(place) {
        *byte ^= 2;
    }
    let outcome: Result<Machine<K>, ImageFault> = open(alloc, text.as_slice());
    Ok(outcome.err())
}

/// Each size to which the image is truncated, with the offset of the changed byte, and the error.
const FAULTS: [(usize, usize, ImageFault); 5] = [
    (41, 0, ImageFault::Short),
    (355, 0, ImageFault::Magic),
    (355, 5, ImageFault::Version),
    (354, 353, ImageFault::Length),
    (355, 354, ImageFault::Digest),
];

#[derive(Drop)]
struct Faults;

impl Trial for Faults {
    fn run<K: Keep, R: Abort>(rt: &R, alloc: Global) -> Result<(), Fail> {
        for (length, place, fault) in FAULTS {
            check(rt, fault_of::<K>(alloc, length, place)?, Some(fault));
        }
        Ok(())
    }
}

#[test]
fn a_cut_or_changed_image_has_a_fault(rt: HostRuntime) -> Result<(), Fail> {
    run_over_both(Faults, &rt, rt.alloc())
}

/// A command buffer in hex, and the response to it.
type Exchange = (&'static str, Pieces);

/// TPM2_Startup(STATE).
const STARTUP: Exchange = ("80010000000c000001440001", &[("80010000000a00000000", 0)]);

/// TPM2_PCR_Read of PCR 3 and PCR 16 in the SHA-256 bank: PCR 3 has the value from the image, and
/// PCR 16 is all zeros.
const READ: Exchange = (
    "8001000000140000017e00000001000b03080001",
    &[
        (
            "800100000060000000000000000000000001000b03080001000000020020",
            0,
        ),
        (
            "a374910806592750e535db78366147f88e164a9102a9b30cafa8eeaf7380cfb4",
            0,
        ),
        ("0020", 32),
    ],
);

/// TPM2_PolicyGetDigest for the session that existed before the power cycle. It is refused with
/// TPM_RC_REFERENCE_H0.
const POLICY: Exchange = (
    "80010000000e0000018903000000",
    &[("80010000000a00000910", 0)],
);

/// TPM2_StartAuthSession, which allocates memory if the state is stored in lists. The new session
/// gets the handle of the earlier session, which is free again.
const START: Exchange = (
    "80010000002b0000017640000007400000070010000000000000000000000000000000000000010010000b",
    &[("80010000002000000000030000000010", 16)],
);

/// Checks the device's response to a buffer.
fn check_answer<K: Keep, R: Abort>(
    rt: &R,
    alloc: Global,
    machine: &mut Machine<K>,
    (buffer, answer): Exchange,
) -> Result<(), Fail> {
    let buffer = hex::decode(alloc, buffer)?;
    let here = Locality::new(0).unwrap();
    let event = Event::of_command(buffer.as_slice(), here, 0, [0; 256]);
    let outcome = machine.execute(&event);
    let wanted = bytes_of(alloc, answer)?;
    check(rt, outcome.response.as_slice(), wanted.as_slice());
    Ok(())
}

#[derive(Drop)]
struct SavedDevice;

impl Trial for SavedDevice {
    fn run<K: Keep, R: Abort>(rt: &R, alloc: Global) -> Result<(), Fail> {
        let mut machine: Machine<K> = opened(alloc, SAVED)?;
        for exchange in [STARTUP, READ, POLICY, START] {
            check_answer(rt, alloc, &mut machine, exchange)?;
        }
        Ok(())
    }
}

#[test]
fn the_image_of_a_saved_state(rt: HostRuntime) -> Result<(), Fail> {
    run_over_both(SavedDevice, &rt, rt.alloc())
}
