//! Uses each reader and writer of bytes once, and checks what a tap reports about its device.

use super::comparison::check;
use std::io;
use std::io::{ErrorKind, Read, Write};
use tpm_bytes::{Cursor, Full, Short, Sink, SizedFault, Tap};

/// Sixteen different bytes: fifteen are read as numbers of one, two, four and eight bytes, and one
/// remains.
const TEXT: &[u8] = b"\x10\x21\x32\x43\x54\x65\x76\x87\x98\xa9\xba\xcb\xdc\xed\xfe\x0f";

/// Returns its argument. The prover knows nothing about the bytes that this call returns, and
/// therefore cannot compute with them.
fn unknown(bytes: &[u8]) -> &[u8] {
    bytes
}

#[test]
fn numbers_are_big_endian(rt: HostRuntime) {
    let mut cursor = Cursor::new(unknown(TEXT));
    check(&rt, cursor.u8(), Ok(0x10));
    check(&rt, cursor.u16(), Ok(0x2132));
    check(&rt, cursor.u32(), Ok(0x4354_6576));
    check(&rt, cursor.u64(), Ok(0x8798_a9ba_cbdc_edfe));
    check(&rt, cursor.u16(), Err(Short));
    check(&rt, cursor.len(), 1);
    check(&rt, cursor.take(1), Ok([0x0f].as_slice()));
    check(&rt, cursor.is_empty(), true);
}

#[test]
fn a_sized_buffer_has_a_limit(rt: HostRuntime) {
    let text = b"\x00\x03abc";
    let mut cursor = Cursor::new(unknown(text));
    check(&rt, cursor.sized(2), Err(SizedFault::TooLong));
    check(&rt, cursor.rest(), text.as_slice());
    check(&rt, cursor.sized(3), Ok(b"abc".as_slice()));
    check(&rt, cursor.sized(3), Err(SizedFault::Short));
}

/// Writes fifteen bytes as numbers of each width, then a sized buffer of three bytes, and then two
/// plain bytes.
fn fill(sink: &mut Sink<20>) -> Result<(), Full> {
    sink.put_u8(0x10)?;
    sink.put_u16(0x2132)?;
    sink.put_u32(0x4354_6576)?;
    sink.put_u64(0x8798_a9ba_cbdc_edfe)?;
    sink.put_sized(b"a")?;
    sink.put(b"bc")
}

#[test]
fn a_sink_takes_what_fits(rt: HostRuntime) {
    let mut sink = Sink::new();
    check(&rt, fill(&mut sink), Ok(()));
    check(&rt, sink.put(b"d"), Err(Full));
    check(&rt, sink.len(), 20);
    check(&rt, sink.as_slice().get(..15), TEXT.get(..15));
    check(
        &rt,
        sink.into_bytes().as_slice().get(15..),
        Some(b"\0\x01abc".as_slice()),
    );
}

/// What a tap's device does when it is called.
#[derive(Clone, Copy)]
enum Conduct {
    /// The device reads or writes one byte, if the buffer has space for it.
    OneByte,
    /// The device reads or writes nothing.
    Nothing,
    Fails,
}

impl Conduct {
    fn count(self, room: usize) -> io::Result<usize> {
        match self {
            Conduct::OneByte => Ok(room.min(1)),
            Conduct::Nothing => Ok(0),
            Conduct::Fails => Err(ErrorKind::ConnectionReset.into()),
        }
    }
}

/// A reader and writer. Each call behaves as the next entry of `conducts` says. After the last
/// entry, calls read or write nothing.
#[derive(Drop)]
struct Device {
    conducts: &'static [Conduct],
}

impl Device {
    fn next(&mut self) -> Conduct {
        match self.conducts.split_first() {
            Some((first, others)) => {
                self.conducts = others;
                *first
            }
            None => Conduct::Nothing,
        }
    }
}

impl Read for Device {
    fn read(&mut self, buffer: &mut [u8]) -> io::Result<usize> {
        let count = self.next().count(buffer.len())?.min(buffer.len());
        buffer[..count].fill(7);
        Ok(count)
    }
}

impl Write for Device {
    fn write(&mut self, piece: &[u8]) -> io::Result<usize> {
        let count = self.next().count(piece.len())?;
        Ok(count.min(piece.len()))
    }

    fn flush(&mut self) -> io::Result<()> {
        Ok(())
    }
}

/// The number of bytes that a call read or wrote, or the kind of the call's error.
fn outcome_of(given: io::Result<usize>) -> Result<usize, ErrorKind> {
    match given {
        Ok(count) => Ok(count),
        Err(error) => Err(error.kind()),
    }
}

/// Whether a tap's device failed, whether it reached its end, and how often it was read.
fn marks_of(tap: &Tap<Device>) -> (bool, bool, u64) {
    (tap.failed(), tap.ended(), tap.reads())
}

#[test]
fn a_tap_tells_what_a_reader_did(rt: HostRuntime) {
    let conducts = &[
        Conduct::OneByte,
        Conduct::OneByte,
        Conduct::Fails,
        Conduct::OneByte,
        Conduct::Nothing,
        Conduct::Nothing,
        Conduct::OneByte,
    ];
    let mut tap = Tap::new(Device { conducts });
    let mut buffer = [0u8; 2];
    check(&rt, marks_of(&tap), (false, false, 0));
    for (room, outcome, failed, ended, reads) in [
        (2, Ok(1), false, false, 1),
        (0, Ok(0), false, false, 1),
        (2, Err(ErrorKind::ConnectionReset), true, false, 1),
        (1, Ok(1), true, false, 2),
        (0, Ok(0), true, false, 2),
        (1, Ok(0), true, true, 2),
        (2, Ok(1), true, true, 3),
    ] {
        let room: usize = room;
        let got = outcome_of(tap.read(&mut buffer[..room.min(2)]));
        check(&rt, got, outcome);
        check(&rt, marks_of(&tap), (failed, ended, reads));
    }
    check(&rt, buffer, [7, 0]);
    check(&rt, tap.into_inner().conducts.is_empty(), true);
}

#[test]
fn a_tap_tells_what_a_writer_did(rt: HostRuntime) {
    let cases: [(&'static [Conduct], &[u8], Result<usize, ErrorKind>, bool); 5] = [
        (&[Conduct::OneByte], b"ab", Ok(1), false),
        (&[Conduct::OneByte], b"", Ok(0), false),
        (&[Conduct::Nothing], b"ab", Ok(0), true),
        (&[Conduct::Nothing], b"", Ok(0), false),
        (
            &[Conduct::Fails],
            b"ab",
            Err(ErrorKind::ConnectionReset),
            true,
        ),
    ];
    for (conducts, piece, outcome, failed) in cases {
        let mut tap = Tap::new(Device { conducts });
        let got = outcome_of(tap.write(piece));
        check(&rt, (piece, got), (piece, outcome));
        check(&rt, marks_of(&tap), (failed, false, 0));
    }
}

#[test]
fn a_tap_writes_a_whole_text(rt: HostRuntime) {
    let cases: [(&'static [Conduct], bool); 4] = [
        (&[Conduct::OneByte, Conduct::OneByte], true),
        (&[], true),
        (&[Conduct::OneByte, Conduct::Nothing], false),
        (&[Conduct::OneByte, Conduct::Fails], false),
    ];
    for (conducts, succeeds) in cases {
        let mut tap = Tap::new(Device { conducts });
        let text: &[u8] = if conducts.is_empty() { b"" } else { b"ab" };
        check(&rt, tap.write_all(text).is_ok(), succeeds);
        check(&rt, tap.failed(), !succeeds);
    }
}

/// A reader and writer that behaves the same way at each call, and counts the calls.
#[derive(Drop)]
struct CountedDevice {
    conduct: Conduct,
    calls: u32,
}

impl CountedDevice {
    fn called(&mut self, room: usize) -> io::Result<usize> {
        self.calls = self.calls.saturating_add(1);
        self.conduct.count(room)
    }
}

impl Read for CountedDevice {
    fn read(&mut self, buffer: &mut [u8]) -> io::Result<usize> {
        Ok(self.called(buffer.len())?.min(buffer.len()))
    }
}

impl Write for CountedDevice {
    fn write(&mut self, piece: &[u8]) -> io::Result<usize> {
        Ok(self.called(piece.len())?.min(piece.len()))
    }

    fn flush(&mut self) -> io::Result<()> {
        self.called(0)?;
        Ok(())
    }
}

/// How often a tap calls its device for one read, for one write, and for one flush. The device
/// behaves as `conduct` says.
fn calls_of(conduct: Conduct, bytes: &[u8]) -> [u32; 3] {
    let calls = 0;
    let mut read = Tap::new(CountedDevice { conduct, calls });
    let mut room = [0u8; 2];
    let _ = read.read(&mut room[..bytes.len().min(2)]);
    let mut written = Tap::new(CountedDevice { conduct, calls });
    let _ = written.write(bytes);
    let mut flushed = Tap::new(CountedDevice { conduct, calls });
    let _ = flushed.flush();
    [
        read.into_inner().calls,
        written.into_inner().calls,
        flushed.into_inner().calls,
    ]
}

#[test]
fn a_tap_calls_its_device_once(rt: HostRuntime) {
    for conduct in [Conduct::OneByte, Conduct::Nothing, Conduct::Fails] {
        check(&rt, calls_of(conduct, b""), [1, 1, 1]);
        check(&rt, calls_of(conduct, b"ab"), [1, 1, 1]);
    }
}
