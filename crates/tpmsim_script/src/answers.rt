//! The lines that a script prints: responses in hex, and traces. They stay in memory until they
//! are written.

ghost use Rattle.tpm_types_common.specs.Limits.{buffer_limit};
ghost use Rattle.std.specs.Prelude.{◌≡◌, ◌+◌, ◌*◌, ◌≤◌, ◌++◌, ◌∷◌, [], length, vec_len};
ghost use Rattle.tpmsim_script.specs.Script.{printed_response};
ghost use Rattle.tpmsim_script.specs.declared.answers.TheConstants.{CAPACITY};

use std::alloc::{AllocError, Global};
use std::io::Write;
use tpm_bytes::{Failed, Tap};

/// The size of the buffer for lines that are not yet written.
const CAPACITY: usize = 65_536;

/// Lines of text, and responses in lower-case hex, one on each line.
#[derive(Drop)]
pub struct Answers {
    text: Vec<u8>,
    used: usize,
    ghost capacity: { vec_len text ≡ CAPACITY },
    ghost within: { used ≤ CAPACITY },
}

impl Answers {
    ghost use Rattle.std.specs.Prelude.{IfOk, OnErr, OnOk, true};
    ghost use Rattle.std.specs.Io.KnownBytes.{Appends, Keeps};
    ghost use Rattle.tpm_bytes.specs.Tap.{device_of, marks_of};
    ghost use Rattle.tpmsim_script.specs.Answers.{CutOff, backlog, printout};

    /// An empty buffer of responses.
    pub fn new(alloc: Global) -> Result<Answers, AllocError>
        ensures { IfOk result (λ answers. backlog answers ≡ []) }
    {
        let text = vec![in alloc; 0u8; CAPACITY]?;
        Ok(Answers { text, used: 0 })
    }

    /// Adds a response as a line of hex. The line may stay in memory until [`Answers::flush`].
    pub fn put<W: Write>(&mut self, writer: &mut Tap<W>, response: &[u8]) -> Result<(), Failed>
        requires { length response.now ≤ buffer_limit }
        ensures failed { OnErr result ((marks_of writer.new).failed ≡ true) }
        ensures cut_off { OnErr result (CutOff
            (printout (W.contents (device_of writer.old)) self.old)
            (printout (W.contents (device_of writer.new)) self.new)) }
        ensures printed { OnOk result (Appends
            (printout (W.contents (device_of writer.old)) self.old)
            (printout (W.contents (device_of writer.new)) self.new)
            (printed_response response.now)) }
    {
        self.make_room(writer, 2 * response.len() + 1)?;
        self.hold(response);
        Ok(())
    }

    /// Adds a line of text. It may stay in memory until [`Answers::flush`].
    pub fn put_text<W: Write>(&mut self, writer: &mut Tap<W>, text: &[u8]) -> Result<(), Failed>
        requires { length text.now ≤ buffer_limit }
        ensures failed { OnErr result ((marks_of writer.new).failed ≡ true) }
        ensures cut_off { OnErr result (CutOff
            (printout (W.contents (device_of writer.old)) self.old)
            (printout (W.contents (device_of writer.new)) self.new)) }
        ensures printed { OnOk result (Appends
            (printout (W.contents (device_of writer.old)) self.old)
            (printout (W.contents (device_of writer.new)) self.new)
            (text.now ++ 10 ∷ [])) }
    {
        self.make_room(writer, text.len() + 1)?;
        self.hold_text(text);
        Ok(())
    }

    /// Makes space for a line of this size, including its end. Writes earlier lines if needed.
    fn make_room<W: Write>(&mut self, writer: &mut Tap<W>, size: usize) -> Result<(), Failed>
        requires { size ≤ CAPACITY }
        ensures failed { OnErr result ((marks_of writer.new).failed ≡ true) }
        ensures cut_off { OnErr result (CutOff
            (printout (W.contents (device_of writer.old)) self.old)
            (printout (W.contents (device_of writer.new)) self.new)) }
        ensures room { OnOk result (self.new.used + size ≤ CAPACITY) }
        ensures printed { OnOk result (Keeps
            (printout (W.contents (device_of writer.old)) self.old)
            (printout (W.contents (device_of writer.new)) self.new)) }
    {
        if CAPACITY - self.used < size {
            self.write(writer)?;
        }
        Ok(())
    }

    fn hold(&mut self, response: &[u8])
        requires { self.old.used + 2 * length response.now + 1 ≤ CAPACITY }
        ensures { backlog self.new ≡ backlog self.old ++ printed_response response.now }
    {
        let end = self.used + 2 * response.len() + 1;
        print(response, &mut self.text[self.used..end]);
        self.used = end;
    }

    fn hold_text(&mut self, text: &[u8])
        requires { self.old.used + length text.now + 1 ≤ CAPACITY }
        ensures { backlog self.new ≡ backlog self.old ++ (text.now ++ 10 ∷ []) }
    {
        let end = self.used + text.len() + 1;
        print_text(text, &mut self.text[self.used..end]);
        self.used = end;
    }

    /// Writes all buffered lines. If the writer fails, the lines are dropped: a later call does not
    /// write them again.
    pub fn flush<W: Write>(&mut self, writer: &mut Tap<W>) -> Result<(), Failed>
        ensures unmarked { OnOk result (marks_of writer.new ≡ marks_of writer.old) }
        ensures failed { OnErr result ((marks_of writer.new).failed ≡ true) }
        ensures cut_off { OnErr result (CutOff
            (printout (W.contents (device_of writer.old)) self.old)
            (printout (W.contents (device_of writer.new)) self.new)) }
        ensures empty { backlog self.new ≡ [] }
        ensures printed { OnOk result (Keeps
            (printout (W.contents (device_of writer.old)) self.old)
            (printout (W.contents (device_of writer.new)) self.new)) }
    {
        if self.used == 0 {
            return Ok(());
        }
        self.write(writer)?;
        writer.flush()
    }

    fn write<W: Write>(&mut self, writer: &mut Tap<W>) -> Result<(), Failed>
        ensures unmarked { OnOk result (marks_of writer.new ≡ marks_of writer.old) }
        ensures failed { OnErr result ((marks_of writer.new).failed ≡ true) }
        ensures cut_off { OnErr result (CutOff
            (printout (W.contents (device_of writer.old)) self.old)
            (printout (W.contents (device_of writer.new)) self.new)) }
        ensures empty { self.new.used ≡ 0 }
        ensures printed { OnOk result (Keeps
            (printout (W.contents (device_of writer.old)) self.old)
            (printout (W.contents (device_of writer.new)) self.new)) }
    {
        let used = self.used;
        self.used = 0;
        writer.write_all(&self.text[..used])?;
        Ok(())
    }
}

/// Writes a response in lower-case hex, and the end of its line, to `line`.
fn print(response: &[u8], line: &mut [u8])
    requires { length line.old ≡ 2 * length response.now + 1 }
    ensures { line.new ≡ printed_response response.now }
{
    let (digits, end) = line.split_at_mut(2 * response.len());
    tpm_hex::encode(response, digits);
    end[0] = b'\n';
}

/// Writes a text, and the end of its line, to `line`.
fn print_text(text: &[u8], line: &mut [u8])
    requires { length line.old ≡ length text.now + 1 }
    ensures { line.new ≡ text.now ++ 10 ∷ [] }
{
    let (start, end) = line.split_at_mut(text.len());
    start.copy_from_slice(text);
    end[0] = b'\n';
}
