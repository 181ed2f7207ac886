//! Writes the lines for a head or an entry of a journal.

ghost use Rattle.std.specs.Prelude.{◌≡◌, ◌≤◌, ◌*◌, ◌++◌, ◌∷◌, [], OnErr, OnOk, codes, drop, length, take, true};
ghost use Rattle.std.specs.Io.KnownBytes.{Appends};
ghost use Rattle.tpm_bytes.specs.Tap.{device_of, marks_of};
ghost use Rattle.tpm_journal.specs.Command.{event_of};
ghost use Rattle.tpm_journal.specs.Retelling.{CanBeTold, answer_lines, retold_by, retold_head, words_of};
ghost use Rattle.tpm_journal_text.specs.Entry.{IsEntry, plain_entry};

use crate::retelling::Telling;
use crate::retelling::comment::{Comment, comment_of};
use std::io::Write;
use tpm_bytes::{Failed, Tap};
use tpm_hex::encode;
use tpm_journal_text::Entry;
use tpm_step::Outcome;

/// The size of the first line of an entry. This line contains the entry's checksums.
const MARK_LINE_SIZE: usize = 72;

/// The largest number of hex digits in a response.
const DIGITS_LIMIT: usize = 8_192;

/// Writes the output for a head: the head itself in a script, nothing in a list of answers.
pub fn put_head<W: Write>(writer: &mut Tap<W>, form: Telling, head: &[u8]) -> Result<(), Failed>
    ensures written { OnOk result (Appends (W.contents (device_of writer.old))
        (W.contents (device_of writer.new)) (retold_head form head.now)) }
    ensures failed { OnErr result ((marks_of writer.new).failed ≡ true) }
{
    match form {
        Telling::Script => writer.write_all(head),
        Telling::Answers => Ok(()),
    }
}

/// Writes the lines for an entry whose command was answered with this outcome. The first `size`
/// bytes of `text` are the entry itself.
pub fn put_entry<W: Write>(
    writer: &mut Tap<W>,
    form: Telling,
    entry: &Entry,
    outcome: &Outcome,
    text: &[u8],
    size: usize,
) -> Result<(), Failed>
    requires is { IsEntry (plain_entry entry.now) }
    requires told { CanBeTold entry.now.completes (event_of (plain_entry entry.now)) outcome.now.row
        outcome.now.response.items }
    requires long { 72 ≤ size }
    requires within { size ≤ length text.now }
    ensures written { OnOk result (Appends (W.contents (device_of writer.old))
        (W.contents (device_of writer.new))
        (retold_by form (words_of entry.now.completes (event_of (plain_entry entry.now))
        outcome.now.row outcome.now.response.items) outcome.now.response.items
        (take size text.now))) }
    ensures failed { OnErr result ((marks_of writer.new).failed ≡ true) }
{
    let comment = comment_of(entry, outcome);
    let (own, _) = text.split_at(size);
    match form {
        Telling::Script => put_lines(writer, &comment, own),
        Telling::Answers => put_answer(writer, &comment, outcome.response.as_slice()),
    }
}

/// Writes a comment, and then the lines of an entry that execute its command.
#[tactic(auto, using(crate::proofs::retelling::Words::put_together))]
fn put_lines<W: Write>(writer: &mut Tap<W>, comment: &Comment, text: &[u8]) -> Result<(), Failed>
    requires { MARK_LINE_SIZE ≤ length text.now }
    ensures written { OnOk result (Appends (W.contents (device_of writer.old))
        (W.contents (device_of writer.new))
        (codes "# " ++ comment.now.bytes ++ 10 ∷ [] ++ drop 72 text.now)) }
    ensures failed { OnErr result ((marks_of writer.new).failed ≡ true) }
{
    writer.write_all(b"# ")?;
    writer.write_all(comment.as_str().as_bytes())?;
    writer.write_all(b"\n")?;
    let (_, lines) = text.split_at(MARK_LINE_SIZE);
    writer.write_all(lines)
}

/// Writes the answer to an entry: the text of the comment, and the response in hex.
#[tactic(auto, using(crate::proofs::retelling::Words::put_together))]
fn put_answer<W: Write>(
    writer: &mut Tap<W>,
    comment: &Comment,
    response: &[u8],
) -> Result<(), Failed>
    requires { 2 * length response.now ≤ DIGITS_LIMIT }
    ensures written { OnOk result (Appends (W.contents (device_of writer.old))
        (W.contents (device_of writer.new)) (answer_lines comment.now.bytes response.now)) }
    ensures failed { OnErr result ((marks_of writer.new).failed ≡ true) }
{
    let mut room = [0; DIGITS_LIMIT];
    let (digits, _) = room.split_at_mut(2 * response.len());
    encode(response, digits);
    writer.write_all(comment.as_str().as_bytes())?;
    writer.write_all(b"\n")?;
    writer.write_all(digits)?;
    writer.write_all(b"\n")
}
