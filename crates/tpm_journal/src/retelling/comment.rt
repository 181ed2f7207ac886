//! The comment that says how the command of an entry was answered.

ghost use Rattle.std.specs.Prelude.{◌≡◌, codes};
ghost use Rattle.tpm_journal.specs.Command.{event_of};
ghost use Rattle.tpm_journal_text.specs.Entry.{IsEntry, plain_entry};
ghost use Rattle.tpm_text.specs.Trace.{IsAnswered, IsRow, trace_text};
ghost use Rattle.tpm_journal.specs.Retelling.{CanBeTold, words_of};

use arrayvec::ArrayString;
use tpm_journal_text::Entry;
use tpm_step::{Event, Outcome};
use tpm_text::trace_text;
use tpm_types_common::Locality;

/// The text of a comment.
pub type Comment = ArrayString<64>;

/// The words that say how an entry was answered: `completed` if the completing layer was on,
/// otherwise the trace of its command.
pub fn comment_of(entry: &Entry, outcome: &Outcome) -> Comment
    requires entry { IsEntry (plain_entry entry.now) }
    requires told { CanBeTold entry.now.completes (event_of (plain_entry entry.now)) outcome.now.row
        outcome.now.response.items }
    ensures { result.bytes ≡ words_of entry.now.completes (event_of (plain_entry entry.now))
        outcome.now.row outcome.now.response.items }
{
    if entry.completes {
        completed()
    } else {
        trace_of(entry, outcome)
    }
}

fn completed() -> Comment
    ensures { result.bytes ≡ codes "completed" }
{
    let mut words = ArrayString::new();
    words.push_str("completed");
    words
}

/// The trace of an entry's command. It does not depend on the command's random bytes.
fn trace_of(entry: &Entry, outcome: &Outcome) -> Comment
    requires entry { IsEntry (plain_entry entry.now) }
    requires row { IsRow outcome.now.row }
    requires response { IsAnswered (event_of (plain_entry entry.now)) outcome.now.response.items }
    ensures { result.bytes ≡ trace_text (event_of (plain_entry entry.now)) outcome.now.row
        outcome.now.response.items }
{
    let Some(locality) = Locality::new(entry.locality) else {
        return ArrayString::new();
    };
    let event = Event::of_command(entry.buffer, locality, entry.elapsed_ms, [0; 256]);
    trace_text(&event, outcome.row, outcome.response.as_slice())
}
