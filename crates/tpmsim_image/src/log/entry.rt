//! The entry of a command that a device executed.

ghost use Rattle.std.specs.Prelude.{◌≡◌, IfSome, None, Some, false, take};
ghost use Rattle.tpm_journal_text.specs.Entry.{IsEntry, plain_entry};
ghost use Rattle.tpmsim_image.specs.log.Executed.{entry_by, fits_entry, has_entry};
ghost use Rattle.tpm_step.specs.step.Events.{plain_event};
ghost use Rattle.tpm_types_common.specs.Locality.{locality_number};

use tpm_journal_text::{ENTRY_LIMIT, Entry, sum_of};
use tpm_step::Event;
use tpm_types_common::Locality;

/// Returns the entry of an event that had this response, and drew `drawn` random bytes. A power
/// cycle has no entry. A command has no entry if its buffer is larger than an entry allows.
pub(crate) fn entry_of<'a>(event: &'a Event, drawn: usize, response: &[u8]) -> Option<Entry<'a>>
    ensures is { IfSome result (λ entry. IsEntry (plain_entry entry)) }
    ensures value { IfSome result (λ entry.
        entry_by (plain_event event.now) drawn response.now ≡ Some (plain_entry entry)) }
    ensures none { result ≡ None → has_entry (plain_event event.now) drawn ≡ false }
{
    match event {
        Event::PowerCycle => None,
        Event::Command {
            buffer,
            locality,
            elapsed_ms,
            random,
        } => {
            let answered = sum_of(response);
            entry_of_command(buffer, *locality, *elapsed_ms, random, drawn, answered)
        }
    }
}

/// Returns the entry of a command whose response has this checksum.
fn entry_of_command<'a>(
    buffer: &'a [u8],
    locality: Locality,
    elapsed_ms: u32,
    random: &'a [u8; 256],
    drawn: usize,
    answered: u64,
) -> Option<Entry<'a>>
    ensures is { IfSome result (λ entry. IsEntry (plain_entry entry)) }
    ensures value { IfSome result (λ entry. plain_entry entry ≡ record {
      elapsed = elapsed_ms;
      locality = locality_number locality;
      completes = false;
      drawn = take drawn random.now;
      buffer = buffer.now;
      answered = answered;
    }) }
    ensures none { result ≡ None → fits_entry buffer.now drawn random.now ≡ false }
{
    if buffer.len() > ENTRY_LIMIT || drawn > random.len() {
        return None;
    }
    let (drawn, _) = random.split_at(drawn);
    Some(Entry {
        elapsed_ms,
        locality: locality.number(),
        completes: false,
        drawn,
        buffer,
        answered,
    })
}
