//! The intact part at the start of a journal.

ghost use Rattle.std.specs.Prelude.{◌≡◌, ◌≤◌, length};
ghost use Rattle.tpm_kept_journal.specs.Salvage.{entries_size, whole_size};

use tpm_journal_text::{BYTES_ROOM, CONTENT_LIMIT, ENTRY_ROOM, Next, read_entry, read_head};

/// Returns the size of the head and of the complete entries after it, or 0 if the bytes do not
/// begin with a head. The function is not inlined, so that its large buffers are not in its
/// caller's stack frame.
#[inline(never)]
pub(crate) fn whole_size(text: &[u8]) -> usize
    ensures value { result ≡ whole_size text.now }
    ensures within { result ≤ length text.now }
{
    let mut content = [0; CONTENT_LIMIT];
    let Some(head) = read_head(text, &mut content) else {
        return 0;
    };
    let (_, rest) = text.split_at(head.size);
    head.size + entries_size(head.sum, rest)
}

/// Returns the size of the entries at the start of the bytes; `sum` is the checksum before them.
fn entries_size(sum: u64, text: &[u8]) -> usize
    ensures value { result ≡ entries_size sum text.now }
    ensures within { result ≤ length text.now }
{
    let mut bytes = [0; BYTES_ROOM];
    let mut room = [0; ENTRY_ROOM];
    let mut after = sum;
    let mut taken = 0;
    loop {
        let (_, left) = text.split_at(taken);
        let (size, next) = match read_entry(after, left, &mut bytes, &mut room) {
            Next::Torn | Next::Damaged => return taken,
            Next::Whole {
                entry: _,
                size,
                sum,
            } => (size, sum),
        };
        taken += size;
        after = next;
    }
}
