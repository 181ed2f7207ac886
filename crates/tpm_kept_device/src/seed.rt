//! The seed from which a device is created, and its decoding.

ghost use Rattle.tpm_bytes.specs.Reading.{Gives};
ghost use Rattle.tpm_kept_journal.specs.Seed.{seed_in};
ghost use Rattle.tpm_kept_device.specs.View.{plain_seed};

use tpm_bytes::Cursor;
use tpm_image_text::{Malformed, read_u8, read_u64};

/// The seed from which a device is created.
#[derive(Clone, Copy)]
pub(crate) struct Seed<'a> {
    /// The kind of the content: 0 for random bytes, 1 for an image, 2 for a state text.
    pub(crate) kind: u8,
    /// The host's clock in milliseconds.
    pub(crate) now_ms: u64,
    /// The start number of the completing layer; no earlier layer had this number.
    pub(crate) start: u64,
    pub(crate) content: &'a [u8],
}

/// Decodes a seed.
#[tactic(auto, unfolding(tpm_kept_journal::specs::Seed::seed_in))]
pub(crate) fn read_seed<'a>(text: &'a [u8]) -> Result<Seed<'a>, Malformed>
    ensures { Gives plain_seed (seed_in text.now) result }
{
    let mut left = Cursor::new(text);
    let kind = read_u8(&mut left)?;
    let now_ms = read_u64(&mut left)?;
    let start = read_u64(&mut left)?;
    Ok(Seed {
        kind,
        now_ms,
        start,
        content: left.rest(),
    })
}
