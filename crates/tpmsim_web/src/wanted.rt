//! What was expected at the error in a bad line of a script.

ghost use Rattle.std.specs.Prelude.{◌≡◌, drop};
ghost use Rattle.tpmsim_script.specs.Report.{wanted_text};

use tpm_help::word_at;
use tpmsim_script::{BadLine, Wanted};

/// Returns words that say what was expected at the error in a bad line.
pub fn wanted_text(bad: BadLine, line: &[u8]) -> &'static str
    ensures { result.now ≡ wanted_text bad.wanted line.now bad.fault }
{
    match bad.wanted {
        Wanted::Word => "do, cmd, loc, wait, entropy or power",
        Wanted::Command => word_at(words_of(line), bad.fault),
        Wanted::Hex => "hex",
        Wanted::Locality => "0 to 4",
        Wanted::Milliseconds => "u32",
        Wanted::Entropy => "1 to 256 bytes of hex",
        Wanted::End => "end of line",
        Wanted::ShortLine => "at most 65536 bytes",
    }
}

/// Returns the words after `do` and the space that follows it.
fn words_of(line: &[u8]) -> &[u8]
    ensures { result.now ≡ drop 3 line.now }
{
    if line.len() < 3 { &[] } else { &line[3..] }
}
