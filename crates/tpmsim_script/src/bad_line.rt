//! The reasons why a line is not allowed in a script, and what is expected instead.

use tpm_text::AsmFault;

/// The reason why a line is not allowed in a script. Columns are counted from 1, in the text
/// after the line's first word and the space.
#[derive(Clone, Copy, PartialEq, Eq)]
pub struct BadLine {
    pub fault: AsmFault,
    /// What is expected at the position of the fault.
    pub wanted: Wanted,
}

/// What is expected instead of the bad part of a line.
#[derive(Clone, Copy, PartialEq, Eq)]
pub enum Wanted {
    /// The first word of a line: `do`, `cmd`, `loc`, `wait`, `entropy` or `power`.
    Word,
    /// A command in words. The command's shape says what is expected at the position of the fault.
    Command,
    /// A buffer in hex.
    Hex,
    /// The number of a locality.
    Locality,
    /// A number of milliseconds. The waits before a command must add up to less than 2^32.
    Milliseconds,
    /// Random bytes in hex.
    Entropy,
    /// The end of the line.
    End,
    /// A line of at most 65,536 bytes.
    ShortLine,
}
