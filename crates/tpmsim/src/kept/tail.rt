//! The part of a journal file after its last complete entry.

/// The bytes at the end of a journal file that the device did not execute: either an incomplete
/// entry left by a crash, or damaged data.
#[derive(Clone, Copy, PartialEq, Eq)]
pub struct Tail {
    /// The offset of these bytes in the file.
    pub place: u64,
    /// The number of these bytes.
    pub size: u64,
    pub is_damaged: bool,
}

impl Tail {
    /// No bytes: the device executed the whole file.
    pub fn none() -> Tail {
        Tail::torn(0, 0)
    }

    /// An incomplete entry left by a crash.
    pub fn torn(place: u64, size: u64) -> Tail {
        Tail {
            place,
            size,
            is_damaged: false,
        }
    }

    /// Reports on standard error that these bytes were dropped, if there are any.
    pub fn tell(self, rt: &HostRuntime) {
        let Tail {
            place,
            size,
            is_damaged,
        } = self;
        if size == 0 {
            return;
        }
        let _ = if is_damaged {
            eprintln!(rt;
                "tpmsim: state/journal: {size} bytes after the first {place} were dropped"
            )
        } else {
            eprintln!(rt;
                "tpmsim: state/journal: {size} bytes after the last whole record were cut off"
            )
        };
    }
}
