//! The reasons why an NV index cannot be used, defined, or restored from a saved state.

/// No index has this handle. Changing an index's authorization value fails only for this reason.
#[derive(Clone, Copy, PartialEq, Eq)]
pub struct Undefined;

/// The reason why an index was not written, incremented or extended, or why its bits were not set.
#[derive(Clone, Copy, PartialEq, Eq)]
pub enum WriteFault {
    /// No index has this handle.
    Undefined,
    /// The index is locked against writing: WRITELOCKED is set.
    Locked,
    /// The index is not of the type that the call writes.
    Attributes,
    /// The write would go past the end of the data.
    PastData,
    /// WRITEALL is set, and the write would not cover all of the data.
    Partial,
    /// The counter's next value would exceed 2^64 - 1.
    Exhausted,
}

/// The reason why an index was not read.
#[derive(Clone, Copy, PartialEq, Eq)]
pub enum ReadFault {
    /// No index has this handle.
    Undefined,
    /// The index is locked against reading: READLOCKED is set.
    Locked,
    /// The index is not written yet.
    Uninitialized,
    /// The read would go past the end of the data.
    PastData,
}

/// The reason why an index was not locked.
#[derive(Clone, Copy, PartialEq, Eq)]
pub enum LockFault {
    /// No index has this handle.
    Undefined,
    /// The index lacks the attribute that allows this lock.
    Attributes,
}

/// The reason why an index was not defined.
#[derive(Clone, Copy, PartialEq, Eq)]
pub enum DefineFault {
    /// WRITTEN is set in the public area, which a definition does not allow.
    Written,
    /// The size is not allowed for an index of this type.
    DataSize,
    /// The handle is not that of an index, or a reserved attribute is set in the public area.
    Public,
    /// An index with this handle already exists.
    Defined,
    /// The number of indices is at its limit, or too little NV space is left.
    Space,
    /// An allocation failed.
    NoMemory,
}

/// The reason why an index was not restored.
#[derive(Clone, Copy, PartialEq, Eq)]
pub enum RestoreFault {
    /// The handle is not that of an index, or a reserved attribute is set in the public area.
    Public,
    /// The size is not allowed for an index of this type, or the data has another size. An index
    /// that is not written has no data.
    DataSize,
    /// An index with this handle already exists.
    Defined,
    /// The number of indices is at its limit, or too little NV space is left.
    Space,
    /// An allocation failed.
    NoMemory,
}
