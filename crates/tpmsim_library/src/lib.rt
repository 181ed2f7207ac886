#![tactic(auto)]

//! libtpmsim: a device inside the process that uses it, with functions of C linkage. It combines
//! the machine, whose state is in fixed slots, with its image, state text and journal. [`calls`],
//! [`completing`], [`snapshots`] and [`journal`] contain the exports for a device, and [`keeping`]
//! and [`asking`] contain the exports for a keeper. An allocator occupies no bytes, so C passes
//! nothing for it. `clients/c/tpmsim.h` declares the exports for C, and documents what a caller must
//! ensure.
//!
//! A [`Holder`](holder::Holder) is one pointer, null if there is no device, so zeroed memory is a
//! valid holder. Each call accepts every holder, and most return a [number](told). If this number
//! is not 0, the call did nothing and left the holder unchanged, except that
//! `tpmsim_journal_follow` has executed the entries before the error. A caller must only ensure
//! that its pointers and sizes describe its buffers. A
//! [`KeeperHolder`](keeper_holder::KeeperHolder) is the same for a keeper. Both consist of an
//! [`Owner`](owner::Owner), which converts a box to a pointer and back.
//!
//! The contracts for commands and power cycles are those of tpm_machine, for images those of
//! tpm_image, and for state texts those of tpm_snapshot. A keeper's steps are those of
//! tpm_keeping's definitions for the device's journal. No contract can say that memory is freed.

mod asking;
mod calls;
mod completing;
mod device;
mod holder;
mod journal;
mod keeper;
mod keeper_holder;
mod keeping;
mod number_laws;
mod owner;
mod request;
mod scratch;
mod shown;
mod snapshots;
mod told;
