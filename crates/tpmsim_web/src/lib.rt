#![tactic(auto)]

//! The device in a web page: the module that the page calls. Nothing here uses a heap, and the
//! module imports nothing: the page provides the memory for each device ([`lent`]).
//!
//! A [`Holder`](holder::Holder) is one pointer, null if there is no device, so zeroed memory is a
//! valid holder. [`calls`], [`completing`], [`snapshots`] and [`journal`] contain the exports for a
//! device; their contracts correspond, word for word, to those of tpmsim_library. [`script`] parses
//! the lines of scripts, [`report`] reports errors in them, and [`words`] converts commands and
//! codes to and from words. `web/EXPORTS.md` documents the exports for JavaScript, and what a
//! caller must ensure.

mod calls;
mod completing;
mod device;
mod front;
mod holder;
mod journal;
mod lent;
mod read_line;
mod recording;
mod report;
mod script;
mod snapshots;
mod told;
mod wanted;
mod words;
