//! The state of the layer: the sequence number of the last context, which sessions are saved, and
//! the sequence objects.

ghost use Rattle.std.specs.Prelude.{◌≡◌, ◌<◌, map};
ghost use Rattle.tpm_types_common.specs.Limits.{session_limit};
ghost use Rattle.tpm_bytes.specs.Numbers.{numbers_below};
ghost use Rattle.tpm_completion.specs.Completion.{forgotten, new_completion, session_context, session_kept};

use crate::sequences::no_sequences;
use tpm_record::Keep;
use tpm_sequence::SequenceObject;
use tpm_types_common::SESSION_LIMIT;

/// The state of the layer.
#[derive(Clone, Copy, PartialEq, Eq)]
pub struct Completion {
    /// A number that the caller chooses at each start of the layer. Each context contains it, so
    /// that contexts of earlier starts are not loaded.
    pub start: u64,
    /// The sequence number of the last context, or 0 before the first.
    pub count: u64,
    /// For each session, by its slot: the number of the context in which it was saved, or 0 if it
    /// is loaded.
    pub sessions: [u64; 16],
    /// The sequence objects, by slot.
    pub sequences: [Option<SequenceObject>; 3],
}

impl Completion {
    /// The state of a layer that started with this number, before it has saved any context. If each
    /// start has a different number, such as the time of the host's clock, contexts of earlier
    /// starts are not loaded.
    pub fn of_start(start: u64) -> Completion
        ensures { result ≡ new_completion start }
    {
        Completion {
            start,
            count: 0,
            sessions: [0; 16],
            sequences: no_sequences(),
        }
    }

    /// The state of the layer after a start with the number 0.
    pub fn new() -> Completion
        ensures { result ≡ new_completion 0 }
    {
        Completion::of_start(0)
    }

    /// The context number of the session in a slot, or 0 if the session is loaded.
    pub(crate) fn session(&self, place: usize) -> u64
        ensures { result ≡ session_context self.now place }
    {
        if place < SESSION_LIMIT {
            self.sessions[place]
        } else {
            0
        }
    }

    /// The context number of the session in a slot, or 0 if the device no longer has a session
    /// there.
    #[tactic(auto, unfolding(crate::specs::Completion::session_kept))]
    fn session_kept<K: Keep>(&self, keep: &K, place: usize) -> u64
        requires { place < session_limit }
        ensures { result ≡ session_kept (K.record_of keep.now) self.now place }
    {
        if keep.sessions().in_place(place).is_some() {
            self.session(place)
        } else {
            0
        }
    }

    /// The context numbers of the sessions that the device still has.
    fn sessions_kept<K: Keep>(&self, keep: &K) -> [u64; 16]
        ensures { result ≡ map (session_kept (K.record_of keep.now) self.now)
            (numbers_below session_limit) }
    {
        [
            self.session_kept(keep, 0),
            self.session_kept(keep, 1),
            self.session_kept(keep, 2),
            self.session_kept(keep, 3),
            self.session_kept(keep, 4),
            self.session_kept(keep, 5),
            self.session_kept(keep, 6),
            self.session_kept(keep, 7),
            self.session_kept(keep, 8),
            self.session_kept(keep, 9),
            self.session_kept(keep, 10),
            self.session_kept(keep, 11),
            self.session_kept(keep, 12),
            self.session_kept(keep, 13),
            self.session_kept(keep, 14),
            self.session_kept(keep, 15),
        ]
    }

    /// Forgets the contexts of sessions that no longer exist and, if the device is not started, the
    /// sequence objects. [`crate::execute`] does this after every event. A caller that executes an
    /// event without it, such as a power cycle, has to call this function.
    #[tactic(auto, unfolding(crate::specs::Completion::forgotten))]
    pub fn forget<K: Keep>(&mut self, keep: &K)
        ensures forgotten { self.new ≡ forgotten (K.record_of keep.now) self.old }
        ensures count { self.new.count ≡ self.old.count }
    {
        self.sessions = self.sessions_kept(keep);
        if !keep.fixed().started {
            self.sequences = no_sequences();
        }
    }
}
