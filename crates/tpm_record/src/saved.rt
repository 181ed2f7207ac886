//! The state that the last TPM2_Shutdown saved for the next TPM2_Startup, unless it was discarded
//! (TPM 2.0 Library, Part 3, sections 9.3 and 9.4).

ghost use Rattle.std.specs.Prelude.{◌≡◌, option_copied};
ghost use Rattle.tpm_record.specs.Saved.{Clear, IsSavedState, Nothing, State, kind_of, restored_from, saved_by, values_of};

use std::marker::Model;
use tpm_pcr::{Banks, SavedPcrs};
use tpm_types_common::StartupType;

/// The kind of the last TPM2_Shutdown; `Nothing` if there was no shutdown, or if the state that it
/// saved was discarded.
#[derive(Clone, Copy, PartialEq, Eq)]
pub enum SavedKind {
    Nothing,
    Clear,
    State,
}

/// The state that the last TPM2_Shutdown saved for the next TPM2_Startup. Discarded values remain
/// in memory but are ignored.
#[derive(Drop)]
pub struct Saved {
    kind: SavedKind,
    pcrs: SavedPcrs,
}

impl Model for Saved {
    ghost use Rattle.tpm_record.specs.Saved.{SavedState, state_kept};

    ghost Value = { SavedState };

    ghost view = { λ s. state_kept s.kind s.pcrs };
}

impl Saved {
    /// The saved state if there was no TPM2_Shutdown: nothing.
    pub fn nothing() -> Saved
        ensures { result ≡ Nothing }
    {
        Saved {
            kind: SavedKind::Nothing,
            pcrs: SavedPcrs::new(),
        }
    }

    /// The saved state after a TPM2_Shutdown with CLEAR, which saves no values.
    pub fn clear() -> Saved
        ensures { result ≡ Clear }
    {
        Saved {
            kind: SavedKind::Clear,
            pcrs: SavedPcrs::new(),
        }
    }

    /// The saved state after a TPM2_Shutdown with STATE, which saves these values.
    pub fn state(pcrs: SavedPcrs) -> Saved
        ensures { result ≡ State pcrs }
    {
        Saved {
            kind: SavedKind::State,
            pcrs,
        }
    }

    /// The saved values, if a TPM2_Shutdown with STATE saved the state.
    pub fn values(&self) -> Option<&SavedPcrs>
        ensures { option_copied result ≡ values_of self.now }
    {
        match self.kind {
            SavedKind::Nothing | SavedKind::Clear => None,
            SavedKind::State => Some(&self.pcrs),
        }
    }

    /// The kind of the saved state.
    pub fn kind(&self) -> SavedKind
        ensures { result ≡ kind_of self.now }
    {
        self.kind
    }

    /// Saves the state that a TPM2_Shutdown of this type has to save.
    pub fn shut_down(&mut self, kind: StartupType, banks: &Banks)
        ensures { self.new ≡ saved_by kind banks.now }
    {
        match kind {
            StartupType::Clear => self.kind = SavedKind::Clear,
            StartupType::State => {
                banks.save(&mut self.pcrs);
                self.kind = SavedKind::State;
            }
        }
    }

    /// Discards the saved state.
    pub fn cancel(&mut self)
        ensures { self.new ≡ Nothing }
    {
        self.kind = SavedKind::Nothing;
    }

    /// Sets PCRs 0 to 15 to their saved values, if there are any.
    pub fn restore(&self, banks: &mut Banks)
        ensures { banks.new ≡ restored_from self.now banks.old }
    {
        if self.kind == SavedKind::State {
            banks.restore(&self.pcrs);
        }
    }

    /// The sizes of the saved values follow from their types. This function is only a proof: it has
    /// no effect at run time.
    #[inline(always)]
    pub fn read_sizes(&self)
        ensures { IsSavedState self.now }
    {
        self.pcrs.read_sizes();
    }
}
