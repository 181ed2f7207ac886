//! Defines what a keeper requires of its device and of the device's journal.

ghost use Rattle.std.specs.Prelude.{◌≡◌, ◌++◌, ℕ, List, IfOk, OnOk, false, true};
ghost use Rattle.std.specs.Option.{MatchOption};
ghost use Rattle.std.specs.declared.option.Option.TheVariants.{None, Some};
ghost use Rattle.tpm_keeping.specs.Journal.{Journal, IsJournal, Spot, first_spot, next_spot};

use std::alloc::Global;

/// An allocation failed, or a number is too large for the machine.
#[derive(Clone, Copy, PartialEq, Eq)]
pub struct Exhausted;

/// A device in memory that executes the entries of a journal.
pub trait Device: Drop + Sized {
    /// The definition of the device's journal.
    ghost journal: { Journal };

    /// The bytes that represent the device's state, and the checksum to which its next entry is
    /// chained.
    ghost spot: { Self → Spot };

    /// The journal satisfies a keeper's requirements.
    ghost keeps: { IsJournal journal };

    /// Creates a device from random bytes or from a saved state. Returns None if `seed` is not
    /// valid.
    fn begin(alloc: Global, seed: &[u8]) -> Result<Option<Self>, Exhausted>
        ensures { IfOk result (λ begun. MatchOption begun (journal.begun seed.now ≡ None)
            (λ device. journal.begun seed.now ≡ Some (spot device).state)) };

    /// Opens a device from a journal, and returns it with the number of bytes executed. Returns
    /// None if the bytes are not a journal.
    fn open(alloc: Global, text: &[u8]) -> Result<Option<(Self, usize)>, Exhausted>
        ensures { IfOk result (λ opened. MatchOption opened (journal.opened text.now ≡ None)
            (λ found. journal.opened text.now ≡ Some (spot found.0, found.1))) };

    /// Executes entries, and returns the number of bytes executed. Returns None if the entries do
    /// not continue the journal.
    fn follow(&mut self, text: &[u8]) -> Result<Option<usize>, Exhausted>
        ensures { IfOk result (λ followed. MatchOption followed
            (journal.followed (spot self.old) text.now ≡ None)
            (λ taken. journal.followed (spot self.old) text.now ≡ Some (spot self.new, taken))) };

    /// Returns the device after the undamaged beginning of a damaged journal, and the number of
    /// bytes executed. Returns None if the journal has no undamaged beginning.
    fn salvage(alloc: Global, text: &[u8]) -> Result<Option<(Self, usize)>, Exhausted>
        ensures { IfOk result (λ salvaged. MatchOption salvaged (journal.salvaged text.now ≡ None)
            (λ found. journal.salvaged text.now ≡ Some (spot found.0, found.1))) };

    /// Whether the bytes encode a command.
    fn is_command(command: &[u8]) -> bool
        ensures { result ≡ journal.is_command command.now };

    /// Whether the bytes encode a command that has an entry.
    fn is_entered(command: &[u8]) -> bool
        ensures { result ≡ journal.is_entered command.now };

    /// Executes a command that has an entry; appends the entry to `out` and the response to
    /// `response`.
    fn execute(
        &mut self,
        command: &[u8],
        out: &mut Vec<u8>,
        response: &mut Vec<u8>,
    ) -> Result<(), Exhausted>
        requires { journal.is_entered command.now ≡ true }
        ensures spot { OnOk result (spot self.new ≡ next_spot journal (spot self.old) command.now) }
        ensures entry { OnOk result (out.new.items
            ≡ out.old.items ++ journal.entry (spot self.old) command.now) }
        ensures response { OnOk result (response.new.items
            ≡ response.old.items ++ journal.response (spot self.old).state command.now) };

    /// Executes a command that has no entry, and appends the response. The checksum for the next
    /// entry is unspecified: `renew` is called before the next entry.
    fn leap(&mut self, command: &[u8], response: &mut Vec<u8>) -> Result<(), Exhausted>
        requires command { journal.is_command command.now ≡ true }
        requires unentered { journal.is_entered command.now ≡ false }
        ensures state { OnOk result ((spot self.new).state
            ≡ journal.after (spot self.old).state command.now) }
        ensures response { OnOk result (response.new.items
            ≡ response.old.items ++ journal.response (spot self.old).state command.now) };

    /// Appends the head of a journal that begins in the device's state.
    fn show(&self, out: &mut Vec<u8>) -> Result<(), Exhausted>
        ensures { OnOk result (out.new.items
            ≡ out.old.items ++ journal.head (spot self.now).state) };

    /// Like `show`, but the device's next entry then continues the journal that begins with this
    /// head.
    fn renew(&mut self, out: &mut Vec<u8>) -> Result<(), Exhausted>
        ensures spot { OnOk result (spot self.new ≡ first_spot journal (spot self.old).state) }
        ensures head { OnOk result (out.new.items
            ≡ out.old.items ++ journal.head (spot self.old).state) };
}
