//! Laws about every run of the holders.

ghost use Rattle.std.specs.Prelude.{◌≡◌, ◌+◌, ◌<◌, ◌≤◌, ◌∷◌, ℕ, Bool, List, None, false, length, true};
ghost use Rattle.std.specs.List.{AllByRecursion};
ghost use Rattle.tpm_keeping.specs.Cutting.{Caller, IsOrIsAsked, next_call};
ghost use Rattle.tpm_keeping.specs.Holder.{Holder, Told, next_of};
ghost use Rattle.tpm_keeping.specs.Journal.{IsJournal, Journal};
ghost use Rattle.tpm_keeping.specs.Journal.{run};
ghost use Rattle.tpm_keeping.specs.Kept.{Advances, HasEnded, IsKept, KeepsFront, KeepsPromises};
ghost use Rattle.tpm_keeping.specs.Kept.{Pass, end_of, rank, text_read, turns};
ghost use Rattle.tpm_keeping.specs.Lines.{lines};
ghost use Rattle.tpm_keeping.specs.World.{Asks, Event, IsStart, World, world_after};
ghost use Rattle.tpm_keeping.specs.World.{happens};
ghost use Rattle.tpm_keeping.specs.declared.holder.End.{End};
ghost use Rattle.tpm_keeping.specs.declared.holder.End.TheVariants.{Done};
ghost use Rattle.tpm_keeping.specs.declared.holder.Job.{Job};
ghost use Rattle.tpm_keeping.specs.declared.holder.Job.TheVariants.{Cut, Show};
ghost use Rattle.tpm_keeping.specs.declared.holder.Phase.TheVariants.{Ended, Leaving, Making};

/// The journal opens as the device that executed the history, whatever the holders are asked to do,
/// wherever each is killed, whatever fails, and whenever the host crashes. If no crash removed the
/// command of a response, this device returns the same response. No crash removes what a holder
/// promised because of its `force` setting.
pub fn kept_through_crashes()
    ensures { (j : Journal) (start : World) (events : List Event)
        → IsJournal j → IsStart j start → IsKept j (world_after j events start).shared }
{}

/// After each report of the host, the call is in a later phase, or more of the file has been read.
pub fn calls_advance()
    ensures { (j : Journal) (k : Holder) (told : Told) → rank k.phase < 7
        → Advances k (next_of j k told) }
{}

/// A call ends if its host does all tasks and memory suffices. The call succeeds, unless there is
/// no journal and none can be created, or the bytes to execute do not encode a command. The call
/// takes at most six steps, plus one for each byte of the file, and then the lock is free.
pub fn calls_end()
    ensures { (j : Journal) (start : World) (events : List Event) (p : ℕ) (e : End) (job : Job)
        (command : List ℕ) (mores : List ℕ) → IsJournal j → IsStart j start
        → let w = world_after j events start in
        (w.holders p).phase ≡ Ended e → w.shared.locked ≡ false
        → 6 + length w.shared.file.now.text ≤ length mores
        → HasEnded (world_after j (Asks p job command ∷ turns p mores) w) p
        (end_of j w.shared.file job command) }
{}

/// Promised commands remain at the beginning of the history, whatever happens next.
pub fn promises_are_kept()
    ensures { (j : Journal) (start : World) (events : List Event) (e : Event)
        → IsJournal j → IsStart j start
        → let w = world_after j events start in KeepsPromises w.shared (happens j w e).shared }
{}

/// If all commands of the journal at the start and all requested commands have a property, then all
/// commands of the history have it. Therefore, no other command is executed.
pub fn only_what_was_asked()
    ensures { (j : Journal) (start : World) (events : List Event) (test : List ℕ → Bool)
        → IsJournal j → IsStart j start → AllByRecursion (λ c. test c ≡ true) start.shared.history
        → Pass test events
        → AllByRecursion (λ c. test c ≡ true) (world_after j events start).shared.history }
{}

/// A snapshot's response, just before the holder releases the lock, is the encoded state after the
/// whole history.
pub fn snapshots_are_true()
    ensures { (j : Journal) (start : World) (events : List Event) (p : ℕ)
        → IsJournal j → IsStart j start
        → ((world_after j events start).holders p).phase ≡ Leaving Done
        → ((world_after j events start).holders p).job ≡ Show
        → ((world_after j events start).holders p).response ≡ j.head
        (run j (world_after j events start).shared.origin
        (world_after j events start).shared.history) }
{}

/// The job `Cut` replaces a damaged journal with the head for the state after a prefix of that
/// journal. The size of this prefix is the number of bytes that the keeper then reports as
/// executed.
pub fn cuts_keep_a_front()
    ensures { (j : Journal) (k : Holder) (told : Told) → IsJournal j → k.job ≡ Cut
        → rank k.phase < 3 → (k.device ≡ None → k.place ≡ 0)
        → (next_of j k told).phase ≡ Making
        → KeepsFront j (text_read k.phase k told) (next_of j k told) }
{}

/// A step of a keeper that cuts off damage is a step of an ordinary keeper, possibly followed by a
/// request for another call. Therefore, every law about the runs of holders also holds if damage is
/// cut off.
pub fn cuts_are_calls()
    ensures { (j : Journal) (c : Caller) (told : Told)
        → IsOrIsAsked (next_of j c.holder told) (next_call j c told).holder }
{}

/// There is a journal that satisfies a keeper's requirements.
pub fn a_journal_can_be_kept()
    ensures { IsJournal lines }
{}
