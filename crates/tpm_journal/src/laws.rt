//! The laws of journals: opening a journal yields the device that executed the answered commands.
//! Each function only states laws, and does nothing at run time.

ghost use Rattle.std.specs.Prelude.{◌≡◌, ◌++◌, ℕ, Bool, List, Ok, Option, Result, false};
ghost use Rattle.std.specs.List.{AllByRecursion};
ghost use Rattle.tpm_completion.specs.declared.completion.Completion.{Completion};
ghost use Rattle.tpm_machine.specs.Follows.{Follows, StretchFollows};
ghost use Rattle.tpm_machine.specs.History.{History};
ghost use Rattle.tpm_image_text.specs.Image.{device_image};
ghost use Rattle.tpm_journal.specs.Checkpoint.{checkpointed_journal, state_beside};
ghost use Rattle.tpm_journal.specs.Living.{Answers, Lives};
ghost use Rattle.tpm_journal.specs.Opening.{IsOpenedAgain, OpensJournal};
ghost use Rattle.tpm_journal.specs.Replay.{IsFollowedWhole, Repeats, Replays, run_of_all};
ghost use Rattle.tpm_journal.specs.Starting.{BeginsWith, Start, start_by};
ghost use Rattle.tpm_journal.specs.State.{journal_begun, journal_resumed};
ghost use Rattle.tpm_journal.specs.declared.following.FollowFault.{FollowFault};
ghost use Rattle.tpm_journal.specs.declared.following.Followed.{Followed};
ghost use Rattle.tpm_journal.specs.declared.journal.Journal.{Journal};
ghost use Rattle.tpm_journal.specs.declared.opening.OpenFault.{OpenFault};
ghost use Rattle.tpm_journal.specs.declared.opening.Opened.{Opened};
ghost use Rattle.tpm_journal_text.specs.Entry.{IsEntry, PlainEntry};
ghost use Rattle.tpm_journal_text.specs.Head.{head_sum, head_text};
ghost use Rattle.tpm_journal_text.specs.Journal.{IsTorn, entries_text, sum_after_all};
ghost use Rattle.tpm_journal_text.specs.declared.head.HeadKind.{HeadKind};
ghost use Rattle.tpm_journal_text.specs.declared.head.HeadKind.TheVariants.{Image, State};
ghost use Rattle.tpm_record.specs.Cycle.{after_cycle};
ghost use Rattle.tpm_record.specs.IsRecord.{IsRecord};
ghost use Rattle.tpm_record.specs.Record.{Record};
ghost use Rattle.tpm_state_text.specs.Body.{IsWholeState, WholeState};
ghost use Rattle.tpm_state_text.specs.State.{state_text};

/// Executing the entries of a running device and its layer again yields the same answers, layer and
/// record. Random bytes that a command did not draw have no effect.
#[inline(always)]
#[tactic(auto, using(crate::proofs::Ignoring::lives_alike))]
pub fn living_laws()
    ensures { (layer : Completion) (old : Record) (entries : List PlainEntry) (after : Completion)
        (new : Record) → Lives layer old entries after new → Answers layer old entries after new }
{}

/// Suppose that the input consists of entries and perhaps an incomplete entry after a crash. If the
/// device and its layer give the recorded answers, exactly the complete entries are executed again.
#[inline(always)]
pub fn following_laws()
    ensures { (before : Journal) (old : Record) (layer : Completion) (final new : Record)
        (entries : List PlainEntry) (rest text : List ℕ) (followed : Followed) (after : Journal)
        → Replays false before old text followed after new
        → AllByRecursion IsEntry entries → text ≡ entries_text before.sum entries ++ rest
        → IsTorn (sum_after_all before.sum entries) rest
        → Answers before.layer old entries layer final
        → IsFollowedWhole before entries layer final followed after new }
{}

/// These laws say which journal a head starts. The image of a device starts a new journal, with a
/// power cycle of the device. A state text starts a journal in which the device and the layer
/// continue unchanged. A checkpoint starts the journal that was checkpointed, with its layer and
/// its device.
#[inline(always)]
#[tactic(auto, using(crate::proofs::Starts::image_starts, crate::proofs::Starts::state_starts, crate::proofs::Starts::checkpoint_starts))]
pub fn starting_laws()
    ensures image { (clock : ℕ) (r : Record) → IsRecord r
        → start_by Image clock (device_image r) ≡ Ok (record {
          journal = journal_begun clock (device_image r);
          device = after_cycle r;
        }) }
    ensures state { (clock : ℕ) (state : WholeState) → IsWholeState state
        → start_by State clock (state_text state) ≡ Ok (record {
          journal = journal_resumed (head_sum clock (state_text state)) clock state.layer;
          device = state.device;
        }) }
    ensures checkpoint { (j : Journal) (clock : ℕ) (r : Record) → IsWholeState (state_beside j r)
        → start_by State clock (state_text (state_beside j r))
        ≡ Ok (record { journal = checkpointed_journal j clock r; device = r }) }
{}

/// Suppose that the input consists of a head that starts a journal, entries, and perhaps an
/// incomplete entry after a crash. If the device and its layer give the recorded answers, opening
/// the input yields the device and the layer after all complete entries.
#[inline(always)]
#[tactic(auto, using(crate::proofs::Again::opened_again))]
pub fn opening_laws()
    ensures { (kind : HeadKind) (clock : ℕ) (content : List ℕ) (start : Start)
        (entries : List PlainEntry) (rest : List ℕ) (layer : Completion) (final : Record)
        (text : List ℕ) → start_by kind clock content ≡ Ok start
        → BeginsWith text kind clock content (entries_text start.journal.sum entries ++ rest)
        → AllByRecursion IsEntry entries
        → IsTorn (sum_after_all start.journal.sum entries) rest
        → Answers start.journal.layer start.device entries layer final
        → (result : Result Opened OpenFault) (new : Record) → OpensJournal text result new
        → IsOpenedAgain (head_text kind clock content) start.journal entries layer final result
        new }
{}

/// The input begins with a checkpoint of a running device. It continues with the entries of the
/// commands that the device and its layer executed since, and perhaps with an incomplete entry
/// after a crash. Opening this input yields the same device and layer.
#[inline(always)]
#[tactic(auto, using(crate::proofs::Starts::checkpoint_opened))]
pub fn checkpoint_laws()
    ensures { (j : Journal) (clock : ℕ) (r : Record) (entries : List PlainEntry) (rest : List ℕ)
        (layer : Completion) (final : Record) (text : List ℕ) → IsWholeState (state_beside j r)
        → BeginsWith text State clock (state_text (state_beside j r))
        (entries_text (checkpointed_journal j clock r).sum entries ++ rest)
        → AllByRecursion IsEntry entries
        → IsTorn (sum_after_all (checkpointed_journal j clock r).sum entries) rest
        → Lives j.layer r entries layer final
        → (result : Result Opened OpenFault) (new : Record) → OpensJournal text result new
        → IsOpenedAgain (head_text State clock (state_text (state_beside j r)))
        (checkpointed_journal j clock r) entries layer final result new }
{}

/// If a device executes entries again, everything that it accepts from them is added to the history
/// that it follows. The law also states other properties of these executions, such as the limits on
/// failed tries.
#[inline(always)]
pub fn repeating_laws()
    ensures { (can : Bool) (before : Journal) (old : Record) (text : List ℕ) (taken : ℕ)
        (fault : Option FollowFault) (after : Journal) (new : Record) (history : History)
        → (r : Repeats can before old text taken fault after new) → Follows old history
        → StretchFollows can old (run_of_all can before old r.performances after new r.leads) new
        history }
{}
