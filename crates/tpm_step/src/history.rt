//! Laws about histories: the PCRs, sessions, policies, authorization values and counters of a
//! device follow from what the device has accepted. Further laws say how each use of an entity was
//! authorized, which nonce or HMAC repeats in a replay, and how many tries may fail.
//!
//! Each law is the contract of a function that does nothing. The laws follow from the definitions
//! of the step and from the laws about all rows in [`crate::rows`]. Apart from the definitions of
//! the step, the proofs unfold only the rows that change what a history determines. These laws are
//! also part of the contracts of tpm_machine, and of tpm_image and tpm_wire, which use tpm_machine.

ghost use Rattle.std.specs.Prelude.{◌≡◌, ◌↔◌, ◌+◌, ◌++◌, ℕ, Bool, true, false, List, [], ◌∷◌, None, Some, map};
ghost use Rattle.tpm_mac.specs.declared.algorithm.HashAlg.{HashAlg};
ghost use Rattle.tpm_nv.specs.Index.{NvIndex};
ghost use Rattle.tpm_object.specs.Object.{IsObject};
ghost use Rattle.tpm_object.specs.declared.object.Object.{Object};
ghost use Rattle.tpm_session.specs.Sessions.{session_at};
ghost use Rattle.tpm_session.specs.declared.session.Session.{Session};
ghost use Rattle.tpm_types_common.specs.AuthValue.{trimmed};
ghost use Rattle.tpm_types_common.specs.Handle.{hierarchy_auth_of};
ghost use Rattle.tpm_types_common.specs.declared.handle.Handle.{Handle};
ghost use Rattle.tpm_record.specs.Cycle.{after_cycle};
ghost use Rattle.tpm_record.specs.Entity.{auth_value_of, is_present, names_kept};
ghost use Rattle.tpm_record.specs.IsRecord.{IsRecord};
ghost use Rattle.tpm_commands.specs.declared.profile.Profile.{Profile};
ghost use Rattle.tpm_record.specs.Record.{Record, manufactured, manufactured_as};
ghost use Rattle.tpm_step.specs.step.Events.{Given, PlainEvent};
ghost use Rattle.tpm_step.specs.step.Execution.{Executes};
ghost use Rattle.tpm_step.specs.step.Run.{Runs};
ghost use Rattle.tpm_step.specs.step.Step.{Stepped};
ghost use Rattle.tpm_step.specs.uses.Alike.{AuthorizeAlike};
ghost use Rattle.tpm_step.specs.history.AuthValues.{auth_of};
ghost use Rattle.tpm_step.specs.history.Counters.{CountLaws};
ghost use Rattle.tpm_step.specs.history.DeviceAuthValues.{HasAuthValues};
ghost use Rattle.tpm_step.specs.history.DeviceCounters.{BeginsAbove, ExceedsEarlier, HasCounters};
ghost use Rattle.tpm_step.specs.history.DeviceCounters.{KeepsCounter};
ghost use Rattle.tpm_step.specs.history.DeviceSessions.{HasSessions, IsLive};
ghost use Rattle.tpm_step.specs.history.Executions.{Execution, Leads, history_after, placing_execution};
ghost use Rattle.tpm_step.specs.history.Executions.{power_cycle};
ghost use Rattle.tpm_step.specs.history.FailedRun.{IsFailedRun};
ghost use Rattle.tpm_step.specs.history.Follows.{After, Follows, RunFollows, StretchFollows, Tells};
ghost use Rattle.tpm_step.specs.uses.Grounds.{AllHaveGrounds};
ghost use Rattle.tpm_step.specs.history.History.{AcceptedCommand, Done, History, PastEvent};
ghost use Rattle.tpm_step.specs.history.History.{PowerCycled};
ghost use Rattle.tpm_step.specs.history.History.{extended_history};
ghost use Rattle.tpm_step.specs.history.Pcrs.{before_shutdown, pcr_of, pcrs_after};
ghost use Rattle.tpm_step.specs.step.Placing.{record_with_object};
ghost use Rattle.tpm_step.specs.uses.PolicyLaws.{KeepsQuietValues, UsesItsCommand};
ghost use Rattle.tpm_step.specs.uses.PolicyLaws.{UsesAsWritten, UsesPcrsAsTheyAre};
ghost use Rattle.tpm_step.specs.uses.PolicyReviews.{IsWrittenOnce, NeedsCount, NeedsItsPolicy};
ghost use Rattle.tpm_step.specs.uses.PolicyReviews.{NeedsPcrs, NeedsPcrsAndPin, NeedsPinOrSecret};
ghost use Rattle.tpm_step.specs.uses.PolicyReviews.{OfEachAccepted};
ghost use Rattle.tpm_step.specs.uses.PolicyUses.{AllMeetPolicies};
ghost use Rattle.tpm_step.specs.history.Placings.{PlacesNothing};
ghost use Rattle.tpm_step.specs.history.Potential.{IsForgiving};
ghost use Rattle.tpm_step.specs.uses.RunReplays.{IsRecorded, RunReplaysRepeat};
ghost use Rattle.tpm_step.specs.history.Sessions.{IsNewSession, LiveSession, started_session};
ghost use Rattle.tpm_step.specs.history.Tries.{FailsFew, FailsWithin, IsAnsweredTry, IsReset};
ghost use Rattle.tpm_step.specs.history.Tries.{IsRefusedTry, fails_try, is_reset};
ghost use Rattle.tpm_step.specs.history.Tries.{tries_at_most, tries_within};
ghost use Rattle.tpm_step.specs.history.View.{view_of};
ghost use Rattle.tpm_step.specs.history.Views.{TellsOf};

use crate::event::Outcome;

/// A newly manufactured device follows the empty history. If a device follows a history, then after
/// an event it follows the history with this event added. An event that was not accepted is not
/// added. A power cycle is always added.
#[inline(always)]
pub fn following_laws()
    ensures manufactured { (profile : Profile) (random : List ℕ)
        → Follows (manufactured_as profile random) [] }
    ensures executed { (can : Bool) (old : Record) (event : PlainEvent) (x : Stepped)
        → Executes can old event x → After Follows old event x }
    ensures cycled { (r : Record) (history : History)
        → Follows r history → Follows (after_cycle r) (PowerCycled ∷ history) }
{}

/// Laws about sequences of executions. A power cycle alone is a sequence. Placing an object that
/// satisfies the invariant of loaded objects is also a sequence. Two sequences make one sequence if
/// the second begins with the record that the first left. A sequence that is possible if no
/// allocation can fail is also possible if allocations can fail.
#[inline(always)]
pub fn stretch_laws()
    ensures power_cycle { (can : Bool) (r : Record)
        → IsRecord r → Leads can r (power_cycle r ∷ []) (after_cycle r) }
    ensures placed { (can : Bool) (r : Record) (object : Object) → IsObject object
        → IsRecord r → Leads can r (placing_execution r object ∷ []) (record_with_object r object) }
    ensures joined { (can : Bool) (old : Record) (first : List Execution) (mid : Record)
        (second : List Execution) (new : Record)
        → Leads can old first mid → Leads can mid second new → Leads can old (first ++ second) new }
    ensures wider { (can : Bool) (old : Record) (executions : List Execution) (new : Record)
        → Leads false old executions new → Leads can old executions new }
{}

/// If a device follows a history, then after a sequence of events it follows the same history with
/// all accepted events added. The other properties of `StretchFollows` also hold.
#[inline(always)]
pub fn stretch_history_laws()
    ensures { (can : Bool) (old : Record) (executions : List Execution) (new : Record)
        (history : History) → Leads can old executions new → Follows old history
        → StretchFollows can old executions new history }
{}

/// After a run, which executes its events one after another, the device follows the history with
/// all accepted events added. Conversely, a sequence of executions is a run if a closure is called
/// with each outcome.
#[inline(always)]
pub fn run_history_laws<F: FnMut(&Outcome)>()
    ensures follows { (can : Bool) (old : Record) (p : F) (events : List PlainEvent) (new : Record)
        (q : F) (history : History) → Runs F.FnMut can old p events new q → Follows old history
        → RunFollows F.FnMut can old p events new q history }
    ensures runs { (can : Bool) (old : Record) (p : F) (executions : List Execution) (new : Record)
        (q : F) → Leads can old executions new → Tells F.FnMut p executions q
        → Runs F.FnMut can old p (map (λ (one : Execution). one.event) executions) new q }
{}

/// The view of a handle shows what the record contains: the Name, the policy, the protection, and
/// the means that can authorize the entity. For each command, a history records the views of the
/// command's handles before the command.
#[inline(always)]
pub fn view_laws()
    ensures tell { (r : Record) (handle : Handle) → TellsOf (view_of r handle) r handle }
    ensures recorded { (r : Record) (event : PlainEvent) (check : ℕ) (history : History)
        (c : AcceptedCommand) → extended_history r event check history ≡ Done c ∷ history
        → c.views ≡ map (view_of r) c.command.handles }
{}

/// The PCR values that a history records as saved are the values that the PCRs had at the last
/// shutdown. A TPM Resume sets PCR 0 to 15 to these values again.
#[inline(always)]
#[tactic(auto, using(crate::proofs::history::DevicePcrs::saved_are))]
pub fn shutdown_laws()
    ensures { (history : History) (bank : HashAlg) (pcr : ℕ)
        → (pcrs_after history).saved bank pcr ≡ pcr_of (before_shutdown history) bank pcr }
{}

/// The history determines the key, the nonceTPM and the policy of a device's session at a handle,
/// and how the session was started.
#[inline(always)]
#[tactic(auto, using(crate::proofs::history::DeviceSessions::live_sessions))]
pub fn live_session_laws()
    ensures { (r : Record) (history : History) (handle : Handle) (s : Session)
        → HasSessions r history → session_at r.sessions handle ≡ Some s
        → IsLive history handle s }
{}

/// An entity that exists has the authorization value that the history determines for its handle.
/// The value is empty for PCRs, for TPM_RH_NULL, and for every other handle that names neither a
/// hierarchy, lockout, an NV index nor an object. No authorization value ends in a zero byte.
#[inline(always)]
#[tactic(auto, using(crate::proofs::history::DeviceAuthValues::present_auth_value, crate::proofs::history::TrimmedValues::told_values_are_trimmed))]
pub fn auth_value_laws()
    ensures present { (r : Record) (history : History) (handle : Handle) → HasAuthValues r history
        → is_present r handle ≡ true → auth_value_of r handle ≡ auth_of history handle }
    ensures others { (r : Record) (history : History) (handle : Handle) → HasAuthValues r history
        → names_kept handle ≡ false → hierarchy_auth_of handle ≡ None
        → auth_of history handle ≡ [] }
    ensures trimmed { (history : History) (handle : Handle)
        → trimmed (auth_of history handle) ≡ auth_of history handle }
{}

/// Laws about the NV counters of every history, even a history that no device follows. The first
/// value of a counter exceeds every value that any counter had before. A counter does not go down
/// until an index is defined again with its handle. Each value is at most the largest value that
/// any counter had.
#[inline(always)]
#[tactic(auto, using(crate::proofs::history::CountLaws::count_laws))]
pub fn count_laws()
    ensures { CountLaws }
{}

/// No counter of a device goes down until an index is defined again with its handle. If a counter
/// has no value before a sequence of events, its value after the sequence exceeds every value that
/// any counter had before the sequence. If a counter is defined in the sequence, its value exceeds
/// every value that any counter had before this definition.
#[inline(always)]
pub fn counter_laws()
    ensures keeps { (old new : Record) (history meanwhile : History) (handle : Handle)
        (before after : NvIndex) → HasCounters old history
        → HasCounters new (meanwhile ++ history)
        → KeepsCounter old new meanwhile handle before after }
    ensures begins { (old new : Record) (history meanwhile : History) (handle : Handle)
        (before after : NvIndex) → HasCounters old history
        → HasCounters new (meanwhile ++ history)
        → BeginsAbove old new history handle before after }
    ensures exceeds { (new : Record) (history meanwhile : History) (handle : Handle)
        (after : NvIndex) → HasCounters new (meanwhile ++ history)
        → ExceedsEarlier new history meanwhile handle after }
{}

/// If a command is accepted (its row reports check 0), the history records it as the command that
/// the event's buffer encodes.
#[inline(always)]
pub fn recorded_laws()
    ensures { (can : Bool) (old : Record) (buffer : List ℕ) (locality elapsed : ℕ)
        (random : List ℕ) (x : Stepped)
        → Executes can old (Given buffer locality elapsed random) x → x.row.check ≡ 0
        → IsRecorded old (Given buffer locality elapsed random) x buffer }
{}

/// In every history of a device, each use of an entity was authorized, given the history before the
/// use: by a password, by an HMAC session, or by a policy session whose conditions all hold.
#[inline(always)]
pub fn grounds_laws()
    ensures { (can : Bool) (random : List ℕ) (executions : List Execution) (new : Record)
        → Leads can (manufactured random) executions new
        → AllHaveGrounds (history_after [] executions) }
{}

/// Suppose that a buffer with an HMAC is accepted twice, and that its HMAC session survives between
/// the two events. Then the session has the nonceTPM of the first event again, or two different
/// messages have the same HMAC. The HMAC at each event is computed with the key at that event.
#[inline(always)]
pub fn replay_laws()
    ensures { (can : Bool) (random : List ℕ) (executions : List Execution) (new : Record)
        → Leads can (manufactured random) executions new → RunReplaysRepeat [] executions }
{}

/// Each of these laws is about a policy session with a single assertion, which authorizes the use
/// of an entity. If the assertion is TPM2_PolicyPCR, the entity's policy requires the current
/// values of the PCRs, which have not changed since the first TPM2_PolicyPCR. If it is
/// TPM2_PolicyCommandCode, the policy requires the code of the command that uses the entity. If it
/// is TPM2_PolicyNvWritten, the entity is an NV index, and its WRITTEN attribute is as the
/// assertion says.
#[inline(always)]
pub fn policy_laws()
    ensures pcrs { UsesPcrsAsTheyAre }
    ensures quiet { KeepsQuietValues }
    ensures written { UsesAsWritten }
    ensures command { UsesItsCommand }
{}

/// An entry touches the entity whose authorization value is used to check the entry. An event is a
/// failed try if and only if an entry of its command is refused with AUTH_FAIL and touches a
/// protected entity other than lockout. The response is AUTH_FAIL for that entry.
#[inline(always)]
pub fn failed_try_laws()
    ensures exactly { (old : Record) (event : PlainEvent)
        → (fails_try old event ≡ true ↔ IsRefusedTry old event) }
    ensures answered { (can : Bool) (old : Record) (event : PlainEvent) (x : Stepped)
        → Executes can old event x → fails_try old event ≡ true → IsAnsweredTry old event x }
{}

/// A new session has no earlier nonceTPM and no assertion.
#[inline(always)]
pub fn session_start_laws()
    ensures { (c : AcceptedCommand) (auth_values : List (List ℕ)) (s : LiveSession)
        → started_session c auth_values ≡ Some s → IsNewSession s }
{}

/// Only an accepted TPM2_DictionaryAttackLockReset, TPM2_DictionaryAttackParameters or TPM2_Clear
/// clears failedTries or sets the lockout parameters.
#[inline(always)]
pub fn reset_laws()
    ensures { (one : PastEvent) → (is_reset one ≡ true ↔ IsReset one) }
{}

/// The smaller bound of `few_tries_laws` can be reached. In an example run, which reads an NV index
/// with a wrong password, the number of failed tries equals this bound.
#[inline(always)]
pub fn failed_run_laws()
    ensures { IsFailedRun }
{}

/// In a sequence of events, at most maxTries tries fail, and one more for each whole recoveryTime
/// that passes. This holds if recoveryTime is not 0, and no TPM2_DictionaryAttackLockReset,
/// TPM2_DictionaryAttackParameters or TPM2_Clear is accepted. The bound `tries_at_most` is higher
/// by one.
#[inline(always)]
pub fn few_tries_laws()
    ensures sharply { (can : Bool) (old : Record) (executions : List Execution) (new : Record)
        → IsForgiving old.fixed.lockout → FailsWithin can old executions new }
    ensures few { (can : Bool) (old : Record) (executions : List Execution) (new : Record)
        → IsForgiving old.fixed.lockout → FailsFew can old executions new }
    ensures one_more { (old : Record) (executions : List Execution)
        → tries_at_most old executions ≡ tries_within old executions + 1 }
{}

/// No event that `Machine::execute` or `Machine::run` can be passed places an object in the
/// history.
#[inline(always)]
#[tactic(auto, using(crate::proofs::history::Placings::places_nothing))]
pub fn placing_laws()
    ensures { PlacesNothing }
{}

/// Suppose that two devices follow the same history, show the same views of each handle, and have
/// the same lockout state. Then they authorize each command with the same grants, or refuse it with
/// the same refusal.
#[inline(always)]
pub fn alike_laws()
    ensures { AuthorizeAlike }
{}

/// In every history of a device, each use of an entity was authorized by a password, an HMAC
/// session or a policy session. Unless the hash is broken (`BreaksHash`), each use by a policy
/// session met every policy whose digest is the authPolicy of the used entity, along one branch at
/// each TPM2_PolicyOR.
#[inline(always)]
pub fn auth_policy_laws()
    ensures { (can : Bool) (random : List ℕ) (executions : List Execution) (new : Record)
        → Leads can (manufactured random) executions new
        → AllMeetPolicies (history_after [] executions) }
{}

/// Since a device was manufactured, only policy sessions have authorized the use of an object
/// without userWithAuth, and each use has met the object's policy. If the policy requires values of
/// PCRs, the object was used only while the PCRs had these values. If it also requires a PIN, the
/// object was used only with the PIN. If it requires a PIN or a recovery secret, the object was
/// used only with one of the two. If it compares a counter, the object was used only after an
/// accepted TPM2_PolicyNV. If the policy of an NV index without AUTHWRITE requires that the index
/// is not written, commands wrote the index only while it was not written. Each of these claims
/// holds unless the hash is broken.
#[inline(always)]
pub fn policy_review_laws()
    ensures every { OfEachAccepted NeedsItsPolicy }
    ensures pcrs { OfEachAccepted NeedsPcrs }
    ensures pcrs_and_pin { OfEachAccepted NeedsPcrsAndPin }
    ensures pin_or_secret { OfEachAccepted NeedsPinOrSecret }
    ensures written_once { OfEachAccepted IsWrittenOnce }
    ensures count { OfEachAccepted NeedsCount }
{}
