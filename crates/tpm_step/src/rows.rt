//! Laws about the rows of all commands. Each law is the contract of a function that does nothing.
//! The laws say which part of the record a success changes, what the command's shape determines,
//! that sessions still exist, and what no row refuses. The step renews or ends the sessions of
//! entries only after the row. The fields of sessions keep the right sizes through the whole step.
//!
//! The laws are about the definitions of the step. One record contains all laws of a row
//! (`RowLaws`). The record is proved once for each row, so that theorems about histories do not
//! unfold the rows. The laws about the rows of all commands follow from the fields of these
//! records.

ghost use Rattle.std.specs.Prelude.{◌≡◌, ◌≢◌, ℕ, ◌+◌, ◌*◌, ◌≤◌, Bool, IfOk, List, [], ◌∷◌, Ok, Option};
ghost use Rattle.std.specs.Prelude.{IfErr, false, length, true};
ghost use Rattle.tpm_types_common.specs.declared.refused.Counted.TheVariants as counted;
ghost use Rattle.std.specs.List.{AllByRecursion};
ghost use Rattle.tpm_types_common.specs.Check.{check_number};
ghost use Rattle.tpm_types_common.specs.declared.check.Check.TheVariants as check;
ghost use Rattle.tpm_types_command.specs.Command.{Whole, command_at};
ghost use Rattle.tpm_commands.specs.CommandCode.{part_of, shape_of};
ghost use Rattle.tpm_commands.specs.declared.command_code.CommandCode.{CommandCode};
ghost use Rattle.tpm_commands.specs.declared.shape.HandleRule.{HandleRule};
ghost use Rattle.tpm_types_common.specs.declared.handle.Handle.{Handle};
ghost use Rattle.tpm_record.specs.Cycle.{after_cycle};
ghost use Rattle.tpm_record.specs.Record.{Record, manufactured};
ghost use Rattle.tpm_auth.specs.Entries.{entries_pass};
ghost use Rattle.tpm_auth.specs.Grant.{authorize, grants_pass};
ghost use Rattle.tpm_auth.specs.declared.session_grant.Grant.{Grant};
ghost use Rattle.tpm_record.specs.rows.Draws.{draw_limit};
ghost use Rattle.tpm_record.specs.rows.Request.{Request, first_handle, second_handle};
ghost use Rattle.tpm_row_secrecy.specs.Alike.{Same};
ghost use Rattle.tpm_row_secrecy.specs.Reads.{reads_secret};
ghost use Rattle.tpm_row_secrecy.specs.Secrecy.{CoversKeys, Secrecy, without_secrets};
ghost use Rattle.tpm_step.specs.step.Answer.{Written, answer_to};
ghost use Rattle.tpm_step.specs.step.Events.{PlainEvent, IsEvent};
ghost use Rattle.tpm_step.specs.step.Execution.{Executes};
ghost use Rattle.tpm_step.specs.step.General.{general, is_startup};
ghost use Rattle.tpm_step.specs.step.Run.{Runs, after_all};
ghost use Rattle.tpm_step.specs.step.Step.{Accepted, Stepped, acceptance, acceptance_in};
ghost use Rattle.tpm_step.specs.step.Step.{step, step_where, success_step};
ghost use Rattle.tpm_step.specs.rows.Acceptance.{IsAcceptance, LeavesEffect, OnlySessions};
ghost use Rattle.tpm_step.specs.step.Table.{row_of};
ghost use Rattle.tpm_step.specs.rows.Draws.{draws_of};
ghost use Rattle.tpm_step.specs.rows.Footprint.{Touches};
ghost use Rattle.tpm_step.specs.rows.Grants.{GrantsFit};
ghost use Rattle.tpm_step.specs.rows.Handles.{FitsRule, HandlesFit};
ghost use Rattle.tpm_step.specs.rows.IndexChanges.{ChangesIndices};
ghost use Rattle.tpm_step.specs.rows.Refusals.{Passes, RefusesAuthorization};
ghost use Rattle.tpm_step.specs.rows.Sessions.{HaveSessions, SessionsStay};
ghost use Rattle.tpm_step.specs.rows.Shapes.{AnswersItsShape, GrowsAsShaped, ReadsParameters, parameters_check};
ghost use Rattle.tpm_step.specs.rows.Sizes.{AreSized};

use crate::event::Outcome;

/// A success changes only its command's part of the state (`part_of`).
#[inline(always)]
#[tactic(auto, using(crate::proofs::rows::Table::row_touches))]
pub fn footprint_laws()
    ensures { (r : Record) (c : CommandCode) (q : Request)
        → IfOk (row_of r c q) (λ s. Touches (part_of c) r s.after) }
{}

/// A success changes the NV indices only as allowed for its command. An index is written or locked,
/// a counter is incremented, an authorization value changes, or an index is defined or undefined. A
/// startup and TPM2_Clear have their effects on all indices. Every other success leaves the indices
/// unchanged.
#[inline(always)]
#[tactic(auto, using(crate::proofs::rows::Table::row_changes))]
pub fn index_change_laws()
    ensures { (r : Record) (c : CommandCode) (q : Request)
        → IfOk (row_of r c q) (λ s. ChangesIndices (part_of c) q r.nv s.after.nv) }
{}

/// A success returns a handle if and only if its command's shape says so. The first parameter of
/// its answer is a sized buffer if and only if the shape says so.
#[inline(always)]
#[tactic(auto, using(crate::proofs::rows::Table::row_answers))]
pub fn answer_shape_laws()
    ensures { (r : Record) (c : CommandCode) (q : Request)
        → IfOk (row_of r c q) (AnswersItsShape c) }
{}

/// The success of a command that adds an entity or a session fills one more slot. The success of
/// any other command fills no further slot. The exception is TPM2_EvictControl, which fills one
/// slot or frees one.
#[inline(always)]
#[tactic(auto, using(crate::proofs::rows::Table::row_grows))]
pub fn growth_laws()
    ensures { (r : Record) (c : CommandCode) (q : Request)
        → IfOk (row_of r c q) (λ s. GrowsAsShaped c r s.after) }
{}

/// If a command's parameters have the kinds that its shape lists, its row does not refuse their
/// encoding. Otherwise, the row refuses the command with the first fault in the parameters, unless
/// it refuses a handle first.
#[inline(always)]
#[tactic(auto, using(crate::proofs::rows::Table::row_reads))]
pub fn parameter_laws()
    ensures { (r : Record) (c : CommandCode) (q : Request)
        → ReadsParameters (parameters_check 1 (shape_of c).parameters q.parameters) (row_of r c q) }
{}

/// If a command may have sessions, every session still exists after its row.
#[inline(always)]
#[tactic(auto, using(crate::proofs::rows::Table::row_stays))]
pub fn row_session_laws()
    ensures { (r : Record) (c : CommandCode) (q : Request)
        → (shape_of c).forbids_sessions ≡ false
        → IfOk (row_of r c q) (λ s. SessionsStay r s.after) }
{}

/// If a command may have sessions, the session of each entry still exists after the command's row.
#[inline(always)]
#[tactic(auto, using(crate::proofs::rows::Accepted::accepted_has))]
pub fn used_session_laws()
    ensures { (r : Record) (c : Whole) (locality : ℕ) (random : List ℕ) (a : Accepted)
        → (shape_of c.code).forbids_sessions ≡ false → acceptance r c locality random ≡ Ok a
        → HaveSessions a.success.after c.entries }
{}

/// A row reveals no secret unless its command reads a secret. On the device and on the device
/// without its secrets, the row has the same refusal, or the same answer. The new records are also
/// the same, except for the secrets.
#[inline(always)]
#[tactic(auto, using(crate::proofs::rows::Table::row_tells))]
pub fn row_secrecy_laws()
    ensures { (s : Secrecy) → CoversKeys s → (r : Record) (c : CommandCode) (q : Request)
        → reads_secret s r c q ≡ false
        → Same s (row_of (without_secrets s r) c q) (row_of r c q) }
{}

/// A row refuses no handle if the handles fit the rules of its command's shape. The row is defined
/// for every request, so it also refuses a handle that is missing or names no entity; but the
/// general checks have already excluded these cases.
#[inline(always)]
#[tactic(auto, using(crate::proofs::rows::Table::row_passes))]
pub fn row_handle_laws()
    ensures { (r : Record) (c : CommandCode) (q : Request)
        → HandlesFit r (shape_of c).handles q.handles → Passes check.Handles (row_of r c q) }
{}

/// If a command's handles fit its rules, the first handle fits the first rule, and the second
/// handle fits the second rule.
#[inline(always)]
#[tactic(auto, using(crate::proofs::rows::HandleRules::first_fits, crate::proofs::rows::HandleRules::second_fits))]
pub fn handle_place_laws()
    ensures first { (r : Record) (rule : HandleRule) (rules : List HandleRule)
        (handles : List Handle) (handle : Handle) → HandlesFit r (rule ∷ rules) handles
        → first_handle handles ≡ Ok handle → FitsRule r rule handle }
    ensures second { (r : Record) (one rule : HandleRule) (rules : List HandleRule)
        (handles : List Handle) (handle : Handle) → HandlesFit r (one ∷ rule ∷ rules) handles
        → second_handle handles ≡ Ok handle → FitsRule r rule handle }
{}

/// If a command passes the general checks, its handles fit the rules of its shape.
#[inline(always)]
#[tactic(auto, using(crate::proofs::rows::Handles::general_fits))]
pub fn handle_fit_laws()
    ensures { (r : Record) (buffer : List ℕ)
        → IfOk (general r buffer) (λ c. HandlesFit r (shape_of c.code).handles c.handles) }
{}

/// If a command passes the general checks, neither its authorization nor its row refuses one of its
/// handles.
#[inline(always)]
#[tactic(auto, using(crate::proofs::rows::Handles::acceptance_passes))]
pub fn later_handle_laws()
    ensures { (r : Record) (buffer : List ℕ) (c : Whole) (locality : ℕ) (random : List ℕ)
        → general r buffer ≡ Ok c → Passes check.Handles (acceptance r c locality random) }
{}

/// If a command passes the general checks, the whole buffer encodes it. Therefore a buffer decodes
/// to only one command, whatever the record.
#[inline(always)]
#[tactic(auto, using(crate::proofs::step::Decoding::general_reads, crate::proofs::step::Decoding::one_command))]
pub fn decoding_laws()
    ensures read { (r : Record) (buffer : List ℕ)
        → IfOk (general r buffer) (λ c. command_at buffer ≡ Ok (c, [])) }
    ensures one { (r s : Record) (buffer : List ℕ) (c d : Whole)
        → general r buffer ≡ Ok c → general s buffer ≡ Ok d → c ≡ d }
{}

/// No row refuses with MEMORY.
#[inline(always)]
#[tactic(auto, using(crate::proofs::rows::Table::row_wants))]
pub fn row_memory_laws()
    ensures { (r : Record) (c : CommandCode) (q : Request) → Passes check.Memory (row_of r c q) }
{}

/// No step reports check M unless an allocation fails. No execution reports check M unless an
/// allocation can fail.
#[inline(always)]
#[tactic(auto, using(crate::proofs::rows::Memory::step_wants, crate::proofs::rows::Memory::execution_wants))]
pub fn step_memory_laws()
    ensures step { (r : Record) (event : PlainEvent)
        → (step r event).row.check ≢ check_number check.Memory }
    ensures execution { (old : Record) (event : PlainEvent) (x : Stepped)
        → Executes false old event x → x.row.check ≢ check_number check.Memory }
{}

/// If the entries' own checks pass, the session of each entry that is not a password exists.
/// Therefore the later checks may refuse an entry because it is not authorized, but never because
/// its session is missing.
#[inline(always)]
#[tactic(auto, using(crate::proofs::rows::Grants::grants_refuse))]
pub fn granted_session_laws()
    ensures { (r : Record) (c : Whole) (locality : ℕ)
        → entries_pass r c.code [] c.entries ≡ Ok tt
        → RefusesAuthorization (grants_pass r c locality [] c.entries) }
{}

/// A successful authorization returns a list with one element for each entry: a grant, or None. The
/// first entries are granted the handles that need authorization, in order, and the other entries
/// are granted no handle.
#[inline(always)]
#[tactic(auto, using(crate::proofs::rows::Grants::grants_fit))]
pub fn grant_laws()
    ensures { (r : Record) (c : Whole) (locality : ℕ)
        → IfOk (authorize r c locality) (GrantsFit c) }
{}

/// The device is in the right mode for an accepted command. The command's handles fit, its entries
/// have their grants, and its row succeeds.
#[inline(always)]
#[tactic(auto, using(crate::proofs::rows::Acceptance::accepted_is))]
pub fn acceptance_laws()
    ensures { (r : Record) (buffer : List ℕ) (locality : ℕ) (random : List ℕ)
        → IfOk (acceptance_in r buffer locality random) (IsAcceptance r locality random) }
{}

/// After the row's effect, the rest of the step changes only sessions and the state that a shutdown
/// saved.
#[inline(always)]
#[tactic(auto, using(crate::proofs::rows::Leaving::answered_only, crate::proofs::rows::Leaving::success_leaves))]
pub fn effect_laws()
    ensures answer { (c : Whole) (grants : List (Option Grant)) (a : Written) (effect : Record)
        (random : List ℕ) → OnlySessions effect (answer_to c grants a effect random).after }
    ensures success { (a : Accepted) (random : List ℕ)
        → LeavesEffect a.success.after (success_step a random).after }
{}

/// A device that is not started accepts only TPM2_Startup, which starts it. Therefore the device is
/// started after every accepted command.
#[inline(always)]
#[tactic(auto, using(crate::proofs::rows::Started::is_started))]
pub fn started_laws()
    ensures { (r : Record) (a : Accepted) (locality : ℕ) (random : List ℕ)
        → IsAcceptance r locality random a
        → (success_step a random).after.fixed.started ≡ true }
{}

/// Only refusals by the authorization checks increment failedTries or disable lockoutAuth. Refusals
/// by general checks and by rows do not.
#[inline(always)]
#[tactic(auto, using(crate::proofs::rows::Table::row_plain, crate::proofs::rows::Uncounted::general_plain))]
pub fn uncounted_laws()
    ensures row { (r : Record) (c : CommandCode) (q : Request)
        → IfErr (row_of r c q) (λ e. e.counted ≡ counted.None) }
    ensures general { (r : Record) (buffer : List ℕ)
        → IfErr (general r buffer) (λ e. e.refused.counted ≡ counted.None) }
{}

/// A newly manufactured device has no session, and a power cycle ends all sessions. Therefore no
/// session has a field of the wrong size.
#[inline(always)]
#[tactic(auto, using(crate::proofs::rows::SizedSteps::manufactured_sized, crate::proofs::rows::SizedSteps::cycled_sized))]
pub fn new_device_size_laws()
    ensures manufactured { (random : List ℕ) → AreSized (manufactured random) }
    ensures cycled { (r : Record) → AreSized (after_cycle r) }
{}

/// A success draws at most `draw_limit` of the event's 256 random bytes. Unless the command is
/// TPM2_Startup, its code and parameters determine the exact number (`draws_of`). For TPM2_Startup,
/// `draws_of` is 0: it has no entries, and therefore no nonces are drawn after its own bytes.
#[inline(always)]
#[tactic(auto, using(crate::proofs::rows::Table::row_draws, crate::proofs::rows::Table::row_draws_so))]
pub fn draw_laws()
    ensures few { (r : Record) (c : CommandCode) (q : Request)
        → IfOk (row_of r c q) (λ s. s.answer.drawn ≤ draw_limit) }
    ensures drawn { (r : Record) (c : CommandCode) (q : Request) → is_startup c ≡ false
        → IfOk (row_of r c q) (λ s. s.answer.drawn ≡ draws_of c q) }
    ensures startup { (c : CommandCode) (q : Request) → is_startup c ≡ true
        → ((shape_of c).forbids_sessions ≡ true) × (draws_of c q ≡ 0) }
{}

/// After a row's success, the fields of all sessions still have the right sizes, if there are
/// enough random bytes for a nonce.
#[inline(always)]
#[tactic(auto, using(crate::proofs::rows::Table::row_sized))]
pub fn row_size_laws()
    ensures { (r : Record) (c : CommandCode) (q : Request)
        → 32 ≤ length q.random → AreSized r → IfOk (row_of r c q) (λ s. AreSized s.after) }
{}

/// Answering a successful command renews nonces, resets policies and ends sessions. After that, the
/// fields of all sessions still have the right sizes, if there are enough random bytes for a nonce
/// of each entry.
#[inline(always)]
pub fn answer_size_laws()
    ensures { (c : Whole) (grants : List (Option Grant)) (a : Written) (effect : Record)
        (random : List ℕ) → a.drawn + 32 * length c.entries ≤ length random → AreSized effect
        → AreSized (answer_to c grants a effect random).after }
{}

/// After every event, the fields of all sessions still have the right sizes, whether or not
/// allocations fail. The 256 random bytes of each command are enough.
#[inline(always)]
pub fn step_size_laws()
    ensures { (refused : Bool) (r : Record) (event : PlainEvent)
        → IsEvent event → AreSized r → AreSized (step_where refused r event).after }
{}

/// After every execution of an event, the fields of all sessions still have the right sizes.
#[inline(always)]
pub fn execution_size_laws()
    ensures { (can : Bool) (old : Record) (event : PlainEvent) (x : Stepped)
        → Executes can old event x → AreSized old → AreSized x.after }
{}

/// After every run of events, the fields of all sessions still have the right sizes.
#[inline(always)]
pub fn run_size_laws<F: FnMut(&Outcome)>()
    ensures { (can : Bool) (old : Record) (p : F) (events : List PlainEvent) (new : Record) (q : F)
        → Runs F.FnMut can old p events new q → AreSized old → AreSized new }
{}

/// The fields of a device's sessions always have the right sizes, whatever events have happened
/// since it was manufactured.
#[inline(always)]
pub fn history_size_laws()
    ensures { (random : List ℕ) (events : List PlainEvent)
        → AllByRecursion IsEvent events → AreSized (after_all (manufactured random) events) }
{}
