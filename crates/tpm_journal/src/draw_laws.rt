//! A command's effect depends only on the random bytes that it draws. They are the first random
//! bytes of its event; the bytes after them do not matter. Therefore, recording the bytes that a
//! command drew is enough to execute it again.
//!
//! Each function here states a law in its contract, and does nothing at run time. The laws are
//! about the definitions of tpm_step. tpm_machine defines the number of bytes that an event draws.

ghost use Rattle.std.specs.Prelude.{◌≡◌, ℕ, Bool, false, IfOk, List, Ok, take};
ghost use Rattle.tpm_record.specs.rows.Request.{Request};
ghost use Rattle.tpm_journal.specs.draw_laws.Bytes.{ActsAlike, AgreeOnDrawn, replayed_event, with_random};
ghost use Rattle.tpm_machine.specs.Drawn.{drawn_by};
ghost use Rattle.tpm_record.specs.Record.{Record};
ghost use Rattle.tpm_step.specs.step.Events.{Given, PlainEvent};
ghost use Rattle.tpm_step.specs.step.Execution.{Executes};
ghost use Rattle.tpm_step.specs.step.Step.{Stepped, step_where};
ghost use Rattle.tpm_step.specs.step.Table.{row_of};
ghost use Rattle.tpm_commands.specs.declared.command_code.CommandCode.{CommandCode};
ghost use Rattle.tpm_commands.specs.declared.command_code.CommandCode.TheVariants as command;

/// The result of a command's row depends only on the random bytes that the row draws: it stays the
/// same if the other bytes are replaced.
#[inline(always)]
#[tactic(auto, using(crate::proofs::draw_laws::Rows::row_alike))]
pub fn row_laws()
    ensures { (r : Record) (c : CommandCode) (q : Request) (other : List ℕ)
        → ActsAlike q.random other (row_of r c q) (row_of r c (with_random q other)) }
{}

/// TPM2_GetRandom depends on each byte that it draws. If its row succeeds with the same result on
/// other random bytes, the two lists of random bytes agree on all bytes that the row draws.
#[inline(always)]
#[tactic(auto, using(crate::proofs::draw_laws::Needed::bytes_needed))]
pub fn needed_byte_laws()
    ensures { (r : Record) (q : Request) (other : List ℕ)
        → IfOk (row_of r command.GetRandom q) (λ s.
        row_of r command.GetRandom (with_random q other) ≡ Ok s
        → take s.answer.drawn other ≡ take s.answer.drawn q.random) }
{}

/// A command's step depends only on the random bytes that it draws. If the undrawn bytes are
/// replaced by equally many other bytes, the step is the same, even if an allocation fails, and
/// draws the same number of bytes.
#[inline(always)]
#[tactic(auto, using(crate::proofs::draw_laws::Executions::steps_alike, crate::proofs::draw_laws::Executions::draws_alike))]
pub fn step_laws()
    ensures step { (r : Record) (buffer : List ℕ) (locality elapsed : ℕ) (random other : List ℕ)
        → AgreeOnDrawn r buffer locality elapsed random other → (refused : Bool)
        → step_where refused r (Given buffer locality elapsed other)
        ≡ step_where refused r (Given buffer locality elapsed random) }
    ensures drawn { (r : Record) (buffer : List ℕ) (locality elapsed : ℕ) (random other : List ℕ)
        → AgreeOnDrawn r buffer locality elapsed random other → (check : ℕ)
        → drawn_by r (Given buffer locality elapsed other) check
        ≡ drawn_by r (Given buffer locality elapsed random) check }
{}

/// A command's execution depends only on the random bytes that it draws. If the undrawn bytes are
/// replaced by equally many other bytes, the same outcome is possible.
#[inline(always)]
pub fn execution_laws()
    ensures { (can : Bool) (r : Record) (buffer : List ℕ) (locality elapsed : ℕ)
        (random other : List ℕ) (x : Stepped)
        → AgreeOnDrawn r buffer locality elapsed random other
        → Executes can r (Given buffer locality elapsed random) x
        → Executes can r (Given buffer locality elapsed other) x }
{}

/// An executed event can be executed again with only the random bytes that it drew, followed by
/// zeros. The outcome is the same, and the event draws the same number of bytes.
#[inline(always)]
#[tactic(auto, using(crate::proofs::draw_laws::Executions::replays, crate::proofs::draw_laws::Executions::replay_draws))]
pub fn replay_laws()
    ensures executes { (r : Record) (event : PlainEvent) (x : Stepped)
        → Executes false r event x → Executes false r (replayed_event r event x.row.check) x }
    ensures drawn { (r : Record) (event : PlainEvent) (x : Stepped) → Executes false r event x
        → drawn_by r (replayed_event r event x.row.check) x.row.check
        ≡ drawn_by r event x.row.check }
{}
