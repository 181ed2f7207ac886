//! Laws about the profile of a device. A device never changes its profile, and accepts only commands
//! of its profile. A device of the symmetric profile decodes each buffer as if there were no other
//! commands.

ghost use Rattle.std.specs.Prelude.{◌≡◌, ℕ, Bool, IfOk, List, true};
ghost use Rattle.tpm_commands.specs.CommandCode.{serves};
ghost use Rattle.tpm_commands.specs.declared.profile.Profile.TheVariants.{Symmetric};
ghost use Rattle.tpm_record.specs.Record.{Record};
ghost use Rattle.tpm_step.specs.history.Executions.{Execution, Leads};
ghost use Rattle.tpm_step.specs.step.Events.{PlainEvent};
ghost use Rattle.tpm_step.specs.step.Execution.{Executes};
ghost use Rattle.tpm_step.specs.step.General.{general};
ghost use Rattle.tpm_step.specs.step.Profiles.{KeepsProfile, symmetric_general};
ghost use Rattle.tpm_step.specs.step.Step.{Stepped, acceptance_in};

/// No execution changes the profile.
#[inline(always)]
pub fn profile_laws()
    ensures executed { (can : Bool) (old : Record) (event : PlainEvent) (x : Stepped)
        → Executes can old event x → KeepsProfile old x.after }
    ensures leads { (can : Bool) (old : Record) (executions : List Execution) (new : Record)
        → Leads can old executions new → KeepsProfile old new }
{}

/// A device accepts only commands of its profile.
#[inline(always)]
#[tactic(auto, using(crate::proofs::step::Profiles::general_serves, crate::proofs::step::Profiles::accepted_serves))]
pub fn served_laws()
    ensures decoded { (r : Record) (buffer : List ℕ)
        → IfOk (general r buffer) (λ c. serves r.fixed.profile c.code ≡ true) }
    ensures accepted { (r : Record) (buffer : List ℕ) (locality : ℕ) (random : List ℕ)
        → IfOk (acceptance_in r buffer locality random)
        (λ a. serves r.fixed.profile a.command.code ≡ true) }
{}

/// A device of the symmetric profile decodes each buffer as if there were no other commands.
#[inline(always)]
#[tactic(auto, using(crate::proofs::step::Profiles::symmetric_same))]
pub fn symmetric_laws()
    ensures { (r : Record) (buffer : List ℕ) → r.fixed.profile ≡ Symmetric
        → general r buffer ≡ symmetric_general r buffer }
{}
