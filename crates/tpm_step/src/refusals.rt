//! Laws about the refusals by the commands' own checks. A row refuses by such a check only with a
//! refusal that `own_refusals` lists, and a step reports no other.

ghost use Rattle.std.specs.Prelude.{Bool};
ghost use Rattle.tpm_commands.specs.declared.command_code.CommandCode.{CommandCode};
ghost use Rattle.tpm_record.specs.Record.{Record};
ghost use Rattle.tpm_record.specs.rows.Request.{Request};
ghost use Rattle.tpm_step.specs.step.Events.{PlainEvent};
ghost use Rattle.tpm_step.specs.step.Execution.{Executes};
ghost use Rattle.tpm_step.specs.step.Step.{Stepped};
ghost use Rattle.tpm_step.specs.step.Table.{row_of};
ghost use Rattle.tpm_step.specs.rows.OwnRefusals.{RefusesAsListed, ReportsAsListed};

/// If the row of a command refuses by one of the command's own checks, `own_refusals` lists the
/// refusal. If the execution of an event reports one of a command's own checks, its row and its
/// response are those of a refusal that `own_refusals` lists for this command.
#[inline(always)]
#[tactic(auto, using(crate::proofs::refusals::Table::row_own))]
pub fn own_refusal_laws()
    ensures row { (r : Record) (c : CommandCode) (q : Request) → RefusesAsListed c (row_of r c q) }
    ensures execution { (can : Bool) (old : Record) (event : PlainEvent) (x : Stepped)
        → Executes can old event x → ReportsAsListed x }
{}
