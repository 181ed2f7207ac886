//! A law about accepted authorizations.

ghost use Rattle.std.specs.Prelude.{ℕ, IfOk};
ghost use Rattle.tpm_types_command.specs.Command.{Whole};
ghost use Rattle.tpm_record.specs.Record.{Record};
ghost use Rattle.tpm_auth.specs.Grant.{authorize};
ghost use Rattle.tpm_auth.specs.Granting.{IsGranting};

/// If an authorization is accepted, every check has passed, and each entry that authorizes a handle
/// has a grant. This function is only a proof: it has no effect at run time.
#[inline(always)]
#[tactic(auto, using(crate::proofs::Granting::granting))]
pub fn granting_laws()
    ensures { (r : Record) (c : Whole) (locality : ℕ)
        → IfOk (authorize r c locality) (IsGranting r c locality) }
{}
