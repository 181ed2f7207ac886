//! Checking a script finds the same bad line as running it.

ghost use Rattle.std.specs.Prelude.{◌≡◌, ℕ, List, option_map};
ghost use Rattle.std.specs.Result.{result_ok};
ghost use Rattle.tpm_commands.specs.declared.profile.Profile.TheVariants.{Symmetric};
ghost use Rattle.tpmsim_script.specs.Checking.{faults_of, first_number, line_check};
ghost use Rattle.tpmsim_script.specs.Script.{Playing, perform_line, play};

/// On a device of the symmetric profile, a line is bad if and only if it cannot be performed, and a run
/// ends at the first bad line of its script.
#[inline(always)]
pub fn check_laws()
    ensures line { (p : Playing) (line : List ℕ) → p.device.fixed.profile ≡ Symmetric
        → result_ok (line_check p.waited line)
        ≡ option_map (λ effect. effect.next.waited) (perform_line p line) }
    ensures script { (p : Playing) (number : ℕ) (lines : List (List ℕ))
        → p.device.fixed.profile ≡ Symmetric
        → first_number (faults_of p.waited number lines) ≡ (play p number lines).bad }
{}
