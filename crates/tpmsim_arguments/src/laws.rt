//! Laws about what common command lines request.

ghost use Rattle.std.specs.Prelude.{◌≡◌, ◌≤◌, ◌∷◌, List, [], None, Some, ℕ, codes, false, true};
ghost use Rattle.tpm_commands.specs.declared.profile.Profile.TheVariants.{Symmetric, Complete};
ghost use Rattle.tpm_number.specs.Number.{decimal_of};
ghost use Rattle.tpmsim_arguments.specs.Invocation.{assemble, check, cycle_power, forms, in_image};
ghost use Rattle.tpmsim_arguments.specs.Invocation.{in_state, name_code, replay, restore, retell};
ghost use Rattle.tpmsim_arguments.specs.Invocation.{run, snapshot, spell};
ghost use Rattle.tpmsim_arguments.specs.Lines.{AskFor, AskForDevice, AskForFolder, AskForNothing};
ghost use Rattle.tpmsim_arguments.specs.Lines.{AskForSavedDevice, AskForService, IsScript};
ghost use Rattle.tpmsim_arguments.specs.Lines.{NoneBeginsWithHyphen, asm_line, begins_with_hyphen};
ghost use Rattle.tpmsim_arguments.specs.Lines.{check_line, code_line, complete_asm_line};
ghost use Rattle.tpmsim_arguments.specs.Lines.{complete_image_line, complete_line, complete_run_line, cut_line};
ghost use Rattle.tpmsim_arguments.specs.Lines.{form_line, forms_line, incomplete_line, joined_line};
ghost use Rattle.tpmsim_arguments.specs.Lines.{keeping_line, kept_line, line_line};
ghost use Rattle.tpmsim_arguments.specs.Lines.{line_without_connections, line_without_entropy};
ghost use Rattle.tpmsim_arguments.specs.Lines.{line_without_locality, logging_line, played_line};
ghost use Rattle.tpmsim_arguments.specs.Lines.{power_line, replay_line, restore_line, run_line};
ghost use Rattle.tpmsim_arguments.specs.Lines.{saving_line, script_line, serve_line, short_line};
ghost use Rattle.tpmsim_arguments.specs.Lines.{snapshot_line, state_line, trace_line};

/// Each common command line requests what a user expects, if no word except the names of settings
/// begins with a hyphen. A script may be a single hyphen. A value that is joined to its name by `=`
/// may be any text.
#[inline(always)]
pub fn usual_line_laws()
    ensures asm { (name line : List ℕ) → begins_with_hyphen line ≡ false
        → AskFor (asm_line name line) (assemble Symmetric line) }
    ensures complete_asm { (name line : List ℕ) → begins_with_hyphen line ≡ false
        → AskFor (complete_asm_line name line) (assemble Complete line) }
    ensures line { (name digits : List ℕ) → begins_with_hyphen digits ≡ false
        → AskFor (line_line name digits) (spell digits) }
    ensures forms { (name : List ℕ) → AskFor (forms_line name) (forms None) }
    ensures form { (name command : List ℕ) → begins_with_hyphen command ≡ false
        → AskFor (form_line name command) (forms (Some command)) }
    ensures code { (name digits : List ℕ) → begins_with_hyphen digits ≡ false
        → AskFor (code_line name digits) (name_code digits) }
    ensures run { (name script : List ℕ) → IsScript script
        → AskFor (run_line name script) (run script false Symmetric None) }
    ensures complete_run { (name script : List ℕ) → begins_with_hyphen script ≡ false
        → AskFor (complete_run_line name script) (run script false Complete None) }
    ensures complete_image { (name image script : List ℕ) → begins_with_hyphen script ≡ false
        → AskForNothing (complete_image_line name image script) }
    ensures trace { (name script : List ℕ) → IsScript script
        → AskFor (trace_line name script) (run script true Symmetric None) }
    ensures check { (name script : List ℕ) → IsScript script
        → AskFor (check_line name script) (check script) }
    ensures power { (name state : List ℕ) → begins_with_hyphen state ≡ false
        → AskFor (power_line name state) (cycle_power state false 0) }
    ensures cut { (name state : List ℕ) → begins_with_hyphen state ≡ false
        → AskFor (cut_line name state) (cycle_power state true 0) }
    ensures keeping { (name keep state : List ℕ) → begins_with_hyphen state ≡ false
        → (past : ℕ) → decimal_of keep ≡ Some past → past ≤ 99
        → AskFor (keeping_line name keep state) (cycle_power state false past) }
    ensures snapshot { (name state : List ℕ) → begins_with_hyphen state ≡ false
        → AskFor (snapshot_line name state) (snapshot state) }
    ensures restore { (name state text : List ℕ) → begins_with_hyphen state ≡ false
        → begins_with_hyphen text ≡ false
        → AskFor (restore_line name state text) (restore state text 0) }
    ensures script { (name state : List ℕ) → begins_with_hyphen state ≡ false
        → AskFor (script_line name state) (retell state) }
    ensures replay { (name journal : List ℕ) → begins_with_hyphen journal ≡ false
        → AskFor (replay_line name journal) (replay journal) }
    ensures kept { (name image entropy script : List ℕ) → IsScript script
        → AskFor (kept_line name image entropy script)
        (run script true Symmetric
        (Some (record { place = in_image image; entropy = Some entropy }))) }
    ensures played { (name state : List ℕ) → AskFor (played_line name state)
        (run (codes "-") false Symmetric
        (Some (record { place = in_state state 0; entropy = None }))) }
    ensures serve { (name socket image entropy locality connections : List ℕ)
        → NoneBeginsWithHyphen (socket ∷ image ∷ entropy ∷ locality ∷ connections ∷ [])
        → AskForDevice (serve_line name socket image entropy locality connections) socket image
        entropy locality connections }
    ensures joined { (name socket image entropy locality connections : List ℕ)
        → AskForDevice (joined_line name socket image entropy locality connections) socket image
        entropy locality connections }
    ensures saving { (name socket image entropy locality connections : List ℕ)
        → AskForSavedDevice (saving_line name socket image entropy locality connections) socket
        image entropy locality connections }
    ensures logging { (name socket image log entropy locality connections : List ℕ)
        → AskForService (logging_line name socket image log entropy locality connections) socket
        (in_image image) (Some log) entropy locality connections false }
    ensures state { (name socket state entropy locality connections : List ℕ)
        → AskForService (state_line name socket state entropy locality connections) socket
        (in_state state 0) None entropy locality connections false }
    ensures short { (name socket state : List ℕ)
        → AskForFolder (short_line name socket state) socket state 0 false }
    ensures complete { (name socket state keep : List ℕ)
        → (past : ℕ) → decimal_of keep ≡ Some past → past ≤ 99
        → AskForFolder (complete_line name socket state keep) socket state past true }
    ensures incomplete { (name socket image entropy locality connections : List ℕ)
        → AskForNothing (incomplete_line name socket image entropy locality connections) }
    ensures without_entropy { (name socket image locality connections : List ℕ)
        → AskForNothing (line_without_entropy name socket image locality connections) }
    ensures without_locality { (name socket image entropy connections : List ℕ)
        → AskForNothing (line_without_locality name socket image entropy connections) }
    ensures without_connections { (name socket image entropy locality : List ℕ)
        → AskForNothing (line_without_connections name socket image entropy locality) }
{}
