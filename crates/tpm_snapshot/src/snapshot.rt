//! Writes the state text of a machine, and restores a machine from a state text.

ghost use Rattle.std.specs.Prelude.{◌≡◌, ◌≤◌, ◌||◌, IfOk, option_copied, replicate};
ghost use Rattle.tpm_image_text.specs.Saving.{PutsFront};
ghost use Rattle.tpm_machine.specs.Follows.{Follows};
ghost use Rattle.tpm_machine.specs.History.{History};
ghost use Rattle.tpm_machine.specs.State.{state_of};
ghost use Rattle.tpm_record.specs.IsRecord.{IsRecord};
ghost use Rattle.tpm_record.specs.Record.{manufactured};
ghost use Rattle.tpm_snapshot.specs.Restoring.{HasState};
ghost use Rattle.tpm_state_text.specs.Body.{IsWholeState, WholeState};
ghost use Rattle.tpm_state_text.specs.Filling.{Restores, RestoresAgain, RestoresInto, RestoresNew};
ghost use Rattle.tpm_state_text.specs.Filling.{state_of as whole_state};
ghost use Rattle.tpm_state_text.specs.Sizes.{state_text_size};
ghost use Rattle.tpm_state_text.specs.State.{state_of_text, state_text};

use std::alloc::Global;
use tpm_machine::Machine;
use tpm_record::Keep;
use tpm_state_text::{Layer, RestoreFault};

/// Writes the state text of a machine, with its completing layer, to the beginning of a buffer, if
/// the state text fits. Returns the size of the state text. The call allocates no memory.
pub fn snapshot_into<K: Keep>(
    machine: &Machine<K>,
    layer: Option<&Layer>,
    buffer: &mut [u8],
) -> usize
    ensures put { PutsFront (state_text (whole_state (state_of K.record_of machine.now)
        (option_copied layer.entry))) buffer.old result buffer.new }
    // A buffer of STATE_TEXT_LIMIT bytes is always large enough.
    ensures small { result ≤ state_text_size }
    ensures is_record { IsRecord (state_of K.record_of machine.now) }
{
    tpm_state_text::snapshot_into(machine.keep(), layer, buffer)
}

/// Replaces a machine just manufactured from all-zero random bytes with the machine that a state
/// text encodes, without moving it. Returns the completing layer, or the first fault found in the
/// bytes. On error, the machine's state is unspecified.
#[tactic(auto, using(crate::proofs::Restoring::new_again, crate::proofs::Restoring::has_follows))]
pub fn restore_new<K: Keep>(
    machine: &mut Machine<K>,
    text: &[u8],
) -> Result<Option<Layer>, RestoreFault>
    requires { state_of K.record_of machine.old ≡ manufactured (replicate 256 0) }
    ensures exact { RestoresNew K.can_refuse (state_of_text text.now)
        (state_of K.record_of machine.new) result }
    // The state text of a device restores exactly that device, unless an allocation fails.
    ensures again { (state : WholeState) → IsWholeState state → text.now ≡ state_text state
        → HasState K.can_refuse state (state_of K.record_of machine.new) result }

    // The machine follows the history of the device that wrote the state text. No power cycle is
    // added to this history.
    ensures history { (state : WholeState) (history : History) → IsWholeState state
        → Follows state.device history → text.now ≡ state_text state
        → IfOk result (λ layer. Follows (state_of K.record_of machine.new) history) }
{
    fill(machine, text)
}

/// Replaces a new machine with the machine that a state text encodes. The contract does not mention
/// the device that wrote the state text.
fn fill<K: Keep>(machine: &mut Machine<K>, text: &[u8]) -> Result<Option<Layer>, RestoreFault>
    requires { state_of K.record_of machine.old ≡ manufactured (replicate 256 0) }
    ensures { RestoresNew K.can_refuse (state_of_text text.now) (state_of K.record_of machine.new)
        result }
{
    tpm_state_text::restore_new(machine.keep_mut(), text)
}

/// Returns the machine that a state text encodes, with its completing layer; or the first fault
/// found in the bytes.
#[tactic(auto, using(crate::proofs::Restoring::again_follows))]
pub fn restored<K: Keep>(
    alloc: Global,
    text: &[u8],
) -> Result<(Machine<K>, Option<Layer>), RestoreFault>
    ensures exact { Restores (state_of K.record_of) (K.empty_can_refuse || K.can_refuse) text.now
        result }
    // The state text of a device restores exactly that device, unless an allocation fails.
    ensures again { (state : WholeState) → IsWholeState state → text.now ≡ state_text state
        → RestoresAgain (state_of K.record_of) (K.empty_can_refuse || K.can_refuse) state result }

    // The machine follows the history of the device that wrote the state text. No power cycle is
    // added to this history.
    ensures history { (state : WholeState) (history : History) → IsWholeState state
        → Follows state.device history → text.now ≡ state_text state
        → IfOk result (λ made. Follows (state_of K.record_of made.0) history) }
{
    made(alloc, text)
}

/// Returns the machine that a state text encodes. The contract does not mention the device that
/// wrote the state text.
#[tactic(auto, using(tpm_state_text::proofs::RestoringLaws::restored_again))]
fn made<K: Keep>(alloc: Global, text: &[u8]) -> Result<(Machine<K>, Option<Layer>), RestoreFault>
    ensures exact { Restores (state_of K.record_of) (K.empty_can_refuse || K.can_refuse) text.now
        result }
    ensures again { (state : WholeState) → IsWholeState state → text.now ≡ state_text state
        → RestoresAgain (state_of K.record_of) (K.empty_can_refuse || K.can_refuse) state result }
{
    let (keep, layer) = tpm_state_text::restored(alloc, text)?;
    Ok((Machine::from_keep(keep), layer))
}

/// Replaces a machine with the machine that a state text encodes, and returns the completing layer.
/// On error, the machine is unchanged.
#[tactic(auto, using(crate::proofs::Restoring::into_again, crate::proofs::Restoring::has_follows))]
pub fn restore_into<K: Keep>(
    machine: &mut Machine<K>,
    alloc: Global,
    text: &[u8],
) -> Result<Option<Layer>, RestoreFault>
    ensures exact { RestoresInto (K.empty_can_refuse || K.can_refuse) text.now
        (state_of K.record_of machine.old) result (state_of K.record_of machine.new) }
    // The state text of a device restores exactly that device, unless an allocation fails.
    ensures again { (state : WholeState) → IsWholeState state → text.now ≡ state_text state
        → HasState (K.empty_can_refuse || K.can_refuse) state (state_of K.record_of machine.new)
        result }

    // The machine follows the history of the device that wrote the state text. No power cycle is
    // added to this history.
    ensures history { (state : WholeState) (history : History) → IsWholeState state
        → Follows state.device history → text.now ≡ state_text state
        → IfOk result (λ layer. Follows (state_of K.record_of machine.new) history) }
{
    replace(machine, alloc, text)
}

/// Replaces a machine with the machine that a state text encodes. The contract does not mention the
/// device that wrote the state text.
fn replace<K: Keep>(
    machine: &mut Machine<K>,
    alloc: Global,
    text: &[u8],
) -> Result<Option<Layer>, RestoreFault>
    ensures { RestoresInto (K.empty_can_refuse || K.can_refuse) text.now
        (state_of K.record_of machine.old) result (state_of K.record_of machine.new) }
{
    tpm_state_text::restore_into(machine.keep_mut(), alloc, text)
}
