//! The laws of state texts. Each law is part of the contract of a function that does nothing at run
//! time.

ghost use Rattle.std.specs.Prelude.{◌≡◌, ◌≤◌, ◌<◌, ℕ, List, Ok, Err, length, take};
ghost use Rattle.tpm_bytes.specs.Reading.{AreBytes};
ghost use Rattle.tpm_image_text.specs.Body.{image_body_text};
ghost use Rattle.tpm_image_text.specs.Image.{image_text};
ghost use Rattle.tpm_image_text.specs.NonVolatile.{kept_of};
ghost use Rattle.tpm_image_text.specs.Version.{version_of};
ghost use Rattle.tpm_state_text.specs.Body.{IsWholeState, WholeState};
ghost use Rattle.tpm_state_text.specs.Sizes.{state_text_size};
ghost use Rattle.tpm_state_text.specs.State.{HasBehindHead, state_of_text, state_text};
ghost use Rattle.tpm_state_text.specs.declared.fault.StateFault.TheVariants as fault;

/// Decoding the state text of a device returns exactly that device, with its completing layer. If
/// decoding bytes returns a device, such a device can exist, and the bytes are its state text. Two
/// devices with the same state text are equal, and no state text exceeds the largest size.
#[inline(always)]
#[tactic(auto, using(crate::proofs::StateLaws::text_told, crate::proofs::StateLaws::one_state, crate::proofs::StateLaws::text_small))]
pub fn state_laws()
    ensures told { (state : WholeState) → IsWholeState state
        → state_of_text (state_text state) ≡ Ok state }
    ensures found { (text : List ℕ) (state : WholeState) → AreBytes text
        → state_of_text text ≡ Ok state
        → IsWholeState state × (text ≡ state_text state) }
    ensures one { (state other : WholeState) → IsWholeState state → IsWholeState other
        → state_text state ≡ state_text other → state ≡ other }
    ensures small { (state : WholeState) → IsWholeState state
        → length (state_text state) ≤ state_text_size }
{}

/// In the state text of a device, the head is directly followed by the body of the device's image, in
/// the version that is written.
#[inline(always)]
#[tactic(auto, using(crate::proofs::StateLaws::body_in_state, crate::proofs::StateLaws::body_in_image))]
pub fn image_in_state_laws()
    ensures state { (state : WholeState)
        → HasBehindHead (state_text state)
        (image_body_text (version_of state.device.fixed.profile) (kept_of state.device)) }
    ensures image { (state : WholeState)
        → HasBehindHead
        (image_text (version_of state.device.fixed.profile) (kept_of state.device))
        (image_body_text (version_of state.device.fixed.profile) (kept_of state.device)) }
{}

/// No proper prefix of a state text is a state text. A prefix shorter than 42 bytes is refused
/// with Short, any other prefix with Length.
#[inline(always)]
#[tactic(auto, using(crate::proofs::StateLaws::front_short, crate::proofs::StateLaws::front_cut))]
pub fn prefix_laws()
    ensures short { (text : List ℕ) (n : ℕ) → n < 42
        → state_of_text (take n text) ≡ Err fault.Short }
    ensures length { (state : WholeState) (n : ℕ) → IsWholeState state → 42 ≤ n
        → n < length (state_text state)
        → state_of_text (take n (state_text state)) ≡ Err fault.Length }
{}
