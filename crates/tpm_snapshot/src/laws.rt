//! The law about the layer in a state text. The law is the contract of a function that does nothing
//! at run time.

ghost use Rattle.std.specs.Prelude.{◌≡◌, Some};
ghost use Rattle.tpm_completion.specs.declared.completion.Completion.{Completion};
ghost use Rattle.tpm_snapshot.specs.Layer.{completion_of, layer_of};

/// Converting a layer to its part of a state text, and back, returns exactly that layer.
#[inline(always)]
#[tactic(auto, using(crate::proofs::Layers::layer_again))]
pub fn layer_laws()
    ensures { (c : Completion) → completion_of (Some (layer_of c)) ≡ c }
{}
