//! Laws about the text of every log.

ghost use Rattle.tpmsim_image.specs.log.Log.{LogsTellAll};

/// A log contains the entries of exactly the executions of which it was notified, in their order.
/// The function is only a proof, and has no effect at run time.
#[inline(always)]
#[tactic(auto, using(crate::proofs::log::Telling::tells_all))]
pub fn log_laws()
    ensures { LogsTellAll }
{}
