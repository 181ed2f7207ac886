#![tactic(auto)]

//! Laws about a served device: about the elapsed time of its commands, and about the responses on
//! its connections.
//!
//! The laws are about definitions of tpmsim_image and tpm_wire. Each law is the contract of a
//! function that does nothing. No crate uses this crate.

ghost use Rattle.tpmsim_image_laws.specs.Answers.{AnswersAreOutcomes};
ghost use Rattle.tpmsim_image_laws.specs.Times.{TellsNoTimeTwice};

/// No millisecond is counted twice. The sum of the elapsed times of all commands is at most the
/// time from the first command to the latest. This holds whatever the host's clock shows at each
/// command.
#[inline(always)]
#[tactic(auto, using(crate::proofs::Times::tells_no_time_twice))]
pub fn stopwatch_laws()
    ensures { TellsNoTimeTwice }
{}

/// Each answer on a connection is the outcome of executing a buffer of that connection.
#[inline(always)]
#[tactic(auto, using(crate::proofs::Answers::answers_are_outcomes))]
pub fn answer_laws()
    ensures { AnswersAreOutcomes }
{}
