//! Why a journal could not be opened, as the program reports it.

ghost use Rattle.std.specs.Prelude.{◌≡◌};
ghost use Rattle.tpmsim.specs.kept.Fault.{IsSaidOf, said_of_following, said_of_opening};

use std::alloc::Global;
use tpm_journal::opening::open;
use tpm_journal::{FollowFault, OpenFault};
use tpm_keeping::holder::Fault;
use tpm_machine::Machine;
use tpm_slots::SlotKeep;
use tpm_state_text::{RestoreFault, StateFault};
use tpm_step::Outcome;
use tpmsim_folder::Said;

/// Returns why these bytes cannot be opened as a journal. If they can be opened, returns `Damaged`,
/// since an earlier attempt found the journal damaged.
pub fn said_of_text(alloc: Global, text: &[u8]) -> Said
    ensures { IsSaidOf text.now result }
{
    let opened: Result<Machine<SlotKeep>, _> = Machine::manufacture(alloc, &[0; 256]);
    let Ok(mut machine) = opened else {
        return Said::Keeper(Fault::Memory);
    };
    match open(&mut machine, text, &mut Outcome::empty()) {
        Ok(_) => Said::Keeper(Fault::Damaged),
        Err(fault) => said_of_opening(fault),
    }
}

/// Returns the report of why a journal was not opened.
pub fn said_of_opening(fault: OpenFault) -> Said
    ensures { result ≡ said_of_opening fault }
{
    match fault {
        OpenFault::NoJournal => Said::IsNoJournal,
        OpenFault::Image(_) => Said::HoldsNoImage,
        OpenFault::State(RestoreFault::Text(StateFault::Earlier)) => Said::HoldsEarlierState,
        OpenFault::State(_) => Said::HoldsNoState,
        OpenFault::Follow(fault) => said_of_following(fault),
    }
}

/// Returns the report that says why some of a journal's entries could not be executed again.
pub fn said_of_following(fault: FollowFault) -> Said
    ensures { result ≡ said_of_following fault }
{
    match fault {
        FollowFault::Damaged => Said::Keeper(Fault::Damaged),
        FollowFault::Otherwise => Said::WasAnsweredOtherwise,
    }
}
