//! Laws about the numbers of tpmsim.h. Each function is a proof only: it has no effect at run time.

ghost use Rattle.tpmsim_library.specs.Numbers.{HasFaultNumbers, HasForceNumbers, HasInnerNumbers};
ghost use Rattle.tpmsim_library.specs.Numbers.{HasJobNumbers, HasNoOtherNumbers, HasToldNumbers};
ghost use Rattle.tpmsim_library.specs.Numbers.{ReportsAreNumbered, TasksAreNumbered};

/// The numbers that calls return are those of the header, also for a fault within a fault.
#[inline(always)]
pub fn result_laws()
    ensures told { HasToldNumbers }
    ensures inner { HasInnerNumbers }
{}

/// The numbers with which a keeper and its host exchange settings, jobs, tasks, faults and reports
/// are those of the header. No other number has a meaning.
#[inline(always)]
pub fn keeper_laws()
    ensures forces { HasForceNumbers }
    ensures jobs { HasJobNumbers }
    ensures tasks { TasksAreNumbered }
    ensures faults { HasFaultNumbers }
    ensures reports { ReportsAreNumbered }
    ensures others { HasNoOtherNumbers }
{}
