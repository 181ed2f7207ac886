//! Laws about every schedule of calls. Each connection's buffers are executed once each, in order,
//! and the machine's history consists of these buffers.

ghost use Rattle.tpm_wire.specs.Schedule.{SchedulesAreRuns, SchedulesAreServed, SchedulesLead};

/// These laws hold for any calls on a new mux, in any order. Each connection's turns execute the
/// buffers in the connection's own bytes, once each and in order. The machine's state is the result
/// of these buffers and the power cycles, which satisfy the laws about sequences of events. The
/// function is only a proof, and has no effect at run time.
pub fn schedule_laws()
    ensures leads { SchedulesLead }
    ensures served { SchedulesAreServed }
    ensures runs { SchedulesAreRuns }
{}
