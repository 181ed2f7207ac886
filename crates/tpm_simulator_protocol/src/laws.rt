//! The law about everything that can happen to a client.

ghost use Rattle.tpm_simulator_protocol.specs.Run.{ClientsAreServed};

/// Whatever happens to a client, in whatever pieces its bytes arrive and its answers are sent: it
/// gets the answers to its own requests, in order and each once. After a request that is unknown or
/// too long, nothing more of the client is executed. The function is only a proof, and has no
/// effect at run time.
pub fn clients_are_served()
    ensures { ClientsAreServed }
{}
