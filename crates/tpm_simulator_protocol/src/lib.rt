#![tactic(auto)]

//! The protocol of Microsoft's TPM simulator, without sockets and without a device.
//!
//! [`request`] divides the bytes of a client into requests, at the port for commands or at the port
//! for the platform, and says what each request means. [`answer`] writes the answers. [`client`]
//! stores what a client sent, and what is left to be sent to it.
//!
//! A host passes received bytes to [`Client::receive`](client::Client::receive), executes the
//! request that [`Client::due`](client::Client::due) returns, passes the response to
//! [`Client::answer`](client::Client::answer), and sends the bytes of
//! [`Client::unsent`](client::Client::unsent). Then each client gets the answers to its own
//! requests, in order and each once, whatever the pieces in which its bytes arrive ([`laws`]). A
//! request that is unknown or too long ends the stream of its client: what the client sent after it
//! is never executed. Clients share no state. No function allocates memory.

pub mod answer;
pub mod client;
pub mod laws;
pub mod request;
