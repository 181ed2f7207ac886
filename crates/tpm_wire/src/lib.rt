#![tactic(auto)]

//! Connections to one machine. The bytes of each connection are cut into command buffers by the
//! commandSize of each command, and each turn of a connection executes one buffer.
//!
//! [`mux::Mux`] is a machine with up to eight connections, which take turns as the caller decides.
//! [`serving::serve`] serves one connection to its end, over any reader and writer, and
//! [`serving::serve_saving`] also notifies a witness of each command before its response is
//! written. [`connection`] stores the bytes of a connection, and [`front`] finds the end of its
//! next buffer.
//!
//! The crate uses the machine and its witnesses. It does not depend on sockets, on images, or on
//! the source of the host's time and random bytes. Its contracts state that a stream is cut as
//! `specs/Stream` defines, however it is divided into pieces on arrival. Each buffer is executed
//! once and in order, whatever the order of the calls ([`schedule`]).

pub mod connection;
pub mod fault;
pub mod front;
pub mod host;
pub mod mux;
pub mod number;
pub mod reading;
pub mod schedule;
pub mod serving;
pub mod turn;

pub use fault::{Full, HostFault, NoConnection, ServeFault};
pub use host::Host;
pub use mux::Mux;
pub use number::{Conn, ConnectionNumber};
pub use serving::{serve, serve_saving};
pub use turn::Turn;
