//! The reader of a connection. Connections are served one at a time, so a second client has to
//! wait. The first time that a client waits, the program prints a message, if the environment
//! requests explanations.

use crate::socket::Socket;
use std::io;
use std::io::{ErrorKind, Read};
use std::os::unix::net::UnixStream;
use std::time::Duration;

/// A client that has sent nothing for this many seconds counts as silent.
const SILENCE_SECONDS: u64 = 3;

/// The reader of a connection. While the connection's client is silent, the reader checks whether
/// another client is waiting.
#[derive(Drop)]
pub struct Attended<'a> {
    rt: &'a HostRuntime,
    stream: &'a UnixStream,
    socket: &'a mut Socket,
}

impl<'a> Attended<'a> {
    /// Creates the reader of a connection to this socket. Only if the socket looks for waiting
    /// clients, reads have a time limit.
    pub(crate) fn new(
        rt: &'a HostRuntime,
        stream: &'a UnixStream,
        socket: &'a mut Socket,
    ) -> Attended<'a> {
        if socket.looks() {
            let silence = Duration::from_secs(SILENCE_SECONDS);
            let _ = stream.set_read_timeout(Some(silence));
        }
        Attended { rt, stream, socket }
    }

    /// Checks whether a client is waiting, and reports it. After the report, reads have no time
    /// limit.
    fn look(&mut self) {
        if !self.socket.looks() || !self.socket.sees_client() {
            return;
        }
        let _ = self.stream.set_read_timeout(None);
        let _ = eprintln!(self.rt;
            "tpmsim: another client waits: the program serves one connection at a time"
        );
    }
}

impl Read for Attended<'_> {
    fn read(&mut self, buffer: &mut [u8]) -> io::Result<usize> {
        let mut stream = self.stream;
        for _ in 0..u64::MAX {
            match stream.read(buffer) {
                Err(error) if error.kind() == ErrorKind::WouldBlock => self.look(),
                read => return read,
            }
        }
        Err(io::Error::from(ErrorKind::TimedOut))
    }
}
