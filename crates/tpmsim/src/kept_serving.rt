//! Serves a device that is kept in a folder, one connection after another. Between two commands of
//! a connection, other processes may execute commands on the device.

use crate::fault::Fault;
use crate::kept::{Kept, RandomBytes, ServeFault, Terms, serve};
use tpm_bytes::Tap;
use tpm_keeping::holder::Force;
use tpmsim_arguments::Service;
use tpmsim_image::{Entropy, Socket, Subject, bind};

/// The random bytes of a served device, which come from a file.
#[derive(Drop)]
struct FileBytes {
    entropy: Entropy,
}

impl RandomBytes for FileBytes {
    fn next(&mut self) -> Option<[u8; 256]> {
        match self.entropy.random() {
            Ok(random) => Some(random),
            Err(_) => None,
        }
    }
}

/// Serves the device in a folder on a socket; creates a new device if the folder contains none.
/// Keeps `past` finished journals in the folder. At the end, removes the socket's file, if it is
/// still at its path.
pub fn serve_kept(
    rt: &HostRuntime,
    service: &Service,
    folder: &str,
    past: u32,
) -> Result<(), Fault> {
    let mut kept = Kept::at(rt, folder, true, force_of(service), past)?;
    let entropy = Entropy::open(rt, service.entropy)?;
    serve_with(rt, service, &mut kept, &mut FileBytes { entropy })
}

/// Opens the device, or creates it, and serves it with these random bytes.
fn serve_with(
    rt: &HostRuntime,
    service: &Service,
    kept: &mut Kept<'_>,
    bytes: &mut FileBytes,
) -> Result<(), Fault> {
    open_or_begin(kept, &mut bytes.entropy)?;
    let mut socket = bind(rt, service.socket)?;
    let served = serve_connections(rt, service, &mut socket, kept, bytes);
    socket.remove(rt, service.socket);
    served
}

/// Opens the device in the folder. If the folder contains none, creates a new device with the next
/// random bytes.
fn open_or_begin(kept: &mut Kept<'_>, entropy: &mut Entropy) -> Result<(), Fault> {
    if !kept.is_there()? {
        let random = Fault::Entropy(Subject::Entropy.alone()).unless(entropy.random())?;
        kept.manufacture(&random)?;
    }
    Ok(kept.open()?)
}

/// Returns when the journal is synced to disk: with `--save-each`, before each response; otherwise,
/// only when the journal is restarted.
fn force_of(service: &Service) -> Force {
    if service.saves_each {
        Force::Always
    } else {
        Force::Power
    }
}

/// Serves the requested number of connections, one after another. If a client fails, only its own
/// connection ends.
fn serve_connections(
    rt: &HostRuntime,
    service: &Service,
    socket: &mut Socket,
    kept: &mut Kept<'_>,
    bytes: &mut FileBytes,
) -> Result<(), Fault> {
    let terms = Terms {
        locality: service.locality,
        completes: service.completes,
    };
    for _ in 0..service.connection_limit() {
        let stream = Fault::Socket(Subject::Socket.alone()).unless(socket.accept())?;
        let reader = &mut Tap::new(socket.attend(rt, &stream));
        let writer = &mut Tap::new(&stream);
        match serve(kept, terms, bytes, reader, writer) {
            Ok(()) | Err(ServeFault::Client) => {}
            Err(ServeFault::Random) => return Err(Fault::Entropy(Subject::Entropy.alone())),
            Err(ServeFault::Kept(fault)) => return Err(Fault::Kept(fault)),
        }
    }
    Ok(())
}
