//! How the program serves a device on a socket, one connection after another. It saves the image
//! after each connection, and with `--save-each` also before each response. With `--log` it writes
//! each command to a log.

use crate::command_saver::CommandSaver;
use crate::entropy::Entropy;
use crate::fault::{DeviceFault, Subject};
use crate::image_file::ImageFile;
use crate::image_saver::ImageSaver;
use crate::log::Logged;
use crate::log_file::begin_log;
use crate::socket::{Socket, bind};
use crate::source::{HostSource, Source};
use std::fs::File;
use std::os::unix::net::UnixStream;
use tpm_bytes::Tap;
use tpm_machine::Machine;
use tpm_machine_saver::Saver;
use tpm_record::Keep;
use tpm_wire::{HostFault, Mux, ServeFault, serve_saving};
use tpmsim_arguments::Service;

/// Serves a device on a socket: the device whose image is in the file, or a new device if there is
/// no file.
pub fn serve_device(rt: &HostRuntime, service: &Service, image: &str) -> Result<(), DeviceFault> {
    let file = ImageFile::take(rt, image)?;
    let opened = file.open(rt)?;
    let mut entropy = Entropy::open(rt, service.entropy)?;
    let mut saver = ImageSaver::new(rt, file);
    let machine = match opened {
        Some(machine) => {
            saver.opened(&machine);
            machine
        }
        None => entropy.manufacture(rt)?,
    };
    let mut source = Source::new(entropy, service.locality);
    let mut witness = Logged {
        log: None,
        next: CommandSaver {
            image: saver,
            saves_each: service.saves_each,
        },
    };
    serve_machine(rt, service, machine, &mut source, &mut witness)
}

/// Serves a machine on the socket. At the end, removes the socket's file, if it is still at its
/// path.
fn serve_machine<K: Keep>(
    rt: &HostRuntime,
    service: &Service,
    machine: Machine<K>,
    source: &mut HostSource,
    witness: &mut Logged<File, CommandSaver<'_>>,
) -> Result<(), DeviceFault> {
    let mut socket = bind(rt, service.socket)?;
    let mut mux = Mux::new(machine);
    let served = serve_socket(rt, service, &mut socket, &mut mux, source, witness);
    socket.remove(rt, service.socket);
    served
}

/// Begins the log, if one is requested, and serves the connections.
fn serve_socket<K: Keep>(
    rt: &HostRuntime,
    service: &Service,
    socket: &mut Socket,
    mux: &mut Mux<K>,
    source: &mut HostSource,
    witness: &mut Logged<File, CommandSaver<'_>>,
) -> Result<(), DeviceFault> {
    if let Some(path) = service.log {
        witness.log = Some(begin_log(rt, path, mux.machine())?);
    }
    let connections = service.connection_limit();
    serve_connections(rt, connections, socket, mux, source, witness)
}

/// Serves this many connections, one after another.
fn serve_connections<K: Keep>(
    rt: &HostRuntime,
    connections: u64,
    socket: &mut Socket,
    mux: &mut Mux<K>,
    source: &mut HostSource,
    witness: &mut Logged<File, CommandSaver<'_>>,
) -> Result<(), DeviceFault> {
    for _ in 0..connections {
        let fault = DeviceFault::Socket(Subject::Socket.alone());
        let stream = fault.unless(socket.accept())?;
        let served = exchange(rt, socket, &stream, mux, source, witness);
        save_after(served, mux, &mut witness.next)?;
    }
    Ok(())
}

/// Saves the device with its clock after a connection. Returns a fault if the program has to end.
/// The device is not saved if it is saved before each response, and a command was not answered
/// because writing the log or the image failed. In that case, the image already contains the
/// effects of all answered commands.
fn save_after<K: Keep>(
    served: Result<u64, ServeFault>,
    mux: &Mux<K>,
    saver: &mut CommandSaver<'_>,
) -> Result<(), DeviceFault> {
    if !saver.saves_each || served != Err(ServeFault::Save) {
        let _ = saver.image.save(mux.machine());
    }
    if let Some(fault) = saver.image.fault() {
        return Err(fault);
    }
    match served {
        Err(ServeFault::Save) => Err(DeviceFault::File(Subject::Log.alone())),
        Err(ServeFault::Host) => Err(DeviceFault::Entropy(Subject::Entropy.alone())),
        _ => Ok(()),
    }
}

/// Executes the commands of a connection. Notifies the witness of each command before sending its
/// response.
fn exchange<K: Keep>(
    rt: &HostRuntime,
    socket: &mut Socket,
    stream: &UnixStream,
    mux: &mut Mux<K>,
    source: &mut HostSource,
    witness: &mut Logged<File, CommandSaver<'_>>,
) -> Result<u64, ServeFault> {
    let mut host = || source.host(rt).map_err(|_| HostFault);
    serve_saving(
        mux,
        &mut Tap::new(socket.attend(rt, stream)),
        &mut Tap::new(stream),
        &mut host,
        witness,
    )
}
