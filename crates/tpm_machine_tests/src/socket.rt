//! Tests a client and a device that run in one process and are connected by a socket.

use super::comparison::check;
use super::connections::{FIRST, FIRST_ANSWERS};
use super::device::{host, mux};
use std::alloc::Global;
use std::fs;
use std::io::{Read, Write};
use std::net::Shutdown;
use std::os::unix::net::{UnixListener, UnixStream};
use std::test::Fail;
use tpm_bytes::Tap;
use tpm_record::Keep;
use tpm_slots::SlotKeep;
use tpm_wire::{Mux, ServeFault, serve};

/// The socket's file, in the folder in which the tests run.
const PATH: &str = "served.sock";

/// Serves a new device over a stream.
fn serve_stream<K: Keep>(
    alloc: Global,
    stream: &UnixStream,
) -> Result<Result<u64, ServeFault>, Fail> {
    let mut mux: Mux<K> = mux(alloc)?;
    let mut ask = || Ok(host());
    Ok(serve(
        &mut mux,
        &mut Tap::new(stream),
        &mut Tap::new(stream),
        &mut ask,
    ))
}

/// A socket, and a client that is connected to it.
fn joined(rt: &HostRuntime) -> Result<(UnixListener, UnixStream), Fail> {
    let listener = UnixListener::bind(rt, PATH)?;
    let client = UnixStream::connect(rt, PATH)?;
    fs::remove_file(rt, PATH)?;
    Ok((listener, client))
}

/// Sends the buffers in `FIRST`, and nothing else.
fn send_first(client: &UnixStream) -> Result<(), Fail> {
    let mut writer = client;
    writer.write_all(FIRST)?;
    client.shutdown(Shutdown::Write)?;
    Ok(())
}

/// Reads 37 bytes, the total size of the responses.
fn read_answers(client: &UnixStream) -> Result<[u8; 37], Fail> {
    let mut reader = client;
    let mut answers = [0; 37];
    reader.read_exact(&mut answers)?;
    Ok(answers)
}

#[test]
fn a_client_that_wrote_all_is_answered(rt: HostRuntime) -> Result<(), Fail> {
    let (listener, client) = joined(&rt)?;
    send_first(&client)?;
    let (stream, _) = listener.accept()?;
    check(&rt, serve_stream::<SlotKeep>(rt.alloc(), &stream)?, Ok(3));
    check(&rt, read_answers(&client)?.as_slice(), FIRST_ANSWERS);
    Ok(())
}
