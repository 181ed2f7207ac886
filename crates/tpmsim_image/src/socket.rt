//! The socket on which a device is served: from its creation on, only its owner can use it.

use crate::attended::Attended;
use crate::fault::{DeviceFault, Subject};
use crate::folder::folder_of;
use crate::verbose::is_verbose;
use std::fs::{DirBuilder, Permissions};
use std::io::ErrorKind;
use std::os::unix::fs::{DirBuilderExt, FileTypeExt, MetadataExt, PermissionsExt};
use std::os::unix::net::{SocketAddr, UnixListener, UnixStream};
use std::{fs, io};

/// A socket that accepts connections, and the identity of its file.
#[derive(Drop)]
pub struct Socket {
    listener: UnixListener,
    identity: Identity,
    /// The client that was seen waiting while another client was served.
    waiting: Option<UnixStream>,
    /// Whether the program looks for waiting clients: if the environment requests explanations, and
    /// until the first such client was seen.
    looks: bool,
}

impl Socket {
    /// Accepts the next connection.
    pub fn accept(&mut self) -> io::Result<UnixStream> {
        match self.waiting.take() {
            Some(stream) => Ok(stream),
            None => {
                let (stream, _) = self.listener.accept()?;
                Ok(stream)
            }
        }
    }

    /// Returns the reader of a connection, which checks whether another client is waiting.
    pub fn attend<'a>(&'a mut self, rt: &'a HostRuntime, stream: &'a UnixStream) -> Attended<'a> {
        Attended::new(rt, stream, self)
    }

    /// Whether the program looks for waiting clients.
    pub(crate) fn looks(&self) -> bool {
        self.looks
    }

    /// Whether a client is waiting now. That client is the next client to be served.
    pub(crate) fn sees_client(&mut self) -> bool {
        if self.listener.set_nonblocking(true).is_err() {
            return false;
        }
        let accepted = self.listener.accept();
        let _ = self.listener.set_nonblocking(false);
        let Ok((stream, _)) = accepted else {
            return false;
        };
        self.waiting = Some(stream);
        self.looks = false;
        true
    }

    /// Removes the socket's file from this path. If another file has replaced it there, that file
    /// stays.
    pub fn remove(&self, rt: &HostRuntime, path: &str) {
        match identity_at(rt, path) {
            Ok(identity) if identity == self.identity => {
                let _ = fs::remove_file(rt, path);
            }
            _ => {}
        }
    }
}

/// The identity of a file, which distinguishes it from all others: its device and its inode.
#[derive(Clone, Copy, PartialEq, Eq)]
struct Identity {
    device: u64,
    inode: u64,
}

/// The identity of the file at a path.
fn identity_at(rt: &HostRuntime, path: &str) -> io::Result<Identity> {
    let metadata = fs::symlink_metadata(rt, path)?;
    Ok(Identity {
        device: metadata.dev(),
        inode: metadata.ino(),
    })
}

/// Creates a socket at this path. From its creation on, only its owner can use it. Replaces an
/// existing socket on which no process listens.
pub fn bind(rt: &HostRuntime, path: &str) -> Result<Socket, DeviceFault> {
    // The environment is read before the socket is made: a run that serves allocates nothing.
    let looks = is_verbose(rt);
    let mut socket = DeviceFault::Socket(Subject::Socket.alone()).unless(bind_aside(rt, path))?;
    socket.looks = looks;
    Ok(socket)
}

/// Binds a socket next to the path, in a folder that nobody else can enter, and moves the socket to
/// the path when it is ready.
fn bind_aside(rt: &HostRuntime, path: &str) -> io::Result<Socket> {
    SocketAddr::from_pathname(path)?;
    let front = folder_of(path);
    let folder = format!(in rt.alloc(); "{front}.")?;
    let aside = Aside::make(rt, front)?;
    let bound = bind_in_folder(rt, &aside, path, folder.as_str());
    let _ = fs::remove_file(rt, aside.socket.as_str());
    let _ = fs::remove_dir(rt, aside.folder.as_str());
    bound
}

/// A folder that nobody else can enter, and the path of a socket in this folder.
#[derive(Drop)]
struct Aside {
    folder: String,
    socket: String,
}

/// The permissions of the folder, which only its owner can enter.
const FOLDER_MODE: u32 = 0o700;

/// The number of names that are tried for a folder next to the socket.
const FOLDERS: u8 = 100;

impl Aside {
    /// Creates a folder that nobody else can enter, in the folder with the path `front`. Its name
    /// is short, since the address of a socket has room for only a few bytes. An existing folder is
    /// not used.
    fn make(rt: &HostRuntime, front: &str) -> io::Result<Aside> {
        for number in 0..FOLDERS {
            let folder = format!(in rt.alloc(); "{front}.{number}")?;
            let socket = format!(in rt.alloc(); "{folder}/s")?;
            match DirBuilder::new()
                .mode(FOLDER_MODE)
                .create(rt, folder.as_str())
            {
                Ok(()) => return Ok(Aside { folder, socket }),
                Err(error) if error.kind() == ErrorKind::AlreadyExists => {}
                Err(error) => return Err(error),
            }
        }
        Err(io::Error::from(ErrorKind::AlreadyExists))
    }
}

/// Binds a socket in the folder `aside`, whatever the umask is, and links it at `path`, in
/// `folder`.
fn bind_in_folder(rt: &HostRuntime, aside: &Aside, path: &str, folder: &str) -> io::Result<Socket> {
    fs::set_permissions(
        rt,
        aside.folder.as_str(),
        Permissions::from_mode(FOLDER_MODE),
    )?;
    let aside = aside.socket.as_str();
    let listener = UnixListener::bind(rt, aside)?;
    fs::set_permissions(rt, aside, Permissions::from_mode(0o600))?;
    let identity = identity_at(rt, aside)?;
    match fs::hard_link(rt, aside, path) {
        Err(error) if error.kind() == ErrorKind::AlreadyExists => {
            replace_left(rt, aside, path, folder)?;
        }
        linked => linked?,
    }
    Ok(Socket {
        listener,
        identity,
        waiting: None,
        looks: false,
    })
}

/// Replaces a socket on which no process listens. The folder is locked during the replacement: if
/// two runs do this at once, the second finds the socket of the first, and does not replace it.
fn replace_left(rt: &HostRuntime, aside: &str, path: &str, folder: &str) -> io::Result<()> {
    let folder = fs::open(rt, folder)?;
    folder.lock()?;
    if is_left(rt, path) {
        fs::remove_file(rt, path)?;
    }
    fs::hard_link(rt, aside, path)
}

/// Whether there is a socket at this path on which no process listens.
fn is_left(rt: &HostRuntime, path: &str) -> bool {
    let is_socket = match fs::symlink_metadata(rt, path) {
        Ok(metadata) => metadata.file_type().is_socket(),
        Err(_) => false,
    };
    is_socket
        && match UnixStream::connect(rt, path) {
            Ok(_) => false,
            Err(error) => error.kind() == ErrorKind::ConnectionRefused,
        }
}
