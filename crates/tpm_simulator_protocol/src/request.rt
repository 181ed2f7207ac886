//! The requests of the protocol: where a client's bytes are divided into requests, and what each
//! request means.

ghost use Rattle.std.specs.Prelude.{◌≡◌, drop, get_or};
ghost use Rattle.tpm_simulator_protocol.specs.Request.{command_port_request, command_port_size};
ghost use Rattle.tpm_simulator_protocol.specs.Request.{command_size_at, content_of, fate_after};
ghost use Rattle.tpm_simulator_protocol.specs.Request.{following, is_too_long, number_at};
ghost use Rattle.tpm_simulator_protocol.specs.Request.{platform_request, request_of, request_size};
ghost use Rattle.tpm_simulator_protocol.specs.Request.{second_at};

/// The limit of a command, and of the data of a launch, in bytes.
pub const COMMAND_LIMIT: usize = 4096;

/// The limit of a request: a number, a locality, a size, and a command.
pub const REQUEST_LIMIT: usize = 4105;

/// The port at which a client connected.
#[derive(Clone, Copy, PartialEq, Eq)]
pub enum Port {
    Commands,
    Platform,
}

/// A request. The command and the data of a request are not part of this value, but follow the
/// numbers in the request's text.
#[derive(Clone, Copy, PartialEq, Eq)]
pub enum Request {
    /// Executes a command. Only the header of a command that is too long is executed.
    SendCommand { locality: u8, too_long: bool },
    /// Asks for the version of the simulator, and names the version of the client.
    Handshake { version: u32 },
    /// Starts a dynamic launch.
    HashStart,
    /// Adds data to the launch. Data that is too long is not added.
    HashData { too_long: bool },
    /// Ends the launch.
    HashEnd,
    PowerOn,
    PowerOff,
    /// Power-cycles the device if its power is on.
    Reset,
    /// A request that has an answer, but no effect.
    NoEffect,
    SessionEnd,
    /// Stops the simulator.
    Stop,
    Unknown,
}

/// The request that is to be executed next, and the size of its text.
#[derive(Clone, Copy)]
pub struct Due {
    pub request: Request,
    pub size: usize,
}

/// What happens to a connection after an answer.
#[derive(Clone, Copy, PartialEq, Eq)]
pub enum Fate {
    Continues,
    Closes,
    /// The connection closes, and the simulator stops.
    Stops,
}

#[tactic(auto, unfolding(crate::specs::Request::number_at))]
fn number_at(bytes: &[u8]) -> Option<u32>
    ensures { result ≡ number_at bytes.now }
{
    let [a, b, c, d, ..] = bytes else {
        return None;
    };
    Some(u32::from_be_bytes([*a, *b, *c, *d]))
}

#[tactic(auto, unfolding(crate::specs::Request::second_at))]
fn second_at(bytes: &[u8]) -> Option<u32>
    ensures { result ≡ second_at bytes.now }
{
    let [_, _, _, _, a, b, c, d, ..] = bytes else {
        return None;
    };
    Some(u32::from_be_bytes([*a, *b, *c, *d]))
}

#[tactic(auto, unfolding(crate::specs::Request::command_size_at))]
fn command_size_at(bytes: &[u8]) -> Option<u32>
    ensures { result ≡ command_size_at bytes.now }
{
    let [_, _, _, _, _, a, b, c, d, ..] = bytes else {
        return None;
    };
    Some(u32::from_be_bytes([*a, *b, *c, *d]))
}

/// The number of bytes that follow a size field.
fn following(least: usize, size: u32) -> usize
    ensures { result ≡ following least size }
{
    if size as usize <= COMMAND_LIMIT {
        size as usize
    } else {
        least
    }
}

#[tactic(auto, unfolding(crate::specs::Request::command_port_size))]
fn command_port_size(number: u32, bytes: &[u8]) -> Option<usize>
    ensures { result ≡ command_port_size number bytes.now }
{
    if number == 8 {
        return match command_size_at(bytes) {
            Some(size) => Some(9 + following(10, size)),
            None => None,
        };
    }
    if number == 6 {
        return match second_at(bytes) {
            Some(size) => Some(8 + following(0, size)),
            None => None,
        };
    }
    Some(if number == 15 || number == 16 { 8 } else { 4 })
}

/// Returns the size of the request that begins with these bytes, or None if more bytes have to
/// arrive first.
pub fn request_size(port: Port, bytes: &[u8]) -> Option<usize>
    ensures { result ≡ request_size port bytes.now }
{
    let number = number_at(bytes)?;
    match port {
        Port::Commands => command_port_size(number, bytes),
        Port::Platform => Some(4),
    }
}

/// Whether the value of a size field exceeds the limit.
fn is_too_long(size: Option<u32>) -> bool
    ensures { result ≡ is_too_long size }
{
    match size {
        Some(value) => value as usize > COMMAND_LIMIT,
        None => false,
    }
}

/// The locality of a request to execute a command: the byte after its number.
fn locality_at(text: &[u8]) -> u8
    ensures { result ≡ get_or text.now 4 0 }
{
    if text.len() > 4 { text[4] } else { 0 }
}

#[tactic(auto, unfolding(crate::specs::Request::command_port_request))]
fn command_port_request(number: u32, text: &[u8]) -> Request
    ensures { result ≡ command_port_request number text.now }
{
    match number {
        5 => Request::HashStart,
        6 => Request::HashData {
            too_long: is_too_long(second_at(text)),
        },
        7 => Request::HashEnd,
        8 => Request::SendCommand {
            locality: locality_at(text),
            too_long: is_too_long(command_size_at(text)),
        },
        15 => Request::Handshake {
            version: second_at(text).unwrap_or(0),
        },
        16 => Request::NoEffect,
        20 => Request::SessionEnd,
        21 => Request::Stop,
        _ => Request::Unknown,
    }
}

#[tactic(auto, unfolding(crate::specs::Request::platform_request))]
fn platform_request(number: u32) -> Request
    ensures { result ≡ platform_request number }
{
    match number {
        1 => Request::PowerOn,
        2 => Request::PowerOff,
        3 | 4 | 9 | 10 | 11 | 12 | 13 | 14 => Request::NoEffect,
        17 | 18 => Request::Reset,
        20 => Request::SessionEnd,
        21 => Request::Stop,
        _ => Request::Unknown,
    }
}

/// Returns the request with this text.
pub fn request_of(port: Port, text: &[u8]) -> Request
    ensures { result ≡ request_of port text.now }
{
    let number = number_at(text).unwrap_or(0);
    match port {
        Port::Commands => command_port_request(number, text),
        Port::Platform => platform_request(number),
    }
}

/// The bytes from an offset on.
#[tactic(auto, using(crate::proofs::Ends::drop_past))]
fn bytes_from(start: usize, text: &[u8]) -> &[u8]
    ensures { result.now ≡ drop start text.now }
{
    if text.len() < start {
        return &[];
    }
    &text[start..]
}

/// Returns the command or the data in the text of a request.
pub fn content_of(request: Request, text: &[u8]) -> &[u8]
    ensures { result.now ≡ content_of request text.now }
{
    match request {
        Request::SendCommand { .. } => bytes_from(9, text),
        Request::HashData { .. } => bytes_from(8, text),
        _ => &[],
    }
}

/// Returns what happens to the connection after the answer to a request.
pub fn fate_after(request: Request) -> Fate
    ensures { result ≡ fate_after request }
{
    let closes = match request {
        Request::SendCommand { too_long, .. } => too_long,
        Request::HashData { too_long } => too_long,
        Request::Handshake { version } => version == 0,
        Request::SessionEnd | Request::Unknown => true,
        Request::Stop => return Fate::Stops,
        _ => false,
    };
    if closes {
        Fate::Closes
    } else {
        Fate::Continues
    }
}
