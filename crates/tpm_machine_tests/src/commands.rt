//! Commands that a test describes field by field, and clients that send them. A client takes the
//! handle of its session and its policy digest from the responses that it receives.

use super::digests::digest_of;
use std::alloc::Global;
use std::test::Fail;
use tpm_mac::Digest;
use tpm_wire::ConnectionNumber;

/// The code of TPM2_StartAuthSession.
pub const START_AUTH_SESSION: u32 = 0x176;

/// The code of TPM2_PolicyGetDigest.
pub const POLICY_GET_DIGEST: u32 = 0x189;

/// A field of a command, or fields that follow one another.
#[derive(Clone, Copy)]
pub enum Field {
    /// Bytes, as hex digits.
    Hex(&'static str),
    /// This byte, repeated this many times.
    Repeated(u8, usize),
    /// The handle of the session that the client started last.
    Session,
    /// The digest of the client's last TPM2_PolicyGetDigest.
    PolicyDigest,
}

/// The authorization area of a command, with one entry. Strings are hex digits.
#[derive(Clone, Copy)]
pub enum Authorization {
    /// The command has no authorization area.
    None,
    /// The entity's authorization value.
    Password(&'static str),
    /// The session that the client started last, with continueSession. `nonce_caller` is repeated
    /// 16 times.
    Session {
        nonce_caller: u8,
        hmac: &'static str,
    },
}

/// A command. Its tag and its commandSize follow from the other fields.
#[derive(Clone, Copy)]
pub struct Command {
    pub code: u32,
    pub handles: &'static [Field],
    pub authorization: Authorization,
    pub parameters: &'static [Field],
}

/// The expected response to a command, from responseCode on.
#[derive(Clone, Copy)]
pub enum Answer {
    /// The response begins with these bytes, as hex digits.
    Begins(&'static str),
    /// The response depends on the order in which the clients take turns.
    OfOrder,
}

/// A command that a client sends; the byte that all random bytes of the event are; and the expected
/// response.
pub type Step = (Command, u8, Answer);

/// Appends a sized buffer.
fn append_sized(piece: &[u8], bytes: &mut Vec<u8>) -> Result<(), Fail> {
    let size = u16::try_from(piece.len())?;
    bytes.extend_from_slice(&size.to_be_bytes())?;
    bytes.extend_from_slice(piece)?;
    Ok(())
}

/// Appends an authorization area with one entry.
fn append_area(
    handle: &[u8],
    nonce_caller: &[u8],
    hmac: &[u8],
    bytes: &mut Vec<u8>,
) -> Result<(), Fail> {
    let sizes = nonce_caller.len().saturating_add(hmac.len());
    let size = u32::try_from(sizes.saturating_add(9))?;
    bytes.extend_from_slice(&size.to_be_bytes())?;
    bytes.extend_from_slice(handle)?;
    append_sized(nonce_caller, bytes)?;
    // continueSession
    bytes.push(1)?;
    append_sized(hmac, bytes)
}

/// A client that sends one command after another through its connection.
#[derive(Drop)]
pub struct Client {
    pub connection: ConnectionNumber,
    left: &'static [Step],
    session: Digest,
    policy_digest: Digest,
}

impl Client {
    /// A client that will send these commands.
    pub fn new(connection: ConnectionNumber, steps: &'static [Step]) -> Client {
        Client {
            connection,
            left: steps,
            session: Digest::new(),
            policy_digest: Digest::new(),
        }
    }

    /// The client's next step, which is removed from those that are left.
    pub fn next_step(&mut self) -> Option<Step> {
        let (step, others) = self.left.split_first()?;
        self.left = others;
        Some(*step)
    }

    fn append(&self, alloc: Global, field: Field, bytes: &mut Vec<u8>) -> Result<(), Fail> {
        match field {
            Field::Hex(digits) => {
                let piece = hex::decode(alloc, digits)?;
                bytes.extend_from_slice(piece.as_slice())?;
            }
            Field::Repeated(byte, count) => {
                let length = bytes.len().saturating_add(count);
                bytes.resize(length, byte)?;
            }
            Field::Session => bytes.extend_from_slice(self.session.as_slice())?,
            Field::PolicyDigest => bytes.extend_from_slice(self.policy_digest.as_slice())?,
        }
        Ok(())
    }

    fn append_all(&self, alloc: Global, fields: &[Field], bytes: &mut Vec<u8>) -> Result<(), Fail> {
        for field in fields {
            self.append(alloc, *field, bytes)?;
        }
        Ok(())
    }

    /// Appends an authorization area, and returns the command's tag.
    fn authorize(
        &self,
        alloc: Global,
        authorization: Authorization,
        bytes: &mut Vec<u8>,
    ) -> Result<u16, Fail> {
        match authorization {
            Authorization::None => return Ok(0x8001),
            Authorization::Password(digits) => {
                let password = hex::decode(alloc, digits)?;
                // TPM_RS_PW
                append_area(&[0x40, 0, 0, 9], &[], password.as_slice(), bytes)?;
            }
            Authorization::Session { nonce_caller, hmac } => {
                let hmac = hex::decode(alloc, hmac)?;
                let nonce = [nonce_caller; 16];
                append_area(self.session.as_slice(), &nonce, hmac.as_slice(), bytes)?;
            }
        }
        Ok(0x8002)
    }

    /// The buffer of a command.
    pub fn buffer_of(&self, alloc: Global, command: Command) -> Result<Vec<u8>, Fail> {
        let mut fields = Vec::new(alloc);
        self.append_all(alloc, command.handles, &mut fields)?;
        let tag = self.authorize(alloc, command.authorization, &mut fields)?;
        self.append_all(alloc, command.parameters, &mut fields)?;
        let size = u32::try_from(fields.len().saturating_add(10))?;
        let mut buffer = Vec::new(alloc);
        buffer.extend_from_slice(&tag.to_be_bytes())?;
        buffer.extend_from_slice(&size.to_be_bytes())?;
        buffer.extend_from_slice(&command.code.to_be_bytes())?;
        buffer.extend_from_slice(fields.as_slice())?;
        Ok(buffer)
    }

    /// Keeps the handle of a new session, or a policy digest, from the response to a command.
    pub fn note(&mut self, code: u32, response: &[u8]) {
        match (code, response.get(10..14), response.get(12..)) {
            (START_AUTH_SESSION, Some(handle), _) => self.session = digest_of(handle),
            (POLICY_GET_DIGEST, _, Some(digest)) => self.policy_digest = digest_of(digest),
            _ => (),
        }
    }
}
