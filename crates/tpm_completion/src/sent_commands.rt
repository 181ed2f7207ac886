//! The commands that the layer sends to the device: TPM2_HMAC with an empty message,
//! TPM2_PCR_Extend, and TPM2_GetRandom for zero bytes, each with one entry.

ghost use Rattle.std.specs.Prelude.{◌≡◌, ◌≤◌, ◌++◌, [], length};
ghost use Rattle.std.specs.Int.{w32, to_be_bytes};
ghost use Rattle.tpm_step.specs.step.Answer.{framed_message};
ghost use Rattle.tpm_types_command.specs.AuthEntry.{entry_of};
ghost use Rattle.tpm_completion.specs.Sending.{area_of, extend_command, hmac_command, hmac_parameters, random_command};

use crate::codes::{GET_RANDOM, HMAC, PCR_EXTEND};
use tpm_bytes::Sink;
use tpm_mac::HashAlg;
use tpm_types_command::AuthEntry;
use tpm_types_common::{Handle, hash_or_null_number};

/// The capacity for a command that the layer sends, in bytes.
pub const COMMAND_LIMIT: usize = 192;

/// The parameters of TPM2_GetRandom for zero bytes.
pub const RANDOM_PARAMETERS: [u8; 2] = [0, 0];

/// Begins the body of a command: a handle, and an authorization area with one entry.
#[tactic(auto, using(tpm_types_command::proofs::EntryLaws::entry_sizes))]
fn append_handle(handle: Handle, entry: &AuthEntry, body: &mut Sink<COMMAND_LIMIT>)
    requires empty { body.old ≡ [] }
    requires nonce { length entry.now.nonce.now ≤ 32 }
    requires hmac { length entry.now.hmac.now ≤ 32 }
    ensures text { body.new ≡ to_be_bytes w32 handle.number ++ area_of (entry_of entry.now) }
    ensures small { length body.new ≤ 81 }
{
    let size = 9 + entry.nonce.len() + entry.hmac.len();
    body.append_u32(handle.number);
    body.append_u32(size as u32);
    entry.append_to(body);
}

/// A command with sessions, with this code and body.
fn command_of(code: u32, body: &[u8]) -> Sink<COMMAND_LIMIT>
    requires { length body.now ≤ 180 }
    ensures { result ≡ framed_message 0x8002 code body.now }
{
    let mut command = Sink::new();
    command.append_u16(0x8002);
    command.append_u32((10 + body.len()) as u32);
    command.append_u32(code);
    command.append(body);
    command
}

/// The parameters of TPM2_HMAC with an empty message.
pub fn hmac_parameters(asked: Option<HashAlg>) -> Sink<4>
    ensures { result ≡ hmac_parameters asked }
{
    let mut parameters = Sink::new();
    parameters.append_sized(&[]);
    parameters.append_u16(hash_or_null_number(asked));
    parameters
}

/// The command TPM2_HMAC with an empty message.
#[tactic(auto, unfolding(crate::specs::Sending::hmac_command))]
pub fn hmac_command(
    handle: Handle,
    entry: &AuthEntry,
    asked: Option<HashAlg>,
) -> Sink<COMMAND_LIMIT>
    requires nonce { length entry.now.nonce.now ≤ 32 }
    requires hmac { length entry.now.hmac.now ≤ 32 }
    ensures { result ≡ hmac_command handle (entry_of entry.now) asked }
{
    let mut body = Sink::new();
    append_handle(handle, entry, &mut body);
    body.append(hmac_parameters(asked).as_slice());
    command_of(HMAC, body.as_slice())
}

/// The command TPM2_PCR_Extend, with these encoded digests.
#[tactic(auto, unfolding(crate::specs::Sending::extend_command))]
pub fn extend_command(handle: Handle, entry: &AuthEntry, digests: &[u8]) -> Sink<COMMAND_LIMIT>
    requires nonce { length entry.now.nonce.now ≤ 32 }
    requires hmac { length entry.now.hmac.now ≤ 32 }
    requires digests { length digests.now ≤ 80 }
    ensures { result ≡ extend_command handle (entry_of entry.now) digests.now }
{
    let mut body = Sink::new();
    append_handle(handle, entry, &mut body);
    body.append(digests);
    command_of(PCR_EXTEND, body.as_slice())
}

/// The command TPM2_GetRandom for zero bytes, with an entry that authorizes nothing.
#[tactic(auto, using(tpm_types_command::proofs::EntryLaws::entry_sizes), unfolding(crate::specs::Sending::random_command))]
pub fn random_command(entry: &AuthEntry) -> Sink<COMMAND_LIMIT>
    requires nonce { length entry.now.nonce.now ≤ 32 }
    requires hmac { length entry.now.hmac.now ≤ 32 }
    ensures { result ≡ random_command (entry_of entry.now) }
{
    let size = 9 + entry.nonce.len() + entry.hmac.len();
    let mut body: Sink<COMMAND_LIMIT> = Sink::new();
    body.append_u32(size as u32);
    entry.append_to(&mut body);
    body.append(&RANDOM_PARAMETERS);
    command_of(GET_RANDOM, body.as_slice())
}

/// An entry with another HMAC.
pub fn with_hmac<'a>(entry: &AuthEntry<'a>, hmac: &'a [u8]) -> AuthEntry<'a>
    ensures { entry_of result ≡ record (entry_of entry.now) { hmac = hmac.now } }
{
    AuthEntry { hmac, ..*entry }
}
