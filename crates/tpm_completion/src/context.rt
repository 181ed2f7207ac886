//! The context of a session: a token that names the session's slot in the device.

ghost use Rattle.std.specs.Prelude.{◌≡◌, length};
ghost use Rattle.tpm_completion.specs.Context.{context_text, mark, names_sequence, names_session, saved_handle_at, token_at, token_text};

use tpm_bytes::{Cursor, Short, Sink, is_equal};
use tpm_context::SavedHandle;
use tpm_types_common::Handle;

/// The size of a token's contextBlob, in bytes.
const TOKEN_SIZE: usize = 20;

/// The size of a session's context, in bytes.
pub const SESSION_CONTEXT_SIZE: usize = 38;

/// The content of a session's context: the number of the context, and the handle of the session.
#[derive(Clone, Copy, PartialEq, Eq)]
pub struct Token {
    pub context: u64,
    pub handle: Handle,
}

fn token_text(start: u64, handle: Handle) -> Sink<TOKEN_SIZE>
    ensures text { result ≡ token_text start handle }
    ensures size { length result ≡ TOKEN_SIZE }
{
    let mut text = Sink::new();
    text.append(&[0x74, 0x70, 0x6d, 0x73, 0x69, 0x6d, 0x20, 0x31]);
    text.append_u64(start);
    text.append_u32(handle.number);
    text
}

/// The context that contains this token.
#[tactic(auto, unfolding(crate::specs::Context::context_text))]
pub fn context_text(start: u64, token: Token) -> Sink<SESSION_CONTEXT_SIZE>
    ensures text { result ≡ context_text start token }
    ensures size { length result ≡ SESSION_CONTEXT_SIZE }
{
    let blob = token_text(start, token.handle);
    let mut text = Sink::new();
    text.append_u64(token.context);
    text.append_u32(token.handle.number);
    text.append_u32(Handle::NULL.number);
    text.append_sized(blob.as_slice());
    text
}

/// Parses a context, and returns its token. The bytes must be exactly those of the token's context.
#[tactic(auto, unfolding(crate::specs::Context::token_at))]
pub fn read_token(start: u64, bytes: &[u8]) -> Result<Token, Short>
    ensures { result ≡ token_at start bytes.now }
{
    let mut text = Cursor::new(bytes);
    let context = text.u64()?;
    let _between = text.take(26)?;
    let handle = Handle {
        number: text.u32()?,
    };
    let token = Token { context, handle };
    if !is_equal(bytes, context_text(start, token).as_slice()) {
        return Err(Short);
    }
    Ok(token)
}

#[tactic(auto, unfolding(crate::specs::Context::saved_handle_at))]
fn read_saved_handle(context: &[u8]) -> Result<Handle, Short>
    ensures { result ≡ saved_handle_at context.now }
{
    let mut text = Cursor::new(context);
    let _sequence = text.u64()?;
    let number = text.u32()?;
    Ok(Handle { number })
}

/// Whether the savedHandle of a context is that of a sequence object.
pub fn names_sequence(context: &[u8]) -> bool
    ensures { result ≡ names_sequence context.now }
{
    match read_saved_handle(context) {
        Ok(handle) => handle.number == SavedHandle::Sequence.number(),
        Err(_) => false,
    }
}

/// Whether the savedHandle of a context is the handle of a session.
pub fn names_session(context: &[u8]) -> bool
    ensures { result ≡ names_session context.now }
{
    match read_saved_handle(context) {
        Ok(handle) => handle.is_session(),
        Err(_) => false,
    }
}
