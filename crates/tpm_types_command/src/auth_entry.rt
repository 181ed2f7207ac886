//! One entry of an authorization area: session, nonce, attributes, and HMAC or password
//! (TPMS_AUTH_COMMAND; TPM 2.0 Library, Part 2, section 10.13.2).

ghost use Rattle.std.specs.Prelude.{◌≡◌, ℕ, ◌+◌, ◌≤◌, ◌<◌, List, ◌++◌, length, Ok, IfOk};
ghost use Rattle.std.specs.Option.{SomeIff};
ghost use Rattle.tpm_bytes.specs.Reading.{AreBytes, Reads};

use tpm_bytes::{Cursor, Full, Sink};
use tpm_types_common::{Handle, Rc, ResponseCode, SessionAttributes};

/// One entry of a command's authorization area: TPMS_AUTH_COMMAND (Part 2, section 10.13.2). The
/// nonce and the HMAC (or password) may be of any length that fits their size fields.
#[derive(Clone, Copy, Default)]
pub struct AuthEntry<'a> {
    pub session: Handle,
    pub nonce: &'a [u8],
    pub attributes: SessionAttributes,
    pub hmac: &'a [u8],
}

impl<'a> AuthEntry<'a> {
    ghost use Rattle.tpm_types_command.specs.AuthEntry.{Entry, HasSizes, IsEntry, PutsEntry};
    ghost use Rattle.tpm_types_command.specs.AuthEntry.{entry_at, entry_of, auth_entry_text};

    /// Reads an entry. Fails with AUTHSIZE if it is truncated.
    pub fn read(text: &mut Cursor<'a>) -> Result<AuthEntry<'a>, Rc>
        // The result is the decoded value, or the fault.
        ensures exact { Reads entry_of (entry_at text.old) text.old result text.new }
        // If decoding succeeds, the input starts with the encoding of the returned value.
        ensures found { IfOk result (λ entry. IsEntry (entry_of entry)
            × (text.old ≡ auth_entry_text (entry_of entry) ++ text.new)) }
        // The encoding of a value decodes to that value, whatever bytes follow.
        ensures only { (entry : Entry) (rest : List ℕ) → IsEntry entry
            → text.old ≡ auth_entry_text entry ++ rest
            → Reads entry_of (Ok (entry, rest)) text.old result text.new }
    {
        AuthEntry::read_fields(text)
    }

    #[tactic(auto, unfolding(crate::specs::AuthEntry::entry_at))]
    fn read_fields(text: &mut Cursor<'a>) -> Result<AuthEntry<'a>, Rc>
        ensures exact { Reads entry_of (entry_at text.old) text.old result text.new }
        ensures bytes { AreBytes text.old }
    {
        let mut ahead = Cursor::new(text.rest());
        let Ok(number) = ahead.u32() else {
            return Err(ResponseCode::Authsize.anywhere());
        };
        let Ok(nonce) = ahead.sized(0xffff) else {
            return Err(ResponseCode::Authsize.anywhere());
        };
        let Ok(octet) = ahead.u8() else {
            return Err(ResponseCode::Authsize.anywhere());
        };
        let Ok(hmac) = ahead.sized(0xffff) else {
            return Err(ResponseCode::Authsize.anywhere());
        };
        *text = ahead;
        Ok(AuthEntry {
            session: Handle { number },
            nonce,
            attributes: SessionAttributes { octet },
            hmac,
        })
    }

    /// The size of the entry's encoding, or None if the entry cannot be encoded.
    #[tactic(auto, using(crate::proofs::EntryLaws::entry_sizes))]
    pub fn text_len(&self) -> Option<usize>
        ensures { SomeIff result (HasSizes (entry_of self.now))
            (length (auth_entry_text (entry_of self.now))) }
    {
        let (nonce, hmac) = (self.nonce.len(), self.hmac.len());
        if nonce > 0xffff || hmac > 0xffff {
            return None;
        }
        Some(9 + nonce + hmac)
    }

    /// Appends the encoded entry. If it does not fit, or if one of its sizes does not fit in two
    /// bytes, writes nothing and returns an error.
    pub fn write<const N: usize>(&self, sink: &mut Sink<N>) -> Result<(), Full>
        ensures { PutsEntry N (entry_of self.now) sink.old result sink.new }
    {
        let (nonce, hmac) = (self.nonce, self.hmac);
        if nonce.len() > 0xffff || hmac.len() > 0xffff {
            return Err(Full);
        }
        if N - sink.len() < 9 + nonce.len() + hmac.len() {
            return Err(Full);
        }
        self.append_to(sink);
        Ok(())
    }

    /// Appends the encoded entry. Each of its sizes must fit in two bytes, and the sink must have
    /// room for the entry.
    #[tactic(auto, using(crate::proofs::EntryLaws::entry_sizes))]
    pub fn append_to<const N: usize>(&self, sink: &mut Sink<N>)
        requires sizes { HasSizes (entry_of self.now) }
        requires room { length sink.old + length (auth_entry_text (entry_of self.now)) ≤ N }
        ensures { sink.new ≡ sink.old ++ auth_entry_text (entry_of self.now) }
    {
        sink.append_u32(self.session.number);
        sink.append_sized(self.nonce);
        sink.append_u8(self.attributes.octet);
        sink.append_sized(self.hmac);
    }
}
