//! The buffer of a command while it is being written. It records whether the command has become
//! too long; the header is written last.

ghost use Rattle.tpm_types_common.specs.Limits.{buffer_limit};
ghost use Rattle.std.specs.Prelude.{◌≡◌, ◌≤◌, length, [], Some, IfSome, IsSome};
ghost use Rattle.std.specs.Option.{ForSome};
ghost use Rattle.tpm_types_command.specs.Header.{header_text};

use crate::digits::{check_hex, digits_of};
use crate::fault::AsmFault;
use tpm_bytes::Sink;
use tpm_commands::CommandCode;
use tpm_number::TokenFault;
use tpm_types_command::{HEADER_SIZE, Tag};
use tpm_types_common::BUFFER_LIMIT;

/// The encoding of a command that is being written. If the command becomes too long, the draft
/// records only this fact.
#[derive(Drop)]
pub struct Draft {
    bytes: [u8; BUFFER_LIMIT],
    /// The number of bytes written; None after the command became too long.
    used: Option<usize>,
    ghost capacity: { length bytes ≡ buffer_limit },
    ghost within: { ForSome used (λ size. size ≤ buffer_limit) },
}

impl Draft {
    ghost use Rattle.tpm_text.specs.Draft.{Drafts, Finishes, drafted_bytes, finished_command, grown_draft, with_area};
    ghost use Rattle.tpm_text.specs.Hex.{hex_in};
    ghost use Rattle.tpm_text.specs.Parameter.{buffer_text};

    /// An empty draft.
    pub fn new() -> Draft
        ensures { drafted_bytes result ≡ Some [] }
    {
        Draft {
            bytes: [0; BUFFER_LIMIT],
            used: Some(0),
        }
    }

    /// Clears the draft, and reserves ten bytes for a header.
    pub fn begin(&mut self)
        ensures ten { IfSome (drafted_bytes self.new) (λ text. length text ≡ 10) }
        ensures some { IsSome (drafted_bytes self.new) }
    {
        self.used = Some(HEADER_SIZE);
    }

    /// Adds bytes to the draft.
    #[tactic(auto, unfolding(crate::specs::Draft::grown_draft))]
    pub fn put(&mut self, bytes: &[u8])
        ensures { drafted_bytes self.new ≡ grown_draft (drafted_bytes self.old) bytes.now }
    {
        let Some(size) = self.used else {
            return;
        };
        if bytes.len() > BUFFER_LIMIT - size {
            self.used = None;
            return;
        }
        let end = size + bytes.len();
        self.bytes[size..end].copy_from_slice(bytes);
        self.used = Some(end);
    }

    /// Decodes hex digits and adds their bytes. The fault is Bad if the digits are not valid hex.
    #[tactic(auto, unfolding(crate::specs::Draft::grown_draft))]
    pub fn put_hex(&mut self, digits: &[u8]) -> Result<(), TokenFault>
        ensures { Drafts (hex_in digits.now) (drafted_bytes self.old) result
            (drafted_bytes self.new) }
    {
        let count = digits.len() / 2;
        let Some(size) = self.used else {
            return check_hex(digits);
        };
        if count > BUFFER_LIMIT - size {
            self.used = None;
            return check_hex(digits);
        }
        let end = size + count;
        if tpm_hex::decode(digits, &mut self.bytes[size..end]).is_err() {
            return Err(TokenFault::Bad);
        }
        self.used = Some(end);
        Ok(())
    }

    /// Adds a sized buffer (TPM2B) with the bytes that a token contains in hex.
    #[tactic(auto, unfolding(crate::specs::Parameter::buffer_text))]
    pub fn put_buffer(&mut self, token: &[u8]) -> Result<(), TokenFault>
        ensures { Drafts (buffer_text token.now) (drafted_bytes self.old) result
            (drafted_bytes self.new) }
    {
        let digits = digits_of(token)?;
        let count = digits.len() / 2;
        if count > BUFFER_LIMIT {
            self.used = None;
            return check_hex(digits);
        }
        self.put(&(count as u16).to_be_bytes());
        self.put_hex(digits)
    }

    /// Adds an authorization area: the size of its entries, then the entries.
    pub fn put_area(&mut self, entries: &Draft)
        ensures { drafted_bytes self.new
            ≡ with_area (drafted_bytes self.old) (drafted_bytes entries.now) }
    {
        match entries.used {
            Some(size) => {
                self.put(&(size as u32).to_be_bytes());
                self.put(&entries.bytes[..size]);
            }
            None => self.used = None,
        }
    }

    /// Writes the header of the command. The fault is TooLong if the command is too long.
    #[tactic(auto, unfolding(crate::specs::Draft::finished_command))]
    pub fn finish(&mut self, tag: Tag, code: CommandCode) -> Result<(), AsmFault>
        requires { IfSome (drafted_bytes self.old) (λ text. 10 ≤ length text) }
        ensures { Finishes (finished_command tag code (drafted_bytes self.old)) result
            (drafted_bytes self.new) }
    {
        let Some(size) = self.used else {
            return Err(AsmFault::TooLong);
        };
        let header = header_of(tag, size as u32, code);
        self.bytes[0..HEADER_SIZE].copy_from_slice(header.as_slice());
        Ok(())
    }

    /// The bytes so far, or an empty slice if the command became too long.
    pub fn as_slice(&self) -> &[u8]
        ensures value { IfSome (drafted_bytes self.now) (λ text. result.now ≡ text) }
        ensures small { length result.now ≤ buffer_limit }
    {
        &self.bytes[..self.used.unwrap_or(0)]
    }
}

/// The header of a command of this size.
#[tactic(auto, unfolding(tpm_types_command::specs::Header::header_text))]
fn header_of(tag: Tag, size: u32, code: CommandCode) -> Sink<10>
    ensures value { result ≡ header_text tag size code }
    ensures ten { length result ≡ 10 }
{
    let mut header: Sink<10> = Sink::new();
    header.append_u16(tag.number());
    header.append_u32(size);
    header.append_u32(code.number());
    header
}
