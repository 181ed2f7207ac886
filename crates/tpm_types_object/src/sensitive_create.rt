//! The values that a caller provides for the sensitive area of a new object
//! (TPMS_SENSITIVE_CREATE; TPM 2.0 Library, Part 2, section 11.1.15).

ghost use Rattle.std.specs.Prelude.{◌≡◌, ◌≤◌, ℕ, List, ◌++◌, length, Ok, IfOk};
ghost use Rattle.tpm_bytes.specs.Reading.{AreBytes, Reads};
ghost use Rattle.tpm_bytes.specs.Writing.{sized_text};
ghost use Rattle.tpm_types_common.specs.Limits.{sensitive_limit};
ghost use Rattle.tpm_types_common.specs.Filled.{filled_by};

use tpm_bytes::{Cursor, Readable, Sink};
use tpm_types_common::{Rc, SENSITIVE_LIMIT, read_buffer, read_filled};

/// The values that a caller provides for a new object's sensitive area: TPMS_SENSITIVE_CREATE (Part
/// 2, section 11.1.15).
#[derive(Clone, Copy)]
pub struct SensitiveCreate<'a> {
    pub user_auth: &'a [u8],
    pub data: &'a [u8],
    ghost few: { length user_auth.now ≤ 32 },
    ghost short: { length «data».now ≤ sensitive_limit },
}

impl<'a> SensitiveCreate<'a> {
    ghost use Rattle.tpm_types_object.specs.SensitiveCreate.{IsSensitiveCreate, SensitiveValues, sensitive_create_at};
    ghost use Rattle.tpm_types_object.specs.SensitiveCreate.{sensitive_create_text, sensitive_values_of};

    /// Reads the values. Fails with INSUFFICIENT if they are truncated, or with SIZE if a value is
    /// too long.
    pub fn read(text: &mut Cursor<'a>) -> Result<SensitiveCreate<'a>, Rc>
        // The result is the decoded values, or the first fault.
        ensures exact { Reads sensitive_values_of (sensitive_create_at text.old) text.old
            result text.new }
        ensures fits { IfOk result (λ given. IsSensitiveCreate (sensitive_values_of given)) }
        // If decoding succeeds, the input starts with the encoding of the returned value.
        ensures found { IfOk result (λ given.
            text.old ≡ sensitive_create_text (sensitive_values_of given) ++ text.new) }
        // The encoding of a value decodes to that value, whatever bytes follow.
        ensures only { (given : SensitiveValues) (rest : List ℕ) → IsSensitiveCreate given
            → text.old ≡ sensitive_create_text given ++ rest
            → Reads sensitive_values_of (Ok (given, rest)) text.old result text.new }
    {
        SensitiveCreate::read_fields(text)
    }

    /// Reads values that fill a sized buffer (TPM2B). Fails under the same conditions as
    /// [`read_filled`].
    pub fn read_sized(text: &mut Cursor<'a>) -> Result<SensitiveCreate<'a>, Rc>
        ensures exact { Reads sensitive_values_of (filled_by sensitive_create_at text.old) text.old
            result text.new }
        ensures fits { IfOk result (λ given. IsSensitiveCreate (sensitive_values_of given)) }
        ensures found { IfOk result (λ given. text.old
            ≡ sized_text (sensitive_create_text (sensitive_values_of given)) ++ text.new) }
        ensures only { (given : SensitiveValues) (rest : List ℕ) → IsSensitiveCreate given
            → text.old ≡ sized_text (sensitive_create_text given) ++ rest
            → Reads sensitive_values_of (Ok (given, rest)) text.old result text.new }
    {
        read_filled(text)
    }

    #[tactic(auto, unfolding(crate::specs::SensitiveCreate::sensitive_create_at))]
    fn read_fields(text: &mut Cursor<'a>) -> Result<SensitiveCreate<'a>, Rc>
        ensures exact { Reads sensitive_values_of (sensitive_create_at text.old) text.old
            result text.new }
        ensures bytes { AreBytes text.old }
    {
        let mut ahead = Cursor::new(text.rest());
        let user_auth = read_buffer(&mut ahead, 32)?;
        let data = read_buffer(&mut ahead, SENSITIVE_LIMIT)?;
        *text = ahead;
        Ok(SensitiveCreate { user_auth, data })
    }

    /// The encoding of the values, in a buffer large enough for the longest encoding.
    pub fn text(&self) -> Sink<164>
        ensures { result ≡ sensitive_create_text (sensitive_values_of self.now) }
    {
        let mut text = Sink::new();
        text.append_sized(self.user_auth);
        text.append_sized(self.data);
        text
    }
}

impl<'a> Readable<'a> for SensitiveCreate<'a> {
    ghost use Rattle.tpm_types_object.specs.SensitiveCreate.{SensitiveValues};
    ghost use Rattle.tpm_types_object.specs.SensitiveCreate.{sensitive_create_at, sensitive_values_of};

    type Fault = Rc;

    ghost Seen = { SensitiveValues };

    ghost seen = { sensitive_values_of };

    ghost at = { sensitive_create_at };

    fn read(text: &mut Cursor<'a>) -> Result<SensitiveCreate<'a>, Rc> {
        SensitiveCreate::read(text)
    }
}
