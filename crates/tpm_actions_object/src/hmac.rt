//! TPM2_HMAC: returns the HMAC of a buffer, computed with a key (specified in `specs/Hmac`).

ghost use Rattle.std.specs.Prelude.{◌≡◌};
ghost use Rattle.tpm_record.specs.rows.Request.{request_of};
ghost use Rattle.tpm_record.specs.rows.Rows.{Acts};
ghost use Rattle.tpm_actions_object.specs.Hmac.{chosen_hash, hmac_row, own_hash, scheme_of};

use crate::loaded::loaded;
use tpm_bytes::Cursor;
use tpm_mac::{HashAlg, hmac_parts};
use tpm_record::Keep;
use tpm_record::rows::answer::Answer;
use tpm_record::rows::call::Call;
use tpm_record::rows::reading::{end, parameter};
use tpm_record::rows::refusals::action_refusal;
use tpm_types_common::{
    ActionCheck, DATA_LIMIT, Refused, ResponseCode, hash_number, read_buffer, read_hash_or_null,
};
use tpm_types_object::{KeyedHashScheme, ObjectAttribute, PublicParameters};

/// The scheme of a KEYEDHASH object.
fn scheme_of(parameters: PublicParameters) -> Result<KeyedHashScheme, Refused>
    ensures { result ≡ scheme_of parameters }
{
    match parameters {
        PublicParameters::KeyedHash(scheme) => Ok(scheme),
        PublicParameters::SymCipher => {
            Err(action_refusal(
                ActionCheck::First,
                ResponseCode::Type.anywhere().at_handle(1),
            ))
        }
    }
}

/// The hash for a key whose scheme names a hash: the scheme's hash if the command requests this
/// hash or NULL; otherwise None.
fn own_hash(own: HashAlg, asked: Option<HashAlg>) -> Option<HashAlg>
    ensures { result ≡ own_hash own asked }
{
    match asked {
        Some(asked) if hash_number(own) != hash_number(asked) => None,
        _ => Some(own),
    }
}

/// The hash with which an HMAC is computed.
fn chosen_hash(scheme: KeyedHashScheme, asked: Option<HashAlg>) -> Option<HashAlg>
    ensures { result ≡ chosen_hash scheme asked }
{
    match scheme {
        KeyedHashScheme::Null => asked,
        KeyedHashScheme::Hmac(own) => own_hash(own, asked),
    }
}

/// TPM2_HMAC: returns the HMAC of a buffer, computed with a key.
#[tactic(auto, unfolding(crate::specs::Hmac::hmac_row, crate::specs::Hmac::parameters_in))]
pub fn hmac<K: Keep>(keep: &mut K, call: &Call, answer: &mut Answer) -> Result<(), Refused>
    ensures { Acts (hmac_row (K.record_of keep.old) (request_of call.now))
        (K.record_of keep.old) result answer.new (K.record_of keep.new) }
{
    answer.clear();
    let object = loaded(keep, call.first_handle()?)?;
    let mut text = Cursor::new(call.parameters);
    let buffer = parameter(1, read_buffer(&mut text, DATA_LIMIT))?;
    let asked = parameter(2, read_hash_or_null(&mut text))?;
    end(&text)?;
    let scheme = scheme_of(object.public.parameters)?;
    if object.public.attributes.has(ObjectAttribute::Restricted) {
        return Err(action_refusal(
            ActionCheck::Second,
            ResponseCode::Attributes.anywhere().at_handle(1),
        ));
    }
    if !object.public.attributes.has(ObjectAttribute::Sign) {
        return Err(action_refusal(
            ActionCheck::Third,
            ResponseCode::Key.anywhere().at_handle(1),
        ));
    }
    let Some(hash) = chosen_hash(scheme, asked) else {
        return Err(action_refusal(
            ActionCheck::Fourth,
            ResponseCode::Value.anywhere().at_parameter(2),
        ));
    };
    let mac = hmac_parts(hash, object.sensitive.as_slice(), &[buffer]);
    answer.parameters.append_sized(mac.as_slice());
    Ok(())
}
