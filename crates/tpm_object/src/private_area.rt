//! Private areas: a parent encrypts and authenticates the sensitive area of its child, and accepts
//! only areas that it protected itself (TPM 2.0 Library, Part 1, section 22).

ghost use Rattle.tpm_bytes.specs.Reading.{AreBytes, Gives};
ghost use Rattle.std.specs.Prelude.{◌≡◌, ◌≢◌, ◌≤◌, length, Ok, Err, IfOk};
ghost use Rattle.tpm_aes.specs.Cfb.{cfb_decrypt_of, cfb_encrypt_of};
ghost use Rattle.tpm_bytes.specs.Writing.{sized_text};
ghost use Rattle.tpm_name.specs.ObjectName.{object_name};
ghost use Rattle.tpm_types_object.specs.Public.{object_type};
ghost use Rattle.tpm_types_object.specs.Sensitive.{IsSensitive, sensitive_text};
ghost use Rattle.tpm_types_object.specs.declared.public.Public.{Public};
ghost use Rattle.tpm_types_object.specs.declared.sensitive.Sensitive.{Sensitive};

use crate::object::Object;
use arrayvec::ArrayVec;
use tpm_aes::Aes128;
use tpm_bytes::{Cursor, Sink, append};
use tpm_mac::{Digest, hmac_parts, kdfa};
use tpm_name::Name;
use tpm_types_object::{Public, Sensitive};

/// The parent did not wrap this private area for this public area.
#[derive(Clone, Copy, PartialEq, Eq)]
pub struct IntegrityFault;

/// The largest size in bytes of a sensitive area as a sized buffer, encrypted or not.
const AREA_LIMIT: usize = 202;

/// The KDFa label for the encryption keys of private areas.
const STORAGE_LABEL: &[u8] = b"STORAGE";

/// The KDFa label for the HMAC keys of private areas.
const INTEGRITY_LABEL: &[u8] = b"INTEGRITY";

ghost use Rattle.tpm_object.specs.PrivateArea.{IsProtected, IsWrapped, area_in, decrypted_area, encrypted_area, integrity_fault, integrity_key, integrity_of, private_text, protected_in, protected_text, authenticated_text, storage_key, unwrapped_sensitive};

/// The key that encrypts the sensitive area of the object with this Name.
#[tactic(auto, unfolding(crate::specs::PrivateArea::storage_key))]
fn storage_key(parent: &Object, name: &Name) -> [u8; 16]
    ensures { result ≡ storage_key parent.now name.now }
{
    let seed = parent.seed_value.as_slice();
    let mut key = [0; 16];
    kdfa(
        parent.public.name_alg,
        seed,
        STORAGE_LABEL,
        name.as_slice(),
        &[],
        &mut key,
    );
    key
}

/// The key with which a parent authenticates the private areas of its children.
#[tactic(auto, unfolding(crate::specs::PrivateArea::integrity_key))]
fn integrity_key(parent: &Object) -> ArrayVec<u8, 32>
    ensures { result.items ≡ integrity_key parent.now }
{
    let alg = parent.public.name_alg;
    let seed = parent.seed_value.as_slice();
    let mut key = [0; 32];
    let out = &mut key[..alg.size()];
    kdfa(alg, seed, INTEGRITY_LABEL, &[], &[], out);
    let mut bytes = ArrayVec::new();
    append(&mut bytes, &key[..alg.size()]);
    bytes
}

/// The integrity value of a private area: an HMAC over the protected bytes and the object's Name.
#[tactic(auto, unfolding(crate::specs::PrivateArea::integrity_of))]
fn integrity(parent: &Object, name: &Name, protected: &[u8]) -> Digest
    ensures value { result.items ≡ integrity_of parent.now name.now protected.now }
    ensures size { length result.items ≤ 32 }
{
    let key = integrity_key(parent);
    hmac_parts(
        parent.public.name_alg,
        key.as_slice(),
        &[protected, name.as_slice()],
    )
}

/// The sensitive area, encoded as a sized buffer and then encrypted.
#[tactic(auto, unfolding(crate::specs::PrivateArea::encrypted_area))]
fn encrypted_area(
    parent: &Object,
    name: &Name,
    sensitive: &Sensitive,
    iv: &[u8; 16],
) -> ArrayVec<u8, AREA_LIMIT>
    ensures value { result.items ≡ encrypted_area parent.now name.now iv.now sensitive.now }
    ensures fits { IsSensitive sensitive.now }
{
    let mut text: Sink<AREA_LIMIT> = Sink::new();
    text.append_sized(sensitive.text().as_slice());
    let mut bytes = text.into_bytes();
    Aes128::new(&storage_key(parent, name)).cfb_encrypt(iv, bytes.as_mut_slice());
    bytes
}

/// The IV as a sized buffer, then the encrypted area.
fn protected_text(parent: &Object, name: &Name, sensitive: &Sensitive, iv: &[u8; 16]) -> Sink<220>
    ensures value { result ≡ protected_text parent.now name.now iv.now sensitive.now }
    ensures fits { IsSensitive sensitive.now }
{
    let encrypted = encrypted_area(parent, name, sensitive, iv);
    let mut text = Sink::new();
    text.append_sized(iv);
    text.append(encrypted.as_slice());
    text
}

/// The private area for an object with this public area: its sensitive area, encrypted and
/// authenticated by the parent (TPM 2.0 Library, Part 1, section 22).
pub fn wrap(parent: &Object, public: &Public, sensitive: &Sensitive, iv: &[u8; 16]) -> Sink<256>
    ensures value { result
        ≡ private_text parent.now (object_name public.now) iv.now sensitive.now }
    ensures small { length result ≤ 254 }
    // Unwrapping returns the sensitive area again if it has the type of the public area.
    ensures undone { object_type public.now ≡ sensitive.now.object_type
        → unwrapped_sensitive parent.now public.now result ≡ Ok sensitive.now }
    // Unwrapping fails if the public and the sensitive area have different types.
    ensures other_type { object_type public.now ≢ sensitive.now.object_type
        → unwrapped_sensitive parent.now public.now result ≡ Err integrity_fault }
{
    wrap_named(parent, &tpm_name::of_object(public), sensitive, iv)
}

/// Like `wrap`, for callers that already know the object's Name.
#[tactic(auto, unfolding(crate::specs::PrivateArea::private_text))]
pub fn wrap_named(parent: &Object, name: &Name, sensitive: &Sensitive, iv: &[u8; 16]) -> Sink<256>
    ensures value { result ≡ private_text parent.now name.now iv.now sensitive.now }
    ensures small { length result ≤ 254 }
    // Unwrapping with a public area of this Name returns the sensitive area again if both areas
    // have the same type.
    ensures undone { (public : Public) → name.now ≡ object_name public
        → object_type public ≡ sensitive.now.object_type
        → unwrapped_sensitive parent.now public result ≡ Ok sensitive.now }
    // Unwrapping fails if the public and the sensitive area have different types.
    ensures other_type { (public : Public) → name.now ≡ object_name public
        → object_type public ≢ sensitive.now.object_type
        → unwrapped_sensitive parent.now public result ≡ Err integrity_fault }
{
    let protected = protected_text(parent, name, sensitive, iv);
    let integrity = integrity(parent, name, protected.as_slice());
    let mut text = Sink::new();
    text.append_sized(integrity.as_slice());
    text.append(protected.as_slice());
    text
}

/// The protected bytes of a private area, if the integrity value at its beginning is correct.
#[tactic(auto, unfolding(crate::specs::PrivateArea::protected_in))]
fn protected_in<'a>(
    parent: &Object,
    name: &Name,
    private: &'a [u8],
) -> Result<&'a [u8], IntegrityFault>
    ensures value { Gives (λ bytes. bytes.now) (protected_in parent.now name.now private.now)
        result }
    ensures bytes { AreBytes private.now }
{
    let mut text = Cursor::new(private);
    let found = text.sized(0xffff).map_err(|_| IntegrityFault)?;
    let protected = text.rest();
    if found != integrity(parent, name, protected).as_slice() {
        return Err(IntegrityFault);
    }
    Ok(protected)
}

/// Decodes a sensitive area from decrypted bytes, which must consist of exactly one sized buffer.
#[tactic(auto, unfolding(crate::specs::PrivateArea::area_in))]
fn area_in(plain: &[u8]) -> Result<Sensitive, IntegrityFault>
    ensures value { result ≡ area_in plain.now }
    ensures found { IfOk result (λ area. IsSensitive area
        × (plain.now ≡ sized_text (sensitive_text area))) }
{
    let mut text = Cursor::new(plain);
    let area = Sensitive::read_sized(&mut text).map_err(|_| IntegrityFault)?;
    if !text.is_empty() {
        return Err(IntegrityFault);
    }
    Ok(area)
}

/// The bytes of the sensitive area, decrypted with the parent's key.
fn decrypted(parent: &Object, name: &Name, iv: &[u8; 16], cipher: &[u8]) -> ArrayVec<u8, AREA_LIMIT>
    requires { length cipher.now ≤ AREA_LIMIT }
    ensures value { result.items
        ≡ cfb_decrypt_of (storage_key parent.now name.now) iv.now cipher.now }
    ensures undone { cfb_encrypt_of (storage_key parent.now name.now) iv.now result.items
        ≡ cipher.now }
{
    let mut bytes = ArrayVec::new();
    append(&mut bytes, cipher);
    Aes128::new(&storage_key(parent, name)).cfb_decrypt(iv, bytes.as_mut_slice());
    bytes
}

/// Decrypts the sensitive area; `protected` consists of a 16-byte IV and the encrypted bytes.
#[tactic(auto, unfolding(crate::specs::PrivateArea::decrypted_area))]
fn decrypted_area(
    parent: &Object,
    name: &Name,
    protected: &[u8],
) -> Result<Sensitive, IntegrityFault>
    ensures value { result ≡ decrypted_area parent.now name.now protected.now }
    ensures found { IfOk result (λ area. IsSensitive area
        × IsProtected parent.now name.now protected.now area) }
{
    let mut text = Cursor::new(protected);
    let found = text.sized(16).map_err(|_| IntegrityFault)?;
    if found.len() != 16 {
        return Err(IntegrityFault);
    }
    let encrypted = text.rest();
    if encrypted.len() > AREA_LIMIT {
        return Err(IntegrityFault);
    }
    let mut iv = [0; 16];
    iv.copy_from_slice(found);
    let plain = decrypted(parent, name, &iv, encrypted);
    area_in(plain.as_slice())
}

/// Unwraps the private area of the object with this public area, and returns the sensitive area
/// (TPM 2.0 Library, Part 1, section 22). Checks the integrity value before decrypting anything.
pub fn unwrap(parent: &Object, public: &Public, private: &[u8]) -> Result<Sensitive, IntegrityFault>
    ensures value { result ≡ unwrapped_sensitive parent.now public.now private.now }
    // A private area is accepted only if the parent wrapped it for a public area with this Name
    // and type.
    ensures found { IfOk result (λ area. IsWrapped parent.now public.now private.now area) }
    // Every private area that the parent wrapped for a public area with this Name and type is
    // accepted.
    ensures only { (area : Sensitive) → IsWrapped parent.now public.now private.now area
        → result ≡ Ok area }
{
    unwrap_named(parent, public, &tpm_name::of_object(public), private)
}

/// Like `unwrap`, for callers that already know the object's Name.
#[tactic(auto, unfolding(crate::specs::PrivateArea::unwrapped_sensitive))]
pub fn unwrap_named(
    parent: &Object,
    public: &Public,
    name: &Name,
    private: &[u8],
) -> Result<Sensitive, IntegrityFault>
    requires { name.now ≡ object_name public.now }
    ensures value { result ≡ unwrapped_sensitive parent.now public.now private.now }
    ensures found { IfOk result (λ area. IsWrapped parent.now public.now private.now area) }
{
    let protected = protected_in(parent, name, private)?;
    let area = decrypted_area(parent, name, protected)?;
    if area.object_type.number() != public.object_type().number() {
        return Err(IntegrityFault);
    }
    Ok(area)
}
