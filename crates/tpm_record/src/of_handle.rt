//! Facts about the entity that a handle names. Each call looks the handle up again.

ghost use Rattle.std.specs.Prelude.{◌≡◌, ◌≤◌, length};
ghost use Rattle.tpm_types_common.specs.AuthValue.{trimmed};
ghost use Rattle.tpm_record.specs.Entity.{auth_value_of, is_present, name_of, protection_of};

use crate::entity::resolve;
use crate::keep::Keep;
use tpm_name::Name;
use tpm_session::Protection;
use tpm_types_common::{AuthValue, Handle};

/// Whether the entity that a handle names exists.
#[tactic(auto, unfolding(crate::specs::Entity::is_present))]
pub fn is_present<K: Keep>(keep: &K, handle: Handle) -> bool
    ensures { result ≡ is_present (K.record_of keep.now) handle }
{
    resolve(keep, handle).is_present(keep)
}

/// The Name of the entity that a handle names.
#[tactic(auto, unfolding(crate::specs::Entity::name_of))]
pub fn name_of<K: Keep>(keep: &K, handle: Handle) -> Name
    ensures { result ≡ name_of (K.record_of keep.now) handle }
{
    resolve(keep, handle).name()
}

/// The authorization value of the entity that a handle names, without trailing zeros.
#[tactic(auto, unfolding(crate::specs::Entity::auth_value_of))]
pub fn auth_value_of<'a, K: Keep>(keep: &'a K, handle: Handle) -> &'a [u8]
    ensures value { result.now ≡ auth_value_of (K.record_of keep.now) handle }
    ensures fits { length result.now ≤ 32 }
    ensures trimmed { trimmed result.now ≡ result.now }
{
    resolve(keep, handle).auth_value(keep)
}

/// A copy of the authorization value of the entity that a handle names, without trailing zeros.
pub fn copied_auth_value<K: Keep>(keep: &K, handle: Handle) -> AuthValue
    ensures { result ≡ auth_value_of (K.record_of keep.now) handle }
{
    AuthValue::of(auth_value_of(keep, handle))
}

/// How the entity that a handle names is protected against dictionary attacks.
#[tactic(auto, unfolding(crate::specs::Entity::protection_of))]
pub fn protection_of<K: Keep>(keep: &K, handle: Handle) -> Protection
    ensures { result ≡ protection_of (K.record_of keep.now) handle }
{
    resolve(keep, handle).protection()
}
