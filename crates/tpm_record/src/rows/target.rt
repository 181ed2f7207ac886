//! The NV index that a command acts on, the entity that authorizes the command, and whether this
//! entity may write or read the index.

ghost use Rattle.std.specs.Prelude.{◌≡◌, ℕ, IfErr, IfOk, Ok};
ghost use Rattle.tpm_nv.specs.Access.{read_at};
ghost use Rattle.tpm_nv.specs.declared.fault.ReadFault.TheVariants.{PastData};
ghost use Rattle.tpm_record.specs.Record.{Record};
ghost use Rattle.tpm_record.specs.rows.Request.{Request, request_of};
ghost use Rattle.tpm_record.specs.rows.Target.{attributes_of, may, may_read, may_write};
ghost use Rattle.tpm_record.specs.rows.Target.{reading_passes, target_of};

use crate::keep::Keep;
use crate::rows::call::Call;
use crate::rows::refusals::handle_refusal;
use tpm_nv::Indices;
use tpm_types_common::{ActionCheck, ActionFault, Handle, Refused, ResponseCode};
use tpm_types_nv::{NvAttribute, NvAttributes};

/// An NV index, its attributes, and the entity that authorizes the command on it.
#[derive(Clone, Copy)]
pub struct Target {
    pub auth_handle: Handle,
    pub handle: Handle,
    pub attributes: NvAttributes,
}

/// The attributes of an index.
fn attributes_of<K: Keep>(keep: &K, handle: Handle) -> Result<NvAttributes, Refused>
    ensures { result ≡ attributes_of (K.record_of keep.now) handle }
{
    match keep.nv().get(handle) {
        Some(head) => Ok(head.public.attributes),
        None => Err(handle_refusal()),
    }
}

/// The target of the command: the entity and the NV index that its first two handles name.
pub fn target_of<K: Keep>(keep: &K, call: &Call) -> Result<Target, Refused>
    ensures { result ≡ target_of (K.record_of keep.now) (request_of call.now) }
{
    let auth_handle = call.first_handle()?;
    let handle = call.second_handle()?;
    let attributes = attributes_of(keep, handle)?;
    Ok(Target {
        auth_handle,
        handle,
        attributes,
    })
}

impl Target {
    /// Whether authHandle may use the index. The arguments `owner` and `platform` are the
    /// attributes that allow the owner and the platform, respectively, to use the index.
    fn may(&self, owner: NvAttribute, platform: NvAttribute) -> bool
        ensures { result ≡ may owner platform self.now }
    {
        if self.auth_handle == Handle::OWNER {
            self.attributes.has(owner)
        } else if self.auth_handle == Handle::PLATFORM {
            self.attributes.has(platform)
        } else {
            self.auth_handle == self.handle
        }
    }

    /// Whether authHandle may write the index.
    pub fn may_write(&self) -> bool
        ensures { result ≡ may_write self.now }
    {
        self.may(NvAttribute::OwnerWrite, NvAttribute::PpWrite)
    }

    /// Whether authHandle may read the index.
    pub fn may_read(&self) -> bool
        ensures { result ≡ may_read self.now }
    {
        self.may(NvAttribute::OwnerRead, NvAttribute::PpRead)
    }

    /// Refuses a read of the index if authHandle may not read it, if the index is locked against
    /// reading, or if the index is not written.
    pub fn check_reading(&self) -> Result<(), ActionFault>
        ensures { result ≡ reading_passes self.now }
    {
        if !self.may_read() {
            return Err(ActionFault::plain(ActionCheck::First, ResponseCode::NvAuthorization));
        }
        if self.attributes.has(NvAttribute::ReadLocked) {
            return Err(ActionFault::plain(ActionCheck::Second, ResponseCode::NvLocked));
        }
        if !self.attributes.has(NvAttribute::Written) {
            return Err(ActionFault::plain(ActionCheck::Third, ResponseCode::NvUninitialized));
        }
        Ok(())
    }
}

/// Once a command has passed the checks of `check_reading`, reading its index fails only if the
/// bytes extend past the end of the data. This function is only a proof: it has no effect at run
/// time.
#[inline(always)]
#[tactic(auto, using(crate::proofs::rows::TargetLaws::reading_within))]
pub fn reading_laws()
    ensures { (r : Record) (q : Request) (offset size : ℕ)
        → IfOk (target_of r q) (λ target. reading_passes target ≡ Ok tt
        → IfErr (read_at r.nv target.handle offset size) (λ fault. fault ≡ PastData)) }
{}
