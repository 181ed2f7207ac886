//! The properties that the device lists: few on a device of the symmetric profile, and all on a
//! device of the complete profile.

ghost use Rattle.std.specs.Prelude.{◌≡◌, ◌≤◌, ◌+◌, ◌++◌, [], count_by, length};
ghost use Rattle.tpm_nv.specs.Head.{heads_of};
ghost use Rattle.tpm_actions_capability.specs.Properties.{attribute_if, complete_elements, count_elements, counter_count, identity_elements};
ghost use Rattle.tpm_actions_capability.specs.Properties.{index_count, is_counter, is_set, last_elements, limit_elements, lockout_elements, object_count};
ghost use Rattle.tpm_actions_capability.specs.Properties.{permanent_attributes, property_elements, session_count, startup_attributes, symmetric_elements, values_set};

use crate::element::{Element, Elements};
use crate::elements::{objects, sessions};
use arrayvec::ArrayVec;
use tpm_commands::Profile;
use tpm_lockout::Lockout;
use tpm_nv::{Head, Indices};
use tpm_record::{Fixed, Hierarchies, Keep, PersistentObjects};
use tpm_types_common::{
    AuthValue, BUFFER_LIMIT, DATA_LIMIT, NV_DATA_LIMIT, NV_INDEX_LIMIT, OBJECT_LIMIT,
    PERSISTENT_LIMIT, SESSION_LIMIT,
};
use tpm_types_nv::NvType;

/// The parameters of lockout.
fn lockout_parts(lockout: &Lockout) -> [Element; 4]
    ensures { result ≡ lockout_elements lockout.now }
{
    let fields = lockout.fields();
    [
        Element::new(0x20e, fields.failed_tries),
        Element::new(0x20f, fields.max_tries),
        Element::new(0x210, fields.recovery_time),
        Element::new(0x211, fields.lockout_recovery),
    ]
}

/// The properties that state the device's manufacturer and specification.
#[tactic(auto, unfolding(crate::specs::Properties::identity_elements))]
fn identity() -> [Element; 13]
    ensures { result ≡ identity_elements }
{
    [
        Element::new(0x100, u32::from_be_bytes(*b"2.0\0")),
        Element::new(0x101, 0),
        Element::new(0x102, 138),
        Element::new(0x103, 273),
        Element::new(0x104, 2016),
        Element::new(0x105, u32::from_be_bytes(*b"TSIM")),
        Element::new(0x106, u32::from_be_bytes(*b"tpms")),
        Element::new(0x107, u32::from_be_bytes(*b"im\0\0")),
        Element::new(0x108, 0),
        Element::new(0x109, 0),
        Element::new(0x10a, 1),
        Element::new(0x10b, 1),
        Element::new(0x10c, 0),
    ]
}

/// The properties that state the device's limits.
#[tactic(auto, unfolding(crate::specs::Properties::limit_elements))]
fn limits() -> [Element; 19]
    ensures { result ≡ limit_elements }
{
    let served = Profile::Complete.served_count() as u32;
    [
        Element::new(0x10d, DATA_LIMIT as u32),
        Element::new(0x10e, OBJECT_LIMIT as u32),
        Element::new(0x10f, PERSISTENT_LIMIT as u32),
        Element::new(0x110, SESSION_LIMIT as u32),
        Element::new(0x111, SESSION_LIMIT as u32),
        Element::new(0x112, 24),
        Element::new(0x113, 3),
        Element::new(0x116, NV_INDEX_LIMIT as u32),
        Element::new(0x117, NV_DATA_LIMIT as u32),
        Element::new(0x118, 0),
        Element::new(0x11e, BUFFER_LIMIT as u32),
        Element::new(0x11f, BUFFER_LIMIT as u32),
        Element::new(0x120, 32),
        Element::new(0x128, 0),
        Element::new(0x129, served),
        Element::new(0x12a, served),
        Element::new(0x12b, 0),
        Element::new(0x12c, DATA_LIMIT as u32),
        Element::new(0x12d, 0),
    ]
}

/// The value of an attribute if it is set, otherwise 0.
fn attribute_if(set: bool, value: u32) -> u32
    ensures value { result ≡ attribute_if set value }
    ensures small { result ≤ value }
{
    if set { value } else { 0 }
}

/// Whether an authorization value is set: it is not empty.
fn is_set(value: &AuthValue) -> bool
    ensures { result ≡ is_set value.now }
{
    !value.as_slice().is_empty()
}

/// The attributes that say which authorization values are set.
fn values_set(hierarchies: &Hierarchies) -> u32
    ensures value { result ≡ values_set hierarchies.now }
    ensures small { result ≤ 7 }
{
    attribute_if(is_set(&hierarchies.owner.auth_value), 1)
        + attribute_if(is_set(&hierarchies.endorsement.auth_value), 2)
        + attribute_if(is_set(&hierarchies.lockout_auth), 4)
}

/// TPMA_PERMANENT.
fn permanent_attributes(fixed: &Fixed) -> u32
    ensures { result ≡ permanent_attributes fixed.now }
{
    values_set(&fixed.hierarchies)
        + attribute_if(fixed.disable_clear, 0x100)
        + attribute_if(fixed.lockout.is_locked(), 0x200)
        + 0x400
}

/// TPMA_STARTUP_CLEAR.
fn startup_attributes(fixed: &Fixed) -> u32
    ensures { result ≡ startup_attributes fixed.now }
{
    0xf + attribute_if(fixed.restart_count != 0, 0x8000_0000)
}

/// The number of sessions.
fn session_count<K: Keep>(keep: &K) -> u32
    ensures { result ≡ session_count (K.record_of keep.now) }
{
    let mut elements = ArrayVec::new();
    sessions(keep, &mut elements);
    elements.len() as u32
}

/// The number of loaded transient objects.
fn object_count<K: Keep>(keep: &K) -> u32
    ensures { result ≡ object_count (K.record_of keep.now) }
{
    let mut elements = ArrayVec::new();
    objects(keep, &mut elements);
    elements.len() as u32
}

fn is_counter(entry: &(u32, Head)) -> bool
    ensures { result ≡ is_counter entry.now }
{
    entry.1.public.attributes.is_of(NvType::Counter)
}

/// The number of NV indices.
fn index_count<K: Keep>(keep: &K) -> u32
    ensures { result ≡ index_count (K.record_of keep.now).nv }
{
    keep.nv().read_sizes();
    keep.nv().heads().len() as u32
}

/// The number of counters among these NV indices.
#[tactic(auto, using(crate::proofs::Counters::few_counters))]
fn counters_among(heads: &[(u32, Head)]) -> usize
    ensures value { result ≡ count_by is_counter heads.now }
    ensures small { result ≤ length heads.now }
{
    heads.iter().filter(|e| is_counter(e)).count()
}

/// The number of NV indices that are counters.
fn counter_count<K: Keep>(keep: &K) -> u32
    ensures { result ≡ counter_count (K.record_of keep.now).nv }
{
    keep.nv().read_sizes();
    counters_among(keep.nv().heads()) as u32
}

/// The number of persistent objects.
fn persistent_count<K: Keep>(keep: &K) -> u32
    ensures { result ≡ length (K.record_of keep.now).persistent }
{
    keep.persistent().read_sizes();
    keep.persistent().len() as u32
}

/// The properties that contain the device's attributes and counts.
#[tactic(auto, unfolding(crate::specs::Properties::count_elements))]
fn counts<K: Keep>(keep: &K) -> [Element; 11]
    ensures { result ≡ count_elements (K.record_of keep.now) }
{
    let sessions = session_count(keep);
    let objects = object_count(keep);
    let persistent = persistent_count(keep);
    [
        Element::new(0x200, permanent_attributes(keep.fixed())),
        Element::new(0x201, startup_attributes(keep.fixed())),
        Element::new(0x202, index_count(keep)),
        Element::new(0x203, sessions),
        Element::new(0x204, (SESSION_LIMIT as u32).saturating_sub(sessions)),
        Element::new(0x205, sessions),
        Element::new(0x206, (SESSION_LIMIT as u32).saturating_sub(sessions)),
        Element::new(0x207, (OBJECT_LIMIT as u32).saturating_sub(objects)),
        Element::new(0x208, persistent),
        Element::new(0x209, (PERSISTENT_LIMIT as u32).saturating_sub(persistent)),
        Element::new(0x20a, counter_count(keep)),
    ]
}

/// Appends these elements to a list.
fn add(part: &[Element], elements: &mut Elements)
    requires { length elements.old.items + length part.now ≤ 64 }
    ensures added { elements.new.items ≡ elements.old.items ++ part.now }
    ensures size { length elements.new.items ≡ length elements.old.items + length part.now }
{
    let _ = elements.try_extend_from_slice(part);
}

/// Lists the properties of a device of the symmetric profile.
fn symmetric(lockout: &Lockout, elements: &mut Elements)
    requires { elements.old.items ≡ [] }
    ensures { elements.new.items ≡ symmetric_elements lockout.now }
{
    let served = Profile::Symmetric.served_count() as u32;
    elements.push(Element::new(0x100, u32::from_be_bytes(*b"2.0\0")));
    elements.push(Element::new(0x129, served));
    add(&lockout_parts(lockout), elements);
}

/// Lists the properties of features that the device does not have, and the parameters of lockout.
fn last(lockout: &Lockout, elements: &mut Elements)
    requires { length elements.old.items ≤ 55 }
    ensures { elements.new.items ≡ elements.old.items ++ last_elements lockout.now }
{
    add(&[Element::new(0x20c, 0), Element::new(0x20d, 0)], elements);
    add(&lockout_parts(lockout), elements);
    elements.push(Element::new(0x212, 0));
    elements.push(Element::new(0x213, 0));
    elements.push(Element::new(0x214, 0));
}

/// Lists the properties of a device of the complete profile.
#[tactic(auto, unfolding(crate::specs::Properties::complete_elements))]
fn complete<K: Keep>(keep: &K, elements: &mut Elements)
    requires { elements.old.items ≡ [] }
    ensures { elements.new.items ≡ complete_elements (K.record_of keep.now) }
{
    add(&identity(), elements);
    add(&limits(), elements);
    add(&counts(keep), elements);
    last(&keep.fixed().lockout, elements);
}

/// Lists the properties of a device of this profile.
pub(crate) fn properties<K: Keep>(profile: Profile, keep: &K, elements: &mut Elements)
    requires { elements.old.items ≡ [] }
    ensures { elements.new.items ≡ property_elements profile (K.record_of keep.now) }
{
    match profile {
        Profile::Symmetric => symmetric(&keep.fixed().lockout, elements),
        Profile::Complete => complete(keep, elements),
    }
}
