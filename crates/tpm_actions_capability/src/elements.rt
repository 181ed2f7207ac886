//! The elements that each capability of the device lists, in ascending order: PCRs, handles,
//! commands, algorithms and properties of PCRs.

ghost use Rattle.tpm_types_common.specs.Limits.{object_limit, session_limit};
ghost use Rattle.std.specs.Prelude.{◌≡◌, ◌≤◌, ◌<◌, ◌+◌, ◌++◌, [], length, map};
ghost use Rattle.tpm_actions_capability.specs.Algorithms.{algorithm_elements};
ghost use Rattle.tpm_actions_capability.specs.Element.{by_itself};
ghost use Rattle.tpm_actions_capability.specs.PcrProperties.{pcr_property_elements};
ghost use Rattle.std.specs.List.{flat_map};
ghost use Rattle.tpm_actions_capability.specs.Elements.{command_attributes, command_element, command_elements, served_element};
ghost use Rattle.tpm_actions_capability.specs.Elements.{index_elements, object_element, object_elements, persistent_elements};
ghost use Rattle.tpm_actions_capability.specs.Elements.{pcr_elements, permanent_elements, session_element, session_elements};

use crate::element::{Element, Elements};
use tpm_commands::{CommandCode, Profile};
use tpm_containers::numbered;
use tpm_nv::Indices;
use tpm_record::{Keep, PersistentObjects};
use tpm_session::handle_of;
use tpm_types_common::{Handle, OBJECT_LIMIT, PCR_COUNT, SESSION_LIMIT};

/// Lists the PCRs.
#[tactic(auto, using(crate::proofs::Listing::one_more))]
pub(crate) fn pcrs(elements: &mut Elements)
    requires { elements.old.items ≡ [] }
    ensures { elements.new.items ≡ pcr_elements }
{
    for number in 0..u32::from(PCR_COUNT) {
        elements.push(Element::by_itself(number));
    }
}

/// Lists the permanent handles, which always name an entity.
pub(crate) fn permanent(elements: &mut Elements)
    requires { elements.old.items ≡ [] }
    ensures { elements.new.items ≡ permanent_elements }
{
    elements.push(Element::by_itself(Handle::OWNER.number));
    elements.push(Element::by_itself(Handle::NULL.number));
    elements.push(Element::by_itself(Handle::PASSWORD.number));
    elements.push(Element::by_itself(Handle::LOCKOUT.number));
    elements.push(Element::by_itself(Handle::ENDORSEMENT.number));
    elements.push(Element::by_itself(Handle::PLATFORM.number));
}

/// Lists the session in this slot, if the slot is taken.
fn session<K: Keep>(keep: &K, place: u32, elements: &mut Elements)
    requires place { place < session_limit }
    requires room { length elements.old.items < 64 }
    ensures added { elements.new.items
        ≡ elements.old.items ++ session_element (K.record_of keep.now) place }
    ensures few { length elements.new.items ≤ length elements.old.items + 1 }
{
    if let Some(session) = keep.sessions().in_place(place as usize) {
        elements.push(Element {
            number: place,
            told: handle_of(session.kind(), place as usize).number,
        });
    }
}

/// Lists the sessions, in the order of their slots.
#[tactic(auto, using(crate::proofs::Listing::one_more))]
pub(crate) fn sessions<K: Keep>(keep: &K, elements: &mut Elements)
    requires { elements.old.items ≡ [] }
    ensures { elements.new.items ≡ session_elements (K.record_of keep.now) }
{
    for place in 0..SESSION_LIMIT as u32 {
        session(keep, place, elements);
    }
}

/// Lists the transient object in this slot, if the slot is taken.
fn object<K: Keep>(keep: &K, place: u32, elements: &mut Elements)
    requires place { place < object_limit }
    requires room { length elements.old.items < 64 }
    ensures added { elements.new.items
        ≡ elements.old.items ++ object_element (K.record_of keep.now) place }
    ensures few { length elements.new.items ≤ length elements.old.items + 1 }
{
    let handle = Handle {
        number: numbered::number_of(0x80, place as usize),
    };
    if keep.objects().get(handle).is_some() {
        elements.push(Element::by_itself(handle.number));
    }
}

/// Lists the transient objects.
#[tactic(auto, using(crate::proofs::Listing::one_more))]
pub(crate) fn objects<K: Keep>(keep: &K, elements: &mut Elements)
    requires { elements.old.items ≡ [] }
    ensures { elements.new.items ≡ object_elements (K.record_of keep.now) }
{
    for place in 0..OBJECT_LIMIT as u32 {
        object(keep, place, elements);
    }
}

/// Lists the handles in a container, which is sorted in ascending order of handles.
#[tactic(auto, using(crate::proofs::Listing::one_more))]
fn kept<T>(things: &[(u32, T)], elements: &mut Elements)
    requires empty { elements.old.items ≡ [] }
    requires few { length things.now ≤ 64 }
    ensures { elements.new.items ≡ map (λ thing. by_itself thing.0) things.now }
{
    for thing in things {
        elements.push(Element::by_itself(thing.0));
    }
}

/// Lists the NV indices.
pub(crate) fn indices<K: Keep>(keep: &K, elements: &mut Elements)
    requires { elements.old.items ≡ [] }
    ensures { elements.new.items ≡ index_elements (K.record_of keep.now) }
{
    keep.nv().read_sizes();
    kept(keep.nv().heads(), elements);
}

/// Lists the persistent objects.
pub(crate) fn persistent<K: Keep>(keep: &K, elements: &mut Elements)
    requires { elements.old.items ≡ [] }
    ensures { elements.new.items ≡ persistent_elements (K.record_of keep.now) }
{
    keep.persistent().read_sizes();
    kept(keep.persistent().as_slice(), elements);
}

/// The attributes of a command (TPMA_CC).
fn command_attributes(code: CommandCode) -> u32
    ensures { result ≡ command_attributes code }
{
    let shape = code.shape();
    let answered = if shape.answers_handle { 1 << 28 } else { 0 };
    code.number() + (1 << 25) * shape.handles.len() as u32 + answered
}

/// The list element for a command, with the command's attributes as its value.
fn command(code: CommandCode) -> Element
    ensures { result ≡ command_element code }
{
    Element {
        number: code.number(),
        told: command_attributes(code),
    }
}

/// Lists a command, if a device of this profile serves it.
fn list_command(profile: Profile, code: CommandCode, elements: &mut Elements)
    requires room { length elements.old.items < 64 }
    ensures added { elements.new.items ≡ elements.old.items ++ served_element profile code }
    ensures few { length elements.new.items ≤ length elements.old.items + 1 }
{
    if profile.serves(code) {
        elements.push(command(code));
    }
}

/// Lists those of the given commands that a device of this profile serves.
#[tactic(auto, using(crate::proofs::Listing::one_more))]
fn list_commands(profile: Profile, codes: &[CommandCode], elements: &mut Elements)
    requires empty { elements.old.items ≡ [] }
    requires few { length codes.now ≤ 64 }
    ensures { elements.new.items ≡ flat_map (served_element profile) codes.now }
{
    for code in codes {
        list_command(profile, *code, elements);
    }
}

/// Lists the commands that a device of this profile serves.
pub(crate) fn commands(profile: Profile, elements: &mut Elements)
    requires { elements.old.items ≡ [] }
    ensures { elements.new.items ≡ command_elements profile }
{
    list_commands(profile, CommandCode::ALL, elements);
}

/// Lists the algorithms.
pub(crate) fn algorithms(elements: &mut Elements)
    requires { elements.old.items ≡ [] }
    ensures { elements.new.items ≡ algorithm_elements }
{
    elements.push(Element::new(0x04, 0x004));
    elements.push(Element::new(0x05, 0x104));
    elements.push(Element::new(0x06, 0x002));
    elements.push(Element::new(0x08, 0x30c));
    elements.push(Element::new(0x0a, 0x006));
    elements.push(Element::new(0x0b, 0x004));
    elements.push(Element::new(0x22, 0x404));
    elements.push(Element::new(0x25, 0x008));
    elements.push(Element::new(0x43, 0x202));
}

/// Lists the properties of PCRs.
pub(crate) fn pcr_properties(elements: &mut Elements)
    requires { elements.old.items ≡ [] }
    ensures { elements.new.items ≡ pcr_property_elements }
{
    elements.push(Element::new(0x00, 0x00_ffff));
    elements.push(Element::new(0x01, 0x81_ffff));
    elements.push(Element::new(0x02, 0x81_0000));
    elements.push(Element::new(0x03, 0x81_ffff));
    elements.push(Element::new(0x04, 0x81_0000));
    elements.push(Element::new(0x05, 0xff_ffff));
    elements.push(Element::new(0x06, 0x81_0000));
    elements.push(Element::new(0x07, 0xff_ffff));
    elements.push(Element::new(0x08, 0x81_0000));
    elements.push(Element::new(0x09, 0xff_ffff));
    elements.push(Element::new(0x0a, 0xff_0000));
    elements.push(Element::new(0x11, 0));
    elements.push(Element::new(0x13, 0));
    elements.push(Element::new(0x14, 0));
}
