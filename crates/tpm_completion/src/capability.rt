//! TPM2_GetCapability: algorithms, properties, commands, and the handles of sessions, transient
//! objects and sequence objects.

ghost use Rattle.std.specs.Prelude.{◌≡◌, ◌≤◌, ◌+◌, ◌*◌, ◌/◌, ◌%◌, ◌^◌, ◌++◌, [], length};
ghost use Rattle.tpm_completion.specs.Capability.{algorithm_elements, asked_at, capability_told, command_elements, commands_by, handles_told, is_empty, refused_of, told_of};
ghost use Rattle.tpm_completion.specs.Handles.{sessions_shown};
ghost use Rattle.tpm_completion.specs.PcrProperties.{pcr_property_elements};
ghost use Rattle.tpm_completion.specs.Properties.{property_elements};
ghost use Rattle.tpm_actions_capability.specs.Elements.{command_element, object_elements};
ghost use Rattle.tpm_completion.specs.Sequences.{sequence_elements};
ghost use Rattle.std.specs.List.{flat_map};
ghost use Rattle.tpm_completion.specs.Listing.{listing};
ghost use Rattle.tpm_completion.specs.declared.listing.Form.TheVariants as form;
ghost use Rattle.tpm_completion.specs.Told.{Tells};

use crate::answer::is_refusal;
use crate::codes::VALUE_OF_PARAMETER_1;
use crate::completion::Completion;
use crate::handles::{objects, sessions};
use crate::listing::{Elements, Form, LISTING_LIMIT, element, list};
use crate::properties::properties;
use arrayvec::ArrayVec;
use tpm_actions_capability::element::Element;
use tpm_bytes::{Cursor, Short, Sink};
use tpm_commands::{CommandCode, Profile};
use tpm_record::Keep;

/// The bytes of a list in the answer to TPM2_GetCapability.
pub type Listing = Sink<LISTING_LIMIT>;

/// The capacity of a list of commands: three elements for each command of the device.
const COMMANDS_ROOM: usize = 192;

type Commands = ArrayVec<Element, COMMANDS_ROOM>;

/// The parameters of TPM2_GetCapability.
#[derive(Clone, Copy, PartialEq, Eq)]
pub struct Asked {
    pub capability: u32,
    pub property: u32,
    pub count: u32,
}

impl Asked {
    /// Reads the parameters of TPM2_GetCapability. Fails if they are truncated.
    #[tactic(auto, unfolding(crate::specs::Capability::asked_at))]
    pub fn read(parameters: &[u8]) -> Result<Asked, Short>
        ensures { result ≡ asked_at parameters.now }
    {
        let mut text = Cursor::new(parameters);
        let capability = text.u32()?;
        let property = text.u32()?;
        let count = text.u32()?;
        if !text.is_empty() {
            return Err(Short);
        }
        Ok(Asked {
            capability,
            property,
            count,
        })
    }
}

/// Lists the algorithms.
fn algorithms(elements: &mut Elements)
    requires { elements.old.items ≡ [] }
    ensures { elements.new.items ≡ algorithm_elements }
{
    elements.push(element(0x04, 0x004));
    elements.push(element(0x05, 0x104));
    elements.push(element(0x06, 0x002));
    elements.push(element(0x08, 0x30c));
    elements.push(element(0x0a, 0x006));
    elements.push(element(0x0b, 0x004));
    elements.push(element(0x22, 0x404));
    elements.push(element(0x25, 0x008));
    elements.push(element(0x43, 0x202));
}

/// The element of a command that the device supports, with its attributes (TPMA_CC).
fn command(code: CommandCode) -> Element
    ensures { result ≡ command_element code }
{
    let shape = code.shape();
    let answered = if shape.answers_handle { 1 << 28 } else { 0 };
    let attributes = code.number() + (1 << 25) * shape.handles.len() as u32 + answered;
    element(code.number(), attributes)
}

/// Lists the layer's own commands that precede this command, and then this command.
#[tactic(auto, unfolding(crate::specs::Capability::commands_by))]
fn list_command(code: CommandCode, elements: &mut Commands)
    requires { length elements.old.items + 3 ≤ COMMANDS_ROOM }
    ensures added { elements.new.items ≡ elements.old.items ++ commands_by code }
    ensures few { length elements.new.items ≤ length elements.old.items + 3 }
{
    match code {
        CommandCode::SelfTest => {
            elements.push(element(0x13e, 0x0300_013e));
            elements.push(element(0x142, 0x142));
        }
        CommandCode::PolicyNv => elements.push(element(0x146, 0x146)),
        CommandCode::Unseal => {
            elements.push(element(0x15b, 0x1200_015b));
            elements.push(element(0x15c, 0x0200_015c));
        }
        CommandCode::FlushContext => {
            elements.push(element(0x161, 0x1000_0161));
            elements.push(element(0x162, 0x0200_0162));
        }
        CommandCode::PcrRead => {
            elements.push(element(0x17c, 0x17c));
            elements.push(element(0x17d, 0x17d));
        }
        CommandCode::PolicyGetDigest => {
            elements.push(element(0x185, 0x0500_0185));
            elements.push(element(0x186, 0x1000_0186));
        }
        CommandCode::PolicyPassword => elements.push(element(0x18a, 0x18a)),
        _ => {}
    }
    if Profile::Symmetric.serves(code) {
        elements.push(command(code));
    }
}

/// Lists these commands, each after the layer's own commands that precede it.
#[tactic(auto, using(crate::proofs::Commands::commands_more))]
fn list_commands(codes: &[CommandCode], elements: &mut Commands)
    requires empty { elements.old.items ≡ [] }
    requires few { 3 * length codes.now ≤ COMMANDS_ROOM }
    ensures { elements.new.items ≡ flat_map commands_by codes.now }
{
    for code in codes {
        list_command(*code, elements);
    }
}

/// Lists all commands.
fn commands(elements: &mut Commands)
    requires { elements.old.items ≡ [] }
    ensures { elements.new.items ≡ command_elements }
{
    list_commands(CommandCode::ALL, elements);
}

fn tell_sessions<K: Keep>(
    layer: &Completion,
    keep: &K,
    asked: Asked,
    saved: bool,
    text: &mut Listing,
)
    requires { text.old ≡ [] }
    ensures { text.new ≡ listing form.Value 1 (asked.property % 2 ^ 24) asked.count
        (sessions_shown (K.record_of keep.now) layer.now saved) }
{
    let mut elements = ArrayVec::new();
    sessions(layer, keep, saved, &mut elements);
    let from = asked.property % (1 << 24);
    list(elements.as_slice(), Form::Value, 1, from, asked.count, text);
}

/// Writes the list of the handles of transient objects and of sequence objects.
fn tell_objects<K: Keep>(layer: &Completion, keep: &K, asked: Asked, text: &mut Listing)
    requires { text.old ≡ [] }
    ensures { text.new ≡ listing form.Value 1 asked.property asked.count
        (object_elements (K.record_of keep.now) ++ sequence_elements layer.now) }
{
    let mut elements = ArrayVec::new();
    objects(keep, &mut elements);
    layer.list_sequences(&mut elements);
    let from = asked.property;
    list(elements.as_slice(), Form::Value, 1, from, asked.count, text);
}

/// Writes the list of handles of sessions, or of transient objects, if the client asks for it.
/// Otherwise, returns false.
fn tell_handles<K: Keep>(layer: &Completion, keep: &K, asked: Asked, text: &mut Listing) -> bool
    requires { text.old ≡ [] }
    ensures { Tells (handles_told (K.record_of keep.now) layer.now asked (asked.property / 2 ^ 24))
        result text.new }
{
    match asked.property >> 24 {
        0x02 => tell_sessions(layer, keep, asked, false, text),
        0x03 => tell_sessions(layer, keep, asked, true, text),
        0x80 => tell_objects(layer, keep, asked, text),
        _ => return false,
    }
    true
}

fn tell_commands(asked: Asked, text: &mut Listing)
    requires { text.old ≡ [] }
    ensures { text.new ≡ listing form.Value 2 asked.property asked.count command_elements }
{
    let mut elements = ArrayVec::new();
    commands(&mut elements);
    let from = asked.property;
    list(elements.as_slice(), Form::Value, 2, from, asked.count, text);
}

fn tell_properties<K: Keep>(layer: &Completion, keep: &K, asked: Asked, text: &mut Listing)
    requires { text.old ≡ [] }
    ensures { text.new ≡ listing form.Property 6 asked.property asked.count
        (property_elements (K.record_of keep.now) layer.now) }
{
    let mut elements = ArrayVec::new();
    properties(layer, keep, &mut elements);
    let from = asked.property;
    list(
        elements.as_slice(),
        Form::Property,
        6,
        from,
        asked.count,
        text,
    );
}

/// Writes the layer's list for a capability that the device answered, if the layer has one.
fn tell_told<K: Keep>(layer: &Completion, keep: &K, asked: Asked, text: &mut Listing) -> bool
    requires { text.old ≡ [] }
    ensures { Tells (told_of (K.record_of keep.now) layer.now asked) result text.new }
{
    match asked.capability {
        1 => return tell_handles(layer, keep, asked, text),
        2 => tell_commands(asked, text),
        6 => tell_properties(layer, keep, asked, text),
        _ => return false,
    }
    true
}

fn tell_algorithms(asked: Asked, text: &mut Listing)
    requires { text.old ≡ [] }
    ensures { text.new ≡ listing form.Algorithm 0 asked.property asked.count algorithm_elements }
{
    let mut elements = ArrayVec::new();
    algorithms(&mut elements);
    let from = asked.property;
    list(
        elements.as_slice(),
        Form::Algorithm,
        0,
        from,
        asked.count,
        text,
    );
}

/// Lists the properties of PCRs.
fn pcr_properties(elements: &mut Elements)
    requires { elements.old.items ≡ [] }
    ensures { elements.new.items ≡ pcr_property_elements }
{
    elements.push(element(0x00, 0x00_ffff));
    elements.push(element(0x01, 0x81_ffff));
    elements.push(element(0x02, 0x81_0000));
    elements.push(element(0x03, 0x81_ffff));
    elements.push(element(0x04, 0x81_0000));
    elements.push(element(0x05, 0xff_ffff));
    elements.push(element(0x06, 0x81_0000));
    elements.push(element(0x07, 0xff_ffff));
    elements.push(element(0x08, 0x81_0000));
    elements.push(element(0x09, 0xff_ffff));
    elements.push(element(0x0a, 0xff_0000));
    elements.push(element(0x11, 0));
    elements.push(element(0x13, 0));
    elements.push(element(0x14, 0));
}

fn tell_pcr_properties(asked: Asked, text: &mut Listing)
    requires { text.old ≡ [] }
    ensures { text.new
        ≡ listing form.Selection 7 asked.property asked.count pcr_property_elements }
{
    let mut elements = ArrayVec::new();
    pcr_properties(&mut elements);
    let from = asked.property;
    list(
        elements.as_slice(),
        Form::Selection,
        7,
        from,
        asked.count,
        text,
    );
}

/// Writes an empty list for a capability.
fn tell_nothing(asked: Asked, text: &mut Listing)
    requires { text.old ≡ [] }
    ensures { text.new ≡ listing form.Value asked.capability asked.property asked.count [] }
{
    let from = asked.property;
    list(&[], Form::Value, asked.capability, from, asked.count, text);
}

/// Whether the layer answers this capability with an empty list.
fn is_empty(capability: u32) -> bool
    ensures { result ≡ is_empty capability }
{
    capability == 3 || capability == 4 || capability == 8
}

/// Writes the layer's list for a capability that the device refused, if the layer has one.
fn tell_refused(asked: Asked, text: &mut Listing) -> bool
    requires { text.old ≡ [] }
    ensures { Tells (refused_of asked) result text.new }
{
    match asked.capability {
        0 => tell_algorithms(asked, text),
        7 => tell_pcr_properties(asked, text),
        capability if is_empty(capability) => tell_nothing(asked, text),
        _ => return false,
    }
    true
}

/// Writes the list that the layer returns instead of the device's response, if it has one.
/// `was_told` says whether the device answered the capability.
#[tactic(auto, unfolding(crate::specs::Capability::capability_told))]
pub fn tell<K: Keep>(
    layer: &Completion,
    keep: &K,
    asked: Asked,
    was_told: bool,
    response: &[u8],
    text: &mut Listing,
) -> bool
    requires { text.old ≡ [] }
    ensures { Tells (capability_told (K.record_of keep.now) layer.now asked was_told response.now)
        result text.new }
{
    if was_told {
        return tell_told(layer, keep, asked, text);
    }
    if is_refusal(VALUE_OF_PARAMETER_1, response) {
        return tell_refused(asked, text);
    }
    false
}
