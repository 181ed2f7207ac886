//! TPM2_GetCapability: returns what the device supports and contains, as specified by its row in
//! `specs/GetCapability`.

ghost use Rattle.std.specs.Prelude.{◌≡◌, []};
ghost use Rattle.tpm_record.specs.rows.Request.{request_of};
ghost use Rattle.tpm_record.specs.rows.Rows.{Acts};
ghost use Rattle.tpm_actions_capability.specs.Element.{listing};
ghost use Rattle.tpm_actions_capability.specs.Algorithms.{algorithm_elements};
ghost use Rattle.tpm_actions_capability.specs.Elements.{command_elements};
ghost use Rattle.tpm_actions_capability.specs.PcrProperties.{pcr_property_elements};
ghost use Rattle.tpm_actions_capability.specs.Properties.{property_elements};
ghost use Rattle.tpm_actions_capability.specs.GetCapability.{Tells, capability_of, capability_parameters, first_handle_of, further_capability_of};
ghost use Rattle.tpm_actions_capability.specs.GetCapability.{get_capability_row, handle_elements, pcrs_text, told_of};
ghost use Rattle.tpm_actions_capability.specs.declared.element.Telling.TheVariants as tell;
ghost use Rattle.tpm_actions_capability.specs.declared.get_capability.Capability.TheVariants.{Handles};

use crate::element::{Elements, Telling, list};
use crate::elements::{
    algorithms, commands, indices, objects, pcr_properties, pcrs, permanent, persistent, sessions,
};
use crate::properties::properties;
use arrayvec::ArrayVec;
use tpm_bytes::Cursor;
use tpm_commands::Profile;
use tpm_mac::HashAlg;
use tpm_record::Keep;
use tpm_record::rows::answer::{Answer, Parameters};
use tpm_record::rows::call::Call;
use tpm_record::rows::reading::{end, number};
use tpm_record::rows::refusals::parameter_refusal;
use tpm_types_common::{
    ActionCheck, BankSelection, PcrSelect, PcrSelection, Refused, ResponseCode,
};

/// The parameters of TPM2_GetCapability.
#[derive(Clone, Copy)]
pub struct CapabilityParameters {
    capability: u32,
    property: u32,
    count: u32,
}

/// The supported capabilities: TPM_CAP of TPM 2.0 Library, Part 2, section 6.12.
#[derive(Clone, Copy, PartialEq, Eq)]
pub enum Capability {
    Handles,
    Commands,
    Pcrs,
    Properties,
    Algorithms,
    PcrProperties,
    /// Something that the device does not have.
    Nothing,
}

#[tactic(auto, unfolding(crate::specs::GetCapability::capability_parameters))]
fn read_parameters(parameters: &[u8]) -> Result<CapabilityParameters, Refused>
    ensures { result ≡ capability_parameters parameters.now }
{
    let mut text = Cursor::new(parameters);
    let capability = number(1, text.u32())?;
    let property = number(2, text.u32())?;
    let count = number(3, text.u32())?;
    end(&text)?;
    Ok(CapabilityParameters {
        capability,
        property,
        count,
    })
}

impl Capability {
    /// The capability with this number, if only the complete profile has it. Returns VALUE if it is
    /// not supported.
    fn further(profile: Profile, number: u32) -> Result<Capability, Refused>
        ensures { result ≡ further_capability_of profile number }
    {
        match (profile, number) {
            (Profile::Complete, 0) => Ok(Capability::Algorithms),
            (Profile::Complete, 3 | 4 | 8) => Ok(Capability::Nothing),
            (Profile::Complete, 7) => Ok(Capability::PcrProperties),
            _ => Err(parameter_refusal(ActionCheck::First, 1, ResponseCode::Value)),
        }
    }

    /// The capability with this number. Returns VALUE if a device of this profile does not support
    /// it.
    fn of(profile: Profile, number: u32) -> Result<Capability, Refused>
        ensures { result ≡ capability_of profile number }
    {
        match number {
            1 => Ok(Capability::Handles),
            2 => Ok(Capability::Commands),
            5 => Ok(Capability::Pcrs),
            6 => Ok(Capability::Properties),
            _ => Capability::further(profile, number),
        }
    }
}

/// Lists the handles with this most significant byte. Returns HANDLE if no handle type has this
/// byte.
fn handles<K: Keep>(keep: &K, kind: u32, elements: &mut Elements) -> Result<(), Refused>
    requires { elements.old.items ≡ [] }
    ensures { Tells (handle_elements (K.record_of keep.now) kind) result elements.new.items }
{
    match kind {
        0x00 => pcrs(elements),
        0x01 => indices(keep, elements),
        0x02 => sessions(keep, elements),
        0x03 => {}
        0x40 => permanent(elements),
        0x80 => objects(keep, elements),
        0x81 => persistent(keep, elements),
        _ => return Err(parameter_refusal(ActionCheck::Second, 2, ResponseCode::Handle)),
    }
    Ok(())
}

/// The number at which the list of handles starts: for sessions a slot number, otherwise a handle.
fn first_handle_of(property: u32) -> u32
    ensures { result ≡ first_handle_of property }
{
    if property >> 24 == 0x02 {
        property % (1 << 24)
    } else {
        property
    }
}

fn tell_handles<K: Keep>(
    keep: &K,
    asked: CapabilityParameters,
    text: &mut Parameters,
) -> Result<(), Refused>
    requires { text.old ≡ [] }
    ensures { Tells (told_of (K.record_of keep.now) asked Handles) result text.new }
{
    let mut elements = ArrayVec::new();
    handles(keep, asked.property >> 24, &mut elements)?;
    let from = first_handle_of(asked.property);
    list(
        elements.as_slice(),
        Telling::Value,
        1,
        from,
        asked.count,
        text,
    );
    Ok(())
}

fn tell_commands(profile: Profile, asked: CapabilityParameters, text: &mut Parameters)
    requires { text.old ≡ [] }
    ensures { text.new ≡ listing tell.Value 2 asked.property asked.count
        (command_elements profile) }
{
    let mut elements = ArrayVec::new();
    commands(profile, &mut elements);
    list(
        elements.as_slice(),
        Telling::Value,
        2,
        asked.property,
        asked.count,
        text,
    );
}

fn tell_pcrs(text: &mut Parameters)
    requires { text.old ≡ [] }
    ensures { text.new ≡ pcrs_text }
{
    let select = PcrSelect::from_octets([0xff; 3]);
    let mut banks = ArrayVec::new();
    banks.push(BankSelection {
        hash: HashAlg::Sha1,
        select,
    });
    banks.push(BankSelection {
        hash: HashAlg::Sha256,
        select,
    });
    text.append_u8(0);
    text.append_u32(5);
    PcrSelection { banks }.append_to(text);
}

fn tell_properties<K: Keep>(keep: &K, asked: CapabilityParameters, text: &mut Parameters)
    requires { text.old ≡ [] }
    ensures { text.new ≡ listing tell.NumberAndValue 6 asked.property asked.count
        (property_elements (K.record_of keep.now).fixed.profile (K.record_of keep.now)) }
{
    let mut elements = ArrayVec::new();
    properties(keep.fixed().profile, keep, &mut elements);
    let telling = Telling::NumberAndValue;
    list(
        elements.as_slice(),
        telling,
        6,
        asked.property,
        asked.count,
        text,
    );
}

fn tell_algorithms(asked: CapabilityParameters, text: &mut Parameters)
    requires { text.old ≡ [] }
    ensures { text.new ≡ listing tell.Algorithm 0 asked.property asked.count algorithm_elements }
{
    let mut elements = ArrayVec::new();
    algorithms(&mut elements);
    list(
        elements.as_slice(),
        Telling::Algorithm,
        0,
        asked.property,
        asked.count,
        text,
    );
}

fn tell_pcr_properties(asked: CapabilityParameters, text: &mut Parameters)
    requires { text.old ≡ [] }
    ensures { text.new
        ≡ listing tell.Selection 7 asked.property asked.count pcr_property_elements }
{
    let mut elements = ArrayVec::new();
    pcr_properties(&mut elements);
    list(
        elements.as_slice(),
        Telling::Selection,
        7,
        asked.property,
        asked.count,
        text,
    );
}

/// Writes an empty list for the requested capability.
fn tell_nothing(asked: CapabilityParameters, text: &mut Parameters)
    requires { text.old ≡ [] }
    ensures { text.new ≡ listing tell.Value asked.capability asked.property asked.count [] }
{
    list(
        &[],
        Telling::Value,
        asked.capability,
        asked.property,
        asked.count,
        text,
    );
}

/// TPM2_GetCapability: returns what the device supports and contains.
#[tactic(auto, unfolding(crate::specs::GetCapability::get_capability_row))]
pub fn get_capability<K: Keep>(
    keep: &mut K,
    call: &Call,
    answer: &mut Answer,
) -> Result<(), Refused>
    ensures { Acts (get_capability_row (K.record_of keep.old) (request_of call.now))
        (K.record_of keep.old) result answer.new (K.record_of keep.new) }
{
    answer.clear();
    let asked = read_parameters(call.parameters)?;
    let text = &mut answer.parameters;
    match Capability::of(keep.fixed().profile, asked.capability)? {
        Capability::Handles => tell_handles(keep, asked, text)?,
        Capability::Commands => tell_commands(keep.fixed().profile, asked, text),
        Capability::Pcrs => tell_pcrs(text),
        Capability::Properties => tell_properties(keep, asked, text),
        Capability::Algorithms => tell_algorithms(asked, text),
        Capability::PcrProperties => tell_pcr_properties(asked, text),
        Capability::Nothing => tell_nothing(asked, text),
    }
    Ok(())
}
