//! The common part of TPM2_Create and TPM2_CreatePrimary: their parameters, and the creation data
//! and creation ticket in their answer.

ghost use Rattle.tpm_bytes.specs.Reading.{Gives};
ghost use Rattle.std.specs.Prelude.{◌≡◌, ◌+◌, ◌≤◌, ◌++◌, length};
ghost use Rattle.tpm_bytes.specs.Writing.{sized_text};
ghost use Rattle.tpm_name.specs.ObjectName.{object_name};
ghost use Rattle.tpm_types_common.specs.Locality.{locality_number};
ghost use Rattle.tpm_actions_object.specs.Creation.{creation_data, creation_text, hierarchy_parent, object_parent, parameters_in, parameters_of, ticket_text};

use tpm_bytes::{Cursor, Sink};
use tpm_mac::{HashAlg, digest_parts, hmac_parts};
use tpm_name::Name;
use tpm_object::Object;
use tpm_record::Keep;
use tpm_record::rows::answer::Parameters;
use tpm_record::rows::reading::{end, number, parameter};
use tpm_types_common::{HierarchyHandle, Locality, Octets, PcrSelection, Refused, read_filled};
use tpm_types_object::{CreationData, Public, SensitiveCreate};

/// The tag of a creation ticket: TPM_ST_CREATION.
const CREATION_TAG: u16 = 0x8021;

/// The parameters of TPM2_CreatePrimary and TPM2_Create.
#[derive(Drop)]
pub struct CreationParameters<'a> {
    pub given: SensitiveCreate<'a>,
    pub template: Public,
    pub outside_info: Octets<34>,
    pub selection: PcrSelection,
}

/// The parent under which an object is created: a hierarchy or an object.
#[derive(Drop)]
pub struct Parent {
    /// The nameAlg of the parent object; None for a hierarchy.
    pub name_alg: Option<HashAlg>,
    pub name: Name,
    pub qualified_name: Name,
    pub hierarchy: HierarchyHandle,
}

impl Parent {
    /// A hierarchy as a parent: its handle serves as its Name and its qualified Name.
    pub fn of_hierarchy(hierarchy: HierarchyHandle) -> Parent
        ensures { result ≡ hierarchy_parent hierarchy }
    {
        Parent {
            name_alg: None,
            name: Name::of_handle(hierarchy.handle()),
            qualified_name: Name::of_handle(hierarchy.handle()),
            hierarchy,
        }
    }

    /// A loaded object as a parent.
    pub fn of_object(object: &Object) -> Parent
        ensures { result ≡ object_parent object.now }
    {
        Parent {
            name_alg: Some(object.public.name_alg),
            name: object.name(),
            qualified_name: object.qualified_name.copy(),
            hierarchy: object.hierarchy,
        }
    }
}

/// Decodes the parameters of TPM2_CreatePrimary or TPM2_Create.
#[tactic(auto, unfolding(crate::specs::Creation::parameters_in))]
pub fn read_parameters(parameters: &[u8]) -> Result<CreationParameters, Refused>
    ensures read { Gives parameters_of (parameters_in parameters.now) result }
{
    let mut text = Cursor::new(parameters);
    let given = parameter(1, read_filled(&mut text))?;
    let template = parameter(2, read_filled(&mut text))?;
    let outside_info = parameter(3, Octets::read(&mut text))?;
    let selection = parameter(4, PcrSelection::read(&mut text))?;
    end(&text)?;
    Ok(CreationParameters {
        given,
        template,
        outside_info,
        selection,
    })
}

/// The creation data of an object with this nameAlg: the circumstances of its creation.
fn creation_data<K: Keep>(
    keep: &K,
    locality: Locality,
    parent: &Parent,
    asked: CreationParameters,
    public: &Public,
) -> CreationData
    ensures { result ≡ creation_data (K.record_of keep.now) (locality_number locality) parent.now
        (parameters_of asked.entry) public.now }
{
    let banks = &keep.fixed().banks;
    let pcr_digest = banks.select_digest(public.name_alg, &asked.selection);
    CreationData {
        pcr_digest: Octets::of(pcr_digest.as_slice()),
        locality: 1 << locality.number(),
        parent_name_alg: parent.name_alg,
        parent_name: Octets::of(parent.name.as_slice()),
        parent_qualified_name: Octets::of(parent.qualified_name.as_slice()),
        outside_info: asked.outside_info,
        pcr_select: asked.selection,
    }
}

/// The ticket that proves to the device that it created an object with this Name and this creation
/// hash.
#[tactic(auto, unfolding(crate::specs::Creation::ticket_text))]
fn ticket(hierarchy: HierarchyHandle, proof: &[u8; 32], name: &Name, hash: &[u8]) -> Sink<40>
    ensures { result ≡ ticket_text hierarchy proof.now name.now hash.now }
{
    let tag = CREATION_TAG.to_be_bytes();
    let hmac = hmac_parts(HashAlg::Sha256, proof, &[&tag, name.as_slice(), hash]);
    let mut text = Sink::new();
    text.append(&tag);
    text.append_u32(hierarchy.handle().number);
    text.append_sized(hmac.as_slice());
    text
}

/// Appends a public area, creation data, its hash and a ticket.
fn write_creation(area: &[u8], creation: &[u8], hash: &[u8], ticket: &[u8], text: &mut Parameters)
    requires room { length text.old ≤ 256 }
    requires area { length area.now ≤ 82 }
    requires creation { length creation.now ≤ 245 }
    requires hash { length hash.now ≤ 32 }
    requires ticket { length ticket.now ≤ 40 }
    ensures value { text.new ≡ text.old
        ++ (sized_text area.now
        ++ (sized_text creation.now ++ sized_text hash.now ++ ticket.now)) }
    ensures small { length text.new ≤ length text.old + 405 }
{
    text.append_sized(area);
    text.append_sized(creation);
    text.append_sized(hash);
    text.append(ticket);
}

/// Writes the part of the answer that describes the creation of an object with this Name.
#[tactic(auto, unfolding(crate::specs::Creation::creation_rest))]
pub fn put_creation<K: Keep>(
    keep: &K,
    locality: Locality,
    parent: &Parent,
    asked: CreationParameters,
    public: &Public,
    name: &Name,
    text: &mut Parameters,
)
    requires room { length text.old ≤ 256 }
    requires named { name.now ≡ object_name public.now }
    ensures value { text.new ≡ text.old ++ creation_text (K.record_of keep.now)
        (locality_number locality) parent.now (parameters_of asked.entry) public.now }
    ensures small { length text.new ≤ length text.old + 405 }
{
    let area = public.text();
    let data = creation_data(keep, locality, parent, asked, public).text();
    let hash = digest_parts(public.name_alg, &[data.as_slice()]);
    let proof = &keep.fixed().hierarchies.secrets(parent.hierarchy).proof;
    let ticket = ticket(parent.hierarchy, proof, name, hash.as_slice());
    write_creation(
        area.as_slice(),
        data.as_slice(),
        hash.as_slice(),
        ticket.as_slice(),
        text,
    );
}
