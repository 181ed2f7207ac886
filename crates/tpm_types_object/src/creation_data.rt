//! Creation data, which record how an object was created: PCRs, locality, parent and the caller's
//! data (TPMS_CREATION_DATA; TPM 2.0 Library, Part 2, section 15.1).

ghost use Rattle.std.specs.Prelude.{◌≡◌, ℕ, ◌≤◌, List, ◌++◌, length, Ok, IfOk};
ghost use Rattle.tpm_bytes.specs.Reading.{AreBytes, Reads};
ghost use Rattle.tpm_bytes.specs.Writing.{Puts, sized_text};

use tpm_bytes::{Cursor, Full, Readable, Sink};
use tpm_mac::HashAlg;
use tpm_types_common::{
    Octets, PcrSelection, Rc, ResponseCode, hash_or_null_number, read_filled, read_hash_or_null,
};

/// Creation data, which record how an object was created: TPMS_CREATION_DATA (Part 2, section
/// 15.1).
#[derive(Drop)]
pub struct CreationData {
    pub pcr_select: PcrSelection,
    /// The digest of the values of the selected PCRs.
    pub pcr_digest: Octets<32>,
    /// The locality of the creation, as a bit field (TPMA_LOCALITY, section 8.5).
    pub locality: u8,
    /// The nameAlg of the parent; None if the parent is a hierarchy.
    pub parent_name_alg: Option<HashAlg>,
    pub parent_name: Octets<34>,
    pub parent_qualified_name: Octets<34>,
    /// The data that the caller added.
    pub outside_info: Octets<34>,
}

impl CreationData {
    ghost use Rattle.tpm_types_object.specs.CreationData.{IsCreationData, creation_data_at, creation_data_text};
    ghost use Rattle.tpm_types_common.specs.Filled.{filled_by};
    ghost use Rattle.tpm_types_object.specs.declared.creation_data.CreationData.{CreationData};

    /// Reads creation data. Fails with INSUFFICIENT if the data are truncated, or else with the
    /// fault of the first invalid field.
    pub fn read(text: &mut Cursor) -> Result<CreationData, Rc>
        // The result is the decoded value, or the first fault.
        ensures exact { Reads (λ creation. creation) (creation_data_at text.old)
            text.old result text.new }
        // If decoding succeeds, the input starts with the encoding of the returned value.
        ensures found { IfOk result (λ creation. IsCreationData creation
            × (text.old ≡ creation_data_text creation ++ text.new)) }
        // The encoding of a value decodes to that value, whatever bytes follow.
        ensures only { (creation : CreationData) (rest : List ℕ) → IsCreationData creation
            → text.old ≡ creation_data_text creation ++ rest
            → Reads (λ creation. creation) (Ok (creation, rest)) text.old result text.new }
    {
        CreationData::read_fields(text)
    }

    /// Reads creation data that fill a sized buffer (TPM2B). Fails under the same conditions as
    /// [`read_filled`].
    pub fn read_sized(text: &mut Cursor) -> Result<CreationData, Rc>
        ensures exact { Reads (λ creation. creation) (filled_by creation_data_at text.old) text.old
            result text.new }
        ensures found { IfOk result (λ creation. IsCreationData creation
            × (text.old ≡ sized_text (creation_data_text creation) ++ text.new)) }
        ensures only { (creation : CreationData) (rest : List ℕ) → IsCreationData creation
            → text.old ≡ sized_text (creation_data_text creation) ++ rest
            → Reads (λ creation. creation) (Ok (creation, rest)) text.old result text.new }
    {
        read_filled(text)
    }

    #[tactic(auto, unfolding(crate::specs::CreationData::creation_data_at))]
    fn read_fields(text: &mut Cursor) -> Result<CreationData, Rc>
        ensures exact { Reads (λ creation. creation) (creation_data_at text.old) text.old
            result text.new }
        ensures bytes { AreBytes text.old }
    {
        let mut ahead = Cursor::new(text.rest());
        let pcr_select = PcrSelection::read(&mut ahead)?;
        let pcr_digest = Octets::read(&mut ahead)?;
        let Ok(locality) = ahead.u8() else {
            return Err(ResponseCode::Insufficient.anywhere());
        };
        let parent_name_alg = read_hash_or_null(&mut ahead)?;
        let parent_name = Octets::read(&mut ahead)?;
        let parent_qualified_name = Octets::read(&mut ahead)?;
        let outside_info = Octets::read(&mut ahead)?;
        *text = ahead;
        Ok(CreationData {
            pcr_select,
            pcr_digest,
            locality,
            parent_name_alg,
            parent_name,
            parent_qualified_name,
            outside_info,
        })
    }

    /// The encoding of the creation data, in a buffer large enough for the longest encoding.
    #[tactic(auto, unfolding(crate::specs::CreationData::creation_data_text))]
    pub fn text(&self) -> Sink<245>
        ensures { result ≡ creation_data_text self.now }
    {
        let mut text = Sink::new();
        self.pcr_select.append_to(&mut text);
        text.append_sized(self.pcr_digest.as_slice());
        text.append_u8(self.locality);
        text.append_u16(hash_or_null_number(self.parent_name_alg));
        text.append_sized(self.parent_name.as_slice());
        text.append_sized(self.parent_qualified_name.as_slice());
        text.append_sized(self.outside_info.as_slice());
        text
    }

    /// Appends the encoded creation data, which are at most 245 bytes long. If they do not fit,
    /// writes nothing and returns an error.
    pub fn write<const N: usize>(&self, sink: &mut Sink<N>) -> Result<(), Full>
        ensures written { Puts N (creation_data_text self.now) sink.old result sink.new }
        ensures small { length (creation_data_text self.now) ≤ 245 }
    {
        let text = self.text();
        sink.put(text.as_slice())
    }
}

impl<'a> Readable<'a> for CreationData {
    ghost use Rattle.tpm_types_object.specs.CreationData.{creation_data_at};
    ghost use Rattle.tpm_types_object.specs.declared.creation_data.CreationData.{CreationData};

    type Fault = Rc;

    ghost Seen = { CreationData };

    ghost seen = { λ creation. creation };

    ghost at = { creation_data_at };

    fn read(text: &mut Cursor<'a>) -> Result<CreationData, Rc> {
        CreationData::read(text)
    }
}
