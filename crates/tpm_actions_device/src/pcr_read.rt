//! TPM2_PCR_Read: returns the update counter and the values of the first eight selected PCRs
//! (specified in `specs/PcrRead`).

ghost use Rattle.std.specs.Prelude.{◌≡◌, ◌++◌, ◌%◌, ◌^◌, []};
ghost use Rattle.std.specs.Int.{w32, to_be_bytes};
ghost use Rattle.tpm_types_common.specs.DigestList.{digest_list_text, digests_of};
ghost use Rattle.tpm_types_common.specs.PcrSelection.{selection_text};
ghost use Rattle.tpm_actions_device.specs.PcrRead.{pcr_read_row};
ghost use Rattle.tpm_record.specs.rows.Request.{request_of};
ghost use Rattle.tpm_record.specs.rows.Rows.{Acts};

use tpm_bytes::Cursor;
use tpm_pcr::PcrReading;
use tpm_record::Keep;
use tpm_record::rows::answer::{Answer, Parameters};
use tpm_record::rows::call::Call;
use tpm_record::rows::reading::{end, parameter};
use tpm_types_common::{PcrSelection, Refused};

/// Writes the low 32 bits of the update counter, the selection, and the values.
fn write_reading(update_count: u64, reading: &PcrReading, answer: &mut Parameters)
    requires { answer.old ≡ [] }
    ensures { answer.new ≡ to_be_bytes w32 (update_count % 2 ^ 32)
        ++ selection_text reading.now.selection.banks.items
        ++ digest_list_text (digests_of reading.now.values.digests.items) }
{
    answer.append_u32((update_count % (1 << 32)) as u32);
    reading.selection.append_to(answer);
    reading.values.append_to(answer);
}

/// TPM2_PCR_Read: returns the update counter, the values of the first eight selected PCRs, and a
/// selection of exactly these PCRs.
#[tactic(auto, unfolding(crate::specs::PcrRead::pcr_read_row))]
pub fn pcr_read<K: Keep>(keep: &mut K, call: &Call, answer: &mut Answer) -> Result<(), Refused>
    ensures { Acts (pcr_read_row (K.record_of keep.old) (request_of call.now))
        (K.record_of keep.old) result answer.new (K.record_of keep.new) }
{
    answer.clear();
    let mut parameters = Cursor::new(call.parameters);
    let selection = parameter(1, PcrSelection::read(&mut parameters))?;
    end(&parameters)?;
    let banks = &keep.fixed().banks;
    let reading = banks.read(&selection);
    write_reading(banks.update_count(), &reading, &mut answer.parameters);
    Ok(())
}
