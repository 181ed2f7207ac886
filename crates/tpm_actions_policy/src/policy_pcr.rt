//! TPM2_PolicyPCR: compares the values of PCRs, and requires that no PCR changes afterwards
//! (specified in `specs/PolicyPcr`).

ghost use Rattle.std.specs.Prelude.{◌≡◌};
ghost use Rattle.tpm_commands.specs.declared.command_code.CommandCode.TheVariants as command;
ghost use Rattle.tpm_record.specs.rows.Request.{request_of};
ghost use Rattle.tpm_record.specs.rows.Rows.{Acts};
ghost use Rattle.tpm_policy.specs.Assertion as assertion;
ghost use Rattle.tpm_policy.specs.Assertion.{Asserts, asserted_policy};
ghost use Rattle.tpm_types_common.specs.SessionType.{is_trial};
ghost use Rattle.tpm_actions_policy.specs.AssertionParameters.{pcrs_of};
ghost use Rattle.tpm_actions_policy.specs.Assertions.{assertion_row};
ghost use Rattle.tpm_actions_policy.specs.PolicyPcr.{pcr_parts_of};

use crate::assertions::{AssertionParameters, make_assertion};
use tpm_bytes::Cursor;
use tpm_policy::{PcrAssertion, PolicyState};
use tpm_record::Keep;
use tpm_record::rows::answer::Answer;
use tpm_record::rows::call::Call;
use tpm_record::rows::reading::{end, parameter};
use tpm_session::Session;
use tpm_types_common::{ActionFault, DIGEST_LIMIT, PcrSelection, Refused, read_buffer};

/// The PCRs to compare, and the expected digest of their values, as given in the command.
#[derive(Clone, Copy)]
pub struct ComparedPcrs<'a> {
    given: &'a [u8],
    selection: &'a PcrSelection,
}

impl ComparedPcrs<'_> {
    /// Adds the assertion of TPM2_PolicyPCR, with the current PCR values, to a session's policy.
    pub(crate) fn assert_on<K: Keep>(
        &self,
        keep: &K,
        session: &Session,
        policy: &mut PolicyState,
    ) -> Result<(), ActionFault>
        ensures { Asserts
            (asserted_policy session.now.hash (is_trial session.now.kind)
            (assertion.Pcr (pcr_parts_of (K.record_of keep.now) (pcrs_of self.now) session.now))
            policy.old)
            policy.old result policy.new }
    {
        let banks = &keep.fixed().banks;
        let digest = banks.select_digest(session.hash(), self.selection);
        let pcrs = PcrAssertion {
            given: self.given,
            selection: self.selection,
            digest: digest.as_slice(),
            update_count: banks.update_count(),
        };
        policy.pcr(session.hash(), session.kind().is_trial(), &pcrs)
    }
}

/// TPM2_PolicyPCR: compares the values of PCRs, and requires that no PCR changes afterwards.
#[tactic(auto, unfolding(crate::specs::Assertions::assertion_row))]
pub fn policy_pcr<K: Keep>(keep: &mut K, call: &Call, answer: &mut Answer) -> Result<(), Refused>
    ensures { Acts
        (assertion_row command.PolicyPcr (K.record_of keep.old) (request_of call.now))
        (K.record_of keep.old) result answer.new (K.record_of keep.new) }
{
    answer.clear();
    let handle = call.first_handle()?;
    let mut parameters = Cursor::new(call.parameters);
    let given = parameter(1, read_buffer(&mut parameters, DIGEST_LIMIT))?;
    let selection = parameter(2, PcrSelection::read(&mut parameters))?;
    end(&parameters)?;
    let pcrs = ComparedPcrs {
        given,
        selection: &selection,
    };
    make_assertion(keep, handle, &AssertionParameters::Pcr(pcrs))
}
